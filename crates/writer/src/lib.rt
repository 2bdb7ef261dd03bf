// The writer of tree text: the normal text of a tree that is given as arrays.
//
// No public function has a `requires`: arrays that stand for no tree are answered too, and no entry of them is trusted.
#![tactic(auto)]

ghost use Rattle.std.specs.Prelude.{ℕ, ◌+◌, ◌-◌, ◌<◌, ◌≤◌, min, ◌≡◌, true, cond, length, get_or, set};
ghost use Rattle.std.proofs.lemmas.List.Edits.{sets};
ghost use Rattle.trees.specs.Tree.{leaves};
ghost use Rattle.trees.specs.Edition.{in_edition, normal_text_in};
ghost use Rattle.trees.specs.Arrays.{good_node, good_nodes, tree_of};
ghost use Rattle.writer.specs.Write.{write_answer, output_after};
ghost use Rattle.trees.specs.Stored.{shown_bytes};
ghost use Rattle.trees.specs.Token.{token_limit};
ghost use Rattle.writer.specs.Passes.{pass, leaf_token, weight_at, sum_at, root_sum, goes_first, least_at, first_at, ChildNodes, Good, root_tree, root_text};
ghost use Rattle.writer.specs.Passes.{own_text, depth_after, stack_after, Popped};

use trees::{
    Body, Edition, LABEL_LIMIT, LEAF_LIMIT, NODE_LIMIT, Reason, Refusal, ShownLabel, TOKEN_LIMIT,
    TreeArrays, entry, narrow, narrow_place,
};

// Why nothing was written: the arrays stand for no tree of at most 80 leaves, or the output is too short.
#[derive(Clone, Copy)]
pub enum WriteError {
    NoTree,
    Refused(Refusal),
}

// An entry of an array of bytes as a byte, 0 past its end.
fn byte_at(xs: &[u8], i: usize) -> u8
    ensures { result ≡ get_or xs.now i 0 }
{
    xs.get(i).copied().unwrap_or(0)
}

// One of two bytes.
fn pick(first: bool, a: u8, b: u8) -> u8
    ensures { result ≡ cond first a b }
{
    if first { a } else { b }
}

// The sum, at most `cap`; nothing overflows on the way.
fn capped(a: usize, b: usize, cap: u16) -> u16
    ensures { result ≡ min cap (a + b) }
{
    narrow_place(a.saturating_add(b).min(usize::from(cap)))
}

// Whether node u is a leaf whose label lies in the text and is not too long, or has two children with smaller
// numbers.
fn good_node(tree: &TreeArrays, text: &[u8], u: usize) -> bool
    ensures { result ≡ good_node tree.now text.now u }
{
    let l = entry(&tree.left, u);
    if l == u {
        let n = entry(&tree.size, u);
        let s = entry(&tree.start, u);
        if text.len() < n {
            return false;
        }
        if text.len() - n < s {
            return false;
        }
        return trees::spelled_size(trees::part(text, s, n)) <= LABEL_LIMIT;
    }
    let r = entry(&tree.right, u);
    if l < u { r < u } else { false }
}

// Whether every node is good.
fn good_nodes(tree: &TreeArrays, text: &[u8]) -> bool
    ensures { result ≡ good_nodes tree.now text.now tree.now.nodes }
{
    for u in 0..tree.nodes {
        if !good_node(tree, text, u) {
            return false;
        }
    }
    true
}

// What each node weighs if it is a leaf: its entry and `plus`. Arrays that share subtrees can stand for more leaves than a number can count:
// hence the cap on what leaves weigh together.
#[derive(Drop)]
struct Weights {
    entry: [u8; NODE_LIMIT],
    plus: usize,
    cap: u16,
}

// What the leaves below node u weigh together, from the sums of its children.
fn sum_at(tree: &TreeArrays, weights: &Weights, sums: &[u16], u: usize) -> u16
    ensures { result ≡ sum_at tree.now.left tree.now.right weights.now.entry weights.now.plus weights.now.cap sums.now u }
{
    let l = entry(&tree.left, u);
    if l == u {
        return capped(entry(&weights.entry, u), weights.plus, weights.cap);
    }
    let r = entry(&tree.right, u);
    capped(entry(sums, l), entry(sums, r), weights.cap)
}

// What the leaves below each node weigh together, children before parents.
fn sum_pass(tree: &TreeArrays, weights: &Weights, sums: &mut [u16])
    requires { tree.now.nodes ≤ length sums.old }
    ensures { sums.new
        ≡ pass (sum_at tree.now.left tree.now.right weights.now.entry weights.now.plus weights.now.cap) sums.old tree.now.nodes }
{
    for u in 0..tree.nodes {
        sums[u] = sum_at(tree, weights, sums, u);
    }
}

// What all leaves below the last node weigh together.
fn root_sum(tree: &TreeArrays, weights: &Weights) -> usize
    requires { (0 < tree.now.nodes) × (tree.now.nodes ≤ 159) }
    ensures { result ≡ root_sum tree.now.left tree.now.right weights.now.entry weights.now.plus weights.now.cap tree.now.nodes }
{
    let mut sums = [0u16; NODE_LIMIT];
    sum_pass(tree, weights, &mut sums);
    entry(&sums, tree.nodes - 1)
}

// What leaf u writes: its label as the text spells it, so by edition 1. Inlined, as `shown` is.
#[inline(always)]
fn leaf_token(tree: &TreeArrays, text: &[u8], u: usize) -> ShownLabel
    ensures token { shown_bytes result ≡ leaf_token text.now tree.now.start tree.now.size u }
    ensures count { result.len ≡ length (leaf_token text.now tree.now.start tree.now.size u) }
    ensures short { result.len ≤ token_limit }
{
    trees::shown(trees::stored_leaf(Edition::One, text, &tree.start, &tree.size, u))
}

// How many bytes node u writes if it is a leaf.
fn weight_at(tree: &TreeArrays, text: &[u8], u: usize) -> u8
    ensures { result ≡ weight_at text.now tree.now.left tree.now.start tree.now.size u }
{
    if entry(&tree.left, u) == u {
        return narrow(leaf_token(tree, text, u).len);
    }
    0
}

// How many bytes each leaf writes.
fn weight_pass(tree: &TreeArrays, text: &[u8], weight: &mut [u8])
    requires { tree.now.nodes ≤ length weight.old }
    ensures { (u : ℕ) → u < tree.now.nodes → get_or weight.new u 0
        ≡ weight_at text.now tree.now.left tree.now.start tree.now.size u }
{
    for u in 0..tree.nodes {
        weight[u] = weight_at(tree, text, u);
    }
}

// More than the leaves of a tree can weigh, each three bytes more than it writes.
const WEIGHT_CAP: u16 = (LEAF_LIMIT * (TOKEN_LIMIT + 3) + 1) as u16;

// How many leaves are below the last node, 81 for more than 80.
fn leaf_count(tree: &TreeArrays, text: &[u8]) -> usize
    requires { Good tree.now text.now }
    ensures { result ≡ min 81 (length (leaves (root_tree tree.now text.now))) }
{
    let ones = Weights {
        entry: [0; NODE_LIMIT],
        plus: 1,
        cap: 81,
    };
    root_sum(tree, &ones)
}

// How many bytes the text of the last node's tree has, whatever the edition. A leaf counts three bytes more than it writes, for `(`, `,`
// and `)`: two too many in all, with `;`.
fn text_size(tree: &TreeArrays, text: &[u8]) -> usize
    requires { Good tree.now text.now }
    ensures { (e : Edition) → length (leaves (root_tree tree.now text.now)) ≤ 80
        → result ≡ length (normal_text_in e (root_tree tree.now text.now)) }
{
    let mut weights = Weights {
        entry: [0; NODE_LIMIT],
        plus: 3,
        cap: WEIGHT_CAP,
    };
    weight_pass(tree, text, &mut weights.entry);
    root_sum(tree, &weights) - 2
}

// Whether the smallest label below node i is less than the one below node j, as the edition reads them.
fn goes_first(edition: Edition, tree: &TreeArrays, text: &[u8], least: &[u8], i: u8, j: u8) -> bool
    ensures { result ≡ goes_first (in_edition edition text.now) tree.now.start tree.now.size least.now i j }
{
    let x = entry(least, usize::from(i));
    let y = entry(least, usize::from(j));
    let a = trees::leaf_label(text, &tree.start, &tree.size, x);
    let b = trees::leaf_label(text, &tree.start, &tree.size, y);
    trees::comes_before(edition, a, b)
}

// The leaf with the edition's smallest label below node u, from those of its children.
fn least_at(edition: Edition, tree: &TreeArrays, text: &[u8], least: &[u8], u: usize) -> u8
    ensures { result ≡ least_at (in_edition edition text.now) tree.now.left tree.now.right tree.now.start tree.now.size
        least.now u }
{
    let l = byte_at(&tree.left, u);
    if usize::from(l) == u {
        return l;
    }
    let r = byte_at(&tree.right, u);
    let first = goes_first(edition, tree, text, least, l, r);
    pick(
        first,
        byte_at(least, usize::from(l)),
        byte_at(least, usize::from(r)),
    )
}

// The leaf with the smallest label below each node.
fn least_pass(edition: Edition, tree: &TreeArrays, text: &[u8], least: &mut [u8])
    requires { tree.now.nodes ≤ length least.old }
    ensures { least.new
        ≡ pass (least_at (in_edition edition text.now) tree.now.left tree.now.right tree.now.start tree.now.size)
        least.old tree.now.nodes }
{
    for u in 0..tree.nodes {
        least[u] = least_at(edition, tree, text, least, u);
    }
}

// The child of node u that is written first by the edition, u itself where it is a leaf.
fn first_at(edition: Edition, tree: &TreeArrays, text: &[u8], least: &[u8], u: usize) -> u8
    ensures { result ≡ first_at (in_edition edition text.now) tree.now.left tree.now.right tree.now.start tree.now.size
        least.now u }
{
    let l = byte_at(&tree.left, u);
    if usize::from(l) == u {
        return l;
    }
    let r = byte_at(&tree.right, u);
    let first = goes_first(edition, tree, text, least, l, r);
    pick(first, l, r)
}

// The child of each node that is written first.
fn first_pass(edition: Edition, tree: &TreeArrays, text: &[u8], least: &[u8], first: &mut [u8])
    requires { tree.now.nodes ≤ length first.old }
    ensures { (u : ℕ) → u < tree.now.nodes → get_or first.new u 0
        ≡ first_at (in_edition edition text.now) tree.now.left tree.now.right tree.now.start tree.now.size
        least.now u }
{
    for u in 0..tree.nodes {
        first[u] = first_at(edition, tree, text, least, u);
    }
}

// Stores the bytes of `x` from `at` on, and says where the next byte goes.
fn put_bytes(x: &[u8], out: &mut [u8], at: usize) -> usize
    requires { at + length x.now ≤ length out.old }
    ensures next { result ≡ at + length x.now }
    ensures stored { out.new ≡ sets out.old at x.now }
{
    let end = at + x.len();
    out[at..end].copy_from_slice(x);
    end
}

// What stands on the stack of things to write.
#[derive(Clone, Copy)]
enum Thing {
    Node(u8),
    Comma,
    Close,
}

// The things that are left to write, the next one last: the first `depth` entries.
#[derive(Drop)]
struct Stack {
    things: [Thing; 320],
    depth: usize,
}

impl Stack {
    fn push(&mut self, thing: Thing)
        requires { self.old.depth < 320 }
        ensures depth { self.new.depth ≡ self.old.depth + 1 }
        ensures stored { self.new.things ≡ set self.old.things self.old.depth thing }
    {
        self.things[self.depth] = thing;
        self.depth += 1;
    }

    fn pop(&mut self) -> Option<Thing>
        requires { self.old.depth ≤ 320 }
        ensures { Popped self.old.things self.old.depth self.new.things self.new.depth result }
    {
        if self.depth == 0 {
            return None;
        }
        self.depth -= 1;
        Some(self.things[self.depth])
    }
}

// Stores what a thing writes itself: its byte, a leaf's label, an inner node's `(`. Says where the next byte goes.
#[tactic(auto, unfolding(crate::specs::Passes::own_text, trees::specs::Stored::shown_bytes))]
fn put_own(
    tree: &TreeArrays,
    text: &[u8],
    first: &[u8],
    thing: Thing,
    out: &mut [u8],
    at: usize,
) -> usize
    requires { at + length (own_text text.now tree.now.start tree.now.size first.now thing) ≤ length out.old }
    ensures next { result ≡ at + length (own_text text.now tree.now.start tree.now.size first.now thing) }
    ensures stored { out.new ≡ sets out.old at
        (own_text text.now tree.now.start tree.now.size first.now thing) }
{
    let own = match thing {
        Thing::Comma => b',',
        Thing::Close => b')',
        Thing::Node(u) => {
            let k = usize::from(u);
            if entry(first, k) == k {
                let label = leaf_token(tree, text, k);
                return put_bytes(label.as_slice(), out, at);
            }
            b'('
        }
    };
    out[at] = own;
    at + 1
}

// Puts what is to be written after an inner node's `(` onto the stack, the first last.
#[tactic(auto, unfolding(crate::specs::Passes::depth_after, crate::specs::Passes::goes_on, crate::specs::Passes::stack_after))]
fn push_rest(tree: &TreeArrays, first: &[u8], thing: Thing, stack: &mut Stack)
    requires { stack.old.depth + 4 ≤ 320 }
    ensures depth { stack.new.depth ≡ depth_after first.now thing stack.old.depth }
    ensures stored { stack.new.things
        ≡ stack_after tree.now.left tree.now.right first.now thing stack.old.things stack.old.depth }
{
    let Thing::Node(u) = thing else {
        return;
    };
    let k = usize::from(u);
    let f = byte_at(first, k);
    if f == u {
        return;
    }
    let l = byte_at(&tree.left, k);
    let r = byte_at(&tree.right, k);
    stack.push(Thing::Close);
    stack.push(Thing::Node(pick(f == l, r, l)));
    stack.push(Thing::Comma);
    stack.push(Thing::Node(f));
}

// Writes the tree of the last node, and says where the next byte goes. The edition stands in the contract alone: `first` tells its order.
// What is left to write stands on a stack: a tree of 80 leaves takes 4 * 80 - 3 steps, and no step leaves more than there are steps to
// come.
fn put_tree(edition: Edition, tree: &TreeArrays, text: &[u8], first: &[u8], out: &mut [u8]) -> usize
    requires good { Good tree.now text.now }
    requires child_nodes { ChildNodes edition tree.now text.now first.now tree.now.nodes }
    requires few_leaves { length (leaves (root_tree tree.now text.now)) ≤ 80 }
    requires room { length (root_text edition tree.now text.now) ≤ length out.old }
    ensures next { result ≡ 0 + length (root_text edition tree.now text.now) }
    ensures stored { out.new ≡ sets out.old 0 (root_text edition tree.now text.now) }
{
    let mut stack = Stack {
        things: [Thing::Comma; 320],
        depth: 0,
    };
    stack.push(Thing::Node(narrow(tree.nodes - 1)));
    let mut at: usize = 0;
    while let Some(thing) = stack.pop() {
        at = put_own(tree, text, first, thing, out, at);
        push_rest(tree, first, thing, &mut stack);
    }
    at
}

// Writes the tree of good arrays.
fn write_nodes(
    edition: Edition,
    tree: &TreeArrays,
    text: &[u8],
    out: &mut [u8],
) -> Result<usize, WriteError>
    requires { Good tree.now text.now }
    ensures answer { result ≡ write_answer edition (tree_of tree.now text.now) (length out.old) }
    ensures output { out.new ≡ output_after edition (tree_of tree.now text.now) out.old }
{
    if 80 < leaf_count(tree, text) {
        return Err(WriteError::NoTree);
    }
    let bytes = text_size(tree, text);
    if out.len() < bytes {
        return Err(WriteError::Refused(Refusal {
            reason: Reason::TooShort,
            body: Body::O,
            place: 0,
        }));
    }
    let mut least = [0u8; NODE_LIMIT];
    least_pass(edition, tree, text, &mut least);
    let mut first = [0u8; NODE_LIMIT];
    first_pass(edition, tree, text, &least, &mut first);
    let end = put_tree(edition, tree, text, &first, out);
    out[end] = b';';
    Ok(end + 1)
}

// Writes the normal text of the tree that the arrays stand for over the text into `out`, and says how many bytes that are. The edition orders
// the children; each label has the one form by which it is written, however it stands in the text, and keeps the case of its letters. On an
// error the output keeps every byte, and on success its bytes past the text.
pub fn write_tree(
    edition: Edition,
    tree: TreeArrays,
    text: &[u8],
    out: &mut [u8],
) -> Result<usize, WriteError>
    ensures answer { result ≡ write_answer edition (tree_of tree text.now) (length out.old) }
    ensures output { out.new ≡ output_after edition (tree_of tree text.now) out.old }
{
    let nodes = tree.nodes;
    if nodes == 0 {
        return Ok(0);
    }
    if NODE_LIMIT < nodes {
        return Err(WriteError::NoTree);
    }
    if !good_nodes(&tree, text) {
        return Err(WriteError::NoTree);
    }
    write_nodes(edition, &tree, text, out)
}
