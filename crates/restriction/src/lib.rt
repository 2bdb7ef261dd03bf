// Restriction of a tree to a set of its leaves, over tree arrays.
//
// No public function has a `requires`.
#![tactic(auto)]

ghost use Rattle.std.specs.Prelude.{◌≡◌, List, ℕ, ◌<◌, ◌≤◌, min, get_or};
ghost use Rattle.trees.specs.Tree.{Tree};
ghost use Rattle.trees.specs.Arrays.{tree_of, no_leaf, one_tree};
ghost use Rattle.restriction.specs.Kept.{kept_standing};
ghost use Rattle.restriction.specs.KeptMachine.{pass_in, moved_to, joined, fate_of, step_of, nodes_kept};

use trees::{NODE_LIMIT, TreeArrays};

// What becomes of a node: it has this new number, none where no leaf is kept below it; or it is a new node with these children.
#[derive(Clone, Copy)]
enum NodeFate {
    Known(Option<u8>),
    Fresh(u8, u8),
}

// The new number of a child of node u. A child that does not come before its parent has none.
fn moved_to(moved: &[Option<u8>; NODE_LIMIT], child: usize, u: usize) -> Option<u8>
    requires { u < 159 }
    ensures { result ≡ moved_to moved.now child u }
{
    if child < u { moved[child] } else { None }
}

// What becomes of an inner node whose children have these new numbers: it is new where both children keep a leaf, and else it goes by the
// one child that does.
fn joined(p: Option<u8>, q: Option<u8>) -> NodeFate
    ensures { result ≡ joined p q }
{
    let Some(r) = q else {
        return NodeFate::Known(p);
    };
    let Some(l) = p else {
        return NodeFate::Known(q);
    };
    NodeFate::Fresh(l, r)
}

// What becomes of node u, `count` being the next new number: a kept leaf is new and its own child.
fn fate_of(
    tree: &TreeArrays,
    moved: &[Option<u8>; NODE_LIMIT],
    kept: &[bool; NODE_LIMIT],
    u: usize,
    count: u8,
) -> NodeFate
    requires { u < 159 }
    ensures { result ≡ fate_of tree.now.left tree.now.right moved.now kept.now u count }
{
    let l = usize::from(tree.left[u]);
    if l == u {
        if kept[u] {
            return NodeFate::Fresh(count, count);
        }
        return NodeFate::Known(None);
    }
    let r = usize::from(tree.right[u]);
    joined(moved_to(moved, l, u), moved_to(moved, r, u))
}

// Passes node u. The new nodes so far stand at the front of the arrays that are read: they are never more than the nodes passed, so
// nothing is overwritten that is still to be read.
fn keep_node(
    tree: &mut TreeArrays,
    moved: &mut [Option<u8>; NODE_LIMIT],
    kept: &[bool; NODE_LIMIT],
    u: usize,
)
    requires { (tree.old.nodes ≤ u) × (u < 159) }
    ensures { pass_in tree.new moved.new ≡ step_of kept.now u (pass_in tree.old moved.old) }
{
    let count = tree.nodes;
    let next = trees::narrow(count);
    let fate = fate_of(tree, moved, kept, u, next);
    match fate {
        NodeFate::Known(p) => {
            moved[u] = p;
        }
        NodeFate::Fresh(l, r) => {
            tree.left[count] = l;
            tree.right[count] = r;
            tree.start[count] = tree.start[u];
            tree.size[count] = tree.size[u];
            moved[u] = Some(next);
            tree.nodes = count + 1;
        }
    }
}

// The nodes up to the new number of the root, the last of n nodes; 0 where no leaf is kept.
fn nodes_kept(moved: &[Option<u8>; NODE_LIMIT], n: usize) -> usize
    requires { n ≤ 159 }
    ensures { result ≡ nodes_kept moved.now n }
{
    if n == 0 {
        return 0;
    }
    match moved[n - 1] {
        Some(root) => usize::from(root) + 1,
        None => 0,
    }
}

// What is left of a tree when only the leaves with a flag are kept; `kept` has a flag for each node number, and an inner
// node's counts for nothing. Over every text: arrays of a tree give arrays of what is left of it, arrays of no leaf give
// arrays of no leaf. A leaf of the result is its own left and right child. Where they stand for no tree the result is free, but
// for that and its at most 159 nodes.
// Free in any case are the entries past the result's nodes and the start and size of an inner node: nothing reads them.
pub fn restrict_tree(tree: TreeArrays, kept: [bool; 159]) -> TreeArrays
    ensures tree { (text : List ℕ) (t : Tree) → tree_of tree text ≡ one_tree t → tree_of result text ≡ kept_standing tree text kept }
    ensures empty { (text : List ℕ) → tree_of tree text ≡ no_leaf → tree_of result text ≡ no_leaf }
    ensures leaves { (u : ℕ) → u < result.nodes → get_or result.left u 0 ≡ u → get_or result.right u 0 ≡ u }
    ensures fits { result.nodes ≤ 159 }
{
    let n = tree.nodes.min(NODE_LIMIT);
    let mut rest = tree;
    rest.nodes = 0;
    let mut moved = [None; NODE_LIMIT];
    for u in 0..n {
        keep_node(&mut rest, &mut moved, &kept, u);
    }
    rest.nodes = nodes_kept(&moved, n);
    rest
}
