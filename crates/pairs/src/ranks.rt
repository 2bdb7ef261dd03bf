// The leaves common to both trees in label order.
//
// Names that end in 1 are of the first tree, in 2 of the second. Labels are compared where they stand in the text; none is copied.
ghost use Rattle.std.specs.Prelude.{◌≡◌, List, true, cond, ℕ, ◌+◌, ◌<◌, ◌≤◌, eqb, length, get_or};
ghost use Rattle.trees.specs.Label.{Label, label_less};
ghost use Rattle.trees.specs.Edition.{in_edition, key};
ghost use Rattle.trees.specs.Tree.{Tree, decoded, Valid};
ghost use Rattle.trees.specs.Stored.{leaf_spelling};
ghost use Rattle.agreement.specs.Sets.{increasing};
ghost use Rattle.leaves.specs.Numbered.{Numbered};
ghost use Rattle.pairs.specs.OwnLeaves.{OwnTree, Ordered};
ghost use Rattle.pairs.specs.CommonRanks.{PartnerIs, Partners, Place, OpenedAt, most_common, Collected, NodePartner, LeafPlaced};

use crate::CommonOrder;
use trees::{Edition, LEAF_LIMIT, NODE_LIMIT, TreeArrays};

// The number of the leaf with the label that a token stands for; an inner node's token has no bytes and is not looked for.
fn look_up(edition: Edition, text: &[u8], tree: &TreeArrays, token: &[u8]) -> Option<u8>
    ensures { (t : Tree) → OwnTree t edition text.now tree.now
        → PartnerIs (decoded t) (key edition token.now) result }
{
    if trees::spelled_size(token) == 0 {
        return None;
    }
    let v = leaves::find_leaf(edition, text, tree, token)?;
    Some(v as u8)
}

// For each leaf of the first tree the second tree's leaf with the same label.
pub(crate) fn partners(
    edition: Edition,
    first: &[u8],
    tree1: &TreeArrays,
    second: &[u8],
    tree2: &TreeArrays,
) -> [Option<u8>; NODE_LIMIT]
    requires { tree1.now.nodes ≤ 159 }
    ensures { (s t : Tree)
        → OwnTree s edition first.now tree1.now
        → OwnTree t edition second.now tree2.now
        → Partners tree1.now.nodes (decoded s) (decoded t) result }
{
    let mut partner = [None; NODE_LIMIT];
    for u in 0..tree1.nodes {
        let token = trees::leaf_label(first, &tree1.start, &tree1.size, u);
        partner[u] = look_up(edition, second, tree2, token);
    }
    partner
}

// A token's label comes before that of leaf u. To copy the two would take longer than to compare them.
fn comes_first(edition: Edition, text: &[u8], tree: &TreeArrays, token: &[u8], u: usize) -> bool
    ensures { result ≡ label_less (key edition token.now)
        (leaf_spelling (in_edition edition text.now) tree.now.start tree.now.size u) }
{
    let other = trees::leaf_label(text, &tree.start, &tree.size, u);
    trees::comes_before(edition, token, other)
}

// Where a token's label goes among the labels of the first m leaves in `order`: before the first that is greater.
fn place_of(
    edition: Edition,
    text: &[u8],
    tree: &TreeArrays,
    order: &[u8; LEAF_LIMIT],
    m: usize,
    token: &[u8],
) -> usize
    requires { m ≤ 80 }
    ensures upper_bound { result ≤ m }
    ensures place { (t : Tree) (C : List Label)
        → OwnTree t edition text.now tree.now
        → increasing C ≡ true → m ≡ length C → Numbered (decoded t) C order.now → Place (key edition token.now) C result }
{
    order[..m].partition_point(|&u| !comes_first(edition, text, tree, token, usize::from(u)))
}

// Puts u at place p, the entries from p on one place further.
fn open_at(order: &mut [u8; LEAF_LIMIT], m: usize, p: usize, u: u8)
    requires { (p ≤ m) × (m < 80) }
    ensures { length order.old ≡ 80 → OpenedAt p m u order.old order.new }
{
    order.copy_within(p..m, p + 1);
    order[p] = u;
}

// Puts leaf u into the order of m leaves at its label's place.
#[tactic(auto, using(trees::proofs::FoldLaws::leaf_key))]
fn insert_leaf(
    edition: Edition,
    text: &[u8],
    tree: &TreeArrays,
    order: &mut [u8; LEAF_LIMIT],
    m: usize,
    u: usize,
)
    requires { (m < 80) × (u < 159) }
    ensures { (t : Tree) (C : List Label)
        → OwnTree t edition text.now tree.now
        → increasing C ≡ true → m ≡ length C → Numbered (decoded t) C order.old → length order.old ≡ 80
        → LeafPlaced u m C (leaf_spelling (in_edition edition text.now) tree.now.start tree.now.size u) order.old order.new }
{
    let token = trees::leaf_label(text, &tree.start, &tree.size, u);
    let p = place_of(edition, text, tree, order, m, token);
    open_at(order, m, p, u as u8);
}

// The partner v of node u, where u is a leaf: its own left child.
pub(crate) fn leaf_partner(child: usize, u: usize, v: Option<u8>) -> Option<u8>
    ensures { result ≡ cond (eqb child u) v None }
{
    if child == u { v } else { None }
}

// Puts node u of the first tree into the order if it has a partner v in the second. Once as many are there as the smaller tree has
// leaves, no further one is common.
fn add_common(
    edition: Edition,
    text1: &[u8],
    tree1: &TreeArrays,
    order1: &mut [u8; LEAF_LIMIT],
    m: usize,
    most: usize,
    u: usize,
    v: Option<u8>,
) -> usize
    requires { (m ≤ most) × (most ≤ 80) × (u < 159) }
    ensures upper_bound { result ≤ most }
    ensures collected { (s t : Tree)
        → OwnTree s edition text1.now tree1.now → Valid t
        → most ≡ most_common (decoded s) (decoded t) → u < tree1.now.nodes → NodePartner (decoded s) (decoded t) u v
        → Collected (decoded s) (decoded t) (u + 1) order1.old m
        → Collected (decoded s) (decoded t) u order1.new result }
{
    if m == most {
        return m;
    }
    if v.is_none() {
        return m;
    }
    insert_leaf(edition, text1, tree1, order1, m, u);
    m + 1
}

// The leaves common to both trees in label order by their numbers in the first tree, and how many they are, `most` at the most. Nodes
// are taken from the last to the first, as the definition of the common labels inserts them.
pub(crate) fn common_order(
    edition: Edition,
    text1: &[u8],
    tree1: &TreeArrays,
    partner: &[Option<u8>; NODE_LIMIT],
    order1: &mut [u8; LEAF_LIMIT],
    most: usize,
) -> usize
    requires { (tree1.now.nodes ≤ 159) × (most ≤ 80) }
    ensures upper_bound { result ≤ 80 }
    ensures collected { (s t : Tree)
        → OwnTree s edition text1.now tree1.now → Valid t
        → most ≡ most_common (decoded s) (decoded t) → Partners tree1.now.nodes (decoded s) (decoded t) partner.now
        → Collected (decoded s) (decoded t) 0 order1.new result }
{
    *order1 = [0; LEAF_LIMIT];
    let mut m: usize = 0;
    for u in (0..tree1.nodes).rev() {
        let v = leaf_partner(usize::from(tree1.left[u]), u, partner[u]);
        m = add_common(edition, text1, tree1, order1, m, most, u, v);
    }
    m
}

// The leaves of the second tree that belong to the first `count` of these leaves of the first.
fn second_leaves(
    first: &[u8; LEAF_LIMIT],
    partner: &[Option<u8>; NODE_LIMIT],
    count: usize,
) -> [u8; LEAF_LIMIT]
    requires { count ≤ 80 }
    ensures { (i v : ℕ) → i < count → get_or first.now i 0 < 159
        → get_or partner.now (get_or first.now i 0) None ≡ Some v → get_or result i 0 ≡ v }
{
    let mut found = [0; LEAF_LIMIT];
    for i in 0..count {
        if let Some(Some(v)) = partner.get(usize::from(first[i])) {
            found[i] = *v;
        }
    }
    found
}

// Puts the common leaves into label order; no more than `most` are common.
pub(crate) fn order_in(
    edition: Edition,
    text1: &[u8],
    tree1: &TreeArrays,
    partner: &[Option<u8>; NODE_LIMIT],
    most: usize,
) -> CommonOrder
    requires { (tree1.now.nodes ≤ 159) × (most ≤ 80) }
    ensures count_bound { result.count ≤ 80 }
    ensures ordered { (s t : Tree)
        → OwnTree s edition text1.now tree1.now → Valid t
        → most ≡ most_common (decoded s) (decoded t) → Partners tree1.now.nodes (decoded s) (decoded t) partner.now
        → Ordered (decoded s) (decoded t) result.first result.second result.count }
{
    let mut first = [0; LEAF_LIMIT];
    let count = common_order(edition, text1, tree1, partner, &mut first, most);
    let second = second_leaves(&first, partner, count);
    CommonOrder {
        count,
        first,
        second,
    }
}
