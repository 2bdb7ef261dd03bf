// The test of agreement: do two trees have the same closer pairs for each three labels of a list?
//
// No public function has a `requires`: texts of any length and any bytes are answered. Labels go by their rank in label order.
#![tactic(auto)]

ghost use Rattle.std.specs.Prelude.{◌≡◌, true, cond, List, map, ℕ, ◌<◌, ◌≤◌, min, length, get_or, None};
ghost use Rattle.std.specs.Option.{unwrap_or};
ghost use Rattle.trees.specs.Edition.{in_edition};
ghost use Rattle.trees.specs.Label.{Label, label_less};
ghost use Rattle.trees.specs.Token.{Token, spelling};
ghost use Rattle.trees.specs.Tree.{Tree, decoded};
ghost use Rattle.agreement.specs.Sets.{increasing};
ghost use Rattle.agreement.specs.Answer.{answer, first_clash};
ghost use Rattle.triples.specs.Verdict.{verdict, verdict_of};
ghost use Rattle.triples.specs.Clash.{clash_ranks, RankedTree, Ranks};
ghost use Rattle.triples.specs.Loops.{label_in, rank_in, InOrder, LeavesFound, lack_from, told_of, AsRead};

use crate::ancestors::Lows;
use crate::search::clash_with;
use lists::LabelPlaces;
use trees::{Body, Edition, Reason, Refusal, TreeArrays};

mod ancestors;
mod search;

// Three labels by three numbers: `first_clash` returns their ranks in label order, `agree_on` their places in the list.
#[derive(Clone, Copy)]
pub struct Indices {
    pub first: usize,
    pub second: usize,
    pub third: usize,
}

// A tree as `first_clash` takes it: its arrays' left children, how many nodes it has, and the leaves of the labels in label order.
#[derive(Clone, Copy)]
pub struct RankedLeaves {
    pub left: [u8; 159],
    pub nodes: usize,
    pub leaf: [usize; 80],
}

// Whether label j of the list comes before label k in label order.
fn before(edition: Edition, list: &[u8], places: &LabelPlaces, j: usize, k: usize) -> bool
    requires { (j < 80) × (k < 80) }
    ensures { result ≡ label_less (label_in (in_edition edition list.now) places.now.start places.now.size j)
        (label_in (in_edition edition list.now) places.now.start places.now.size k) }
{
    trees::comes_before(
        edition,
        trees::leaf_label(list, &places.start, &places.size, j),
        trees::leaf_label(list, &places.start, &places.size, k),
    )
}

// The rank of label k in label order: how many labels of the list come before it.
fn rank(edition: Edition, list: &[u8], places: &LabelPlaces, k: usize) -> usize
    requires { (k < places.now.count) × (places.now.count ≤ 80) }
    ensures { result ≡ rank_in (in_edition edition list.now) places.now.start places.now.size places.now.count k }
{
    let mut r: usize = 0;
    for j in 0..places.count {
        r += usize::from(before(edition, list, places, j, k));
    }
    r
}

// The labels' numbers in the list, in label order.
fn label_order(edition: Edition, list: &[u8], places: &LabelPlaces) -> [usize; 80]
    requires { places.now.count ≤ 80 }
    ensures by_index { (i : ℕ) → get_or result i 0 < 80 }
    ensures in_order { InOrder (rank_in (in_edition edition list.now) places.now.start places.now.size places.now.count)
        places.now.count places.now.count result }
{
    let mut order = [0usize; 80];
    for k in 0..places.count {
        order[rank(edition, list, places, k)] = k;
    }
    order
}

// The leaves with the list's labels, in list order.
fn list_leaves(
    edition: Edition,
    text: &[u8],
    tree: &TreeArrays,
    list: &[u8],
    places: &LabelPlaces,
) -> [Option<usize>; 80]
    requires { places.now.count ≤ 80 }
    ensures { LeavesFound (in_edition edition text.now) tree.now (label_in (in_edition edition list.now) places.now.start places.now.size)
        places.now.count result }
{
    let mut leaf = [None; 80];
    for k in 0..places.count {
        let token = trees::leaf_label(list, &places.start, &places.size, k);
        leaf[k] = leaves::find_leaf(edition, text, tree, token);
    }
    leaf
}

// The list's label at a place is lacking.
fn lacks(reason: Reason, place: usize) -> Refusal
    ensures { result ≡ record { reason = reason; body = Body.K; place = place } }
{
    Refusal {
        reason,
        body: Body::K,
        place,
    }
}

// The refusal of the first label in list order that either tree lacks.
fn lacking(
    leaf1: &[Option<usize>; 80],
    leaf2: &[Option<usize>; 80],
    places: &LabelPlaces,
) -> Result<(), Refusal>
    requires { places.now.count ≤ 80 }
    ensures { result ≡ lack_from leaf1.now leaf2.now places.now.start places.now.count 0 }
{
    for k in 0..places.count {
        if leaf1[k].is_none() {
            return Err(lacks(Reason::FirstLacks, usize::from(places.start[k])));
        }
        if leaf2[k].is_none() {
            return Err(lacks(Reason::SecondLacks, usize::from(places.start[k])));
        }
    }
    Ok(())
}

// The first three labels, in label order, that have different closer pairs in two trees, by their ranks among `count` labels; none where
// the trees agree on them all. What arrays of no tree give is left free but for `Ranks`.
pub fn first_clash(one: &RankedLeaves, two: &RankedLeaves, count: usize) -> Option<Indices>
    ensures ranks { Ranks (min count 80) result }
    ensures value { (s t : Tree) (xs : List Label) → increasing xs ≡ true → count ≡ length xs → count ≤ 80
        → RankedTree s xs one.now.left one.now.nodes one.now.leaf
        → RankedTree t xs two.now.left two.now.nodes two.now.leaf
        → result ≡ clash_ranks xs (first_clash s t xs) }
{
    let most = count.min(80);
    let lows1 = Lows::of(&one.left, one.nodes);
    let lows2 = Lows::of(&two.left, two.nodes);
    for i in 0..most {
        let row1 = lows1.lca_row(&one.leaf, most, i);
        let row2 = lows2.lca_row(&two.leaf, most, i);
        if let Some(three) = clash_with(&row1, &row2, most, i) {
            return Some(three);
        }
    }
    None
}

// The leaf numbers of the list's labels in label order, where the tree has them all.
fn ranked(leaf: &[Option<usize>; 80], order: &[usize; 80], count: usize) -> [usize; 80]
    requires { (count ≤ 80) × ((i : ℕ) → get_or order.now i 0 < 80) }
    ensures { (i : ℕ) → i < count → get_or result i 0 ≡ unwrap_or (get_or leaf.now (get_or order.now i 0) None) 0 }
{
    let mut by_rank = [0usize; 80];
    for i in 0..count {
        by_rank[i] = leaf[order[i]].unwrap_or(0);
    }
    by_rank
}

// The places of three labels by their ranks.
#[tactic(auto, unfolding(crate::specs::Loops::told_of))]
fn told(three: Option<Indices>, order: &[usize; 80], places: &LabelPlaces) -> Option<Indices>
    requires { (places.now.count ≤ 80) × ((i : ℕ) → get_or order.now i 0 < 80) × Ranks places.now.count three }
    ensures { result ≡ told_of order.now places.now.start three }
{
    let three = three?;
    Some(Indices {
        first: usize::from(places.start[order[three.first]]),
        second: usize::from(places.start[order[three.second]]),
        third: usize::from(places.start[order[three.third]]),
    })
}

// The test itself: both trees hold every label of the list, and have the same closer pair of each three.
fn compared(
    edition: Edition,
    first: &[u8],
    one: &TreeArrays,
    second: &[u8],
    two: &TreeArrays,
    list: &[u8],
    places: &LabelPlaces,
) -> Result<Option<Indices>, Refusal>
    requires { places.now.count ≤ 80 }
    ensures { (s t : Tree) (xs : List Token)
        → AsRead s t xs (in_edition edition first.now) (in_edition edition second.now) (in_edition edition list.now) one.now two.now places.now
        → result ≡ verdict_of xs (answer (decoded s) (decoded t) (map spelling xs)) }
{
    let leaf1 = list_leaves(edition, first, one, list, places);
    let leaf2 = list_leaves(edition, second, two, list, places);
    lacking(&leaf1, &leaf2, places)?;
    let order = label_order(edition, list, places);
    let leaves1 = RankedLeaves {
        left: one.left,
        nodes: one.nodes,
        leaf: ranked(&leaf1, &order, places.count),
    };
    let leaves2 = RankedLeaves {
        left: two.left,
        nodes: two.nodes,
        leaf: ranked(&leaf2, &order, places.count),
    };
    let three = first_clash(&leaves1, &leaves2, places.count);
    Ok(told(three, &order, places))
}

// Whether two trees agree on the labels of a list, as an edition reads all three: the places in the list of the first three labels, in
// label order, that have different closer pairs, or none where the trees agree. Bodies are read in the order S, T, K, and the first that
// cannot be read decides; then a label that a tree lacks (6 or 7), with its place in body K.
pub fn agree_on(
    edition: Edition,
    first: &[u8],
    second: &[u8],
    list: &[u8],
) -> Result<Option<Indices>, Refusal>
    ensures { result ≡ verdict (in_edition edition first.now) (in_edition edition second.now)
        (in_edition edition list.now) }
{
    let one = newick::read_tree(edition, first, Body::S);
    one.answer?;
    let two = newick::read_tree(edition, second, Body::T);
    two.answer?;
    let three = lists::read_list(edition, list, Body::K);
    three.answer?;
    compared(
        edition,
        first,
        &one.tree,
        second,
        &two.tree,
        list,
        &three.places,
    )
}
