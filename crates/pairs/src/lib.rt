// Two trees read and paired: S, T, then 12 if the options are strict; the leaves common to both in label order, and their ranks. Whatever is
// asked of two trees begins here.
//
// No public function has a `requires`. Names that end in 1 are of the first tree, in 2 of the second.
#![tactic(auto)]

ghost use Rattle.std.specs.Prelude.{◌≡◌, true, List, ℕ, ◌<◌, ◌≤◌, length, get_or, set};
ghost use Rattle.trees.specs.Label.{Label};
ghost use Rattle.trees.specs.Tree.{Tree, Proper};
ghost use Rattle.agreement.specs.Sets.{increasing};
ghost use Rattle.leaves.specs.Numbered.{Numbered};
ghost use Rattle.table.specs.Choice.{Ranked};
ghost use Rattle.pairs.specs.PairRead.{unread_tree, PairIs};

use crate::ranks::order_in;
use crate::strict::pair_leaves;
use trees::{Body, Edition, LEAF_LIMIT, NODE_LIMIT, Reason, Refusal, TreeArrays};

mod ranks;
mod strict;

// The rank of a label that is not common, LEAF_LIMIT. A number and no `Option`: the definition `Ranked` of table, which the clause cites, has
// ranks as numbers.
const NO_RANK: u8 = 80;

// The options of a call.
#[derive(Clone, Copy)]
pub struct Options {
    // A leaf in only one tree stops the job.
    pub strict: bool,
    // The edition by which labels are compared.
    pub edition: Edition,
}

// The common leaves in label order, by their numbers in both trees, and how many they are. A label's index here is its rank.
// Two columns and a count, since memory is fixed; `rank_leaves` is lent a column alone.
#[derive(Clone, Copy)]
pub struct CommonOrder {
    pub count: usize,
    pub first: [u8; LEAF_LIMIT],
    pub second: [u8; LEAF_LIMIT],
}

// Both trees' arrays, and their common leaves in label order.
#[derive(Clone, Copy)]
pub struct Pair {
    pub tree1: TreeArrays,
    pub tree2: TreeArrays,
    pub order: CommonOrder,
}

// The refusal of a tree text. No call asks for that of a text that was read; what it gets is not an invented success.
fn unread_tree(answer: Result<usize, Refusal>, body: Body) -> Refusal
    ensures { result ≡ unread_tree answer body }
{
    match answer {
        Ok(_) => Refusal {
            reason: Reason::EndsTooSoon,
            body,
            place: 0,
        },
        Err(refusal) => refusal,
    }
}

// Reads S and T and pairs their leaves. Refusals come in the order S, T, 12 if the options are strict.
pub fn read_pair(options: Options, first: &[u8], second: &[u8]) -> Result<Pair, Refusal>
    ensures { PairIs options first.now second.now result }
{
    let edition = options.edition;
    // `let .. else` is the form that 01 names for a body that fails to read.
    let one = newick::read_tree(edition, first, Body::S);
    let answer1 = one.answer;
    let Ok(leaves1) = answer1 else {
        return Err(unread_tree(answer1, Body::S));
    };
    let two = newick::read_tree(edition, second, Body::T);
    let answer2 = two.answer;
    let Ok(leaves2) = answer2 else {
        return Err(unread_tree(answer2, Body::T));
    };
    let tree1 = one.tree;
    let tree2 = two.tree;
    let partner = pair_leaves(options, first, &tree1, second, &tree2)?;
    let order = order_in(edition, first, &tree1, &partner, leaves1.min(leaves2));
    Ok(Pair {
        tree1,
        tree2,
        order,
    })
}

// The value x for node u. The test is for safety alone: a tree has no node past 158.
fn put_at<T: Copy>(column: &mut [T; NODE_LIMIT], u: usize, x: T)
    ensures { length column.old ≡ 159 → column.new ≡ set column.old u x }
{
    if u < NODE_LIMIT {
        column[u] = x;
    }
}

// The rank of each leaf whose label is one of the m in `order`, and 80 for every other node. Any other order is taken for such a one, so what
// comes back for it is free.
pub fn rank_leaves(order: &[u8; LEAF_LIMIT], m: usize, rank: &mut [u8; NODE_LIMIT])
    ensures { (t : Tree) (C : List Label) → Proper t → increasing C ≡ true → m ≡ length C → m ≤ 80
        → Numbered t C order.now → Ranked t C rank.new }
{
    *rank = [NO_RANK; NODE_LIMIT];
    for r in 0..m.min(LEAF_LIMIT) {
        put_at(rank, usize::from(order[r]), r as u8);
    }
}

// The entries of an array at these places, of which at most 80 are read.
pub fn entries_at(places: &[usize; LEAF_LIMIT], values: &[u8], count: usize) -> [usize; LEAF_LIMIT]
    ensures { (i : ℕ) → i < count → i < 80 → get_or result i 0 ≡ get_or values.now (get_or places.now i 0) 0 }
{
    let mut found = [0; LEAF_LIMIT];
    for i in 0..count.min(LEAF_LIMIT) {
        found[i] = trees::entry(values, places[i]);
    }
    found
}
