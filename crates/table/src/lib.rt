// The table over pairs of nodes: of two trees by their arrays, the first of the largest sets on which they agree and that hold the
// required labels, or that three of these clash. Labels are known by their ranks among the common ones alone.
//
// No public function has a `requires`.
#![tactic(auto)]

ghost use Rattle.std.specs.Prelude.{◌≡◌, ℕ, ◌≤◌, min, Some, None, false, List, replicate, slice_index_or};
ghost use Rattle.trees.specs.Label.{Label};
ghost use Rattle.trees.specs.Tree.{Tree};
ghost use Rattle.table.specs.Choice.{Posed, Solved};
ghost use Rattle.table.specs.Solving.{Weighed};

use crate::columns::columns_of;
use crate::fill::{AREA, root_weight};
use crate::weights::{held, labels, put_weights, read_set};
use trees::{LEAF_LIMIT, NODE_LIMIT, TreeArrays};

mod columns;
mod fill;
mod weights;

// Ranks of common labels, and one for a label that is not common.
pub const RANKS: usize = LEAF_LIMIT + 1;

// The greatest weight of a set on which two trees agree. The weights of the n common labels by rank stay in the area's last row.
fn weigh(
    tree1: TreeArrays,
    tree2: TreeArrays,
    rank1: &[u8; NODE_LIMIT],
    rank2: &[u8; NODE_LIMIT],
    n: usize,
    number: &[u8; RANKS],
    area: &mut [u128; AREA],
) -> u128
    requires { n ≤ 80 }
    ensures { (s t : Tree) (K : List Label) (m count : ℕ)
        → Posed s t K tree1 tree2 rank1.now rank2.now m number.now count → n ≡ min m 80
        → area.old ≡ replicate 1431 0 → Weighed s t K n result area.new }
{
    let first = columns_of(tree1, rank1);
    let second = columns_of(tree2, rank2);
    put_weights(number, n, area);
    root_weight(&first, &second, area)
}

// How many labels are chosen: the answer, by rank among the m common ones. `None` if three of the `count` required ones clash; then
// `chosen` stays as it was. A tree is given by its arrays and, by node, its leaves' ranks; `number` has by rank a required label's
// number in the list, counted from 1. One fill: the cell of both roots is the greatest weight, which tells it all. Arrays of no tree
// are taken for some tree's, so what comes back for them is free.
pub fn largest_set(
    tree1: TreeArrays,
    tree2: TreeArrays,
    rank1: &[u8; NODE_LIMIT],
    rank2: &[u8; NODE_LIMIT],
    m: usize,
    number: &[u8; RANKS],
    count: usize,
    chosen: &mut [bool; LEAF_LIMIT],
) -> Option<usize>
    ensures solved { (s t : Tree) (K : List Label)
        → Posed s t K tree1 tree2 rank1.now rank2.now m number.now count
        → Solved s t K result chosen.new }
    ensures false_after { (n : ℕ) → result ≡ Some n → (k : ℕ) → m ≤ k → slice_index_or chosen.new k false ≡ false }
    ensures left_alone { result ≡ None → chosen.new ≡ chosen.old }
{
    let common = m.min(LEAF_LIMIT);
    let mut area = [0u128; AREA];
    let top = weigh(tree1, tree2, rank1, rank2, common, number, &mut area);
    if held(top) != count {
        return None;
    }
    read_set(&area, top, common, chosen);
    Some(labels(top))
}
