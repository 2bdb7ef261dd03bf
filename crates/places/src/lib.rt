// The pieces of a job by the ranks of their labels, from the arrays of both trees. No text is read.
//
// No public function has a `requires`.
#![tactic(auto)]

ghost use Rattle.std.specs.Prelude.{◌≡◌, List, ◌≤◌, length};
ghost use Rattle.trees.specs.Label.{Label};
ghost use Rattle.trees.specs.Tree.{Tree};
ghost use Rattle.agreement.specs.Closer.{Agree};
ghost use Rattle.agreement.specs.Sets.{set_of};
ghost use Rattle.table.specs.Choice.{Posed};
ghost use Rattle.places.specs.PieceRanks.{PieceRanks};
ghost use Rattle.places.specs.Nodes.{TreeRanks, RankNumbers, numbers, tops};

use crate::downward::{NodePlace, places_in};
use crate::lines::{by_rank, lines_of};
use crate::listing::list_lines;
use crate::upward::below_of;
use table::RANKS;
use trees::{LEAF_LIMIT, NODE_LIMIT, TreeArrays};

mod downward;
mod lines;
mod listing;
mod upward;

// Room for all labels on the lines: at most n + k - 1, with n common and k required leaves.
pub const ITEMS: usize = 2 * LEAF_LIMIT - 1;

// A label's rank, and whether it is its line's required one.
#[derive(Clone, Copy)]
pub struct Mark {
    pub rank: u8,
    pub head: bool,
}

// The pieces as one list of ranks: each line's required label, if there is one, then the leaves of that line in label order.
// The first `count` entries count.
#[derive(Clone, Copy)]
pub struct PieceList {
    pub count: usize,
    pub items: [Mark; ITEMS],
}

// By rank, the place of a label in one tree.
fn tree_places(
    tree: TreeArrays,
    rank: &[u8; NODE_LIMIT],
    m: usize,
    number: &[u8; RANKS],
    count: usize,
) -> [NodePlace; RANKS]
    requires { m ≤ 80 }
    ensures { (t : Tree) (C K : List Label) → TreeRanks t C K tree rank.now m number.now
        → count ≡ length K → RankNumbers t C K (numbers result) (tops result) }
{
    let below = below_of(tree, rank, m, number);
    let places = places_in(tree, &below, count);
    by_rank(tree, rank, &places)
}

// The pieces of two trees whose required labels agree, by rank among the m common ones. A tree is given by its arrays and, by node,
// its leaves' ranks; `number` has by rank a required label's number in the list, counted from 1, and `count` is how many there are.
// For arrays of no tree, and for required labels that do not agree, the list is free; it has at most 159 entries for any arrays.
pub fn pieces_of(
    tree1: TreeArrays,
    tree2: TreeArrays,
    rank1: &[u8; NODE_LIMIT],
    rank2: &[u8; NODE_LIMIT],
    m: usize,
    number: &[u8; RANKS],
    count: usize,
) -> PieceList
    ensures piece_ranks { (s t : Tree) (K : List Label)
        → Posed s t K tree1 tree2 rank1.now rank2.now m number.now count
        → Agree s t (set_of K) → PieceRanks s t K result }
    ensures count_bound { result.count ≤ 159 }
{
    let n = m.min(LEAF_LIMIT);
    let first = tree_places(tree1, rank1, n, number, count);
    let second = tree_places(tree2, rank2, n, number, count);
    let lines = lines_of(number, &first, &second, n);
    list_lines(&lines.line, &lines.heads, n)
}
