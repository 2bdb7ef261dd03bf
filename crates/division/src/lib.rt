// The pieces of a job by places in the first tree's text, over two trees and a required list on which they agree.
//
// No public function has a `requires`. Names that end in 1 are of the first tree, in 2 of the second.
#![tactic(auto)]

ghost use Rattle.std.specs.Prelude.{◌≡◌, List, ◌≤◌};
ghost use Rattle.trees.specs.Edition.{folded};
ghost use Rattle.trees.specs.Label.{Label};
ghost use Rattle.trees.specs.Token.{Token};
ghost use Rattle.trees.specs.Tree.{Tree};
ghost use Rattle.lists.specs.ReadList.{folded_list};
ghost use Rattle.pairs.specs.Outcome.{found};
ghost use Rattle.queries.specs.Query.{required_set};
ghost use Rattle.queries.specs.RankedList.{AskedOf};
ghost use Rattle.division.specs.PiecesAt.{PiecesAt};
ghost use Rattle.division.specs.PiecesByRank.{leaf_of_rank, AtRanks};

use lists::LabelPlaces;
use pairs::{CommonOrder, rank_leaves};
use places::{ITEMS, PieceList, pieces_of};
use table::RANKS;
use trees::{Edition, LEAF_LIMIT, NODE_LIMIT, TreeArrays};

// Where a label of the `at` lines is in the first tree's text, and whether it is the required label of its line.
#[derive(Clone, Copy)]
pub struct PiecePlace {
    pub start: u16,
    pub size: u8,
    pub head: bool,
}

// The labels of all `at` lines, one after the other: on each line the required label, if there is one, then the leaves that hang there. The
// first `count` entries count.
#[derive(Clone, Copy)]
pub struct PiecePlaces {
    pub count: usize,
    pub items: [PiecePlace; ITEMS],
}

const NO_PIECE: PiecePlace = PiecePlace {
    start: 0,
    size: 0,
    head: false,
};

// The leaf of a rank, in range for any rank.
fn leaf_of(order1: &[u8; LEAF_LIMIT], rank: u8) -> usize
    ensures { result ≡ leaf_of_rank order1.now rank }
{
    let r = usize::from(rank).min(LEAF_LIMIT - 1);
    usize::from(order1[r]).min(NODE_LIMIT - 1)
}

// Where the leaves with these ranks are in the first tree's text.
fn places_at(
    list: PieceList,
    order1: &[u8; LEAF_LIMIT],
    start1: &[u16; NODE_LIMIT],
    size1: &[u8; NODE_LIMIT],
) -> PiecePlaces
    requires { list.count ≤ 159 }
    ensures { AtRanks list order1.now start1.now size1.now result }
{
    let mut items = [NO_PIECE; ITEMS];
    for i in 0..list.count {
        let item = list.items[i];
        let u = leaf_of(order1, item.rank);
        items[i] = PiecePlace {
            start: start1[u],
            size: size1[u],
            head: item.head,
        };
    }
    PiecePlaces {
        count: list.count,
        items,
    }
}

// The pieces of two trees and a required list on which they agree. The trees are given by their arrays and the leaves of each rank, the list
// by its marks and its number of labels. For arrays of no tree, and for a list without a set, the result is free.
pub fn divide(
    tree1: TreeArrays,
    tree2: TreeArrays,
    order: CommonOrder,
    number: &[u8; RANKS],
    places: LabelPlaces,
) -> PiecePlaces
    ensures { (e : Edition) (s t : Tree) (xs : List Token) (X : List Label)
        → AskedOf (folded e s) (folded e t) (folded_list e xs) tree1 tree2 order number.now places
        → required_set e (record { first = s; second = t }) xs ≡ found X → PiecesAt e s t xs result }
{
    let m = order.count;
    let order1 = order.first;
    let order2 = order.second;
    let mut rank1 = [0u8; NODE_LIMIT];
    let mut rank2 = [0u8; NODE_LIMIT];
    rank_leaves(&order1, m, &mut rank1);
    rank_leaves(&order2, m, &mut rank2);
    let list = pieces_of(tree1, tree2, &rank1, &rank2, m, number, places.count);
    let start1 = tree1.start;
    let size1 = tree1.size;
    places_at(list, &order1, &start1, &size1)
}

// The places of a job without pieces.
pub fn no_pieces() -> PiecePlaces
    ensures { result.count ≡ 0 }
{
    PiecePlaces {
        count: 0,
        items: [NO_PIECE; ITEMS],
    }
}
