// The first three labels of a list with different closer pairs, for numbers 8 and 14. Ranks and node numbers alone; no text is read.
//
// Names that end in 1 are of the first tree, in 2 of the second.
ghost use Rattle.std.specs.Prelude.{◌≡◌, List, ◌-◌, ◌<◌, ◌≤◌, get_or};
ghost use Rattle.trees.specs.Edition.{folded};
ghost use Rattle.trees.specs.Token.{Token};
ghost use Rattle.trees.specs.Tree.{Tree};
ghost use Rattle.lists.specs.ReadList.{folded_list};
ghost use Rattle.mast.specs.ListMarks.{ranks_from, Entries, Added, Nameable, named_at};
ghost use Rattle.queries.specs.RankedList.{AskedOf};
ghost use Rattle.mast.specs.RankedQuery.{SomeAsked, RanksGathered, ClashIs};

use crate::{Named, NamedLabel};
use lists::LabelPlaces;
use pairs::{CommonOrder, Pair, entries_at};
use table::RANKS;
use trees::{Edition, LEAF_LIMIT, NODE_LIMIT, TreeArrays};
use triples::{Indices, RankedLeaves};

// Stores rank r behind n others if it is that of a marked label, and says how many there are then. A number 0 means the label is not in the
// list: so says `Marked`, the definition in the table's contract.
fn add_rank(ranks: &mut [usize; LEAF_LIMIT], n: usize, number: u8, r: usize) -> usize
    requires { n < 80 }
    ensures { Added n number r ranks.old result ranks.new }
{
    if number == 0 {
        return n;
    }
    ranks[n] = r;
    n + 1
}

// The ranks of the marked labels, in label order.
fn marked_ranks(number: &[u8; RANKS], m: usize) -> [usize; LEAF_LIMIT]
    requires { m ≤ 80 }
    ensures { Entries (ranks_from number.now 0 m) result }
{
    let mut ranks = [0usize; LEAF_LIMIT];
    let mut n: usize = 0;
    for r in 0..m {
        n = add_rank(&mut ranks, n, number[r], r);
    }
    ranks
}

// Where label i of the marked ones in label order stands in the list.
fn place_at(
    starts: &[u16; LEAF_LIMIT],
    number: &[u8; RANKS],
    ranks: &[usize; LEAF_LIMIT],
    i: usize,
) -> usize
    requires { (i < 80) × (get_or ranks.now i 0 < 81) × (0 < get_or number.now (get_or ranks.now i 0) 0)
        × (get_or number.now (get_or ranks.now i 0) 0 ≤ 80) }
    ensures { result ≡ get_or starts.now (get_or number.now (get_or ranks.now i 0) 0 - 1) 0 }
{
    let r = ranks[i];
    let n = usize::from(number[r]);
    usize::from(starts[n - 1])
}

// Label i of the marked ones in label order: its place in the list, and its place and size in the first tree's text.
fn named_label(
    starts: &[u16; LEAF_LIMIT],
    number: &[u8; RANKS],
    ranks: &[usize; LEAF_LIMIT],
    start1: &[u16; NODE_LIMIT],
    size1: &[u8; NODE_LIMIT],
    leaf1: &[usize; LEAF_LIMIT],
    i: usize,
) -> NamedLabel
    requires { Nameable number.now ranks.now leaf1.now i }
    ensures { result ≡ named_at starts.now number.now ranks.now start1.now size1.now
        leaf1.now i }
{
    let u = leaf1[i];
    NamedLabel {
        place: place_at(starts, number, ranks, i),
        start: usize::from(start1[u]),
        size: usize::from(size1[u]),
    }
}

// Three labels by their ranks among the marked ones.
fn named_three(
    places: LabelPlaces,
    number: &[u8; RANKS],
    ranks: &[usize; LEAF_LIMIT],
    tree1: &TreeArrays,
    leaf1: &[usize; LEAF_LIMIT],
    three: Indices,
) -> Named
    requires { Nameable number.now ranks.now leaf1.now three.first
        × Nameable number.now ranks.now leaf1.now three.second × Nameable number.now ranks.now leaf1.now three.third }
    ensures { result ≡ record {
      first = named_at places.start number.now ranks.now tree1.now.start tree1.now.size
          leaf1.now three.first;
      second = named_at places.start number.now ranks.now tree1.now.start tree1.now.size
          leaf1.now three.second;
      third = named_at places.start number.now ranks.now tree1.now.start tree1.now.size
          leaf1.now three.third;
    } }
{
    let starts = places.start;
    let start1 = &tree1.start;
    let size1 = &tree1.size;
    Named {
        first: named_label(&starts, number, ranks, start1, size1, leaf1, three.first),
        second: named_label(&starts, number, ranks, start1, size1, leaf1, three.second),
        third: named_label(&starts, number, ranks, start1, size1, leaf1, three.third),
    }
}

// The ranks of the marked labels, of which there are `count`, in label order; their leaves in both trees go into the arrays.
fn gather(
    number: &[u8; RANKS],
    order: &CommonOrder,
    count: usize,
    leaf1: &mut [usize; LEAF_LIMIT],
    leaf2: &mut [usize; LEAF_LIMIT],
) -> [usize; LEAF_LIMIT]
    requires { order.now.count ≤ 80 }
    ensures { RanksGathered number.now order.now count result leaf1.new leaf2.new }
{
    let ranks = marked_ranks(number, order.count);
    *leaf1 = entries_at(&ranks, &order.first, count);
    *leaf2 = entries_at(&ranks, &order.second, count);
    ranks
}

// The first three labels of a list with different closer pairs, if there are any.
pub(crate) fn clash_in(pair: &Pair, number: &[u8; RANKS], places: LabelPlaces) -> Option<Named>
    requires { SomeAsked pair.now number.now places }
    ensures { (e : Edition) (s t : Tree) (xs : List Token)
        → AskedOf (folded e s) (folded e t) (folded_list e xs) pair.now.tree1 pair.now.tree2 pair.now.order number.now places → ClashIs e s t xs result }
{
    let count = places.count;
    let leaf = [0usize; LEAF_LIMIT];
    let mut one = RankedLeaves {
        left: pair.tree1.left,
        nodes: pair.tree1.nodes,
        leaf,
    };
    let mut two = RankedLeaves {
        left: pair.tree2.left,
        nodes: pair.tree2.nodes,
        leaf,
    };
    let ranks = gather(number, &pair.order, count, &mut one.leaf, &mut two.leaf);
    let three = triples::first_clash(&one, &two, count)?;
    Some(named_three(places, number, &ranks, &pair.tree1, &one.leaf, three))
}
