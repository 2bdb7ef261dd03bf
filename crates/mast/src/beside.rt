// A further list beside the largest set, over two trees and two lists that were read.
//
// Names that end in 1 are of the first tree, in 2 of the second; `list` is the required one, `other` the further one.
ghost use Rattle.std.specs.Prelude.{◌≡◌, ◌≤◌, length};
ghost use Rattle.queries.specs.Query.{answer_to};
ghost use Rattle.mast.specs.Compare.{compare_lists, compare_other, compared_of};
ghost use Rattle.pairs.specs.PairRead.{trees_in};
ghost use Rattle.mast.specs.ListMarks.{nearer_of, least_missing};
ghost use Rattle.triples.specs.Loops.{below};
ghost use Rattle.mast.specs.Settled.{OwnPair, OwnListed, lacked_at, chosen_of, AgreedOn};

use crate::clash::clash_in;
use crate::query::{Listed, Query};
use crate::settle::Settled;
use crate::{Compared, Denied};
use lists::LabelPlaces;
use table::RANKS;
use trees::Body;

// Smallest index so far of a required label that the other list lacks. `number` and `other` are the label's position in each list, counted
// from 1; 0 means the list does not contain it: so says `Marked`, the definition in the table's contract.
#[tactic(auto, unfolding(crate::specs::ListMarks::nearer_of))]
fn nearer(best: usize, number: u8, other: u8) -> usize
    ensures { result ≡ nearer_of best number other }
{
    if number == 0 {
        return best;
    }
    if other != 0 {
        return best;
    }
    best.min(usize::from(number) - 1)
}

// Index in the required list, from 0, of its first label that a further list lacks. `number` and `other` have, by rank, the label's position
// in each list.
fn first_missing(number: &[u8; RANKS], other: &[u8; RANKS], m: usize, count: usize) -> Option<usize>
    requires { m ≤ 80 }
    ensures { result ≡ below count (least_missing number.now other.now m count) }
{
    let mut best = count;
    for r in 0..m {
        best = nearer(best, number[r], other[r]);
    }
    if count <= best {
        return None;
    }
    Some(best)
}

// Where the first required label that a further list lacks stands in the required list; both lists are given by their marks.
fn lacked_label(
    number: &[u8; RANKS],
    other: &[u8; RANKS],
    m: usize,
    places: LabelPlaces,
) -> Option<usize>
    requires { m ≤ 80 }
    ensures { result ≡ lacked_at places (least_missing number.now other.now m places.count) }
{
    let k = first_missing(number, other, m, places.count)?;
    let starts = places.start;
    Some(trees::entry(&starts, k))
}

impl<'a> Query<'a> {
    // The further list beside the largest set, which the settled list has.
    fn beside(&self, settled: &Settled, list: &Listed, other: &Listed) -> Result<Compared, Denied>
        requires { OwnPair self.now × OwnListed self.now other.now }
        ensures { (b : OwnPair self.now) (l : OwnListed self.now list.now)
            (k : OwnListed self.now other.now) → AgreedOn b l settled.now
            → result ≡ compared_of
            (compare_other self.now.edition b.s l.xs k.xs (length (chosen_of self.now.edition b.s b.t settled.now.chosen))
            (answer_to self.now.edition (trees_in b) k.xs)) }
    {
        let claimed = self.marks(other, Body::C)?;
        let count = self.pair.order.count;
        Ok(Compared {
            size: settled.size,
            count: other.places.count,
            missing: lacked_label(&settled.number, &claimed, count, list.places),
            clash: clash_in(self.pair, &claimed, other.places),
        })
    }

    // The comparison of two lists.
    pub(crate) fn compare(&self, list: &Listed, other: &Listed) -> Result<Compared, Denied>
        requires { OwnPair self.now × OwnListed self.now list.now
            × OwnListed self.now other.now }
        ensures { (b : OwnPair self.now) (l : OwnListed self.now list.now)
            (k : OwnListed self.now other.now)
            → result ≡ compared_of (compare_lists self.now.edition (trees_in b) l.xs k.xs) }
    {
        let settled = self.settle(list)?;
        self.beside(&settled, list, other)
    }
}
