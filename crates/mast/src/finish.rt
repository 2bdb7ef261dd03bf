// The end of the engine's work: the labels that are chosen are the set, told by their places in the first tree's text and by the
// text of its restriction; with it the pieces of the job, if they are asked for.
//
// Labels go by rank. Names that end in 1 are of the first tree.
ghost use Rattle.std.specs.Prelude.{◌≡◌, true, false, cond, List, ℕ, ◌<◌, ◌≤◌, length, set};
ghost use Rattle.trees.specs.Edition.{folded};
ghost use Rattle.trees.specs.Label.{Label};
ghost use Rattle.trees.specs.Token.{Token};
ghost use Rattle.trees.specs.Tree.{Tree, decoded, Valid, Proper};
ghost use Rattle.trees.specs.Arrays.{arrays_of};
ghost use Rattle.leaves.specs.Numbered.{Numbered};
ghost use Rattle.table.specs.Choice.{chosen_from};
ghost use Rattle.lists.specs.ReadList.{folded_list};
ghost use Rattle.mast.specs.Largest.{solution, fitted, solve_list, set_places, largest_of, output_of};
ghost use Rattle.pairs.specs.Outcome.{found};
ghost use Rattle.pairs.specs.PairRead.{trees_in};
ghost use Rattle.queries.specs.Query.{required_set};
ghost use Rattle.queries.specs.RankedList.{AskedOf};
ghost use Rattle.division.specs.PiecesAt.{PiecesAt};
ghost use Rattle.mast.specs.PiecesWith.{PiecesWith, without_pieces};
ghost use Rattle.mast.specs.Settled.{OwnPair, OwnListed};
ghost use Rattle.mast.specs.SetByRank.{InRange, places_from, Stored, Flagged, ByRank};

use crate::query::{Listed, Query};
use crate::{Denied, Divided, Found};
use division::{PiecePlaces, divide, no_pieces};
use lists::LabelPlaces;
use pairs::Pair;
use table::RANKS;
use trees::{Body, Edition, LEAF_LIMIT, NODE_LIMIT, Reason, Refusal};

// Stores a label's place behind n others if the label is chosen, and says how many there are then.
fn add_place(
    chosen: bool,
    at: u16,
    len: u8,
    start: &mut [u16; LEAF_LIMIT],
    size: &mut [u8; LEAF_LIMIT],
    n: usize,
) -> usize
    requires { n < 80 }
    ensures { Stored chosen at len (places_from n start.old size.old)
        (places_from result start.new size.new) }
{
    if !chosen {
        return n;
    }
    start[n] = at;
    size[n] = len;
    n + 1
}

// Where the labels of the set stand in the first tree's text, in label order.
fn set_places(
    order1: &[u8; LEAF_LIMIT],
    m: usize,
    chosen: &[bool; LEAF_LIMIT],
    start1: &[u16; NODE_LIMIT],
    size1: &[u8; NODE_LIMIT],
) -> LabelPlaces
    requires { (m ≤ 80) × InRange order1.now m }
    ensures { (s : Tree) (C : List Label) → Valid s → start1.now ≡ (arrays_of s).start
        → size1.now ≡ (arrays_of s).size → m ≡ length C → Numbered (decoded s) C order1.now
        → result ≡ set_places s (chosen_from chosen.now 0 C) }
{
    let mut start = [0u16; LEAF_LIMIT];
    let mut size = [0u8; LEAF_LIMIT];
    let mut count: usize = 0;
    for r in 0..m {
        let u = usize::from(order1[r]);
        count = add_place(chosen[r], start1[u], size1[u], &mut start, &mut size, count);
    }
    LabelPlaces { count, start, size }
}

// Flags leaf u if its label is chosen.
fn flag(chosen: bool, u: usize, kept: &mut [bool; NODE_LIMIT])
    requires { u < 159 }
    ensures { kept.new ≡ cond chosen (set kept.old u true) kept.old }
{
    if chosen {
        kept[u] = true;
    }
}

// Flags of the first tree's leaves whose labels are in the set.
fn kept_leaves(
    order1: &[u8; LEAF_LIMIT],
    m: usize,
    chosen: &[bool; LEAF_LIMIT],
) -> [bool; NODE_LIMIT]
    requires { (m ≤ 80) × InRange order1.now m }
    ensures { (s : Tree) (C : List Label) → Proper s → m ≡ length C → Numbered s C order1.now
        → Flagged s (chosen_from chosen.now 0 C) result }
{
    let mut kept = [false; NODE_LIMIT];
    for r in 0..m {
        flag(chosen[r], usize::from(order1[r]), &mut kept);
    }
    kept
}

// The pieces, if they are asked for.
fn pieces_if(asked: bool, pair: &Pair, number: &[u8; RANKS], places: LabelPlaces) -> PiecePlaces
    ensures { asked ≡ true → (e : Edition) (s t : Tree) (xs : List Token) (X : List Label)
        → AskedOf (folded e s) (folded e t) (folded_list e xs) pair.now.tree1 pair.now.tree2 pair.now.order number.now places
        → required_set e (record { first = s; second = t }) xs ≡ found X → PiecesAt e s t xs result }
{
    if !asked {
        return no_pieces();
    }
    divide(pair.tree1, pair.tree2, pair.order, number, places)
}

impl<'a> Query<'a> {
    // The answer with the set of the chosen labels, whose tree's text goes into `out`; or number 9, and `out` keeps every byte.
    fn solution(&self, chosen: &[bool; LEAF_LIMIT], out: &mut [u8]) -> Result<Found, Denied>
        requires { (self.now.pair.now.order.count ≤ 80) × InRange self.now.pair.now.order.first self.now.pair.now.order.count }
        ensures answer { (s t : Tree) (xs : List Token) (C : List Label)
            → ByRank self.now.edition s C self.now.pair.now.tree1 self.now.first.now self.now.pair.now.order.first
            self.now.pair.now.order.count
            → result
            ≡ largest_of (fitted (length out.old) (solution self.now.edition s t xs (chosen_from chosen.now 0 C))) }
        ensures output { (s t : Tree) (xs : List Token) (C : List Label)
            → ByRank self.now.edition s C self.now.pair.now.tree1 self.now.first.now self.now.pair.now.order.first
            self.now.pair.now.order.count
            → out.new
            ≡ output_of (fitted (length out.old) (solution self.now.edition s t xs (chosen_from chosen.now 0 C))) out.old }
    {
        let tree = &self.pair.tree1;
        let order1 = &self.pair.order.first;
        let m = self.pair.order.count;
        let kept = kept_leaves(order1, m, chosen);
        let restricted = restriction::restrict_tree(self.pair.tree1, kept);
        let written = writer::write_tree(self.edition, restricted, self.first, out);
        // The restriction of a tree that was read is a tree, so the writer's only error here is number 9, an output too short.
        let Ok(length) = written else {
            return Err(Denied::Refused(Refusal {
                reason: Reason::TooShort,
                body: Body::O,
                place: 0,
            }));
        };
        let set = set_places(order1, m, chosen, &tree.start, &tree.size);
        Ok(Found {
            size: set.count,
            length,
            set,
        })
    }

    // The answer to a required list, with the pieces if they are asked for.
    pub(crate) fn answer(
        &self,
        list: &Listed,
        asked: bool,
        out: &mut [u8],
    ) -> Result<Divided, Denied>
        requires { OwnPair self.now × OwnListed self.now list.now }
        ensures answer { (b : OwnPair self.now) (l : OwnListed self.now list.now)
            → without_pieces result ≡ largest_of (solve_list self.now.edition (length out.old) (trees_in b) l.xs) }
        ensures output { (b : OwnPair self.now) (l : OwnListed self.now list.now)
            → out.new ≡ output_of (solve_list self.now.edition (length out.old) (trees_in b) l.xs) out.old }
        ensures pieces { asked ≡ true → (b : OwnPair self.now) (l : OwnListed self.now list.now)
            → PiecesWith (solve_list self.now.edition (length out.old) (trees_in b) l.xs) result }
    {
        let settled = self.settle(list)?;
        let found = self.solution(&settled.chosen, out)?;
        let set = found.set;
        Ok(Divided {
            size: found.size,
            length: found.length,
            set,
            pieces: pieces_if(asked, self.pair, &settled.number, list.places),
        })
    }
}
