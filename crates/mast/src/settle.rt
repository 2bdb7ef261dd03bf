// The required list settled over two trees that were read: numbers 6, 7 and 8, or the largest set by rank. Every query goes this way.
//
// Names that end in 1 are of the first tree, in 2 of the second.
ghost use Rattle.std.specs.Prelude.{◌≡◌, List};
ghost use Rattle.trees.specs.Edition.{folded};
ghost use Rattle.trees.specs.Token.{Token};
ghost use Rattle.trees.specs.Tree.{Tree};
ghost use Rattle.lists.specs.ReadList.{folded_list};
ghost use Rattle.queries.specs.Query.{disagreement};
ghost use Rattle.queries.specs.RankedList.{AskedOf, MarksAre};
ghost use Rattle.mast.specs.RankedQuery.{SomeAsked};
ghost use Rattle.mast.specs.Settled.{OwnPair, OwnListed, ChosenIs, SettledIs};

use crate::Denied;
use crate::clash::clash_in;
use crate::query::{Listed, Query};
use lists::LabelPlaces;
use pairs::{Pair, rank_leaves};
use queries::mark_list;
use table::{RANKS, largest_set};
use trees::{Body, Edition, LEAF_LIMIT, NODE_LIMIT, Reason, Refusal};

// Number 8.
fn disagreement() -> Refusal
    ensures { result ≡ disagreement }
{
    Refusal {
        reason: Reason::Disagree,
        body: Body::K,
        place: 0,
    }
}

// How many labels are chosen: they are the largest set, if the trees agree on the list.
fn choose(
    pair: &Pair,
    number: &[u8; RANKS],
    places: LabelPlaces,
    chosen: &mut [bool; LEAF_LIMIT],
) -> Result<usize, Denied>
    requires { SomeAsked pair.now number.now places }
    ensures { (e : Edition) (s t : Tree) (xs : List Token)
        → AskedOf (folded e s) (folded e t) (folded_list e xs) pair.now.tree1 pair.now.tree2 pair.now.order number.now places
        → ChosenIs e s t xs chosen.new result }
{
    let m = pair.order.count;
    let mut rank1 = [0u8; NODE_LIMIT];
    let mut rank2 = [0u8; NODE_LIMIT];
    rank_leaves(&pair.order.first, m, &mut rank1);
    rank_leaves(&pair.order.second, m, &mut rank2);
    let answer = largest_set(
        pair.tree1,
        pair.tree2,
        &rank1,
        &rank2,
        m,
        number,
        places.count,
        chosen,
    );
    if let Some(size) = answer {
        return Ok(size);
    }
    let named = clash_in(pair, number, places).unwrap();
    Err(Denied::Naming(disagreement(), named))
}

// A required list on which the trees agree, with the list's marks and the labels chosen, whose number is `size`.
#[derive(Clone, Copy)]
pub(crate) struct Settled {
    pub size: usize,
    pub number: [u8; RANKS],
    pub chosen: [bool; LEAF_LIMIT],
}

impl<'a> Query<'a> {
    // The marks of a list by rank; or number 6 or 7 for the first label that is not common.
    pub(crate) fn marks(&self, list: &Listed, body: Body) -> Result<[u8; RANKS], Refusal>
        ensures { (b : OwnPair self.now) (l : OwnListed self.now list.now)
            → MarksAre self.now.edition b.s b.t l.xs body self.now.pair.now.tree1 self.now.pair.now.tree2 self.now.pair.now.order
            list.now.places result }
    {
        let pair = self.pair;
        mark_list(
            self.edition,
            self.first,
            pair.tree1,
            pair.order,
            list.text,
            list.places,
            body,
        )
    }

    // Settles the required list.
    pub(crate) fn settle(&self, list: &Listed) -> Result<Settled, Denied>
        requires { OwnPair self.now × OwnListed self.now list.now }
        ensures { (b : OwnPair self.now) (l : OwnListed self.now list.now) → SettledIs b l result }
    {
        let number = self.marks(list, Body::K)?;
        let mut chosen = [false; LEAF_LIMIT];
        let size = choose(self.pair, &number, list.places, &mut chosen)?;
        Ok(Settled {
            size,
            number,
            chosen,
        })
    }
}
