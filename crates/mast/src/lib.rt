// The engine: the largest agreement set of two trees that holds a required list, the first in label order among equals.
//
// No public function has a `requires`.
#![tactic(auto)]

ghost use Rattle.std.specs.Prelude.{◌≡◌, true, length};
ghost use Rattle.queries.specs.Query.{task};
ghost use Rattle.mast.specs.declared.Denied.TheVariants as denied;
ghost use Rattle.mast.specs.Largest.{solve, largest_of, output_of};
ghost use Rattle.mast.specs.PiecesWith.{PiecesWith, without_pieces};
ghost use Rattle.mast.specs.Compare.{compare, compared_of};

use crate::query::{Listed, Query};
use division::PiecePlaces;
use lists::LabelPlaces;
use pairs::{Options, read_pair};
use queries::read_labels;
use trees::{Body, Refusal};

mod beside;
mod clash;
mod finish;
mod query;
mod settle;

// A label that a refusal names: its place in its list, and its place and size in the first tree's text.
#[derive(Clone, Copy)]
pub struct NamedLabel {
    pub place: usize,
    pub start: usize,
    pub size: usize,
}

// Three labels with different closer pairs, in label order.
#[derive(Clone, Copy)]
pub struct Named {
    pub first: NamedLabel,
    pub second: NamedLabel,
    pub third: NamedLabel,
}

// A refusal: number 8 with the three required labels that it names, or another. A claim's number 14 names three claimed ones.
#[derive(Clone, Copy)]
pub enum Denied {
    Naming(Refusal, Named),
    Refused(Refusal),
}

impl From<Refusal> for Denied {
    ghost from_gives = { λ q d. d ≡ denied.Refused q };

    fn from(refusal: Refusal) -> Denied {
        Denied::Refused(refusal)
    }
}

// The size of the set, the length of its tree's text, and the places of the set's labels in the first tree's text, in label order.
#[derive(Clone, Copy)]
pub struct Found {
    pub size: usize,
    pub length: usize,
    pub set: LabelPlaces,
}

// The same with the pieces of the job.
#[derive(Clone, Copy)]
pub struct Divided {
    pub size: usize,
    pub length: usize,
    pub set: LabelPlaces,
    pub pieces: PiecePlaces,
}

// A further list compared with the largest set: the size of that set and the number of labels of the list; the place in the required list
// of the first label that the further one lacks; and its first three labels with different closer pairs.
#[derive(Clone, Copy)]
pub struct Compared {
    pub size: usize,
    pub count: usize,
    pub missing: Option<usize>,
    pub clash: Option<Named>,
}

// The answer to three texts, as `largest` gives it, with the pieces of the job if they are asked for: the labels of the `at` lines by their
// places in the first tree's text.
pub fn largest_in_pieces(
    options: Options,
    first: &[u8],
    second: &[u8],
    required: &[u8],
    asked: bool,
    out: &mut [u8],
) -> Result<Divided, Denied>
    ensures answer { without_pieces result ≡ largest_of
        (solve (task options first.now second.now required.now) (length out.old)) }
    ensures output { out.new
        ≡ output_of
        (solve (task options first.now second.now required.now) (length out.old))
        out.old }
    ensures pieces { asked ≡ true → PiecesWith
        (solve (task options first.now second.now required.now) (length out.old))
        result }
{
    let edition = options.edition;
    let pair = read_pair(options, first, second)?;
    let places = read_labels(edition, required, Body::K)?;
    let query = Query {
        edition,
        first,
        pair: &pair,
    };
    let list = Listed {
        text: required,
        places,
    };
    query.answer(&list, asked, out)
}

// The largest set of common leaves that contains the required ones and on which the trees agree, the first in label order among equals.
// Returns its size and places, and writes the normal text of its restriction to `out`, labels as the first tree spells them. Refusals come
// in the order S, T, 12 if the options are strict, K, 6 or 7, 8, 9; `out` then keeps every byte.
pub fn largest(
    options: Options,
    first: &[u8],
    second: &[u8],
    required: &[u8],
    out: &mut [u8],
) -> Result<Found, Denied>
    ensures answer { result ≡ largest_of
        (solve (task options first.now second.now required.now) (length out.old)) }
    ensures output { out.new
        ≡ output_of
        (solve (task options first.now second.now required.now) (length out.old))
        out.old }
{
    let divided = largest_in_pieces(options, first, second, required, false, out)?;
    let set = divided.set;
    Ok(Found {
        size: divided.size,
        length: divided.length,
        set,
    })
}

// Compares a further list with the largest set: whether it lacks a required label, whether three of its labels have different closer pairs,
// and how large both are. No text is written. Refusals come in the order S, T, 12 if the options are strict, the required list, the further
// one, 6 or 7 and 8 of the required list, 6 or 7 of the further one.
pub fn compare(
    options: Options,
    first: &[u8],
    second: &[u8],
    required: &[u8],
    other: &[u8],
) -> Result<Compared, Denied>
    ensures { result ≡ compared_of
        (compare (task options first.now second.now required.now) other.now) }
{
    let edition = options.edition;
    let pair = read_pair(options, first, second)?;
    let listed = read_labels(edition, required, Body::K)?;
    let further = read_labels(edition, other, Body::C)?;
    let query = Query {
        edition,
        first,
        pair: &pair,
    };
    let list = Listed {
        text: required,
        places: listed,
    };
    let claim = Listed {
        text: other,
        places: further,
    };
    query.compare(&list, &claim)
}
