// Printed lines, written into a lent output: all of them, or nothing if it is too short. The answer is the number of bytes written, or
// number 9.
//
// No public function has a `requires`.
#![tactic(auto)]

ghost use Rattle.std.specs.Prelude.{◌≡◌, ◌++◌, length};
ghost use Rattle.lines.specs.Lines.{refused_line, named_line, claim_line};
ghost use Rattle.lines.specs.PieceLines.{placed_record, placed_pieces, asked_pieces};
ghost use Rattle.lines.specs.Output.{line_answer, line_output, written_part};

use areas::Area;
use decimals::DIGIT_ROOM;
use division::PiecePlaces;
use lists::LabelPlaces;
use mast::Named;
use trees::{LEAF_LIMIT, Refusal, TOKEN_LIMIT, TREE_ROOM};

mod areas;

// The most labels on the `at` lines of a job.
pub(crate) const ITEMS: usize = 2 * LEAF_LIMIT - 1;

// A label as it is printed, and a comma.
const ITEM_ROOM: usize = TOKEN_LIMIT + 1;

// A refusal's line: words with two numbers, three labels with their commas, a blank and a line end.
const LINE_ROOM: usize = 11 + 2 * DIGIT_ROOM + 2 + 3 * ITEM_ROOM;

// The three lines at their longest: their words, a size of two digits, 80 labels with commas between them, and the tree's text.
const RECORD_ROOM: usize = 17 + 2 + (LEAF_LIMIT * ITEM_ROOM - 1) + TREE_ROOM;

// The longest lines of a job: `pieces` with its total, the `at` lines at their longest, then the three lines. An output of so many bytes
// always suffices.
pub const LINES_ROOM: usize = 11 + 3869 + RECORD_ROOM;

// Room for the lines of the pieces. No job has as many labels on them as this allows.
const PIECES_ROOM: usize = 8 + DIGIT_ROOM + ITEMS * (ITEM_ROOM + 4) + 1;

// The lines of the pieces, then those of the set.
const DIVIDED_ROOM: usize = PIECES_ROOM + RECORD_ROOM;

// The part of an output that the answer wrote: its lines, or nothing.
pub fn written<'a>(out: &'a [u8], answer: Result<usize, Refusal>) -> &'a [u8]
    ensures { result.now ≡ written_part out.now answer }
{
    match answer {
        Ok(bytes) => trees::part(out, 0, bytes),
        Err(_) => trees::part(out, 0, 0),
    }
}

// Writes the line of a refusal into `out`.
pub fn refusal_line(refusal: Refusal, out: &mut [u8]) -> Result<usize, Refusal>
    ensures answer { result ≡ line_answer (refused_line refusal) (length out.old) }
    ensures output { out.new ≡ line_output (refused_line refusal) out.old }
{
    let mut line = Area {
        bytes: [0u8; LINE_ROOM],
        at: 0,
    };
    line.put_refusal(refusal);
    line.put_byte(b'\n');
    line.hand_over(out)
}

// Writes the line of a refusal that names three labels, number 8 or 14, into `out`. Starts and sizes name parts of the job; the labels are
// those that these parts decode to.
pub fn naming_line(
    job: &[u8],
    refusal: Refusal,
    named: Named,
    out: &mut [u8],
) -> Result<usize, Refusal>
    ensures answer { result ≡ line_answer (named_line job.now refusal named) (length out.old) }
    ensures output { out.new ≡ line_output (named_line job.now refusal named) out.old }
{
    let mut line = Area {
        bytes: [0u8; LINE_ROOM],
        at: 0,
    };
    line.put_naming(job, refusal, named);
    line.hand_over(out)
}

// Writes the line of a claim that passes into `out`.
pub fn claim_line(size: usize, out: &mut [u8]) -> Result<usize, Refusal>
    ensures answer { result ≡ line_answer (claim_line size) (length out.old) }
    ensures output { out.new ≡ line_output (claim_line size) out.old }
{
    let mut line = Area {
        bytes: [0u8; LINE_ROOM],
        at: 0,
    };
    line.put_claim(size);
    line.hand_over(out)
}

// Writes the lines of a set, after those of its pieces if they are asked for. It has two callers, so the compiler leaves it a function of its
// own: in a frame above the engine's, the area would add to the stack of a job.
fn write_lines(
    first: &[u8],
    pieces: Option<&PiecePlaces>,
    set: &LabelPlaces,
    tree: &[u8],
    out: &mut [u8],
) -> Result<usize, Refusal>
    ensures answer { result ≡ line_answer (asked_pieces first.now pieces.entry ++ placed_record first.now set.now tree.now) (length out.old) }
    ensures output { out.new ≡ line_output (asked_pieces first.now pieces.entry ++ placed_record first.now set.now tree.now) out.old }
{
    let mut area = Area {
        bytes: [0u8; DIVIDED_ROOM],
        at: 0,
    };
    area.put_asked(first, pieces);
    area.put_record(first, set, tree);
    area.hand_over(out)
}

// Writes the three lines of a set into `out`. The set's places and sizes name parts of the first tree's text. No set has more than 80
// labels and no tree a longer text than TREE_ROOM: what goes beyond is left out.
pub fn set_lines(
    first: &[u8],
    set: LabelPlaces,
    tree: &[u8],
    out: &mut [u8],
) -> Result<usize, Refusal>
    ensures answer { result ≡ line_answer (placed_record first.now set tree.now) (length out.old) }
    ensures output { out.new ≡ line_output (placed_record first.now set tree.now) out.old }
{
    write_lines(first, None, &set, tree, out)
}

// Writes the lines of the pieces and the three lines of a set into `out`. Places and sizes name parts of the first tree's text. No job has
// more than 159 labels on its `at` lines: what goes beyond is left out.
pub fn divided_lines(
    first: &[u8],
    pieces: PiecePlaces,
    set: LabelPlaces,
    tree: &[u8],
    out: &mut [u8],
) -> Result<usize, Refusal>
    ensures answer { result ≡ line_answer (placed_pieces first.now pieces ++ placed_record first.now set tree.now)
        (length out.old) }
    ensures output { out.new ≡ line_output (placed_pieces first.now pieces ++ placed_record first.now set tree.now)
        out.old }
{
    write_lines(first, Some(&pieces), &set, tree, out)
}
