// Lines put together in an area, part by part, and copied to a lent output: a whole text, or nothing, and that is number 9. A `Display` would
// need a formatter.
ghost use Rattle.std.specs.Prelude.{◌≡◌, true, false, cond, [], ◌∷◌, map, ◌+◌, ◌-◌, ◌*◌, ◌≤◌, length, take, eqb};
ghost use Rattle.decimals.specs.Decimal.{decimal_of, digit_room};
ghost use Rattle.trees.specs.Stored.{shown_bytes};
ghost use Rattle.trees.specs.Text.{tree_room};
ghost use Rattle.trees.specs.Token.{token_of};
ghost use Rattle.trees.specs.Tree.{leaf_limit};
ghost use Rattle.trees.specs.Words.{bytes_of};
ghost use Rattle.lists.specs.ReadList.{joined};
ghost use Rattle.lines.specs.Lines.{refused_words, claim_line, item_room, words_room, claim_room, line_room, record_room, label_in, named_line, labels_in, always_room};
ghost use Rattle.lines.specs.Output.{line_answer, line_output};
ghost use Rattle.lines.specs.ItemText.{head_text, item_text, run_text};
ghost use Rattle.lines.specs.PieceLines.{items_in, pieces_room, placed_record, placed_always, placed_pieces, asked_pieces};
ghost use Rattle.lines.specs.Areas.{Put, item};

use crate::ITEMS;
use division::PiecePlaces;
use lists::LabelPlaces;
use mast::Named;
use trees::{Body, Edition, LEAF_LIMIT, Reason, Refusal, ShownLabel, TREE_ROOM};

// An area of N bytes for a text; `at` is where its next byte goes. Fixed memory and no heap, so an array and a place, not a `Vec`.
#[derive(Drop)]
pub(crate) struct Area<const N: usize> {
    pub(crate) bytes: [u8; N],
    pub(crate) at: usize,
}

// The label that the `size` bytes at a place of a text decode to, as it is spelled there and printed; for one that no reader accepts, its
// first bytes.
fn label_in(text: &[u8], start: usize, size: usize) -> ShownLabel
    ensures { shown_bytes result ≡ token_of (label_in text.now start size) }
{
    trees::shown(trees::stored(Edition::One, trees::part(text, start, size)))
}

// The front of a tree's text, no longer than one can be.
fn front<'a>(tree: &'a [u8]) -> &'a [u8]
    ensures { result.now ≡ take tree_room tree.now }
{
    trees::part(tree, 0, tree.len().min(TREE_ROOM))
}

impl<const N: usize> Area<N> {
    // Puts one byte.
    pub(crate) fn put_byte(&mut self, b: u8)
        requires room { self.old.at + 1 ≤ length self.old.bytes }
        ensures { Put self.old.bytes self.old.at (b ∷ []) self.new.at self.new.bytes }
    {
        self.bytes[self.at] = b;
        self.at += 1;
    }

    // Puts the bytes of x. The writer's `put_bytes` stores into a lent slice; this one moves the area's end.
    fn put_bytes(&mut self, x: &[u8])
        requires room { self.old.at + length x.now ≤ length self.old.bytes }
        ensures { Put self.old.bytes self.old.at x.now self.new.at self.new.bytes }
    {
        let end = self.at + x.len();
        let bytes = &mut self.bytes[..];
        bytes[self.at..end].copy_from_slice(x);
        self.at = end;
    }

    // Puts the decimal digits of n.
    fn put_number(&mut self, n: usize)
        requires room { self.old.at + digit_room ≤ length self.old.bytes }
        ensures { Put self.old.bytes self.old.at (decimal_of n) self.new.at self.new.bytes }
    {
        let numeral = decimals::digits(n);
        self.put_bytes(numeral.as_slice());
    }

    // Puts a label as it is printed.
    fn put_shown(&mut self, x: ShownLabel)
        requires room { self.old.at + length (shown_bytes x) ≤ length self.old.bytes }
        ensures { Put self.old.bytes self.old.at (shown_bytes x) self.new.at self.new.bytes }
    {
        self.put_bytes(x.as_slice());
    }

    // Puts a label, after a comma unless it is the first.
    fn put_item(&mut self, i: usize, x: ShownLabel)
        requires room { self.old.at + 1 + length (shown_bytes x) ≤ length self.old.bytes }
        ensures { Put self.old.bytes self.old.at (item i (shown_bytes x)) self.new.at self.new.bytes }
    {
        if i == 0 {
            return self.put_shown(x);
        }
        self.put_byte(b',');
        self.put_shown(x);
    }

    // Puts the first `count` labels that places and sizes name, joined by commas.
    fn put_labels(&mut self, text: &[u8], places: &LabelPlaces, count: usize)
        requires few { count ≤ leaf_limit }
        requires room { self.old.at + item_room * count ≤ length self.old.bytes }
        ensures put { Put self.old.bytes self.old.at
            (joined (map token_of (labels_in text.now places.now.start places.now.size count))) self.new.at self.new.bytes }
        ensures short { self.new.at ≤ self.old.at + (item_room * count - 1) }
    {
        for i in 0..count {
            let x = label_in(
                text,
                usize::from(places.start[i]),
                usize::from(places.size[i]),
            );
            self.put_item(i, x);
        }
    }

    // Ends the line before, if there is one.
    fn put_break(&mut self, first: bool)
        requires room { self.old.at + 1 ≤ length self.old.bytes }
        ensures { Put self.old.bytes self.old.at (cond first [] (10 ∷ [])) self.new.at self.new.bytes }
    {
        if first {
            return;
        }
        self.put_byte(b'\n');
    }

    // Begins an `at` line with its required label.
    fn put_head(&mut self, first: bool, x: ShownLabel)
        requires room { self.old.at + 5 + length (shown_bytes x) ≤ length self.old.bytes }
        ensures { Put self.old.bytes self.old.at (head_text first (shown_bytes x)) self.new.at self.new.bytes }
    {
        self.put_break(first);
        self.put_bytes(b"at ");
        self.put_shown(x);
        self.put_byte(b' ');
    }

    // Puts what is before a leaf: the beginning of a line without a required label, nothing after one, or a comma.
    fn put_before(&mut self, first: bool, after: bool)
        requires room { self.old.at + 4 ≤ length self.old.bytes }
        ensures { Put self.old.bytes self.old.at (cond first (bytes_of "at  ") (cond after [] (44 ∷ []))) self.new.at self.new.bytes }
    {
        if first {
            return self.put_bytes(b"at  ");
        }
        if after {
            return;
        }
        self.put_bytes(b",");
    }

    // Puts a label of the `at` lines: a required one begins a line. `after`: whether the label before it is required.
    fn put_piece(&mut self, first: bool, after: bool, head: bool, x: ShownLabel)
        requires room { self.old.at + 5 + length (shown_bytes x) ≤ length self.old.bytes }
        ensures { Put self.old.bytes self.old.at (item_text first after (record { token = shown_bytes x; head = head })) self.new.at
            self.new.bytes }
    {
        if head {
            return self.put_head(first, x);
        }
        self.put_before(first, after);
        self.put_shown(x);
    }

    // Puts the first `count` labels of the `at` lines, by places, sizes and marks; the last line has no end yet.
    fn put_items(&mut self, text: &[u8], pieces: &PiecePlaces, count: usize)
        requires few { count ≤ 159 }
        requires room { self.old.at + 39 * count ≤ length self.old.bytes }
        ensures put { Put self.old.bytes self.old.at
            (run_text true false (items_in text.now pieces.now.items count)) self.new.at self.new.bytes }
        ensures short { self.new.at ≤ self.old.at + 39 * count }
    {
        let mut after = false;
        for i in 0..count {
            let item = pieces.items[i];
            let x = label_in(text, usize::from(item.start), usize::from(item.size));
            self.put_piece(i == 0, after, item.head, x);
            after = item.head;
        }
    }

    // Ends the last of these lines, if there is one.
    fn put_end(&mut self, count: usize)
        requires room { self.old.at + 1 ≤ length self.old.bytes }
        ensures { Put self.old.bytes self.old.at (cond (eqb count 0) [] (10 ∷ [])) self.new.at self.new.bytes }
    {
        if count == 0 {
            return;
        }
        self.put_byte(b'\n');
    }

    // Puts the lines of the pieces: `pieces` with the total, then the `at` lines.
    fn put_pieces(&mut self, text: &[u8], pieces: &PiecePlaces)
        requires room { self.old.at + pieces_room ≤ length self.old.bytes }
        ensures put { Put self.old.bytes self.old.at (placed_pieces text.now pieces.now) self.new.at self.new.bytes }
        ensures short { self.new.at ≤ self.old.at + pieces_room }
    {
        let labels = pieces.count.min(ITEMS);
        self.put_bytes(b"pieces ");
        self.put_number(labels);
        self.put_byte(b'\n');
        self.put_items(text, pieces, labels);
        self.put_end(labels);
    }

    // Puts the lines of the pieces if they are asked for.
    pub(crate) fn put_asked(&mut self, text: &[u8], pieces: Option<&PiecePlaces>)
        requires room { self.old.at + pieces_room ≤ length self.old.bytes }
        ensures put { Put self.old.bytes self.old.at (asked_pieces text.now pieces.entry) self.new.at self.new.bytes }
        ensures short { self.new.at ≤ self.old.at + pieces_room }
    {
        if let Some(pieces) = pieces {
            self.put_pieces(text, pieces);
        }
    }

    // Puts the words of a refusal: `refused`, number, body letter, place.
    pub(crate) fn put_refusal(&mut self, refusal: Refusal)
        requires room { self.old.at + words_room ≤ length self.old.bytes }
        ensures { Put self.old.bytes self.old.at (refused_words refusal) self.new.at self.new.bytes }
    {
        let reason = refusal.reason;
        let body = refusal.body;
        self.put_bytes(b"refused ");
        self.put_number(usize::from(u8::from(reason)));
        self.put_bytes(&[b' ', u8::from(body), b' ']);
        self.put_number(refusal.place);
    }

    // Puts the line of a refusal that names three labels.
    pub(crate) fn put_naming(&mut self, job: &[u8], refusal: Refusal, named: Named)
        requires room { self.old.at + line_room ≤ length self.old.bytes }
        ensures { Put self.old.bytes self.old.at (named_line job.now refusal named) self.new.at self.new.bytes }
    {
        self.put_refusal(refusal);
        self.put_bytes(b" ");
        let p = named.first;
        self.put_item(0, label_in(job, p.start, p.size));
        let q = named.second;
        self.put_item(1, label_in(job, q.start, q.size));
        let s = named.third;
        self.put_item(1, label_in(job, s.start, s.size));
        self.put_byte(b'\n');
    }

    // Puts the line of a claim that passes: `claim ok` and the size.
    pub(crate) fn put_claim(&mut self, size: usize)
        requires room { self.old.at + claim_room ≤ length self.old.bytes }
        ensures { Put self.old.bytes self.old.at (claim_line size) self.new.at self.new.bytes }
    {
        self.put_bytes(b"claim ok ");
        self.put_number(size);
        self.put_byte(b'\n');
    }

    // Puts the three lines of a set, `size`, `set` and `tree`.
    pub(crate) fn put_record(&mut self, first: &[u8], set: &LabelPlaces, tree: &[u8])
        requires room { self.old.at + record_room ≤ length self.old.bytes }
        ensures { Put self.old.bytes self.old.at (placed_record first.now set.now tree.now) self.new.at self.new.bytes }
    {
        let count = set.count.min(LEAF_LIMIT);
        self.put_bytes(b"size ");
        self.put_number(count);
        self.put_bytes(b"\nset ");
        self.put_labels(first, set, count);
        self.put_bytes(b"\ntree ");
        self.put_bytes(front(tree));
        self.put_byte(b'\n');
    }

    // Puts the line `always`.
    pub(crate) fn put_always(&mut self, first: &[u8], always: &LabelPlaces)
        requires room { self.old.at + always_room ≤ length self.old.bytes }
        ensures { Put self.old.bytes self.old.at (placed_always first.now always.now) self.new.at self.new.bytes }
    {
        self.put_bytes(b"always ");
        self.put_labels(first, always, always.count.min(LEAF_LIMIT));
        self.put_byte(b'\n');
    }

    // Copies the text to the output: all of it, or nothing if the output is too short.
    pub(crate) fn hand_over(&self, out: &mut [u8]) -> Result<usize, Refusal>
        requires room { self.now.at ≤ length self.now.bytes }
        ensures answer { result ≡ line_answer (take self.now.at self.now.bytes) (length out.old) }
        ensures output { out.new ≡ line_output (take self.now.at self.now.bytes) out.old }
    {
        let n = self.at;
        if out.len() < n {
            return Err(Refusal {
                reason: Reason::TooShort,
                body: Body::O,
                place: 0,
            });
        }
        let bytes = &self.bytes[..];
        out[..n].copy_from_slice(&bytes[..n]);
        Ok(n)
    }
}
