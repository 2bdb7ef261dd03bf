// The reader of a list of labels, with quotes or without.
//
// No public function has a `requires`: a text of any length and any bytes is answered.
#![tactic(auto)]

ghost use Rattle.std.specs.Prelude.{◌≡◌, ◌+◌, [], length};
ghost use Rattle.trees.specs.declared.Body.{Body};
ghost use Rattle.trees.specs.Edition.{in_edition};
ghost use Rattle.trees.specs.Slots.{SlotMarks};
ghost use Rattle.lists.specs.ReadList.{list_limit, list_read, places_of, read_list_in};

use trees::{Body, Edition, Halt, Kind, LABEL_LIMIT, Reason, Refusal, SLOTS};

// The most labels of a list.
pub const LIST_LIMIT: usize = 80;

// Where the labels of a list stand in its text, in list order. Entries are as narrow as a list's limits allow: places are passed by value.
// Two arrays, and not one of pairs: `trees::is_met` and `trees::leaf_label` take those of a tree and of a list alike.
#[derive(Clone, Copy)]
pub struct LabelPlaces {
    pub count: usize,
    pub start: [u16; LIST_LIMIT],
    pub size: [u8; LIST_LIMIT],
}

// How many labels were read, or why the text was turned down. The places stand beside it; those of a refusal hold no label.
#[derive(Clone, Copy)]
pub struct ListRead {
    pub answer: Result<usize, Refusal>,
    pub places: LabelPlaces,
}

// Where the reader stands: at the start; where a label must begin; inside a bare label, with its first byte and its length so far; after
// an opening quote, with its place and how many bytes stand since; just after a closing quote.
#[derive(Clone, Copy)]
enum Mode {
    Start,
    Due,
    Bare(usize, usize),
    Quoted(usize, usize),
    Closed,
}

// A text and what is read of it so far: the labels that are complete, and marks for them.
#[derive(Drop)]
struct Reader<'a> {
    edition: Edition,
    text: &'a [u8],
    places: LabelPlaces,
    seen: [u8; SLOTS],
    ghost marked: { SlotMarks list_limit (in_edition edition text.now) places.start places.size seen },
}

// The places of no label.
#[tactic(auto, unfolding(crate::specs::ReadList::places_of))]
fn no_labels() -> LabelPlaces
    ensures { result ≡ places_of [] }
{
    LabelPlaces {
        count: 0,
        start: [0; LIST_LIMIT],
        size: [0; LIST_LIMIT],
    }
}

impl<'a> Reader<'a> {
    ghost use Rattle.lists.specs.ListMachine.{text_in, mode_in, move_in, Steps, Ends, EndsAs, Fits, Ready, Fresh, repeat_of};
    ghost use Rattle.lists.specs.ListMachine.{begin_of, due_of, more_of, bare_of, quoted_of, closed_of, step_of, end_at, told_read};

    // Where each reading starts: no label is read.
    fn new(edition: Edition, text: &'a [u8]) -> Reader<'a>
        ensures { Fresh edition text.now result }
    {
        Reader {
            edition,
            text,
            places: no_labels(),
            seen: trees::first_marks(),
        }
    }

    // A label begins with the byte at `at`. The 81st is refused before it is compared.
    #[tactic(auto, unfolding(crate::specs::ListMachine::begin_of))]
    fn begin(&self, mode: Mode, at: usize) -> Result<Mode, Halt>
        ensures { move_in result self.now.places ≡ begin_of at self.now.places.count (mode_in mode self.now.places) }
    {
        if self.places.count < LIST_LIMIT {
            Ok(mode)
        } else {
            Err(Halt(Reason::TooMany, at))
        }
    }

    // A byte where a label must begin: a quote opens one.
    #[tactic(auto, unfolding(crate::specs::ListMachine::due_of))]
    fn due(&self, kind: Kind, at: usize) -> Result<Mode, Halt>
        ensures { move_in result self.now.places ≡ due_of kind at self.now.places.count }
    {
        match kind {
            Kind::Label => self.begin(Mode::Bare(at, 1), at),
            Kind::Quote => self.begin(Mode::Quoted(at, 0), at),
            _ => Err(Halt(Reason::BadByte, at)),
        }
    }

    // The label of `len` bytes from `first` has ended: a repeat is told at its first byte, else its place is kept. A label whose slot has no
    // mark is compared with nothing.
    fn keep(&mut self, first: usize, len: usize) -> Result<(), Halt>
        requires { Fits first len self.old.places.count }
        ensures { Ends self.old self.new first len result }
    {
        let count = self.places.count;
        let token = trees::part(self.text, first, len);
        let slot = trees::slot(self.edition, token);
        if trees::is_met(
            self.edition,
            self.text,
            &self.places.start,
            &self.places.size,
            count,
            token,
            &self.seen,
            slot,
        ) {
            return Err(Halt(Reason::Repeated, first));
        }
        self.seen[slot] = 1;
        self.places.start[count] = trees::narrow_place(first);
        self.places.size[count] = trees::narrow(len);
        self.places.count += 1;
        Ok(())
    }

    // One more byte of a label that has `len`.
    #[tactic(auto, unfolding(crate::specs::ListMachine::more_of))]
    fn more(&self, mode: Mode, len: usize, at: usize) -> Result<Mode, Halt>
        ensures { move_in result self.now.places ≡ more_of at len (mode_in mode self.now.places) }
    {
        if len < LABEL_LIMIT {
            Ok(mode)
        } else {
            Err(Halt(Reason::LabelTooLong, at))
        }
    }

    // A byte inside or just after a bare label. The byte past a label's limit is refused before the label is compared.
    #[tactic(auto, unfolding(crate::specs::ListMachine::bare_of))]
    fn bare(&mut self, first: usize, len: usize, kind: Kind, at: usize) -> Result<Mode, Halt>
        requires { Fits first len self.old.places.count }
        ensures { Steps self.old self.new result
            (bare_of (text_in self.old) kind at first len self.old.places.count self.old.places.start self.old.places.size) }
    {
        match kind {
            Kind::Label => self.more(Mode::Bare(first, len + 1), len, at),
            Kind::Comma => {
                self.keep(first, len)?;
                Ok(Mode::Due)
            }
            _ => {
                self.keep(first, len)?;
                Err(Halt(Reason::BadByte, at))
            }
        }
    }

    // A byte after the opening quote at `first` and `len` bytes. A closing quote ends the label, which is compared only now.
    #[tactic(auto, unfolding(crate::specs::ListMachine::quoted_of))]
    fn quoted(&mut self, first: usize, len: usize, kind: Kind, at: usize) -> Result<Mode, Halt>
        requires { Fits first (len + 2) self.old.places.count }
        ensures { Steps self.old self.new result
            (quoted_of (text_in self.old) kind at first len self.old.places.count self.old.places.start self.old.places.size) }
    {
        match kind {
            Kind::Label | Kind::Blank => self.more(Mode::Quoted(first, len + 1), len, at),
            Kind::Quote => {
                if len == 0 {
                    return Err(Halt(Reason::BadByte, at));
                }
                self.keep(first, len + 2)?;
                Ok(Mode::Closed)
            }
            _ => Err(Halt(Reason::BadByte, at)),
        }
    }

    // A byte just after a closing quote.
    #[tactic(auto, unfolding(crate::specs::ListMachine::closed_of))]
    fn after_quote(&self, kind: Kind, at: usize) -> Result<Mode, Halt>
        ensures { move_in result self.now.places ≡ closed_of kind at self.now.places.count }
    {
        match kind {
            Kind::Comma => Ok(Mode::Due),
            _ => Err(Halt(Reason::BadByte, at)),
        }
    }

    // One byte, by where the reader stands.
    #[tactic(auto, unfolding(crate::specs::ListMachine::step_of))]
    fn step(&mut self, mode: Mode, kind: Kind, at: usize) -> Result<Mode, Halt>
        requires { Ready mode self.old.places at }
        ensures { Steps self.old self.new result
            (step_of (text_in self.old) kind at (mode_in mode self.old.places) self.old.places.start self.old.places.size) }
    {
        match mode {
            Mode::Start | Mode::Due => self.due(kind, at),
            Mode::Bare(first, len) => self.bare(first, len, kind, at),
            Mode::Quoted(first, len) => self.quoted(first, len, kind, at),
            Mode::Closed => self.after_quote(kind, at),
        }
    }

    // The text ends, which also completes a bare label: how many labels it has.
    #[tactic(auto, unfolding(crate::specs::ListMachine::end_at))]
    fn at_end(&mut self, mode: Mode) -> Result<usize, Halt>
        requires { Ready mode self.old.places (length self.old.text.now) }
        ensures { (body : Body) → EndsAs body result self.new.places
            (end_at (text_in self.old) body (mode_in mode self.old.places) (length self.old.text.now) self.old.places.start
            self.old.places.size) }
    {
        match mode {
            Mode::Start | Mode::Closed => Ok(self.places.count),
            Mode::Bare(first, len) => {
                self.keep(first, len)?;
                Ok(self.places.count)
            }
            _ => Err(Halt(Reason::EndsTooSoon, self.text.len())),
        }
    }

    // Reads the whole text: how many labels it has, or the fault with the smallest place.
    fn read(&mut self) -> Result<usize, Halt>
        requires { self.old.places ≡ places_of [] }
        ensures { (body : Body) → told_read body result self.new.places
            ≡ list_read body (read_list_in self.old.edition self.old.text.now) }
    {
        let table = trees::classes();
        let text = self.text;
        let mut mode = Mode::Start;
        for (at, b) in text.iter().enumerate() {
            mode = self.step(mode, trees::kind_in(&table, *b), at)?;
        }
        self.at_end(mode)
    }
}

// Reads a list of labels, which are compared by an edition; a refusal names `body`.
#[tactic(auto, unfolding(crate::specs::ListMachine::told_read))]
pub fn read_list(edition: Edition, text: &[u8], body: Body) -> ListRead
    ensures { result ≡ list_read body (read_list_in edition text.now) }
{
    let mut reader = Reader::new(edition, text);
    match reader.read() {
        Ok(count) => ListRead {
            answer: Ok(count),
            places: reader.places,
        },
        Err(halt) => ListRead {
            answer: Err(halt.of(body)),
            places: no_labels(),
        },
    }
}
