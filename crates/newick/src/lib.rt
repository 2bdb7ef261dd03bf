// The reader of tree text.
//
// No public function has a `requires`: a text of any length and any bytes is answered.
#![tactic(auto)]

ghost use Rattle.std.specs.Prelude.{ℕ, ◌+◌, ◌*◌, ◌≤◌, ◌<◌, ◌≡◌, length};
ghost use Rattle.trees.specs.declared.Body.{Body};
ghost use Rattle.trees.specs.Tree.{leaf_limit};
ghost use Rattle.trees.specs.Edition.{in_edition, key};
ghost use Rattle.trees.specs.Arrays.{node_limit, no_arrays};
ghost use Rattle.trees.specs.Stored.{is_among};
ghost use Rattle.trees.specs.Slots.{SlotMarks, slot_of};
ghost use Rattle.newick.specs.ReadTree.{read_tree_in, tree_read};

use trees::{
    Body, Edition, Halt, Kind, LABEL_LIMIT, LEAF_LIMIT, NODE_LIMIT, Reason, Refusal, SLOTS,
    TreeArrays,
};

// The most `(` of a tree, one less than its leaves.
const OPEN_LIMIT: usize = LEAF_LIMIT - 1;

// How many leaves were read, or why the text was turned down. The tree's arrays stand beside it; those of a refusal have no node.
#[derive(Clone, Copy)]
pub struct TreeRead {
    pub answer: Result<usize, Refusal>,
    pub tree: TreeArrays,
}

// Where the scan stands: a node must begin; inside a bare label, with its first byte and its length so far; after an opening quote, with
// its place and how many bytes stand since; just after a node; after `;`.
#[derive(Clone, Copy)]
enum Mode {
    Due,
    Inside(usize, usize),
    Quoted(usize, usize),
    After(usize),
    Done,
}

// A text and what is read of it so far: how many `(` are open, how many were read, the first child of each open `(` that has one, the nodes
// that are complete, and marks for their labels. Memory is fixed: `stack` is an array with `depth` entries in use, and no Vec.
#[derive(Drop)]
struct Reader<'a> {
    edition: Edition,
    text: &'a [u8],
    depth: usize,
    opens: usize,
    stack: [Option<u8>; OPEN_LIMIT],
    tree: TreeArrays,
    seen: [u8; SLOTS],
    ghost few: { opens < leaf_limit },
    ghost deep: { depth ≤ opens },
    ghost marked: { SlotMarks node_limit (in_edition edition text.now) tree.start tree.size seen },
}

// A tree of no node.
#[tactic(auto, unfolding(trees::specs::Arrays::no_arrays))]
fn no_tree() -> TreeArrays
    ensures { result ≡ no_arrays }
{
    TreeArrays {
        nodes: 0,
        left: [0; NODE_LIMIT],
        right: [0; NODE_LIMIT],
        start: [0; NODE_LIMIT],
        size: [0; NODE_LIMIT],
    }
}

impl<'a> Reader<'a> {
    ghost use Rattle.newick.specs.declared.Mode.{Mode};
    ghost use Rattle.newick.specs.declared.Mode.TheVariants.{Due, Inside, Quoted, After};
    ghost use Rattle.newick.specs.Machine.{text_in, scan_in, progress_of, arrays_in, Steps, Fits, Ready, Fresh};
    ghost use Rattle.newick.specs.Machine.{due_of, close_of, comma_of, after_of, leaf_of, label_end, inside_of};
    ghost use Rattle.newick.specs.Machine.{inner_of, quoted_of, move_of, answer_of, told, told_read};

    // Where each reading starts: nothing is open.
    fn new(edition: Edition, text: &'a [u8]) -> Reader<'a>
        ensures { Fresh edition text.now result }
    {
        Reader {
            edition,
            text,
            depth: 0,
            opens: 0,
            stack: [None; OPEN_LIMIT],
            tree: no_tree(),
            seen: trees::first_marks(),
        }
    }

    // Whether a leaf has the label of a token, whose slot is told; an inner node has size 0. Where the slot has no mark, nothing is compared.
    fn repeats(&self, token: &[u8], slot: usize) -> bool
        requires { slot ≡ slot_of (key self.now.edition token.now) }
        ensures { result ≡ is_among (text_in self.now) self.now.tree.start self.now.tree.size self.now.tree.nodes
            (in_edition self.now.edition token.now) }
    {
        trees::is_met(
            self.edition,
            self.text,
            &self.tree.start,
            &self.tree.size,
            self.tree.nodes,
            token,
            &self.seen,
            slot,
        )
    }

    // A byte where a node must begin.
    #[tactic(auto, unfolding(crate::specs::Machine::due_of))]
    fn on_due(&mut self, kind: Kind, at: usize) -> Result<Mode, Halt>
        ensures { Steps self.old self.new result (due_of (scan_in Due self.old) (arrays_in self.old) at kind) }
    {
        match kind {
            Kind::Label => Ok(Mode::Inside(at, 1)),
            Kind::Open => {
                if self.opens == OPEN_LIMIT {
                    return Err(Halt(Reason::TooMany, at));
                }
                self.stack[self.depth] = None;
                self.depth += 1;
                self.opens += 1;
                Ok(Mode::Due)
            }
            Kind::Quote => Ok(Mode::Quoted(at, 0)),
            _ => Err(Halt(Reason::BadByte, at)),
        }
    }

    // `)` after node `u`: the innermost `(` has its first child already, and becomes a node.
    #[tactic(auto, unfolding(crate::specs::Machine::close_of, crate::specs::Machine::closed))]
    fn on_close(&mut self, u: usize, at: usize) -> Result<Mode, Halt>
        requires { Ready (After u) (scan_in (After u) self.old) }
        ensures { Steps self.old self.new result (close_of (scan_in (After u) self.old) (arrays_in self.old) u at) }
    {
        if self.depth == 0 {
            return Err(Halt(Reason::BadByte, at));
        }
        let Some(child) = self.stack[self.depth - 1] else {
            return Err(Halt(Reason::BadByte, at));
        };
        let nodes = self.tree.nodes;
        self.tree.left[nodes] = child;
        self.tree.right[nodes] = trees::narrow(u);
        self.tree.nodes += 1;
        self.depth -= 1;
        Ok(Mode::After(nodes))
    }

    // `,` after node `u`: the innermost `(` lacks its first child, and `u` is that child.
    #[tactic(auto, unfolding(crate::specs::Machine::comma_of, crate::specs::Machine::parted))]
    fn on_comma(&mut self, u: usize, at: usize) -> Result<Mode, Halt>
        requires { Ready (After u) (scan_in (After u) self.old) }
        ensures { Steps self.old self.new result (comma_of (scan_in (After u) self.old) (arrays_in self.old) u at) }
    {
        if self.depth == 0 {
            return Err(Halt(Reason::BadByte, at));
        }
        if self.stack[self.depth - 1].is_some() {
            return Err(Halt(Reason::BadByte, at));
        }
        self.stack[self.depth - 1] = Some(trees::narrow(u));
        Ok(Mode::Due)
    }

    // A byte just after node `u`.
    #[tactic(auto, unfolding(crate::specs::Machine::after_of))]
    fn on_after(&mut self, u: usize, kind: Kind, at: usize) -> Result<Mode, Halt>
        requires { Ready (After u) (scan_in (After u) self.old) }
        ensures { Steps self.old self.new result (after_of (scan_in (After u) self.old) (arrays_in self.old) u at kind) }
    {
        match kind {
            Kind::Close => self.on_close(u, at),
            Kind::Comma => self.on_comma(u, at),
            Kind::Semicolon => {
                if self.depth == 0 {
                    Ok(Mode::Done)
                } else {
                    Err(Halt(Reason::BadByte, at))
                }
            }
            _ => Err(Halt(Reason::BadByte, at)),
        }
    }

    // The label of `len` bytes from `first` is complete: a repeat is told at its first byte, else the label is a leaf. Inlined: where
    // labels are short, a call for each shows in the time of `text_vectors`.
    #[inline(always)]
    fn on_leaf(&mut self, first: usize, len: usize) -> Result<Mode, Halt>
        requires { Fits self.old.depth self.old.opens self.old.tree.nodes first len }
        ensures { (m : Mode) → Steps self.old self.new result
            (leaf_of (text_in self.old) (scan_in m self.old) (arrays_in self.old) first len) }
    {
        let token = trees::part(self.text, first, len);
        let slot = trees::slot(self.edition, token);
        if self.repeats(token, slot) {
            return Err(Halt(Reason::Repeated, first));
        }
        self.seen[slot] = 1;
        let nodes = self.tree.nodes;
        let own = trees::narrow(nodes);
        self.tree.left[nodes] = own;
        self.tree.right[nodes] = own;
        self.tree.start[nodes] = trees::narrow_place(first);
        self.tree.size[nodes] = trees::narrow(len);
        self.tree.nodes += 1;
        Ok(Mode::After(nodes))
    }

    // The byte after a bare label, which is a leaf unless it repeats.
    fn on_label_end(
        &mut self,
        first: usize,
        len: usize,
        kind: Kind,
        at: usize,
    ) -> Result<Mode, Halt>
        requires { Ready (Inside first len) (scan_in (Inside first len) self.old) }
        ensures { Steps self.old self.new result
            (label_end (text_in self.old) (scan_in (Inside first len) self.old) (arrays_in self.old) first len at kind) }
    {
        let u = self.tree.nodes;
        self.on_leaf(first, len)?;
        self.on_after(u, kind, at)
    }

    // A byte inside or just after a bare label.
    #[tactic(auto, unfolding(crate::specs::Machine::inside_of))]
    fn on_inside(&mut self, first: usize, len: usize, kind: Kind, at: usize) -> Result<Mode, Halt>
        requires { Ready (Inside first len) (scan_in (Inside first len) self.old) }
        ensures { Steps self.old self.new result
            (inside_of (text_in self.old) (scan_in (Inside first len) self.old) (arrays_in self.old) first len at kind) }
    {
        match kind {
            Kind::Label => {
                if len < LABEL_LIMIT {
                    Ok(Mode::Inside(first, len + 1))
                } else {
                    Err(Halt(Reason::LabelTooLong, at))
                }
            }
            _ => self.on_label_end(first, len, kind, at),
        }
    }

    // A byte that may stand between quotes, after the quote at `first` and `inner` bytes.
    #[tactic(auto, unfolding(crate::specs::Machine::inner_of))]
    fn on_inner(&self, first: usize, inner: usize, at: usize) -> Result<Mode, Halt>
        ensures { progress_of result self.now ≡ inner_of (scan_in (Quoted first inner) self.now) (arrays_in self.now) first inner at }
    {
        if inner < LABEL_LIMIT {
            Ok(Mode::Quoted(first, inner + 1))
        } else {
            Err(Halt(Reason::LabelTooLong, at))
        }
    }

    // A byte after the opening quote at `first` and `len` bytes. A closing quote ends the label, which is compared only now.
    #[tactic(auto, unfolding(crate::specs::Machine::quoted_of, crate::specs::Machine::closing_of))]
    fn on_quoted(&mut self, first: usize, len: usize, kind: Kind, at: usize) -> Result<Mode, Halt>
        requires { Ready (Quoted first len) (scan_in (Quoted first len) self.old) }
        ensures { Steps self.old self.new result
            (quoted_of (text_in self.old) (scan_in (Quoted first len) self.old) (arrays_in self.old) first len at kind) }
    {
        match kind {
            Kind::Label | Kind::Blank => self.on_inner(first, len, at),
            Kind::Quote => {
                if len == 0 {
                    return Err(Halt(Reason::BadByte, at));
                }
                self.on_leaf(first, len + 2)
            }
            _ => Err(Halt(Reason::BadByte, at)),
        }
    }

    // One byte, by where the scan stands.
    #[tactic(auto, unfolding(crate::specs::Machine::move_of))]
    fn step(&mut self, mode: Mode, kind: Kind, at: usize) -> Result<Mode, Halt>
        requires { Ready mode (scan_in mode self.old) }
        ensures { Steps self.old self.new result
            (move_of mode (text_in self.old) (scan_in mode self.old) (arrays_in self.old) at kind) }
    {
        match mode {
            Mode::Due => self.on_due(kind, at),
            Mode::Inside(first, len) => self.on_inside(first, len, kind, at),
            Mode::Quoted(first, len) => self.on_quoted(first, len, kind, at),
            Mode::After(u) => self.on_after(u, kind, at),
            Mode::Done => Err(Halt(Reason::BadByte, at)),
        }
    }

    // The answer where the text ends: how many leaves it has.
    #[tactic(auto, using(trees::proofs::FoldLaws::fold_size, trees::proofs::FoldLaws::fold_part), unfolding(crate::specs::Machine::answer_of, crate::specs::Machine::repeat_of))]
    fn at_end(&self, mode: Mode) -> Result<usize, Halt>
        ensures { (body : Body) → told body result
            ≡ answer_of mode (text_in self.now) body (scan_in mode self.now) self.now.tree.start self.now.tree.size }
    {
        match mode {
            Mode::Done => Ok(self.opens + 1),
            Mode::Inside(first, len) => {
                let token = trees::part(self.text, first, len);
                if self.repeats(token, trees::slot(self.edition, token)) {
                    Err(Halt(Reason::Repeated, first))
                } else {
                    Err(Halt(Reason::EndsTooSoon, self.text.len()))
                }
            }
            _ => Err(Halt(Reason::EndsTooSoon, self.text.len())),
        }
    }

    // Reads the whole text: how many leaves it has, or the fault with the smallest place. No byte is read past one that is at fault.
    fn read(&mut self) -> Result<usize, Halt>
        requires { Fresh self.old.edition self.old.text.now self.old }
        ensures { (body : Body) → told_read body result self.new.tree
            ≡ tree_read body (read_tree_in self.old.edition self.old.text.now) }
    {
        let table = trees::classes();
        let text = self.text;
        let mut mode = Mode::Due;
        for (at, b) in text.iter().enumerate() {
            mode = self.step(mode, trees::kind_in(&table, *b), at)?;
        }
        self.at_end(mode)
    }
}

// Reads a tree text, told which body it is and by which edition labels are compared: the leaf count with the tree's arrays, or the
// refusal with the smallest place. No byte is read past the one that refuses the text.
pub fn read_tree(edition: Edition, text: &[u8], body: Body) -> TreeRead
    ensures { result ≡ tree_read body (read_tree_in edition text.now) }
{
    let mut reader = Reader::new(edition, text);
    match reader.read() {
        Ok(leaves) => TreeRead {
            answer: Ok(leaves),
            tree: reader.tree,
        },
        Err(halt) => TreeRead {
            answer: Err(halt.of(body)),
            tree: no_tree(),
        },
    }
}
