// Labels, byte classes, refusals and tree arrays: the data that every crate above shares.
//
// No public function has a `requires`: each answers for all inputs.
#![tactic(auto)]

ghost use Rattle.std.specs.Prelude.{◌≡◌, true, ◌&&◌, ◌%◌, ◌<◌, ◌≤◌, min, eqb, length, get_or, take};
ghost use Rattle.trees.specs.Bytes.{class_table, kind_of_code};
ghost use Rattle.trees.specs.Edition.{fold_byte, in_edition, key};
ghost use Rattle.trees.specs.Label.{order_of, label_less, same_label};
ghost use Rattle.trees.specs.Reading.{quote_first};
ghost use Rattle.trees.specs.Refusals.{number_of, letter_of};
ghost use Rattle.trees.specs.Stored.{stored_bytes, stored_of, shown_of, part_of, leaf_label, is_among};
ghost use Rattle.trees.specs.Stored.{byte_of, inner_bytes, read_as, form_of};
ghost use Rattle.trees.specs.Token.{spelling, holds_underscore, token_limit};
ghost use Rattle.trees.specs.Slots.{slot_of, is_marked, first_marks};

use std::cmp::Ordering;

// The most bytes of a label.
pub const LABEL_LIMIT: usize = 32;

// The most bytes of a label as it is written: two quotes more.
pub const TOKEN_LIMIT: usize = LABEL_LIMIT + 2;

// The most leaves of a tree.
pub const LEAF_LIMIT: usize = 80;

// The most nodes of a tree: each inner node joins two, so there is one less than leaves.
pub const NODE_LIMIT: usize = 2 * LEAF_LIMIT - 1;

// The most bytes of a tree's text: its labels, `(`, `,` and `)` for each inner node, and `;`.
pub const TREE_ROOM: usize = LEAF_LIMIT * TOKEN_LIMIT + 3 * (LEAF_LIMIT - 1) + 1;

// How many slots a reader has for marks of the labels that it has met.
pub const SLOTS: usize = 1024;

// The bytes that a label's spelling turns on.
const QUOTE: u8 = 39;

const BLANK: u8 = 32;

const UNDERSCORE: u8 = 95;

// What a byte of a tree text can be. Each of the 256 byte values has one kind.
#[derive(Clone, Copy, PartialEq, Eq)]
pub enum Kind {
    Label,
    Open,
    Close,
    Comma,
    Semicolon,
    Quote,
    Blank,
    Other,
}

// The edition by which labels are compared. Under the second, capital and small letters of A to Z are equal.
#[derive(Clone, Copy, PartialEq, Eq)]
pub enum Edition {
    One,
    Two,
}

// Why a job is refused, by number.
#[derive(Clone, Copy, PartialEq, Eq)]
pub enum Reason {
    BadByte = 1,
    EndsTooSoon = 2,
    LabelTooLong = 3,
    TooMany = 4,
    Repeated = 5,
    FirstLacks = 6,
    SecondLacks = 7,
    Disagree = 8,
    TooShort = 9,
    Contents = 10,
    JobTooLong = 11,
    NotShared = 12,
    ClaimLacks = 13,
    ClaimDisagrees = 14,
    ClaimSmall = 15,
}

// The body that a refusal speaks of, by letter.
#[derive(Clone, Copy, PartialEq, Eq)]
pub enum Body {
    S = b'S' as isize,
    T = b'T' as isize,
    K = b'K' as isize,
    C = b'C' as isize,
    J = b'J' as isize,
    O = b'O' as isize,
}

// A refusal: its reason, the body and the byte offset in that body.
#[derive(Clone, Copy)]
pub struct Refusal {
    pub reason: Reason,
    pub body: Body,
    pub place: usize,
}

// Where a reader of a body halts: why, and at which byte.
#[derive(Clone, Copy, PartialEq, Eq)]
pub struct Halt(pub Reason, pub usize);

impl Halt {
    // The refusal of the body.
    pub fn of(self, body: Body) -> Refusal
        ensures { result ≡ record { reason = self.0; body = body; place = self.1 } }
    {
        let Halt(reason, place) = self;
        Refusal {
            reason,
            body,
            place,
        }
    }
}

// A few bytes, kept apart from any text: the first `len` of them count. An array and a length, since there is no heap.
#[derive(Clone, Copy)]
pub struct ShortBytes<const N: usize> {
    pub bytes: [u8; N],
    pub len: usize,
}

// A label as decoded.
pub type StoredLabel = ShortBytes<LABEL_LIMIT>;

// A label as it is printed, with quotes where it needs them.
pub type ShownLabel = ShortBytes<TOKEN_LIMIT>;

impl<const N: usize> ShortBytes<N> {
    // The bytes that count: the first `len`, or all of them where they are fewer.
    pub fn as_slice(&self) -> &[u8]
        ensures { result.now ≡ take self.now.len self.now.bytes }
    {
        &self.bytes[..self.len.min(N)]
    }
}

// A tree as arrays: children before parents, the root last, a leaf its own left child.
// A leaf's label is the `size` bytes of the text from `start`. Arrays of indices, since there is no heap, with entries as narrow as a tree's
// limits allow.
#[derive(Clone, Copy)]
pub struct TreeArrays {
    pub nodes: usize,
    pub left: [u8; NODE_LIMIT],
    pub right: [u8; NODE_LIMIT],
    pub start: [u16; NODE_LIMIT],
    pub size: [u8; NODE_LIMIT],
}

// The class of each byte value: 1 a label byte, 2 `(`, 3 `)`, 4 `,`, 5 `;`, 6 a quote, 7 a blank, 0 any other. Numbers, since
// `classes` promises `class_table`, and `byte_has_one_class` is about its numbers.
const CLASSES: [u8; 256] = [
    0, 0, 0, 0, 0, 0, 0, 0, 0, 0, 0, 0, 0, 0, 0, 0, 0, 0, 0, 0, 0, 0, 0, 0, 0, 0, 0, 0, 0, 0, 0, 0,
    7, 0, 0, 0, 0, 0, 0, 6, 2, 3, 0, 0, 4, 1, 1, 0, 1, 1, 1, 1, 1, 1, 1, 1, 1, 1, 0, 5, 0, 0, 0, 0,
    0, 1, 1, 1, 1, 1, 1, 1, 1, 1, 1, 1, 1, 1, 1, 1, 1, 1, 1, 1, 1, 1, 1, 1, 1, 1, 1, 0, 0, 0, 0, 1,
    0, 1, 1, 1, 1, 1, 1, 1, 1, 1, 1, 1, 1, 1, 1, 1, 1, 1, 1, 1, 1, 1, 1, 1, 1, 1, 1, 0, 0, 0, 0, 0,
    0, 0, 0, 0, 0, 0, 0, 0, 0, 0, 0, 0, 0, 0, 0, 0, 0, 0, 0, 0, 0, 0, 0, 0, 0, 0, 0, 0, 0, 0, 0, 0,
    0, 0, 0, 0, 0, 0, 0, 0, 0, 0, 0, 0, 0, 0, 0, 0, 0, 0, 0, 0, 0, 0, 0, 0, 0, 0, 0, 0, 0, 0, 0, 0,
    0, 0, 0, 0, 0, 0, 0, 0, 0, 0, 0, 0, 0, 0, 0, 0, 0, 0, 0, 0, 0, 0, 0, 0, 0, 0, 0, 0, 0, 0, 0, 0,
    0, 0, 0, 0, 0, 0, 0, 0, 0, 0, 0, 0, 0, 0, 0, 0, 0, 0, 0, 0, 0, 0, 0, 0, 0, 0, 0, 0, 0, 0, 0, 0,
];

// The class table, to be fetched once and lent to `kind_in`.
pub fn classes() -> [u8; 256]
    ensures { result ≡ class_table }
{
    CLASSES
}

// The kind that a class table tells of a byte.
#[tactic(auto, unfolding(crate::specs::Bytes::kind_of_code))]
pub fn kind_in(table: &[u8; 256], b: u8) -> Kind
    ensures { result ≡ kind_of_code (get_or table.now b 0) }
{
    let i = b as usize;
    let class = table[i];
    match class {
        1 => Kind::Label,
        2 => Kind::Open,
        3 => Kind::Close,
        4 => Kind::Comma,
        5 => Kind::Semicolon,
        6 => Kind::Quote,
        7 => Kind::Blank,
        _ => Kind::Other,
    }
}

impl From<Reason> for u8 {
    ghost from_gives = { λ r n. n ≡ number_of r };

    #[tactic(auto, unfolding(crate::specs::Refusals::number_of))]
    fn from(r: Reason) -> u8 {
        r as u8
    }
}

impl From<Body> for u8 {
    ghost from_gives = { λ b n. n ≡ letter_of b };

    #[tactic(auto, unfolding(crate::specs::Refusals::letter_of))]
    fn from(b: Body) -> u8 {
        b as u8
    }
}

// A byte as an edition reads it: under the second a capital is the small letter.
fn fold(edition: Edition, b: u8) -> u8
    ensures { result ≡ fold_byte edition b }
{
    match edition {
        Edition::One => b,
        Edition::Two => b.to_ascii_lowercase(),
    }
}

// The bytes of a token that count, and whether they stand between quotes.
#[derive(Clone, Copy)]
struct Spelled<'a> {
    bytes: &'a [u8],
    quoted: bool,
}

impl<'a> Spelled<'a> {
    // Those between the quotes of a token that an opening quote begins, or all.
    fn of(token: &'a [u8]) -> Spelled<'a>
        ensures bytes { result.bytes.now ≡ inner_bytes token.now }
        ensures quoted { result.quoted ≡ quote_first token.now }
    {
        let quoted = token.starts_with(&[QUOTE]);
        let bytes = if quoted {
            &token[1..token.len().max(2) - 1]
        } else {
            token
        };
        Spelled { bytes, quoted }
    }

    // What byte `b` of it stands for, as an edition reads it: between quotes each stands for itself, elsewhere an underscore for a blank.
    fn decode(self, edition: Edition, b: u8) -> u8
        ensures { result ≡ byte_of edition self.entry.quoted b }
    {
        let c = fold(edition, b);
        if c != UNDERSCORE {
            return c;
        }
        if self.quoted { UNDERSCORE } else { BLANK }
    }

    // Where it stands against `other` in label order, each byte decoded: the first one that differs decides, else the length.
    fn compare_by(self, edition: Edition, other: Spelled) -> Ordering
        ensures { result ≡ order_of (read_as edition self.entry.quoted self.entry.bytes.now) (read_as edition other.entry.quoted other.entry.bytes.now) }
    {
        let a = self.bytes;
        let b = other.bytes;
        for i in 0..a.len().min(b.len()) {
            let x = self.decode(edition, a[i]);
            let y = other.decode(edition, b[i]);
            if x != y {
                return x.cmp(&y);
            }
        }
        a.len().cmp(&b.len())
    }

    // As `compare_by`. Each call has a constant for the edition, so that it need not be tested at each byte.
    fn compare(self, edition: Edition, other: Spelled) -> Ordering
        ensures { result ≡ order_of (read_as edition self.entry.quoted self.entry.bytes.now) (read_as edition other.entry.quoted other.entry.bytes.now) }
    {
        if edition == Edition::Two {
            return self.compare_by(Edition::Two, other);
        }
        self.compare_by(Edition::One, other)
    }

    // Its byte `x` and the other's byte `y` stand for the same. Most often they are one byte, and then only an underscore has to be decoded.
    fn same_byte(self, edition: Edition, x: u8, other: Spelled, y: u8) -> bool
        ensures { result ≡ eqb (byte_of edition self.entry.quoted x) (byte_of edition other.entry.quoted y) }
    {
        if x == y && x != UNDERSCORE {
            return true;
        }
        self.decode(edition, x) == other.decode(edition, y)
    }

    // As many bytes, each decoded, are the same.
    fn same_all(self, edition: Edition, other: Spelled) -> bool
        requires { length self.bytes.now ≡ length other.bytes.now }
        ensures { result ≡ same_label (read_as edition self.entry.quoted self.entry.bytes.now) (read_as edition other.entry.quoted other.entry.bytes.now) }
    {
        let a = self.bytes;
        let b = other.bytes;
        for i in 0..a.len() {
            if !self.same_byte(edition, a[i], other, b[i]) {
                return false;
            }
        }
        true
    }

    // Bytes, each decoded, are the same. What differs most often is looked at first: the lengths, the last bytes, then all.
    fn same_by(self, edition: Edition, other: Spelled) -> bool
        ensures { result ≡ same_label (read_as edition self.entry.quoted self.entry.bytes.now) (read_as edition other.entry.quoted other.entry.bytes.now) }
    {
        let a = self.bytes;
        let b = other.bytes;
        let n = a.len();
        if n != b.len() {
            return false;
        }
        if n == 0 {
            return true;
        }
        if self.decode(edition, a[n - 1]) != other.decode(edition, b[n - 1]) {
            return false;
        }
        self.same_all(edition, other)
    }

    // As `same_by`. Each call has a constant for the edition, so that it need not be tested at each byte.
    fn same(self, edition: Edition, other: Spelled) -> bool
        ensures { result ≡ same_label (read_as edition self.entry.quoted self.entry.bytes.now) (read_as edition other.entry.quoted other.entry.bytes.now) }
    {
        if edition == Edition::Two {
            return self.same_by(Edition::Two, other);
        }
        self.same_by(Edition::One, other)
    }
}

// How many bytes the label of a token has.
pub fn spelled_size(token: &[u8]) -> usize
    ensures { result ≡ length (spelling token.now) }
{
    Spelled::of(token).bytes.len()
}

// Where label `a` stands against label `b` in label order; both are decoded already.
pub fn compare(a: &[u8], b: &[u8]) -> Ordering
    ensures { result ≡ order_of a.now b.now }
{
    let x = Spelled {
        bytes: a,
        quoted: true,
    };
    let y = Spelled {
        bytes: b,
        quoted: true,
    };
    x.compare(Edition::One, y)
}

// The label that token `a` stands for comes before that of `b`, as an edition reads them.
pub fn comes_before(edition: Edition, a: &[u8], b: &[u8]) -> bool
    ensures { result ≡ label_less (key edition a.now) (key edition b.now) }
{
    Spelled::of(a).compare(edition, Spelled::of(b)).is_lt()
}

// The low byte of a number. Two functions: a trait of both types would have the same two bodies, and a ghost member for what they give.
pub fn narrow(n: usize) -> u8
    ensures { result ≡ n % 256 }
{
    (n % 256) as u8
}

// The low two bytes of a number.
pub fn narrow_place(n: usize) -> u16
    ensures { result ≡ n % 65536 }
{
    (n % 65536) as u16
}

// Two tokens stand for the same label, as an edition reads them.
pub fn same_label(edition: Edition, a: &[u8], b: &[u8]) -> bool
    ensures { result ≡ same_label (key edition a.now) (key edition b.now) }
{
    Spelled::of(a).same(edition, Spelled::of(b))
}

// Where `a` stands against `b` in label order, for labels kept apart from their text.
pub fn compare_stored(a: StoredLabel, b: StoredLabel) -> Ordering
    ensures { result ≡ order_of (stored_bytes a) (stored_bytes b) }
{
    compare(a.as_slice(), b.as_slice())
}

// The `size` bytes from `start` as a part of the caller's text, or nothing where they run past the end.
pub fn part<'a>(text: &'a [u8], start: usize, size: usize) -> &'a [u8]
    ensures { result.now ≡ part_of start size text.now }
{
    if text.len() < start {
        return &text[..0];
    }
    if text.len() - start < size {
        return &text[..0];
    }
    &text[start..start + size]
}

// An entry of an array as a number, 0 past its end: no index has to be trusted.
pub fn entry<T: Copy + Into<usize>>(xs: &[T], i: usize) -> usize
    ensures within { (d : T) → i < length xs.now → T.Into.converts (get_or xs.now i d) result }
    ensures past_end { length xs.now ≤ i → result ≡ 0 }
    ensures value { (d : T) → T.Into.converts d 0 → T.Into.converts (get_or xs.now i d) result }
{
    match xs.get(i) {
        Some(x) => (*x).into(),
        None => 0,
    }
}

// A leaf's label as the part of the caller's text that holds it, by the arrays' starts and sizes; nothing for an inner node,
// whose size is 0, and nothing where the part would run past the end.
pub fn leaf_label<'a>(text: &'a [u8], start: &[u16], size: &[u8], u: usize) -> &'a [u8]
    ensures { result.now ≡ leaf_label text.now start.now size.now u }
{
    part(text, entry(start, u), entry(size, u))
}

// Whether one of the first `count` parts that starts and sizes name stands for the same label as the token, as an edition reads them.
pub fn is_among(
    edition: Edition,
    text: &[u8],
    start: &[u16],
    size: &[u8],
    count: usize,
    token: &[u8],
) -> bool
    ensures { result ≡ is_among (in_edition edition text.now) start.now size.now count
        (in_edition edition token.now) }
{
    for u in (0..count).rev() {
        if same_label(edition, token, leaf_label(text, start, size, u)) {
            return true;
        }
    }
    false
}

// The slot of a token's label: labels that an edition reads as equal have one slot, and few others share it. The factor spreads labels
// that differ in two bytes.
pub fn slot(edition: Edition, token: &[u8]) -> usize
    ensures { result ≡ slot_of (key edition token.now) }
{
    let x = Spelled::of(token);
    let mut n: usize = 0;
    for b in x.bytes {
        let c = x.decode(edition, *b);
        n = (n * 139 + usize::from(c)) % SLOTS;
    }
    n
}

// The marks of a reader that has met no label.
pub fn first_marks() -> [u8; SLOTS]
    ensures { result ≡ first_marks }
{
    let mut seen = [0u8; SLOTS];
    seen[0] = 1;
    seen
}

// Whether the slot has a mark and one of the first `count` parts stands for the same label as the token. With the token's slot, and marks
// for the slots of all parts, this is `is_among`: without a mark nothing is compared. Inlined, since most often it is that one test.
#[inline(always)]
pub fn is_met(
    edition: Edition,
    text: &[u8],
    start: &[u16],
    size: &[u8],
    count: usize,
    token: &[u8],
    seen: &[u8],
    slot: usize,
) -> bool
    ensures { result ≡ (is_marked seen.now slot
        && is_among (in_edition edition text.now) start.now size.now count
        (in_edition edition token.now)) }
{
    if seen.len() <= slot {
        return false;
    }
    if seen[slot] == 0 {
        return false;
    }
    is_among(edition, text, start, size, count, token)
}

// The label of a token, as an edition reads it, kept apart from its text, 0 after its last byte; of a longer one its first bytes.
pub fn stored(edition: Edition, token: &[u8]) -> StoredLabel
    ensures { result ≡ stored_of (key edition token.now) }
{
    let x = Spelled::of(token);
    let len = x.bytes.len().min(LABEL_LIMIT);
    let mut bytes = [0u8; LABEL_LIMIT];
    for i in 0..len {
        bytes[i] = x.decode(edition, x.bytes[i]);
    }
    ShortBytes { bytes, len }
}

// A leaf's label, as an edition reads it, kept apart from the text.
pub fn stored_leaf(
    edition: Edition,
    text: &[u8],
    start: &[u16],
    size: &[u8],
    u: usize,
) -> StoredLabel
    ensures { result ≡ stored_of (spelling (leaf_label (in_edition edition text.now) start.now size.now u)) }
{
    stored(edition, leaf_label(text, start, size, u))
}

// Whether a label holds an underscore, and so needs quotes.
fn holds_underscore(label: &[u8]) -> bool
    ensures { result ≡ holds_underscore label.now }
{
    label.contains(&UNDERSCORE)
}

// Byte i of a label between quotes; 0 past its end.
fn quoted_byte(label: &[u8], i: usize) -> u8
    ensures { result ≡ get_or (form_of true label.now) i 0 }
{
    if i == 0 {
        return QUOTE;
    }
    if i - 1 < label.len() {
        return label[i - 1];
    }
    if i - 1 == label.len() { QUOTE } else { 0 }
}

// Byte i of a label's form, with quotes or without; 0 past its end.
fn form_byte(label: &[u8], quoted: bool, i: usize) -> u8
    ensures { result ≡ get_or (form_of quoted label.now) i 0 }
{
    if quoted {
        return quoted_byte(label, i);
    }
    if label.len() <= i {
        return 0;
    }
    if label[i] == BLANK {
        UNDERSCORE
    } else {
        label[i]
    }
}

// How many bytes such a form has, at most so many as are shown.
fn form_size(label: &[u8], quoted: bool) -> usize
    ensures { result ≡ min (length (form_of quoted label.now)) token_limit }
{
    if quoted {
        return label.len().min(LABEL_LIMIT) + 2;
    }
    label.len().min(TOKEN_LIMIT)
}

// A label as it is printed: its written form, 0 after its last byte. Inlined: a caller that asks for its length alone then makes no bytes.
#[inline(always)]
pub fn shown(label: StoredLabel) -> ShownLabel
    ensures { result ≡ shown_of (stored_bytes label) }
{
    let x = label.as_slice();
    let quoted = holds_underscore(x);
    let len = form_size(x, quoted);
    let mut bytes = [0u8; TOKEN_LIMIT];
    for i in 0..len {
        bytes[i] = form_byte(x, quoted, i);
    }
    ShortBytes { bytes, len }
}
