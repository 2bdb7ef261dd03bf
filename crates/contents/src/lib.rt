// The table of contents of a job: the line `strict`, a line of the edition and the line `pieces` where the job carries them, a line with
// the length of each body, the claimed set's only where the job has one, an empty line, then the bodies.
//
// No public function has a `requires`. Each line is a step from one place to the next, so a further line is a further step.
#![tactic(auto)]

ghost use Rattle.std.specs.Prelude.{◌≡◌, [], ◌∷◌, drop};
ghost use Rattle.contents.specs.Contents.{word_after, stated_at, head_at, line_after, line_of, place_after, placed_of, spans_after, bodies_after, table_of, laid_out, layout_of};
ghost use Rattle.contents.specs.Contents.{bytes, span_in, place_of, edition_of, claim_allowed};

use trees::{Body, Edition};

mod decimal;

// The lines before those of the bodies: whether the job carries `strict`, which edition it states, if any, and whether it carries `pieces`.
#[derive(Clone, Copy)]
pub struct Head {
    pub strict: bool,
    pub stated: Option<Edition>,
    pub pieces: bool,
}

// Where a body is in the job: its first byte and its length.
#[derive(Clone, Copy)]
pub struct Span {
    pub at: usize,
    pub len: usize,
}

// The lines before those of the bodies, and the bodies that the job has.
#[derive(Clone, Copy)]
pub struct Table {
    pub head: Head,
    pub first: Option<Span>,
    pub second: Option<Span>,
    pub list: Option<Span>,
    pub claim: Option<Span>,
}

// What a job states of its edition, and the place of the next byte.
#[derive(Clone, Copy)]
pub struct StatedAt {
    pub stated: Option<Edition>,
    pub next: usize,
}

// The lines before those of the bodies, and the place of the next byte.
#[derive(Clone, Copy)]
pub struct HeadAt {
    pub head: Head,
    pub next: usize,
}

// The length in bytes that a job lists of a body, if it does, and the place of the next byte.
#[derive(Clone, Copy)]
pub struct Line {
    pub listed: Option<usize>,
    pub next: usize,
}

// The lengths that a job lists of its bodies.
#[derive(Clone, Copy)]
struct Lengths {
    first: Option<usize>,
    second: Option<usize>,
    list: Option<usize>,
    claim: Option<usize>,
}

// Where a body is, if the job has it, and the place of the next byte.
#[derive(Clone, Copy)]
pub struct Placed {
    pub span: Option<Span>,
    pub next: usize,
}

// The text from a place on: nothing past its end.
pub(crate) fn rest(text: &[u8], at: usize) -> &[u8]
    ensures { result.now ≡ drop at text.now }
{
    &text[at.min(text.len())..]
}

// The place after these bytes, if they stand in the job from a place on. Inlined: a job whose lengths do not
// add up is refused sooner.
#[inline(always)]
fn word_after(job: &[u8], at: usize, word: &[u8]) -> Option<usize>
    ensures { result ≡ word_after job.now (Some at) word.now }
{
    if !rest(job, at).starts_with(word) {
        return None;
    }
    Some(at + word.len())
}

// The line of the edition, which a job may leave out: at most one line is taken.
#[tactic(auto, unfolding(trees::specs::Words::bytes_of, crate::specs::Contents::line, crate::specs::Contents::word_after, crate::specs::Contents::flag_at, crate::specs::Contents::stated_of, crate::specs::Contents::stated_at))]
fn stated_at(job: &[u8], at: usize) -> StatedAt
    ensures { result ≡ stated_at job.now at }
{
    if let Some(next) = word_after(job, at, b"E 1\n") {
        return StatedAt {
            stated: Some(Edition::One),
            next,
        };
    }
    if let Some(next) = word_after(job, at, b"E 2\n") {
        return StatedAt {
            stated: Some(Edition::Two),
            next,
        };
    }
    StatedAt {
        stated: None,
        next: at,
    }
}

// The lines before those of the bodies.
fn head_at(job: &[u8]) -> HeadAt
    ensures { result ≡ head_at job.now }
{
    let strict = word_after(job, 0, b"strict\n");
    let edition = stated_at(job, strict.unwrap_or(0));
    let pieces = word_after(job, edition.next, b"pieces\n");
    let head = Head {
        strict: strict.is_some(),
        stated: edition.stated,
        pieces: pieces.is_some(),
    };
    HeadAt {
        head,
        next: pieces.unwrap_or(edition.next),
    }
}

// The line of a body, from a place on; `needed`: whether each job has it.
#[tactic(auto, unfolding(crate::specs::Contents::line, crate::specs::Contents::word_after, crate::specs::Contents::counted, crate::specs::Contents::line_after, crate::specs::Contents::line_of))]
fn line_after(job: &[u8], at: usize, body: Body, needed: bool) -> Option<Line>
    ensures { result ≡ line_of (line_after job.now (Some at) (record { body = body; needed = needed })) }
{
    let opening = [u8::from(body), b' '];
    let Some(digits) = word_after(job, at, &opening) else {
        if needed {
            return None;
        }
        return Some(Line {
            listed: None,
            next: at,
        });
    };
    let number = decimal::number_at(job, digits)?;
    let next = word_after(job, number.next, b"\n")?;
    Some(Line {
        listed: Some(number.value),
        next,
    })
}

// Whether a job with these lines may list this of the claim: pieces are for jobs that ask for a set, so not with a claim.
#[tactic(auto, unfolding(crate::specs::Contents::may_claim, crate::specs::Contents::claim_allowed))]
fn claim_allowed(head: Head, claim: Option<usize>) -> bool
    ensures { result ≡ claim_allowed head claim }
{
    claim.is_none() || !head.pieces
}

// A body of the length that its line lists, from a place on.
#[tactic(auto, unfolding(crate::specs::Contents::place_after, crate::specs::Contents::placed_of))]
fn place_after(job: &[u8], at: usize, listed: Option<usize>) -> Option<Placed>
    ensures { result ≡ placed_of (place_after job.now (Some at) listed) }
{
    let Some(len) = listed else {
        return Some(Placed {
            span: None,
            next: at,
        });
    };
    let next = at.checked_add(len)?;
    if job.len() < next {
        return None;
    }
    Some(Placed {
        span: Some(Span { at, len }),
        next,
    })
}

// Bodies of these lengths, from a place on to the end of the job. Inlined, as `word_after` is.
#[inline(always)]
#[tactic(auto, using(crate::proofs::ChainLaws::bodies_steps), unfolding(crate::proofs::ChainLaws::bodies_of_lengths))]
fn bodies_at(job: &[u8], at: usize, head: Head, lengths: Lengths) -> Option<Table>
    ensures { let vs = lengths.first ∷ lengths.second ∷ lengths.list ∷ lengths.claim ∷ [] in
        result ≡ laid_out job.now (table_of head (spans_after job.now (Some at) vs)) (bodies_after job.now (Some at) vs) }
{
    let first = place_after(job, at, lengths.first)?;
    let second = place_after(job, first.next, lengths.second)?;
    let list = place_after(job, second.next, lengths.list)?;
    let claim = place_after(job, list.next, lengths.claim)?;
    if claim.next != job.len() {
        return None;
    }
    Some(Table {
        head,
        first: first.span,
        second: second.span,
        list: list.span,
        claim: claim.span,
    })
}

// Where the bodies are in a job; none where the contents break their rules.
#[tactic(auto, using(crate::proofs::ChainLaws::contents_steps), unfolding(crate::proofs::ChainLaws::contents_of))]
pub fn contents(job: &[u8]) -> Option<Table>
    ensures { result ≡ layout_of job.now }
{
    let front = head_at(job);
    let first = line_after(job, front.next, Body::S, true)?;
    let second = line_after(job, first.next, Body::T, true)?;
    let list = line_after(job, second.next, Body::K, true)?;
    let claim = line_after(job, list.next, Body::C, false)?;
    if !claim_allowed(front.head, claim.listed) {
        return None;
    }
    let begin = word_after(job, claim.next, b"\n")?;
    let lengths = Lengths {
        first: first.listed,
        second: second.listed,
        list: list.listed,
        claim: claim.listed,
    };
    bodies_at(job, begin, front.head, lengths)
}

// The bytes of a body: none where the job has none.
#[tactic(auto, unfolding(crate::specs::Contents::span_in))]
pub fn bytes_of<'a>(job: &'a [u8], span: Option<Span>) -> &'a [u8]
    ensures { result.now ≡ bytes (span_in job.now span) }
{
    match span {
        None => &job[..0],
        Some(s) => trees::part(job, s.at, s.len),
    }
}

// Where a body begins in the job: 0 where the job has none.
#[tactic(auto, unfolding(crate::specs::Contents::place_of))]
pub fn place_of(span: Option<Span>) -> usize
    ensures { result ≡ place_of span }
{
    span.map_or(0, |s| s.at)
}

// The edition that a job has by what it states: the first one if it states nothing.
#[tactic(auto, unfolding(crate::specs::Contents::edition_of))]
pub fn edition_of(stated: Option<Edition>) -> Edition
    ensures { result ≡ edition_of stated }
{
    stated.unwrap_or(Edition::One)
}
