// A job: contents and bodies in, printed lines out.
//
// No public function has a `requires`.
#![tactic(auto)]

ghost use Rattle.std.specs.Prelude.{◌≡◌, length, replicate, ◌+◌, ◌≤◌, false, []};
ghost use Rattle.contents.specs.Contents.{layout_of};
ghost use Rattle.std.proofs.Math.Option.{some, none};
ghost use Rattle.queries.specs.Query.{task};
ghost use Rattle.mast.specs.declared.Denied.TheVariants as denied;
ghost use Rattle.trees.specs.declared.Body.TheVariants.{J};
ghost use Rattle.job.specs.Printed.{printed, solve_task, solve_job, job_limit};
ghost use Rattle.job.specs.NamedPlaces.{Near, NearBy, Inside};
ghost use Rattle.lines.specs.Output.{line_answer, line_output};
ghost use Rattle.lines.specs.PieceLines.{lines_at};
ghost use Rattle.job.specs.Answered.{base_of, moved_label, moved_by, denied_at, answered, answer_to, job_output};

use contents::Table;
use mast::{Denied, Divided, Named, NamedLabel};
use pairs::Options;
use trees::{Body, Reason, Refusal, TREE_ROOM};

// The most bytes of a job.
const JOB_LIMIT: usize = 16384;

// One more byte.
const JOB_AREA: usize = JOB_LIMIT + 1;

// Where the first tree, the list and the claim begin in a job.
#[derive(Clone, Copy)]
pub struct Begin {
    pub tree: usize,
    pub list: usize,
    pub claim: usize,
}

// An area for a job: one byte more than a job may have, so that a longer one is recognized by its length.
pub fn job_area() -> [u8; JOB_AREA]
    ensures zeros { result ≡ replicate (job_limit + 1) 0 }
    ensures room { job_limit + 1 ≡ length result }
{
    [0; JOB_AREA]
}

// The refusals that the job itself gives: their place is J 0.
fn job_refusal(reason: Reason) -> Denied
    ensures { result ≡ denied.Refused (record { reason = reason; body = J; place = 0 }) }
{
    Denied::Refused(Refusal {
        reason,
        body: Body::J,
        place: 0,
    })
}

// Where the list of a refusal that names labels begins: that of the claim for the letter C, otherwise the required one.
#[tactic(auto, unfolding(crate::specs::Answered::base_of))]
fn base_of(at: Begin, body: Body) -> usize
    ensures { result ≡ base_of at body }
{
    match body {
        Body::C => at.claim,
        Body::S | Body::T | Body::K | Body::J | Body::O => at.list,
    }
}

// A label by places in a job: its list begins at `base`, the first tree at `origin`.
fn label_in(origin: usize, base: usize, label: NamedLabel) -> NamedLabel
    requires { (base + label.place ≤ job_limit) × (origin + label.start ≤ job_limit) }
    ensures { result ≡ moved_label origin base label }
{
    NamedLabel {
        place: base + label.place,
        start: origin + label.start,
        size: label.size,
    }
}

// Three labels by places in a job.
fn named_in(origin: usize, base: usize, named: Named) -> Named
    requires { Near job_limit origin base named }
    ensures { result ≡ moved_by origin base named }
{
    let one = named.first;
    let two = named.second;
    let three = named.third;
    Named {
        first: label_in(origin, base, one),
        second: label_in(origin, base, two),
        third: label_in(origin, base, three),
    }
}

// A refusal by places in a job.
fn denied_in(at: Begin, given: Denied) -> Denied
    requires { NearBy job_limit at given }
    ensures { result ≡ denied_at at given }
{
    match given {
        Denied::Naming(refusal, named) => {
            let body = refusal.body;
            Denied::Naming(refusal, named_in(at.tree, base_of(at, body), named))
        }
        Denied::Refused(refusal) => Denied::Refused(refusal),
    }
}

// Writes the lines of the engine's result, those of its pieces first if they are asked for.
fn result_lines(
    pieces: bool,
    first: &[u8],
    res: Divided,
    tree: &[u8],
    out: &mut [u8],
) -> Result<usize, Refusal>
    ensures answer { result ≡ line_answer (lines_at pieces first.now res.pieces res.set tree.now) (length out.old) }
    ensures output { out.new ≡ line_output (lines_at pieces first.now res.pieces res.set tree.now)
        out.old }
{
    let set = res.set;
    if pieces {
        return lines::divided_lines(first, res.pieces, set, tree, out);
    }
    lines::set_lines(first, set, tree, out)
}

// The answer to three bodies, which begin at these places in the job, with the pieces if they are asked for.
fn answer_bodies(
    pieces: bool,
    options: Options,
    first: &[u8],
    second: &[u8],
    list: &[u8],
    at: Begin,
    out: &mut [u8],
) -> Result<usize, Denied>
    requires { Inside job_limit at first.now list.now [] }
    ensures answer { result ≡ answered at (length out.old)
        (solve_task pieces (task options first.now second.now list.now) none) }
    ensures output { out.new ≡ job_output
        (solve_task pieces (task options first.now second.now list.now) none)
        out.old }
{
    let mut tree = [0u8; TREE_ROOM];
    match mast::largest_in_pieces(options, first, second, list, pieces, &mut tree) {
        Ok(divided) => {
            let text = &tree[..divided.length];
            Ok(result_lines(pieces, first, divided, text, out)?)
        }
        Err(denied) => Err(denied_in(at, denied)),
    }
}

// The answer to three bodies and a claim, which begin at these places in the job.
fn answer_claim(
    options: Options,
    first: &[u8],
    second: &[u8],
    list: &[u8],
    claim: &[u8],
    at: Begin,
    out: &mut [u8],
) -> Result<usize, Denied>
    requires { Inside job_limit at first.now list.now claim.now }
    ensures answer { result ≡ answered at (length out.old)
        (solve_task false (task options first.now second.now list.now) (some claim.now)) }
    ensures output { out.new ≡ job_output
        (solve_task false (task options first.now second.now list.now) (some claim.now))
        out.old }
{
    match claims::judge(options, first, second, list, claim) {
        Ok(size) => Ok(lines::claim_line(size, out)?),
        Err(denied) => Err(denied_in(at, denied)),
    }
}

// The answer to a job with these contents: the verdict on its claim, or the set if it has none.
fn answer_laid(job: &[u8], table: Table, out: &mut [u8]) -> Result<usize, Denied>
    requires job_len_bound { length job.now ≤ job_limit }
    requires table_value { Some table ≡ layout_of job.now }
    ensures answer { result ≡ answer_to job.now (length out.old) }
    ensures output { out.new ≡ job_output (solve_job job.now) out.old }
{
    let head = table.head;
    let stated = head.stated;
    let options = Options {
        strict: head.strict,
        edition: contents::edition_of(stated),
    };
    let first = table.first;
    let second = table.second;
    let list = table.list;
    let claim = table.claim;
    let at = Begin {
        tree: contents::place_of(first),
        list: contents::place_of(list),
        claim: contents::place_of(claim),
    };
    let s = contents::bytes_of(job, first);
    let t = contents::bytes_of(job, second);
    let k = contents::bytes_of(job, list);
    match claim {
        None => answer_bodies(head.pieces, options, s, t, k, at, out),
        Some(_) => { answer_claim(options, s, t, k, contents::bytes_of(job, claim), at, out) }
    }
}

// The answer to a job: its lines in `out`, and how many bytes they have; or a refusal, number 8 or 14 with the labels that it names by
// places in the job, and `out` then keeps every byte.
pub fn answer_job(job: &[u8], out: &mut [u8]) -> Result<usize, Denied>
    ensures answer { result ≡ answer_to job.now (length out.old) }
    ensures output { out.new ≡ job_output (solve_job job.now) out.old }
{
    if JOB_LIMIT < job.len() {
        return Err(job_refusal(Reason::JobTooLong));
    }
    let Some(table) = contents::contents(job) else {
        return Err(job_refusal(Reason::Contents));
    };
    answer_laid(job, table, out)
}

// Writes what is printed for a job into `out`: the three lines of its set, after those of its pieces if they are asked for; the line of its
// claim; or that of its refusal.
pub fn print_job(job: &[u8], out: &mut [u8]) -> Result<usize, Refusal>
    ensures answer { result ≡ line_answer (printed job.now) (length out.old) }
    ensures output { out.new ≡ line_output (printed job.now) out.old }
{
    match answer_job(job, out) {
        Ok(n) => Ok(n),
        Err(Denied::Naming(refusal, named)) => lines::naming_line(job, refusal, named, out),
        Err(Denied::Refused(refusal)) => {
            if refusal.reason == Reason::TooShort {
                return Err(refusal);
            }
            lines::refusal_line(refusal, out)
        }
    }
}
