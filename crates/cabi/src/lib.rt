// The engine for hosts written in C: numbers and byte slices in, numbers out. One archive, one header (include/agree.h).
//
// No function has a `requires`. A struct of numbers is returned by value: every answer is a few numbers, and a host reads them by name. A
// packed number would have to be taken apart.
#![tactic(auto)]

ghost use Rattle.std.specs.Prelude.{◌≡◌, length};
ghost use Rattle.queries.specs.Query.{task, plain};
ghost use Rattle.mast.specs.Largest.{solve, output_of};
ghost use Rattle.job.specs.Printed.{solve_job};
ghost use Rattle.job.specs.Answered.{answer_to, job_output};
ghost use Rattle.cabi.specs.Numbers.{succeeded, naming_with, named_with, refused_with, denied_with, numbers_of, claim_numbers, job_numbers};
ghost use Rattle.cabi.specs.Numbers.{outcome_of, options_of, solve_with, judge_with};

use mast::{Denied, Named};
use pairs::Options;
use trees::{Body, Edition, Reason, Refusal};

// The flag for `strict`: a leaf in only one tree stops the job.
const STRICT: usize = 1;

// The flag for edition 2; no greater flag is known.
const EDITION_2: usize = 2;

// The refusal's number (0 on success), its letter and place. On success `length` is that of the text in the output; `size` is the size of
// the set for `agree_largest` and `agree_claim`. For numbers 8 and 14 `first`, `second` and `third` are the places of the three labels: in
// the list, in the claim or, for `agree_job`, in the job.
#[repr(C)]
#[derive(Clone, Copy)]
pub struct AgreeResult {
    pub number: usize,
    pub letter: usize,
    pub place: usize,
    pub size: usize,
    pub length: usize,
    pub first: usize,
    pub second: usize,
    pub third: usize,
}

// Success: number 0.
fn succeeded(size: usize, length: usize) -> AgreeResult
    ensures { result ≡ succeeded size length }
{
    AgreeResult {
        number: 0,
        letter: 0,
        place: 0,
        size,
        length,
        first: 0,
        second: 0,
        third: 0,
    }
}

// The numbers of a refusal, with three places.
fn row(refusal: Refusal, first: usize, second: usize, third: usize) -> AgreeResult
    ensures { result ≡ naming_with refusal first second third }
{
    let reason = refusal.reason;
    let body = refusal.body;
    let number = usize::from(u8::from(reason));
    let letter = usize::from(u8::from(body));
    AgreeResult {
        number,
        letter,
        place: refusal.place,
        size: 0,
        length: 0,
        first,
        second,
        third,
    }
}

// Number 8 or 14, with the places of the three labels that it names.
fn named_with(refusal: Refusal, named: Named) -> AgreeResult
    ensures { result ≡ named_with refusal named }
{
    let one = named.first;
    let two = named.second;
    let three = named.third;
    row(refusal, one.place, two.place, three.place)
}

// Any other refusal.
fn refused_with(refusal: Refusal) -> AgreeResult
    ensures { result ≡ refused_with refusal }
{
    row(refusal, 0, 0, 0)
}

// A refusal, with the labels that it names.
fn denied_with(denied: Denied) -> AgreeResult
    ensures { result ≡ denied_with denied }
{
    match denied {
        Denied::Naming(refusal, named) => named_with(refusal, named),
        Denied::Refused(refusal) => refused_with(refusal),
    }
}

// The numbers of the engine's answer.
fn answered(
    options: Options,
    first: &[u8],
    second: &[u8],
    required: &[u8],
    out: &mut [u8],
) -> AgreeResult
    ensures numbers { result ≡ numbers_of
        (solve (task options first.now second.now required.now) (length out.old)) }
    ensures output { out.new ≡ output_of
        (solve (task options first.now second.now required.now) (length out.old))
        out.old }
{
    match mast::largest(options, first, second, required, out) {
        Ok(found) => succeeded(found.size, found.length),
        Err(denied) => denied_with(denied),
    }
}

// The largest agreement set; its tree's text goes into `out`.
#[unsafe(no_mangle)]
pub extern "C" fn agree_largest(
    first: &[u8],
    second: &[u8],
    required: &[u8],
    out: &mut [u8],
) -> AgreeResult
    ensures numbers { result ≡ numbers_of
        (solve (task (plain Edition.One) first.now second.now required.now) (length out.old)) }
    ensures output { out.new ≡ output_of
        (solve (task (plain Edition.One) first.now second.now required.now) (length out.old))
        out.old }
{
    let options = Options {
        strict: false,
        edition: Edition::One,
    };
    answered(options, first, second, required, out)
}

// The options of the flags, or the refusal of unknown ones.
fn options_of(flags: usize) -> Result<Options, Refusal>
    ensures { outcome_of result ≡ options_of flags }
{
    if flags > STRICT + EDITION_2 {
        return Err(Refusal {
            reason: Reason::Contents,
            body: Body::J,
            place: 0,
        });
    }
    if flags < EDITION_2 {
        return Ok(Options {
            strict: flags == STRICT,
            edition: Edition::One,
        });
    }
    Ok(Options {
        strict: flags == STRICT + EDITION_2,
        edition: Edition::Two,
    })
}

// The same with flags: 1 for `strict`, 2 for edition 2, 3 for both. Unknown flags are refused with 10, J, 0, before anything is read.
#[unsafe(no_mangle)]
pub extern "C" fn agree_largest_with(
    flags: usize,
    first: &[u8],
    second: &[u8],
    required: &[u8],
    out: &mut [u8],
) -> AgreeResult
    ensures numbers { result ≡ numbers_of
        (solve_with flags first.now second.now required.now (length out.old)) }
    ensures output { out.new ≡ output_of
        (solve_with flags first.now second.now required.now (length out.old))
        out.old }
{
    let options = match options_of(flags) {
        Ok(options) => options,
        Err(refusal) => return refused_with(refusal),
    };
    answered(options, first, second, required, out)
}

// Whether a claimed set contains every required label, the trees agree on it and no larger such set exists: its size, or the first refusal.
// Flags are as above.
#[unsafe(no_mangle)]
pub extern "C" fn agree_claim(
    flags: usize,
    first: &[u8],
    second: &[u8],
    required: &[u8],
    claim: &[u8],
) -> AgreeResult
    ensures { result ≡ claim_numbers
        (judge_with flags first.now second.now required.now claim.now) }
{
    let options = match options_of(flags) {
        Ok(options) => options,
        Err(refusal) => return refused_with(refusal),
    };
    match claims::judge(options, first, second, required, claim) {
        Ok(size) => succeeded(size, 0),
        Err(denied) => denied_with(denied),
    }
}

// The answer to a job; its lines go into `out`. The size is in the first of them, or in the only one for a job with a claim.
#[unsafe(no_mangle)]
pub extern "C" fn agree_job(bytes: &[u8], out: &mut [u8]) -> AgreeResult
    ensures numbers { result ≡ job_numbers (answer_to bytes.now (length out.old)) }
    ensures output { out.new ≡ job_output (solve_job bytes.now) out.old }
{
    match job::answer_job(bytes, out) {
        Ok(length) => succeeded(0, length),
        Err(denied) => denied_with(denied),
    }
}
