// Runs a stored stream of jobs through `job` and writes each answer as `agree` would. A case is the job's length as two bytes,
// and the job.
#![tactic(auto)]

use lines::LINES_ROOM;
use std::io::{Read, Write};

// No job of a case is longer than the greatest number of two bytes.
const CASE_ROOM: usize = 65536;

// More cases than any stream has.
const CASES: usize = 100000;

// What is printed for one job.
fn run_job<W: Write>(output: &mut W, text: &[u8]) {
    let mut area = [0u8; LINES_ROOM];
    let answer = job::print_job(text, &mut area);
    streams::write_all(output, lines::written(&area, answer));
}

// The next case of the stream; false if there is none.
fn run_case<R: Read, W: Write>(input: &mut R, output: &mut W) -> bool {
    let mut head = [0u8; 2];
    let got = streams::read_full(input, &mut head);
    if got < 2 {
        return false;
    }
    let size = usize::from(u16::from_be_bytes(head));
    let mut area = [0u8; CASE_ROOM];
    let n = streams::read_full(input, &mut area[..size]);
    run_job(output, trees::part(&area, 0, n));
    true
}

fn main(rt: HostRuntime) {
    let mut input = rt.stdin();
    let mut output = rt.stdout();
    for _ in 0..CASES {
        if !run_case(&mut input, &mut output) {
            return;
        }
    }
}
