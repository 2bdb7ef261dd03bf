// Reads one tree text from standard input and writes its normal text and a line end, or one refusal line with letter S. A text alone states
// no edition: it is read and written under the first.
//
// No accepted text is longer than `trees::TREE_ROOM` bytes, and no refusal has a place beyond. Each is decided by the bytes before its
// place, the label that begins there and one more byte. So the first `INPUT_ROOM` bytes decide the answer to an input of any length.
#![tactic(auto)]

use std::io::Write;
use trees::{Body, Edition, Refusal, TOKEN_LIMIT, TREE_ROOM};

const INPUT_ROOM: usize = TREE_ROOM + TOKEN_LIMIT + 1;

// More than any refusal's line takes.
const REFUSAL_ROOM: usize = 4096;

// As in `text_vectors`: a crate for both would be longer than the function.
fn print_refusal<W: Write>(output: &mut W, refusal: Refusal) {
    let mut area = [0u8; REFUSAL_ROOM];
    let answer = lines::refusal_line(refusal, &mut area);
    streams::write_all(output, lines::written(&area, answer));
}

// The line for a text. The writer has room for every tree that was read, so it always writes.
fn print_line<W: Write>(output: &mut W, text: &[u8]) {
    let read = newick::read_tree(Edition::One, text, Body::S);
    let answer = read.answer;
    if let Err(refusal) = answer {
        print_refusal(output, refusal);
        return;
    }
    let tree = read.tree;
    let mut area = [0u8; TREE_ROOM];
    let written = writer::write_tree(Edition::One, tree, text, &mut area);
    if let Ok(n) = written {
        streams::write_all(output, trees::part(&area, 0, n));
        streams::write_all(output, b"\n");
    }
}

fn main(rt: HostRuntime) {
    let mut input = [0u8; INPUT_ROOM];
    let n = streams::read_full(&mut rt.stdin(), &mut input);
    print_line(&mut rt.stdout(), &input[..n]);
}
