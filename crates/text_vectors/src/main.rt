// Runs a stored stream of texts through the readers and the writer and prints a line for each: the normal text, or the labels of
// a list with their number, as they stand in it, or the refusal; and for a place, any number of the machine, the line of a refusal
// there. A case is a kind byte, `t` for a tree, `l` for a list and `p` for a place, the length as two bytes, and the text; a place is
// eight bytes, the highest first. `T` and `L` are a tree and a list under the second edition.
#![tactic(auto)]

use lists::LabelPlaces;
use std::io::{Read, Write};
use trees::{Body, Edition, Reason, Refusal, TREE_ROOM};

// More than any refusal's line takes.
const REFUSAL_ROOM: usize = 4096;

// No text of a case is longer than the greatest number of two bytes.
const CASE_ROOM: usize = 65536;

// More cases than any stream has.
const CASES: usize = 100000;

// As in `normal`: a crate for both would be longer than the function.
fn print_refusal<W: Write>(output: &mut W, refusal: Refusal) {
    let mut area = [0u8; REFUSAL_ROOM];
    let answer = lines::refusal_line(refusal, &mut area);
    streams::write_all(output, lines::written(&area, answer));
}

fn print_tree<W: Write>(output: &mut W, edition: Edition, text: &[u8]) {
    let read = newick::read_tree(edition, text, Body::S);
    let answer = read.answer;
    if let Err(refusal) = answer {
        print_refusal(output, refusal);
        return;
    }
    let tree = read.tree;
    let mut area = [0u8; TREE_ROOM];
    let written = writer::write_tree(edition, tree, text, &mut area);
    if let Ok(n) = written {
        streams::write_all(output, trees::part(&area, 0, n));
        streams::write_all(output, b"\n");
    }
}

// The labels of a list, as they stand in it, with commas between them.
fn print_labels<W: Write>(output: &mut W, text: &[u8], places: LabelPlaces) {
    for i in 0..places.count {
        if 0 < i {
            streams::write_all(output, b",");
        }
        streams::write_all(
            output,
            trees::leaf_label(text, &places.start, &places.size, i),
        );
    }
}

fn print_number<W: Write>(output: &mut W, n: usize) {
    streams::write_all(output, decimals::digits(n).as_slice());
}

fn print_list<W: Write>(output: &mut W, edition: Edition, text: &[u8]) {
    let read = lists::read_list(edition, text, Body::K);
    let answer = read.answer;
    if let Err(refusal) = answer {
        print_refusal(output, refusal);
        return;
    }
    streams::write_all(output, b"list ");
    print_number(output, read.places.count);
    streams::write_all(output, b" ");
    print_labels(output, text, read.places);
    streams::write_all(output, b"\n");
}

fn print_place<W: Write>(output: &mut W, text: &[u8]) {
    if let Ok(place) = <[u8; 8]>::try_from(trees::part(text, 0, 8)) {
        print_refusal(
            output,
            Refusal {
                reason: Reason::BadByte,
                body: Body::S,
                place: usize::from_be_bytes(place),
            },
        );
    }
}

fn print_case<W: Write>(output: &mut W, kind: u8, text: &[u8]) {
    match kind {
        b't' => print_tree(output, Edition::One, text),
        b'T' => print_tree(output, Edition::Two, text),
        b'l' => print_list(output, Edition::One, text),
        b'L' => print_list(output, Edition::Two, text),
        _ => print_place(output, text),
    }
}

// The next case of the stream; false if there is none.
fn run_case<R: Read, W: Write>(input: &mut R, output: &mut W) -> bool {
    let mut head = [0u8; 3];
    let got = streams::read_full(input, &mut head);
    if got < 3 {
        return false;
    }
    let size = usize::from(u16::from_be_bytes([head[1], head[2]]));
    let mut area = [0u8; CASE_ROOM];
    let n = streams::read_full(input, &mut area[..size]);
    print_case(output, head[0], trees::part(&area, 0, n));
    true
}

fn main(rt: HostRuntime) {
    let mut input = rt.stdin();
    let mut output = rt.stdout();
    for _ in 0..CASES {
        if !run_case(&mut input, &mut output) {
            return;
        }
    }
}
