// Standard input read until a buffer is full, and bytes written to standard output, as the programs do it: a read that fails is the end of
// the input, and a write that fails ends quietly. For any reader and any writer of `std::io`; nothing is allocated.
#![tactic(auto)]

ghost use Rattle.std.specs.Prelude.{◌≤◌, IsTrue, length, take};
ghost use Rattle.std.specs.Io.KnownBytes.{Appends, Consumes};

use std::io::{Read, Write};

// Reads once, and returns how many bytes it put at the start of `buf`: none at the end of the input, or if the read fails.
fn read_some<R: Read>(input: &mut R, buf: &mut [u8]) -> usize
    ensures bound { result ≤ length buf.new }
    ensures bytes { Consumes (R.remaining input.old) (R.remaining input.new) (take result buf.new) }
{
    input.read(buf).unwrap_or(0)
}

// Reads until `buf` is full, the input ends or a read fails, and returns how many bytes it put at the start of `buf`. They are the next of the
// input, in order. If `buf` is empty, it reads nothing. No clause says how many: a read may fail at any time.
pub fn read_full<R: Read>(input: &mut R, buf: &mut [u8]) -> usize
    ensures bound { result ≤ length buf.new }
    ensures bytes { Consumes (R.remaining input.old) (R.remaining input.new) (take result buf.new) }
{
    let mut done: usize = 0;
    while done < buf.len() {
        let n = read_some(input, &mut buf[done..]);
        if n == 0 {
            return done;
        }
        done += n;
    }
    done
}

// Writes all of `bytes` and returns true, or stops where a write fails and returns false, when some may have been written.
pub fn write_all<W: Write>(output: &mut W, bytes: &[u8]) -> bool
    ensures { IsTrue result → Appends (W.contents output.old) (W.contents output.new) bytes.now }
{
    output.write_all(bytes).is_ok()
}
