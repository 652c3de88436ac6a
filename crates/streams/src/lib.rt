// The streams of a program: read into a lent buffer up to its end, and written from one. Nothing is
// allocated.
#![tactic(auto)]

ghost use Rattle.std.specs.Prelude.{◌≤◌, length, take};
ghost use Rattle.std.specs.Io.KnownBytes.{Consumes};
ghost use Rattle.streams.specs.Streams.{Writes};

use std::io::{Read, Write};

// Reads until the buffer is full or the input ends, and answers how many bytes stand at its start. A read
// that fails counts as the end of the input.
pub fn read_full<R: Read>(input: &mut R, buffer: &mut [u8]) -> usize
    ensures inside { result ≤ length buffer.new }
    ensures bytes { Consumes (R.remaining input.old) (R.remaining input.new) (take result buffer.new) }
{
    // A slice of what is left would be no plainer: `done` is the answer, and grows by what each read gave.
    let mut done = 0;
    while done < buffer.len() {
        let count = input.read(&mut buffer[done..]).unwrap_or(0);
        if count == 0 {
            return done;
        }
        done += count;
    }
    done
}

// Writes a text, and answers whether all of it was written: at the first write that fails or takes
// nothing it stops, when the start of the text may have been written.
pub fn write_all<W: Write>(output: &mut W, text: &[u8]) -> bool
    ensures { Writes (W.contents output.old) (W.contents output.new) text.now result }
{
    // std's own `write_all` doesn't say what was written before a write that failed.
    let mut rest = text;
    while !rest.is_empty() {
        let count = output.write(rest).unwrap_or(0);
        if count == 0 {
            return false;
        }
        rest = &rest[count..];
    }
    true
}
