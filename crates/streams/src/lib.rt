// Whole buffers from a reader and to a writer. A read that fails ends the input, as its end does. A write that a signal interrupts is tried
// again; one that fails ends the output.
#![tactic(auto)]

ghost use Rattle.std.specs.Prelude.{◌≤◌, length, take, IsTrue};
ghost use Rattle.std.specs.Io.KnownBytes.{Appends, Consumes};

use std::io::{Read, Write};

// Reads until a buffer is full, the input ends or a read fails, and returns how many bytes it put at the buffer's start.
pub fn read_full<R: Read>(reader: &mut R, buffer: &mut [u8]) -> usize
    ensures within { result ≤ length buffer.new }
    ensures bytes { Consumes (R.remaining reader.old) (R.remaining reader.new) (take result buffer.new) }
{
    let mut done = 0;
    while done < buffer.len() {
        match reader.read(&mut buffer[done..]) {
            Ok(0) | Err(_) => break,
            Ok(n) => done += n,
        }
    }
    done
}

// Writes a whole text; whether all of it was written.
pub fn write_whole<W: Write>(writer: &mut W, text: &[u8]) -> bool
    ensures { IsTrue result → Appends (W.contents writer.old) (W.contents writer.new) text.now }
{
    writer.write_all(text).is_ok()
}
