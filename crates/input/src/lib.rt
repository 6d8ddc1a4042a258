// A record from standard input, for programs.
#![tactic(auto)]

ghost use Rattle.std.specs.Prelude.{length};
ghost use Rattle.input.specs.Lengths.{Read, Taken};

use std::io;
use std::io::Read;

// The most bytes that a record may have.
pub const LONGEST_RECORD: usize = 65536;

// Reads until the buffer is full or the input ends, and answers how many bytes were read.
pub fn read_input<R: Read>(source: &mut R, buf: &mut [u8]) -> io::Result<usize>
    ensures within { Read result (length buf.new) }
    ensures bytes { Taken result (R.remaining source.old) (R.remaining source.new) buf.new }
{
    let mut n = 0;
    // a `while`: n moves on by as much as a read gives
    while n < buf.len() {
        match source.read(&mut buf[n..])? {
            0 => break,
            k => n += k,
        }
    }
    Ok(n)
}
