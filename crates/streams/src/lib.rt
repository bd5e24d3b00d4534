// Whole blocks in and out: reading until a block is full or the input ends, and writing all the bytes of a block.
#![tactic(auto)]

ghost use Rattle.std.specs.Prelude.{ℕ, ◌<◌, ◌≤◌, length, take, IfOk, OnOk, OnErr};
ghost use Rattle.std.specs.Io.KnownBytes.{Appends, Consumes, IsAtEnd};
ghost use Rattle.streams.specs.Streams.{AppendsFront};

use std::io;
use std::io::{ErrorKind, Read, Write};

// Reads until the buffer is full or the input ends, and says how many bytes came. They stand at the front of the buffer. An error ends it: then
// the bytes that came before it have left the input too.
// Stays beside std's `read_exact`: to that a shorter input is an error, and it does not say how many bytes came. The place counts the answer.
pub fn read_full<R: Read>(from: &mut R, buffer: &mut [u8]) -> io::Result<usize>
    ensures within { IfOk result (λ n. n ≤ length buffer.new) }
    ensures came { IfOk result (λ n. Consumes (R.remaining from.old) (R.remaining from.new) (take n buffer.new)) }
    ensures ended { IfOk result (λ n. n < length buffer.old → IsAtEnd (R.remaining from.new)) }
{
    let mut done = 0;
    while done < buffer.len() {
        let count = from.read(&mut buffer[done..])?;
        if count == 0 {
            return Ok(done);
        }
        done += count;
    }
    Ok(done)
}

// Writes all the bytes. It stops at the first write that takes nothing or fails, with an error: then a front of the bytes is written, and no more.
// Stays beside std's `write_all`: that promises nothing on an error, and the clause `front` is what `trace::run` needs then.
pub fn write_all<W: Write>(to: &mut W, bytes: &[u8]) -> io::Result<()>
    ensures all { OnOk result (Appends (W.contents to.old) (W.contents to.new) bytes.now) }
    ensures front { OnErr result (AppendsFront (W.contents to.old) (W.contents to.new) bytes.now) }
{
    let mut rest = bytes;
    while !rest.is_empty() {
        match to.write(rest)? {
            0 => return Err(io::Error::from(ErrorKind::WriteZero)),
            count => rest = &rest[count..],
        }
    }
    Ok(())
}
