// Printing for the programs that run stored cases: bytes in hexadecimal, to a writer. Text and numbers they print with `write!`. An error says
// that what was printed last is not, or not all of it.
#![tactic(auto)]

use std::io;
use std::io::Write;

// The first bytes in hexadecimal, at most so many.
pub fn put_hex<W: Write>(out: &mut W, bytes: &[u8], most: usize) -> io::Result<()> {
    for byte in bytes.iter().take(most) {
        write!(out, "{byte:02x}")?;
    }
    Ok(())
}
