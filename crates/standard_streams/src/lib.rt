// Standard input and output for the programs. A read that fails is told from the end of the input, and a write that fails is said on standard error.
// No contract can speak of what the system gives or takes; where it is known what a reader has left and what a writer holds, the clauses say what happens to it.
#![tactic(auto)]

ghost use Rattle.std.specs.Prelude.{◌≡◌, ◌<◌, ℕ, take, length, codes, IfOk, OnOk, OnErr};
ghost use Rattle.std.specs.Io.{ReadsAtMost};
ghost use Rattle.std.specs.Io.KnownBytes.{Appends, Consumes, IsAtEnd};

use std::io;
use std::io::{Read, Write};

// Reads into the front of `buf` until it is full or the input ends, and gives how many bytes were read; the error of a read that fails before that: what was read
// until then stands in the front of `buf`.
pub fn read<R: Read>(input: &mut R, buf: &mut [u8]) -> io::Result<usize>
    ensures counts { ReadsAtMost result buf.new }
    ensures bytes { IfOk result (λ n. Consumes (R.remaining input.old) (R.remaining input.new) (take n buf.new)) }
    ensures end { IfOk result (λ n. n < length buf.new → IsAtEnd (R.remaining input.new)) }
    ensures err { OnErr result ((n : ℕ) × Consumes (R.remaining input.old) (R.remaining input.new) (take n buf.new)) }
{
    let mut count = 0;
    while count < buf.len() {
        let more = input.read(&mut buf[count..])?;
        if more == 0 {
            return Ok(count);
        }
        count += more;
    }
    Ok(count)
}

// Writes a text; where that fails, says so on standard error, `errors`, and gives the error: a front of the text is written.
pub fn write<W: Write, E: Write>(output: &mut W, errors: &mut E, text: &[u8]) -> io::Result<()>
    ensures bytes { OnOk result (Appends (W.contents output.old) (W.contents output.new) text.now) }
    ensures quiet { OnOk result (E.contents errors.new ≡ E.contents errors.old) }
    ensures err { OnErr result ((n : ℕ) × Appends (W.contents output.old) (W.contents output.new) (take n text.now)) }
    ensures said { OnErr result ((n : ℕ) × Appends (E.contents errors.old) (E.contents errors.new) (take n (codes "standard output can't be written\n"))) }
{
    let written = put(output, text);
    if written.is_err() {
        let _ = put(errors, b"standard output can't be written\n");
    }
    written
}

// Says on standard error, `errors`, that standard input can't be read; where that fails, a front of it is said.
pub fn say_unread<E: Write>(errors: &mut E) -> io::Result<()>
    ensures bytes { OnOk result (Appends (E.contents errors.old) (E.contents errors.new) (codes "standard input can't be read\n")) }
    ensures err { OnErr result ((n : ℕ) × Appends (E.contents errors.old) (E.contents errors.new) (take n (codes "standard input can't be read\n"))) }
{
    put(errors, b"standard input can't be read\n")
}

// Writes a text, and gives the error of a write that fails before its end. The standard library's `write_all` doesn't say what that leaves.
fn put<W: Write>(output: &mut W, text: &[u8]) -> io::Result<()>
    ensures bytes { OnOk result (Appends (W.contents output.old) (W.contents output.new) text.now) }
    ensures err { OnErr result ((n : ℕ) × Appends (W.contents output.old) (W.contents output.new) (take n text.now)) }
{
    let mut at = 0;
    while at < text.len() {
        let taken = output.write(&text[at..])?;
        if taken == 0 {
            return Err(io::Error::from(io::ErrorKind::WriteZero));
        }
        at += taken;
    }
    Ok(())
}
