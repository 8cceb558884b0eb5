// A test program: answers questions about the libraries' functions, a question a line of standard input, an answer line each, in order,
// so that any other implementation can be compared with them through a pipe. What is read at once is answered before more is read.
#![tactic(auto)]

mod answer;
mod matrices;
mod moves;
mod question;

use question_lines::{find, part};
use std::io;
use std::io::Write;

fn main(rt: HostRuntime) -> io::Result<()> {
    let mut source = rt.stdin();
    let mut sink = rt.stdout();
    let mut input = [0u8; 16384];
    let mut out = [0u8; 16384];
    let mut motion = [[moves::NONE; 4]; 45];
    let mut held = 0;
    for _ in 0..u64::MAX {
        let n = question_lines::read_more(&mut source, &mut input, held)?;
        if n == held {
            break;
        }
        held = answer_block(&mut sink, &mut input, n, &mut out, &mut motion)?;
    }
    answer_rest(&mut sink, &input, held, &mut out, &mut motion)
}

// The last line need not have ended.
fn answer_rest<W: Write>(
    sink: &mut W,
    input: &[u8; 16384],
    held: usize,
    out: &mut [u8; 16384],
    motion: &mut [[f32; 4]; 45],
) -> io::Result<()> {
    let written = answer_line(sink, part(input, 0, held), out, 0, motion)?;
    send(sink, out, written)
}

// The first `n` bytes of the input: the lines that have ended are answered, and what follows them is kept,
// of a line that is too long one byte too many, so that it stays so. Answers how many bytes are kept.
fn answer_block<W: Write>(
    sink: &mut W,
    input: &mut [u8],
    n: usize,
    out: &mut [u8; 16384],
    motion: &mut [[f32; 4]; 45],
) -> io::Result<usize> {
    let next = answer_lines(sink, part(input, 0, n), out, motion)?;
    Ok(question_lines::keep(input, next, n, 1201))
}

// Answers each line of `text` that ends in a line feed, and answers where the first line starts that has not ended.
fn answer_lines<W: Write>(
    sink: &mut W,
    text: &[u8],
    out: &mut [u8; 16384],
    motion: &mut [[f32; 4]; 45],
) -> io::Result<usize> {
    let mut written = 0;
    let mut at = 0;
    while at < text.len() {
        let end = find(text, at, b'\n');
        if end == text.len() {
            break;
        }
        written = answer_line(sink, &text[at..end], out, written, motion)?;
        at = end + 1;
    }
    send(sink, out, written)?;
    Ok(at)
}

// Answers a line. An empty line, or one that starts with #, has no answer.
fn answer_line<W: Write>(
    sink: &mut W,
    line: &[u8],
    out: &mut [u8; 16384],
    written: usize,
    motion: &mut [[f32; 4]; 45],
) -> io::Result<usize> {
    if line.len() == 0 {
        return Ok(written);
    }
    if line[0] == b'#' {
        return Ok(written);
    }
    let at = make_room(sink, out, written)?;
    let mut wholes = [0u64; 4];
    let mut x = [0.0f32; 34];
    let q = question::parse(line, &mut wholes, &mut x);
    Ok(answer::put_answer(q, wholes[0], &x, out, at, motion))
}

// Half of the output is free after this, which is more than the longest answer has.
fn make_room<W: Write>(sink: &mut W, out: &[u8; 16384], written: usize) -> io::Result<usize> {
    if 8192 < written {
        send(sink, out, written)?;
        return Ok(0);
    }
    Ok(written)
}

// Writes the first bytes of a text.
fn send<W: Write>(sink: &mut W, text: &[u8], size: usize) -> io::Result<()> {
    sink.write_all(part(text, 0, size))
}
