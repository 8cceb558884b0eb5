// A test program: answers questions about chains of poses, days of booms and rows, a question a line of standard input, an answer line each, in order, so that
// any other implementation can be compared with the library through a pipe. What is read at once is answered before more is read.
#![tactic(auto)]

mod answer;
mod chains;
mod day;
mod files;
mod question;
mod reach;
mod rows;

use answer_values::put_error;
use question_lines::{find, part};
use question_reader::is_named;
use std::io;
use std::io::Write;

fn main(rt: HostRuntime) -> io::Result<()> {
    let mut source = rt.stdin();
    let mut sink = rt.stdout();
    let mut input = [0u8; 16384];
    let mut out = [0u8; 32768];
    let mut kept = [[[[0.0f32; 4]; 45]; 31]; 4];
    let mut poses = [0usize; 4];
    let mut held = 0;
    for _ in 0..u64::MAX {
        let n = question_lines::read_more(&mut source, &mut input, held)?;
        if n == held {
            break;
        }
        held = answer_block(&mut sink, &mut input, n, &mut out, &mut kept, &mut poses)?;
    }
    answer_rest(&mut sink, &input, held, &mut out, &mut kept, &mut poses)
}

// The last line need not have ended.
fn answer_rest<W: Write>(
    sink: &mut W,
    input: &[u8; 16384],
    held: usize,
    out: &mut [u8; 32768],
    kept: &mut [[[[f32; 4]; 45]; 31]; 4],
    poses: &mut [usize; 4],
) -> io::Result<()> {
    let written = answer_line(sink, part(input, 0, held), out, 0, kept, poses)?;
    send(sink, out, written)
}

// The first `n` bytes of the input: the lines that have ended are answered, and what follows them is kept,
// of a line that is too long one byte too many, so that it stays so. Answers how many bytes are kept.
fn answer_block<W: Write>(
    sink: &mut W,
    input: &mut [u8],
    n: usize,
    out: &mut [u8; 32768],
    kept: &mut [[[[f32; 4]; 45]; 31]; 4],
    poses: &mut [usize; 4],
) -> io::Result<usize> {
    let next = answer_lines(sink, part(input, 0, n), out, kept, poses)?;
    Ok(question_lines::keep(input, next, n, 8001))
}

// Answers each line of `text` that ends in a line feed, and answers where the first line starts that has not ended.
fn answer_lines<W: Write>(
    sink: &mut W,
    text: &[u8],
    out: &mut [u8; 32768],
    kept: &mut [[[[f32; 4]; 45]; 31]; 4],
    poses: &mut [usize; 4],
) -> io::Result<usize> {
    let mut written = 0;
    let mut at = 0;
    while at < text.len() {
        let end = find(text, at, b'\n');
        if end == text.len() {
            break;
        }
        written = answer_line(sink, &text[at..end], out, written, kept, poses)?;
        at = end + 1;
    }
    send(sink, out, written)?;
    Ok(at)
}

// Answers a line. An empty line, or one that starts with #, has no answer.
fn answer_line<W: Write>(
    sink: &mut W,
    line: &[u8],
    out: &mut [u8; 32768],
    written: usize,
    kept: &mut [[[[f32; 4]; 45]; 31]; 4],
    poses: &mut [usize; 4],
) -> io::Result<usize> {
    if line.len() == 0 {
        return Ok(written);
    }
    if line[0] == b'#' {
        return Ok(written);
    }
    let at = make_room(sink, out, written)?;
    Ok(put_line(line, out, at, kept, poses))
}

// Puts the answer to a line.
fn put_line(
    line: &[u8],
    out: &mut [u8; 32768],
    at: usize,
    kept: &mut [[[[f32; 4]; 45]; 31]; 4],
    poses: &mut [usize; 4],
) -> usize {
    if 8000 < line.len() {
        return put_error(out, at);
    }
    if is_named(line, b"read") {
        return files::read(line, out, at);
    }
    if is_named(line, b"day") {
        return day::put_day(line, out, at);
    }
    if is_named(line, b"reach") {
        return reach::put_reach(line, out, at, kept, poses);
    }
    let mut wholes = [0u64; 4];
    let mut x = [0.0f32; 900];
    let q = question::parse(line, &mut wholes, &mut x);
    answer::put_answer(q, &wholes, &x, out, at, kept, poses)
}

// Three quarters of the output are free after this, which is more than the longest answer has.
fn make_room<W: Write>(sink: &mut W, out: &[u8; 32768], written: usize) -> io::Result<usize> {
    if 8192 < written {
        send(sink, out, written)?;
        return Ok(0);
    }
    Ok(written)
}

// Writes the first bytes of a text.
fn send<W: Write>(sink: &mut W, text: &[u8], size: usize) -> io::Result<()> {
    sink.write_all(part(text, 0, size))
}
