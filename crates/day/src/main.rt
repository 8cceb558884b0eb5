// The program `day`: reads a day file from standard input to its end, and prints the tick in which each boom starts, or the refusal.
// A day file is a line of names, then a line for each boom: its cover, least corner and greatest corner as six words of eight hexadecimal digits, a float's
// bits, and its run length in ticks, a decimal number. One space stands between words, none before the first or after the last; every line ends in a line feed;
// a file has at most 65,536 bytes. Whatever departs from that is refused with 11. A word of digits is a length, however long: one that no u32 holds is 22.
#![tactic(auto)]

ghost use Rattle.std.specs.Prelude.{◌≤◌, ◌<◌, length};

use answer_lines::put_text;
use question_lines::{find, part, same};
use std::process::ExitCode;

// What departs from the layout has no number of booms.
const DEPARTS: usize = usize::MAX;

fn main(rt: HostRuntime) -> ExitCode {
    let mut input = [0u8; 65537];
    let Ok(n) = standard_streams::read(&mut rt.stdin(), &mut input) else {
        let _ = standard_streams::say_unread(&mut rt.stderr());
        return ExitCode::FAILURE;
    };
    let mut out = [0u8; 256];
    let written = put_answer(&input[..n], &mut out);
    match standard_streams::write(&mut rt.stdout(), &mut rt.stderr(), part(&out, 0, written)) {
        Ok(()) => ExitCode::SUCCESS,
        Err(_) => ExitCode::FAILURE,
    }
}

// The text that answers a file: a line of the name `start` and a line for each boom, or the line `refused` and one with the number.
fn put_answer(text: &[u8], out: &mut [u8; 256]) -> usize {
    let mut boxes = [[0.0f32; 6]; 8];
    let mut lengths = [0u32; 8];
    let count = read_booms(text, &mut boxes, &mut lengths);
    if count == DEPARTS {
        return put_refusal(11, out);
    }
    let mut starts = [0u32; 8];
    let refusal = run_starts::start_ticks(&boxes, &lengths, count, &mut starts);
    if refusal != 0 {
        return put_refusal(refusal, out);
    }
    put_starts(&starts, count, out)
}

fn put_refusal(number: u8, out: &mut [u8; 256]) -> usize {
    motion_text::write_refusal(number, out)
}

// A line for each boom.
fn put_starts(starts: &[u32; 8], count: usize, out: &mut [u8; 256]) -> usize {
    let name = put_text(b"start\n", out, 0);
    let a = put_start(starts[0], 0 < count, out, name);
    let b = put_start(starts[1], 1 < count, out, a);
    let c = put_start(starts[2], 2 < count, out, b);
    let d = put_start(starts[3], 3 < count, out, c);
    let e = put_start(starts[4], 4 < count, out, d);
    let f = put_start(starts[5], 5 < count, out, e);
    let g = put_start(starts[6], 6 < count, out, f);
    put_start(starts[7], 7 < count, out, g)
}

// A number and a line feed, where there is a boom.
fn put_start(n: u32, is_boom: bool, out: &mut [u8; 256], at: usize) -> usize {
    if !is_boom {
        return at;
    }
    let end = answer_lines::put_digits(n as u64, out, at);
    put_text(b"\n", out, end)
}

// How many booms a file has.
fn read_booms(text: &[u8], boxes: &mut [[f32; 6]; 8], lengths: &mut [u32; 8]) -> usize {
    if 65536 < text.len() {
        return DEPARTS;
    }
    let names = find(text, 0, b'\n');
    if names == text.len() {
        return DEPARTS;
    }
    if same(part(text, 0, names), b"x0 y0 z0 x1 y1 z1 ticks") {
        return read_lines(text, names + 1, boxes, lengths);
    }
    DEPARTS
}

// How many booms stand in the lines from `start` on.
fn read_lines(
    text: &[u8],
    start: usize,
    boxes: &mut [[f32; 6]; 8],
    lengths: &mut [u32; 8],
) -> usize {
    let mut count = 0;
    let mut at = start;
    while at < text.len() {
        let end = find(text, at, b'\n');
        if end == text.len() {
            return DEPARTS;
        }
        if !put_boom(part(text, at, end), count, boxes, lengths) {
            return DEPARTS;
        }
        count += 1;
        at = end + 1;
    }
    count
}

// Whether a line is a boom, which then stands at its place. Of more than 8 booms none but the first are kept: their number is refused.
fn put_boom(line: &[u8], place: usize, boxes: &mut [[f32; 6]; 8], lengths: &mut [u32; 8]) -> bool {
    if line.len() < 54 {
        return false;
    }
    let mut b = [0.0f32; 6];
    if !read_box(line, &mut b) {
        return false;
    }
    match question_lines::read_saturated(part(line, 54, line.len())) {
        Some(ticks) => {
            if place < 8 {
                boxes[place] = b;
                lengths[place] = question_lines::saturated(ticks);
            }
        }
        None => {
            return false;
        }
    }
    true
}

// Whether a line starts with six floats, a space behind each, which `b` then holds.
fn read_box(line: &[u8], b: &mut [f32; 6]) -> bool
    requires { 54 ≤ length line.now }
{
    if !read_value(line, 0, b) {
        return false;
    }
    if !read_value(line, 1, b) {
        return false;
    }
    if !read_value(line, 2, b) {
        return false;
    }
    if !read_value(line, 3, b) {
        return false;
    }
    if !read_value(line, 4, b) {
        return false;
    }
    read_value(line, 5, b)
}

// Whether a float stands at place k, with a space behind it.
fn read_value(line: &[u8], k: usize, b: &mut [f32; 6]) -> bool
    requires in_bounds { 54 ≤ length line.now }
    requires k_bound { k < 6 }
{
    match hexadecimal::read_word(line, 9 * k) {
        Some(bits) => {
            b[k] = hexadecimal::float_of_bits(bits);
        }
        None => {
            return false;
        }
    }
    line[9 * k + 8] == b' '
}
