// A day of booms, `day [BOX LENGTH]*`: a question about no slot, whose words are six floats and a whole number for each boom, with one space before each.
ghost use Rattle.std.specs.Prelude.{◌<◌, length};

use answer_lines::put_text;
use answer_values::put_error;
use question_lines::part;

// Answers a line of which the words of the booms begin behind the name.
pub(crate) fn put_day(line: &[u8], out: &mut [u8; 32768], at: usize) -> usize {
    let mut boxes = [[0.0f32; 6]; 8];
    let mut lengths = [0u32; 8];
    let count = read_booms(line, 3, &mut boxes, &mut lengths);
    if count == usize::MAX {
        return put_error(out, at);
    }
    let mut starts = [0u32; 8];
    let refusal = api::jellyplain_day(&boxes, &lengths, count, &mut starts);
    put_starts(refusal, &starts, count, out, at)
}

// How many booms the words from `start` on are, and a number that no line has where one is malformed.
fn read_booms(
    line: &[u8],
    start: usize,
    boxes: &mut [[f32; 6]; 8],
    lengths: &mut [u32; 8],
) -> usize {
    let mut count = 0;
    let mut place = start;
    while place < line.len() {
        let end = boom_end(line, place);
        if !put_boom(part(line, place, end), count, boxes, lengths) {
            return usize::MAX;
        }
        count += 1;
        place = end;
    }
    count
}

// The place behind the words of the boom that starts at a place: six floats, and a whole number up to the next space.
fn boom_end(line: &[u8], at: usize) -> usize
    requires { at < length line.now }
    ensures { at < result }
{
    if line.len() - at <= 55 {
        return line.len();
    }
    question_lines::find(line, at + 55, b' ')
}

// Whether a text is the words of a boom, which then stands at its place. Of more than 8 booms none but the first are kept: their number is refused.
fn put_boom(text: &[u8], place: usize, boxes: &mut [[f32; 6]; 8], lengths: &mut [u32; 8]) -> bool {
    let mut b = [0.0f32; 6];
    match read_boom(text, &mut b) {
        Some(ticks) => {
            if place < 8 {
                boxes[place] = b;
                lengths[place] = question_lines::saturated(ticks);
            }
        }
        None => {
            return false;
        }
    }
    true
}

// The run length of a boom, whose box `b` then holds.
fn read_boom(text: &[u8], b: &mut [f32; 6]) -> Option<u64> {
    if text.len() < 56 {
        return None;
    }
    if text[54] != b' ' {
        return None;
    }
    if question_lines::read_floats(part(text, 0, 54), 6, b) {
        return question_lines::read_decimal(part(text, 55, text.len()));
    }
    None
}

// The starting ticks, or the number of a refusal.
fn put_starts(
    refusal: u8,
    starts: &[u32; 8],
    count: usize,
    out: &mut [u8; 32768],
    at: usize,
) -> usize {
    if refusal != 0 {
        return answer_lines::put_refused(refusal, out, at);
    }
    let ok = put_text(b"ok", out, at);
    let end = answer_values::put_decimals(starts, count, out, ok);
    put_text(b"\n", out, end)
}
