// Move files in questions and answers, two hexadecimal digits a byte.
ghost use Rattle.std.specs.Prelude.{◌≤◌};

use answer_lines::put_text;
use answer_values::put_error;
use question_lines::part;

const DIGITS: [u8; 16] = [
    b'0', b'1', b'2', b'3', b'4', b'5', b'6', b'7', b'8', b'9', b'a', b'b', b'c', b'd', b'e', b'f',
];

// The chain and the box b as a move file, in as many bytes as the question says, or more than a chain's text has.
pub(crate) fn write(
    moves: &[[[f32; 4]; 45]],
    room: u64,
    b: &[f32; 6],
    out: &mut [u8; 32768],
    at: usize,
) -> usize {
    let mut text = [0u8; 4200];
    let size = bytes_lent(room);
    let written = api::jellyplain_write_file(moves, b, &mut text[0..size]);
    put_written(written.refusal, written.length, &text, out, at)
}

fn put_written(
    refusal: u8,
    length: usize,
    text: &[u8; 4200],
    out: &mut [u8; 32768],
    at: usize,
) -> usize {
    if refusal != 0 {
        return answer_lines::put_refused(refusal, out, at);
    }
    let ok = put_text(b"ok", out, at);
    let space = answer_lines::put_decimal(length as u64, out, ok);
    put_line_of(part(text, 0, length), out, space)
}

fn bytes_lent(room: u64) -> usize
    ensures { result ≤ 4200 }
{
    if room < 4200 { room as usize } else { 4200 }
}

// A space, the bytes and a line feed.
fn put_line_of(bytes: &[u8], out: &mut [u8; 32768], at: usize) -> usize {
    let space = put_text(b" ", out, at);
    let end = put_bytes(bytes, out, space);
    put_text(b"\n", out, end)
}

fn put_bytes(bytes: &[u8], out: &mut [u8; 32768], at: usize) -> usize {
    let mut end = at;
    for byte in bytes {
        end = put_byte(*byte, out, end);
    }
    end
}

fn put_byte(byte: u8, out: &mut [u8; 32768], at: usize) -> usize {
    let high = (byte / 16) as usize;
    let low = (byte % 16) as usize;
    put_text(&[DIGITS[high], DIGITS[low]], out, at)
}

// The poses and the box that a file holds: the line's second word, or no byte where it has none.
pub(crate) fn read(line: &[u8], out: &mut [u8; 32768], at: usize) -> usize {
    let word = part(line, 5, line.len());
    let mut bytes = [0u8; 4000];
    let size = word.len() / 2;
    if 4000 < size {
        return put_error(out, at);
    }
    if word.len() % 2 != 0 {
        return put_error(out, at);
    }
    if !read_bytes(word, &mut bytes) {
        return put_error(out, at);
    }
    read_file(&bytes, size, out, at)
}

// Whether a word is pairs of digits; their bytes then stand in the front.
fn read_bytes(word: &[u8], bytes: &mut [u8; 4000]) -> bool {
    for (pair, byte) in word.chunks_exact(2).zip(bytes) {
        let high = hexadecimal::digit_value(pair[0]);
        let low = hexadecimal::digit_value(pair[1]);
        if 16 <= high {
            return false;
        }
        if 16 <= low {
            return false;
        }
        *byte = (16 * high + low) as u8;
    }
    true
}

// The first bytes as a file.
fn read_file(bytes: &[u8; 4000], size: usize, out: &mut [u8; 32768], at: usize) -> usize {
    let text = part(bytes, 0, size);
    let mut poses = [[0.0f32; 18]; 559];
    let mut b = [0.0f32; 6];
    let file = api::jellyplain_read_file(text, &mut poses, &mut b);
    if file.refusal != 0 {
        return answer_lines::put_refused(file.refusal, out, at);
    }
    let count = file.count;
    // No file holds so many.
    if 559 < count {
        return put_error(out, at);
    }
    let ok = put_text(b"ok", out, at);
    let behind = answer_lines::put_decimal(count as u64, out, ok);
    let padded = has_pads(text);
    // In front of the box stand two lines of names and the poses.
    let end = put_box(text, words_before(padded, count) + 6, &b, out, behind);
    put_poses(text, padded, count, &poses, out, end)
}

fn put_box(text: &[u8], first: usize, b: &[f32; 6], out: &mut [u8; 32768], at: usize) -> usize {
    put_values(text, first, b, 6, out, at)
}

// Whether a file has fourteen names for a pose: where the fourteenth word is a name, it is `pad`, and where it isn't, a value or the box's first name.
fn has_pads(text: &[u8]) -> bool {
    let at = word_start(text, 13, 0);
    if at < text.len() {
        return text[at] == b'p';
    }
    false
}

// How many words stand in front of a pose's: the names and the poses before it.
fn words_before(padded: bool, poses: usize) -> usize
    ensures { result ≤ 7840 }
{
    if 559 < poses {
        return 0;
    }
    if padded {
        14 + 14 * poses
    } else {
        13 + 13 * poses
    }
}

// The poses, each with its bottom row and its pad.
fn put_poses(
    text: &[u8],
    padded: bool,
    count: usize,
    poses: &[[f32; 18]; 559],
    out: &mut [u8; 32768],
    at: usize,
) -> usize {
    let mut end = at;
    for (i, pose) in poses.iter().take(count).enumerate() {
        end = put_pose(text, words_before(padded, i), pose, out, end);
    }
    put_text(b"\n", out, end)
}

fn put_pose(
    text: &[u8],
    first: usize,
    pose: &[f32; 18],
    out: &mut [u8; 32768],
    at: usize,
) -> usize {
    let upper = put_values(text, first, pose, 13, out, at);
    let bottom = [pose[13], pose[14], pose[15], pose[16]];
    let end = answer_lines::put_floats(&bottom, 4, out, upper);
    put_value(pose[17], text, first, 13, out, end)
}

// The first values of an array, which stand in the file from a word on.
fn put_values(
    text: &[u8],
    first: usize,
    values: &[f32],
    count: usize,
    out: &mut [u8; 32768],
    at: usize,
) -> usize {
    let mut end = at;
    for (i, x) in values.iter().take(count).enumerate() {
        end = put_value(*x, text, first, i, out, end);
    }
    end
}

// A value; a NaN as the bits that the file has for it, which a float doesn't keep.
fn put_value(
    x: f32,
    text: &[u8],
    first: usize,
    i: usize,
    out: &mut [u8; 32768],
    at: usize,
) -> usize {
    if x == x {
        return answer_lines::put_floats(&[x], 1, out, at);
    }
    match hexadecimal::read_word(text, word_start(text, first, i)) {
        Some(bits) => put_bits(bits, out, at),
        None => put_text(b" 7fc00000", out, at),
    }
}

fn put_bits(bits: u32, out: &mut [u8; 32768], at: usize) -> usize {
    let space = put_text(b" ", out, at);
    let first = put_byte((bits / 16777216) as u8, out, space);
    let second = put_byte((bits / 65536 % 256) as u8, out, first);
    let third = put_byte((bits / 256 % 256) as u8, out, second);
    put_byte((bits % 256) as u8, out, third)
}

// Where the i-th word behind the first words of a text starts, spaces and line feeds standing between words; the text's end where there are fewer.
fn word_start(text: &[u8], first: usize, i: usize) -> usize {
    let mut words = 0;
    let mut before = b' ';
    for (at, byte) in text.iter().enumerate() {
        let starts = starts_word(before, *byte);
        if is_asked(starts, words, first, i) {
            return at;
        }
        words += starts;
        before = *byte;
    }
    text.len()
}

// 1 where a word starts at a byte, by the byte before it, and 0.
fn starts_word(before: u8, byte: u8) -> usize
    ensures { result ≤ 1 }
{
    if is_gap(byte) {
        return 0;
    }
    if is_gap(before) { 1 } else { 0 }
}

fn is_gap(byte: u8) -> bool {
    (byte == b' ') | (byte == b'\n')
}

fn is_asked(starts: usize, words: usize, first: usize, i: usize) -> bool {
    if starts == 0 {
        return false;
    }
    if words < first {
        return false;
    }
    words - first == i
}
