// The text that answers a move file: a box, or a refusal. A clause `counts` says that the answer counts bytes of `out`, in the form that `&out[..r]` asks for.
#![tactic(auto)]

ghost use Rattle.std.specs.Prelude.{◌≡◌, cond, map, ◌+◌, ◌*◌, ◌≤◌, length, take};
ghost use Rattle.std.proofs.Math.Seq.{paste};
ghost use Rattle.motion_file.specs.Text.{line_feed, space};
ghost use Rattle.motion_text.specs.Answer.{line, word_of, zeros_in_front, bounds_text, refusal_text, text_left, length_in};

// Writes a box, its least corner and its greatest, as a line of names and a line of values into the front of `out`, and gives the length of the text; where
// that doesn't fit, `out` is kept as it is and the answer is 0. Accuracy: exact; a NaN is written as 7fc00000.
pub fn write_bounds(bounds: [f32; 6], out: &mut [u8]) -> usize
    ensures value { result ≡ length_in (bounds_text bounds) out.old }
    ensures text { out.new ≡ text_left (bounds_text bounds) out.old }
    ensures counts { (result ≤ length out.new) × (result ≡ length (take result out.new)) }
{
    if out.len() < 72 {
        return 0;
    }
    put(b"x0 y0 z0 x1 y1 z1\n", out, 0);
    put_values(&bounds, out, 18);
    72
}

// Writes a text into the front of `out`, and gives its length; where it doesn't fit, `out` is kept as it is and the answer is 0. Accuracy: exact.
pub fn write_text(text: &[u8], out: &mut [u8]) -> usize
    ensures value { result ≡ length_in text.now out.old }
    ensures text { out.new ≡ text_left text.now out.old }
{
    if out.len() < text.len() {
        return 0;
    }
    put(text, out, 0);
    text.len()
}

// Writes a line of values into the front of `out`, and gives the length of the text; where that doesn't fit, `out` is kept as it is and the answer is 0.
// Accuracy: exact; a NaN is written as 7fc00000.
pub fn write_values(values: &[f32], out: &mut [u8]) -> usize
    ensures value { result ≡ length_in (line (map word_of values.now)) out.old }
    ensures text { out.new ≡ text_left (line (map word_of values.now)) out.old }
{
    if out.len() / 9 < values.len() {
        return 0;
    }
    put_values(values, out, 0);
    9 * values.len()
}

// Writes the line `refused` and a line with the number in decimal into the front of `out`, and gives the length of the text; where that doesn't fit, `out` is
// kept as it is and the answer is 0. Accuracy: exact.
pub fn write_refusal(number: u8, out: &mut [u8]) -> usize
    ensures value { result ≡ length_in (refusal_text number) out.old }
    ensures text { out.new ≡ text_left (refusal_text number) out.old }
    ensures counts { (result ≤ length out.new) × (result ≡ length (take result out.new)) }
{
    let line = [
        48 + number / 100,
        48 + number / 10 % 10,
        48 + number % 10,
        b'\n',
    ];
    let zeros = zeros_in_front(number as usize);
    let size = 12 - zeros;
    if out.len() < size {
        return 0;
    }
    put(b"refused\n", out, 0);
    put(&line[zeros..], out, 8);
    size
}

// How many of the three decimal digits of a number below 1,000 are zeros in front of it. Accuracy: exact.
pub fn zeros_in_front(number: usize) -> usize
    ensures value { result ≡ zeros_in_front number }
    ensures bound { result ≤ 2 }
{
    if number < 10 {
        2
    } else if number < 100 {
        1
    } else {
        0
    }
}

// Puts a text into `out` from `at` on.
fn put(text: &[u8], out: &mut [u8], at: usize)
    requires { at + length text.now ≤ length out.old }
    ensures { out.new ≡ paste out.old at text.now (length text.now) }
{
    out[at..at + text.len()].copy_from_slice(text);
}

// Puts a line of values into `out` from `at` on: eight digits and a byte behind them for each.
fn put_values(values: &[f32], out: &mut [u8], at: usize)
    requires { at + 9 * length values.now ≤ length out.old }
    ensures { out.new ≡ paste out.old at (line (map word_of values.now)) (9 * length values.now) }
{
    for (k, value) in values.iter().enumerate() {
        hexadecimal::write_word(hexadecimal::bits_of_float(*value), out, at + 9 * k);
        out[at + 9 * k + 8] = separator(k + 1 < values.len());
    }
}

// What stands behind a value: a space, and behind the last a line feed.
fn separator(more: bool) -> u8
    ensures { result ≡ cond more space line_feed }
{
    if more { b' ' } else { b'\n' }
}
