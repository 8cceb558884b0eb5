// Lines of answers: words with one space between them. A float is the eight hexadecimal digits of its bits, a whole number is decimal.
// An answer is put piece by piece into a buffer: each piece from a place on, and the place behind it is given. A piece that has no room is left out.
#![tactic(auto)]

ghost use Rattle.std.specs.Prelude.{◌≡◌, ◌+◌, ◌%◌, ◌≤◌, length, [], ◌∷◌};
ghost use Rattle.std.proofs.Math.Seq.{paste};
ghost use Rattle.answer_lines.specs.Pieces.{put, behind, put_all, behind_all, decimal, whole_pieces, refused_pieces, spaced_floats, floats_text};

// Puts a text into `out` from `at` on and gives the place behind it; where it has no room, `out` stays and the place is `at`. Accuracy: exact.
pub fn put_text(text: &[u8], out: &mut [u8], at: usize) -> usize
    ensures value { result ≡ behind text.now out.old at }
    ensures left { out.new ≡ put text.now out.old at }
{
    if out.len() < at {
        return at;
    }
    if out.len() - at < text.len() {
        return at;
    }
    let end = at + text.len();
    out[at..end].copy_from_slice(text);
    end
}

// Puts the first `count` floats, a space before each, where there are so many. Accuracy: exact.
pub fn put_floats(values: &[f32], count: usize, out: &mut [u8], at: usize) -> usize
    ensures value { result ≡ behind (floats_text values.now count) out.old at }
    ensures left { out.new ≡ put (floats_text values.now count) out.old at }
{
    if values.len() < count {
        return at;
    }
    if out.len() < at {
        return at;
    }
    if (out.len() - at) / 9 < count {
        return at;
    }
    for (k, x) in values[..count].iter().enumerate() {
        put_float(*x, out, at + 9 * k);
    }
    at + 9 * count
}

// A space and a float.
fn put_float(x: f32, out: &mut [u8], at: usize)
    requires { at + 9 ≤ length out.old }
    ensures { out.new ≡ paste out.old at (spaced_floats (x ∷ [])) 9 }
{
    out[at] = b' ';
    hexadecimal::write_word(hexadecimal::bits_of_float(x), out, at + 1);
}

// Puts a whole number in decimal. Accuracy: exact.
pub fn put_digits(n: u64, out: &mut [u8], at: usize) -> usize
    ensures value { result ≡ behind (decimal n) out.old at }
    ensures left { out.new ≡ put (decimal n) out.old at }
{
    // No number has more digits.
    let mut digits = [b'0'; 20];
    let mut start = 19;
    digits[start] = last_digit(n);
    let mut rest = n / 10;
    while 0 < rest {
        start -= 1;
        digits[start] = last_digit(rest);
        rest /= 10;
    }
    put_text(&digits[start..], out, at)
}

// The last decimal digit of a number.
fn last_digit(n: u64) -> u8
    ensures { result ≡ 48 + n % 10 }
{
    48 + (n % 10) as u8
}

// Puts a space and a whole number in decimal. Accuracy: exact.
pub fn put_decimal(n: u64, out: &mut [u8], at: usize) -> usize
    ensures value { result ≡ behind_all (whole_pieces n) out.old at }
    ensures left { out.new ≡ put_all (whole_pieces n) out.old at }
{
    let start = put_text(b" ", out, at);
    put_digits(n, out, start)
}

// Puts the line that answers a refused question. Accuracy: exact.
pub fn put_refused(refusal: u8, out: &mut [u8], at: usize) -> usize
    ensures value { result ≡ behind_all (refused_pieces refusal) out.old at }
    ensures left { out.new ≡ put_all (refused_pieces refusal) out.old at }
{
    let word = put_text(b"refused", out, at);
    let end = put_decimal(refusal as u64, out, word);
    put_text(b"\n", out, end)
}
