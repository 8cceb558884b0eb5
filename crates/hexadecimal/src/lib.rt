// Words of eight hexadecimal digits, and the floats whose bits they are.
#![tactic(auto)]

ghost use Rattle.std.specs.Prelude.{◌≡◌, ◌+◌, ◌%◌, ◌≤◌, length, take, drop, get_or};
ghost use Rattle.std.specs.Float.{binary32};
ghost use Rattle.std.specs.Float.Ieee.{of_bits, to_bits};
ghost use Rattle.hexadecimal.specs.Digit.{digit_value, lower_digits};
ghost use Rattle.hexadecimal.specs.Word.{number_or, Word-fits, Word-read, Word-write};

// The value of a digit of either case, and 16 for a byte that is no digit. Accuracy: exact.
pub fn digit_value(b: u8) -> u32
    ensures value { result ≡ digit_value b }
    ensures bound { result ≤ 16 }
{
    // 0 to 9, a to f, A to F
    let c = b as u32;
    if (48 <= c) & (c <= 57) {
        return c - 48;
    }
    if (97 <= c) & (c <= 102) {
        return c - 87;
    }
    if (65 <= c) & (c <= 70) {
        return c - 55;
    }
    16
}

// The bits that the eight digits from `at` on write; malformed where there are fewer bytes, or one is no digit. Accuracy: exact.
pub fn read_word(s: &[u8], at: usize) -> Option<u32>
    ensures value { result ≡ Word-read s.now at }
{
    if s.len() < 8 {
        return None;
    }
    if s.len() - 8 < at {
        return None;
    }
    let high = read_half(s, at);
    let low = read_half(s, at + 4);
    if (high < 65536) & (low < 65536) {
        return Some(high * 65536 + low);
    }
    None
}

// The number that the four digits from `at` on write, and 65,536 where a byte is no digit.
fn read_half(s: &[u8], at: usize) -> u32
    requires { at + 4 ≤ length s.now }
    ensures value { result ≡ number_or 65536 (take 4 (drop at s.now)) }
{
    let a = digit_value(s[at]);
    let b = digit_value(s[at + 1]);
    let c = digit_value(s[at + 2]);
    let d = digit_value(s[at + 3]);
    if (a < 16) & (b < 16) & (c < 16) & (d < 16) {
        return a * 4096 + b * 256 + c * 16 + d;
    }
    65536
}

// Writes the eight digits of `n`, in lower case, into `out` from `at` on and gives true; where they don't fit it writes nothing and gives false.
// Accuracy: exact.
pub fn write_word(n: u32, out: &mut [u8], at: usize) -> bool
    ensures value { out.new ≡ Word-write out.old at n }
    ensures fits { result ≡ Word-fits (length out.old) at }
{
    if out.len() < 8 {
        return false;
    }
    if out.len() - 8 < at {
        return false;
    }
    for i in 0..8 {
        out[at + i] = digit(n >> (28 - 4 * i));
    }
    true
}

// The lowest digit of `n`, in lower case.
fn digit(n: u32) -> u8
    ensures value { result ≡ get_or lower_digits (n % 16) 0 }
{
    let d = (n % 16) as u8;
    if d < 10 { 48 + d } else { 87 + d }
}

// The float of a bit pattern. Accuracy: exact; every pattern of a NaN gives NaN.
pub fn float_of_bits(n: u32) -> f32
    ensures value { result ≡ of_bits binary32 n }
{
    if n % 0x8000_0000 <= 0x7f80_0000 {
        return f32::from_bits(n);
    }
    0.0 / 0.0
}

// The bit pattern of a float. Accuracy: exact; a NaN's is 0x7fc00000.
pub fn bits_of_float(x: f32) -> u32
    ensures value { result ≡ to_bits binary32 x }
{
    if x == x {
        return f32::to_bits(x);
    }
    0x7fc0_0000
}
