// Lines of questions: words with one space between them. A float is the eight hexadecimal digits of its bits, a whole number is decimal.
#![tactic(auto)]

ghost use Rattle.std.specs.Prelude.{◌≡◌, cond, ◌+◌, ◌≤◌, ◌<◌, max, ltb, length, take, drop, slice_range, IfOk, OnErr};
ghost use Rattle.std.specs.Io.KnownBytes.{Consumes, IsAtEnd, Keeps};
ghost use Rattle.hexadecimal.specs.Digit.{position as bytes_before};
ghost use Rattle.motion_text.specs.motion_file.Text.{equal};
ghost use Rattle.motion_text.specs.Answer.{text_left};
ghost use Rattle.question_lines.specs.Words.{part as Words-part, Words-position, Decimal-append, Decimal-read, Decimal-saturated};
ghost use Rattle.question_lines.specs.Words.{Decimal-read_saturated, Float-read, Floats-read, Floats-stored};

use std::io;
use std::io::Read;

// The place of the first byte b of a text from a place on, the text's end where none follows, and the place itself beyond that. Accuracy: exact.
pub fn find(text: &[u8], from: usize, b: u8) -> usize
    ensures value { result ≡ from + bytes_before b (drop from text.now) }
    ensures upper_bound { result ≤ max from (length text.now) }
{
    if from >= text.len() {
        return from;
    }
    from + text[from..].iter().take_while(|x| **x != b).count()
}

// Whether two texts are the same bytes. Accuracy: exact.
pub fn same(a: &[u8], b: &[u8]) -> bool
    ensures value { result ≡ equal a.now b.now }
{
    a == b
}

// The place of a word among the words of a list, which single spaces part, and how many the list has where it isn't there. Accuracy: exact.
pub fn position(word: &[u8], list: &[u8]) -> usize
    ensures value { result ≡ Words-position word.now list.now }
{
    let mut k = 0;
    let mut at = 0;
    while at <= list.len() {
        let end = find(list, at, b' ');
        if same(&list[at..end], word) {
            return k;
        }
        at = end + 1;
        k += 1;
    }
    k
}

// A whole number below 2^64, with any zeros in front. Accuracy: exact.
pub fn read_decimal(word: &[u8]) -> Option<u64>
    ensures value { result ≡ Decimal-read word.now }
{
    if word.len() == 0 {
        return None;
    }
    let mut value = 0;
    for b in word {
        value = append_digit(value, *b)?;
    }
    Some(value)
}

// A whole number of any number of digits, as 32 bits hold it (`saturated`), with any zeros in front. Accuracy: exact.
pub fn read_saturated(word: &[u8]) -> Option<u64>
    ensures value { result ≡ Decimal-read_saturated word.now }
{
    if word.len() == 0 {
        return None;
    }
    let mut value = 0;
    for b in word {
        value = saturated(append_digit(value, *b)?) as u64;
    }
    Some(value)
}

// The number n with a digit behind it.
fn append_digit(n: u64, b: u8) -> Option<u64>
    ensures value { result ≡ Decimal-append n b }
{
    if b < 48 {
        return None;
    }
    if 57 < b {
        return None;
    }
    let d = (b - 48) as u64;
    if (u64::MAX - d) / 10 < n {
        return None;
    }
    Some(n * 10 + d)
}

// Whether a text is `count` floats, a space before each. `values` then starts with them; where one is malformed, with those before it. Accuracy: exact.
pub fn read_floats(text: &[u8], count: usize, values: &mut [f32]) -> bool
    ensures value { result ≡ Floats-read text.now count values.old }
    ensures left { values.new ≡ Floats-stored text.now count values.old }
{
    if values.len() < count {
        return false;
    }
    if text.len() / 9 < count {
        return false;
    }
    if text.len() != 9 * count {
        return false;
    }
    for k in 0..count {
        match read_float(text, 9 * k) {
            Some(bits) => values[k] = hexadecimal::float_of_bits(bits),
            None => return false,
        }
    }
    true
}

// A space and a float.
fn read_float(text: &[u8], at: usize) -> Option<u32>
    requires { at < length text.now }
    ensures { result ≡ Float-read text.now at }
{
    if text[at] != b' ' {
        return None;
    }
    hexadecimal::read_word(text, at + 1)
}

// A number as 32 bits hold it: itself, or the greatest that they hold. Accuracy: exact.
pub fn saturated(n: u64) -> u32
    ensures value { result ≡ Decimal-saturated n }
{
    if n < 4294967296 { n as u32 } else { u32::MAX }
}

// Reads once into `input` from `held` on, and gives how many bytes it then holds; what it held stays. Where it is known what `source` has left, so is what was
// read; an error leaves that as it was. Accuracy: exact.
pub fn read_more<R: Read>(source: &mut R, input: &mut [u8], held: usize) -> io::Result<usize>
    ensures held { IfOk result (λ n. (held ≤ n) × (n ≤ max held (length input.new))) }
    ensures left { take held input.new ≡ take held input.old }
    ensures bytes { IfOk result (λ n. Consumes (R.remaining source.old) (R.remaining source.new) (slice_range input.new held n)) }
    ensures end { IfOk result (λ n. n ≡ held → held < length input.new → IsAtEnd (R.remaining source.new)) }
    ensures err { OnErr result (Keeps (R.remaining source.old) (R.remaining source.new)) }
{
    if held < input.len() {
        let got = source.read(&mut input[held..])?;
        return Ok(held + got);
    }
    Ok(held)
}

// Moves the bytes from `from` up to `to` to the start of `input`, `most` of them where they are more, and gives how many are kept.
// Accuracy: exact.
pub fn keep(input: &mut [u8], from: usize, to: usize, most: usize) -> usize
    ensures value { result ≡ length (take most (Words-part input.old from to)) }
    ensures left { input.new ≡ text_left (take most (Words-part input.old from to)) input.old }
{
    if input.len() < to {
        return 0;
    }
    if to < from {
        return 0;
    }
    let size = least(to - from, most);
    input.copy_within(from..from + size, 0);
    size
}

// The lesser of two.
fn least(a: usize, b: usize) -> usize
    ensures upper_bound { result ≤ a }
    ensures value { result ≡ cond (ltb a b) a b }
{
    if a < b { a } else { b }
}

// The bytes of `s` from `from` up to `to`, none where these are no places of it. Accuracy: exact.
pub fn part(s: &[u8], from: usize, to: usize) -> &[u8]
    ensures value { result.now ≡ Words-part s.now from to }
{
    if s.len() < to {
        return &s[..0];
    }
    if to < from {
        return &s[..0];
    }
    &s[from..to]
}
