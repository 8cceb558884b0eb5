// A line of a move file: whether it is given names, or so many values. Words stand apart by one or more spaces.
#![tactic(auto)]

ghost use Rattle.std.specs.Prelude.{◌≡◌, true, ◌<◌, length};
ghost use Rattle.motion_file.specs.Layout.{names, values, fits, values_of};
ghost use Rattle.motion_file.specs.means.Place.{NextByte};
ghost use Rattle.file_lines.specs.Values.{values_left};

// Whether a line, every run of spaces read as one space, is the names `text`. Accuracy: exact.
pub fn is_names(line: &[u8], text: &[u8]) -> bool
    ensures value { result ≡ fits (names text.now) line.now }
{
    let mut at = 0;
    for byte in text {
        if line.len() <= at {
            return false;
        }
        if line[at] != *byte {
            return false;
        }
        at = next_byte(line, at);
    }
    at == line.len()
}

// Whether a line is as many values as `out` has places, which `out` then holds; any other line leaves `out` as it is, and no line has no value.
// Accuracy: exact; every pattern of a NaN gives NaN.
pub fn read_values(line: &[u8], out: &mut [f32]) -> bool
    ensures value { result ≡ fits (values (length out.old)) line.now }
    ensures left { out.new ≡ values_left line.now out.old }
{
    // The whole line is judged before anything is put into the lent places.
    let kept = are_values(line, out.len());
    if kept {
        put_values(line, out);
    }
    kept
}

// Whether a line is `count` values; no line has none.
fn are_values(line: &[u8], count: usize) -> bool
    ensures { result ≡ fits (values count) line.now }
{
    if count == 0 {
        return false;
    }
    let mut at = 0;
    for _ in 1..count {
        match hexadecimal::read_word(line, at) {
            Some(_) => {}
            None => {
                return false;
            }
        }
        at += 8;
        if line.len() <= at {
            return false;
        }
        // Between two values stands a run of spaces.
        if line[at] != b' ' {
            return false;
        }
        at = next_byte(line, at);
    }
    match hexadecimal::read_word(line, at) {
        Some(_) => at + 8 == line.len(),
        None => false,
    }
}

// Puts the values of a line into `out`, which has a place for each.
fn put_values(line: &[u8], out: &mut [f32])
    requires { fits (values (length out.old)) line.now ≡ true }
    ensures { out.new ≡ values_of line.now }
{
    let mut at = 0;
    for k in 0..out.len() {
        match hexadecimal::read_word(line, at) {
            Some(bits) => {
                out[k] = hexadecimal::float_of_bits(bits);
            }
            None => {
                return;
            }
        }
        if k + 1 < out.len() {
            at = next_byte(line, at + 8);
        }
    }
}

// The place behind the byte at `at`, or behind the run of spaces that begins there.
fn next_byte(line: &[u8], at: usize) -> usize
    requires { at < length line.now }
    ensures { NextByte line.now at result }
{
    if line[at] != b' ' {
        return at + 1;
    }
    for i in at + 1..line.len() {
        if line[i] != b' ' {
            return i;
        }
    }
    line.len()
}
