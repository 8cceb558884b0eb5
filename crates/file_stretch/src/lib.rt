// From a move file to the lines of its shortest refused stretch: the program `stretch` but for its reading and writing.
#![tactic(auto)]

ghost use Rattle.std.specs.Prelude.{◌+◌, ◌≤◌, ◌<◌, ◌%◌, ◌≡◌, ◌++◌, length, take};
ghost use Rattle.chain_number.specs.chain_poses.Poses.{Poses-of_lists};
ghost use Rattle.motion_text.specs.Answer.{text_left, length_in};
ghost use Rattle.file_stretch.specs.Stretch.{lines_text, run_text, poses_text, stretch_text};

use refused_run::Run;

// The last decimal digit of a number.
fn digit(n: usize) -> u8
    ensures value { result ≡ 48 + n % 10 }
{
    let d = (n % 10) as u8;
    48 + d
}

// Puts two texts, one behind the other, into the front of `out`.
fn put_two(first: &[u8], second: &[u8], out: &mut [u8])
    requires { length first.now + length second.now ≤ length out.old }
    ensures { out.new ≡ text_left (first.now ++ second.now) out.old }
{
    motion_text::write_text(first, out);
    let n = first.len();
    motion_text::write_text(second, &mut out[n..]);
}

// Puts the numbers of the first line and of the last into the front of `out`, and gives the length of the text.
fn put_lines(first: usize, last: usize, out: &mut [u8]) -> usize
    requires first_bound { first < 1000 }
    requires last_bound { last < 1000 }
    requires in_bounds { 17 ≤ length out.old }
    ensures value { result ≡ length (lines_text first last) }
    ensures text { out.new ≡ text_left (lines_text first last) out.old }
    ensures bound { result ≤ 17 }
{
    let start = [
        digit(first / 100),
        digit(first / 10),
        digit(first),
        b' ',
        b't',
        b'o',
        b' ',
    ];
    let end = [digit(last / 100), digit(last / 10), digit(last), b'\n'];
    let a = motion_text::zeros_in_front(first);
    let b = motion_text::zeros_in_front(last);
    motion_text::write_text(b"lines ", out);
    put_two(&start[a..], &end[b..], &mut out[6..]);
    17 - a - b
}

// Puts what is told of a chain with this number, and of its run, into the front of `out`, and gives the length of the text.
fn put_run(number: u8, run: Run, out: &mut [u8]) -> usize
    requires length_bound { run.place + run.length ≤ 559 }
    requires in_bounds { 32 ≤ length out.old }
    ensures value { result ≡ length (run_text number run) }
    ensures text { out.new ≡ text_left (run_text number run) out.old }
    ensures bound { result ≤ 32 }
{
    if run.refusal != 0 {
        return motion_text::write_refusal(run.refusal, out);
    }
    if run.length == 0 {
        return motion_text::write_text(b"accepted\n", out);
    }
    // The first line has the names.
    let first = run.place + 2;
    let last = run.place + run.length + 1;
    let n = motion_text::write_refusal(number, out);
    let m = put_lines(first, last, &mut out[n..]);
    n + m
}

// Puts what is told of a chain of poses into the front of `out`, and gives the length of the text.
fn put_poses(poses: &[[f32; 18]], out: &mut [u8]) -> usize
    requires poses_len_bound { length poses.now ≤ 559 }
    requires in_bounds { 32 ≤ length out.old }
    ensures value { result ≡ length (poses_text (Poses-of_lists poses.now)) }
    ensures text { out.new ≡ text_left (poses_text (Poses-of_lists poses.now)) out.old }
    ensures bound { result ≤ 32 }
{
    let number = chain_number::number(false, poses);
    let run = refused_run::shortest_run(false, poses);
    put_run(number, run, out)
}

// Puts what is told of a file into the front of `out`, and gives the length of the text.
fn put_file(bytes: &[u8], out: &mut [u8]) -> usize
    requires { 32 ≤ length out.old }
    ensures value { result ≡ length (stretch_text bytes.now) }
    ensures text { out.new ≡ text_left (stretch_text bytes.now) out.old }
    ensures bound { result ≤ 32 }
{
    let mut poses = [[0.0f32; 18]; 559];
    let file = file_reader::read(bytes, &mut poses);
    if file.refusal != 0 {
        return motion_text::write_refusal(file.refusal, out);
    }
    let n = file.count;
    put_poses(&poses[..n], out)
}

// Writes what the program `stretch` prints for a file's bytes, `accepted`, or a refusal and the lines that it is met in, into the front of `out`,
// and gives the length of the text, at most 32; where it doesn't fit, `out` is kept as it is and the answer is 0. Accuracy: exact.
pub fn stretch(bytes: &[u8], out: &mut [u8]) -> usize
    ensures value { result ≡ length_in (stretch_text bytes.now) out.old }
    ensures text { out.new ≡ text_left (stretch_text bytes.now) out.old }
    ensures counts { (result ≤ length out.new) × (result ≡ length (take result out.new)) }
{
    let mut text = [0u8; 32];
    let n = put_file(bytes, &mut text);
    motion_text::write_text(&text[..n], out)
}
