// The layout of move files, the texts that hold the poses of a chain and a box: its lines, and the pose of a line. `file_reader` reads them.
#![tactic(auto)]

ghost use Rattle.std.specs.Prelude.{◌≡◌, cond, ◌+◌, eqb, ltb, length};
ghost use Rattle.motion_file.specs.Text.{line_feed, split};
ghost use Rattle.motion_file.specs.Layout.{pose_lines, pose_of_values, MoveFile-departs};
ghost use Rattle.motion_file.specs.means.Place.{line_length, past_end};

// A place past the end of every file, where no line stands.
pub const PAST_END: usize = 65537;

// What a move file says: how many poses it has, and its box's least corner and greatest. The poses themselves are put into a lent array.
// `refusal` is 0, or 11 for a file that departs from the layout, and every other number is then 0.
#[derive(Clone, Copy)]
pub struct MoveFile {
    pub count: usize,
    pub bounds: [f32; 6],
    pub refusal: u8,
}

// What a file says that departs from the layout: 11, and every other number 0. Accuracy: exact.
pub fn departs() -> MoveFile
    ensures { result ≡ MoveFile-departs }
{
    MoveFile {
        count: 0,
        bounds: [0.0; 6],
        refusal: 11,
    }
}

// How many lines of poses a file has, if it keeps the layout: all its lines but three. Accuracy: exact.
pub fn pose_lines(s: &[u8]) -> usize
    ensures { result ≡ pose_lines (split line_feed s.now) }
{
    let lines = line_feeds(s);
    if lines < 3 { 0 } else { lines - 3 }
}

// How many line feeds there are.
fn line_feeds(s: &[u8]) -> usize
    ensures { result + 1 ≡ length (split line_feed s.now) }
{
    s.iter().filter(|b| **b == b'\n').count()
}

// The pose of a line: behind its matrix's three rows stand the bottom row 0 0 0 1 and the pad, +0 where the line has none. Accuracy: exact.
pub fn pose_of(line: [f32; 14]) -> [f32; 18]
    ensures { result ≡ pose_of_values line }
{
    [
        line[0], line[1], line[2], line[3], line[4], line[5], line[6], line[7], line[8], line[9],
        line[10], line[11], line[12], 0.0, 0.0, 0.0, 1.0, line[13],
    ]
}

// The place of the first line feed from `at` on, or the end of the slice. Accuracy: exact.
pub fn line_end(s: &[u8], at: usize) -> usize
    ensures { result ≡ at + line_length s.now at }
{
    for i in at..s.len() {
        if s[i] == b'\n' {
            return i;
        }
    }
    at.max(s.len())
}

// The place behind the line feed at `end`; past the end where the file, of that size, has none there. Accuracy: exact.
pub fn after_line_feed(end: usize, size: usize) -> usize
    ensures { result ≡ cond (ltb end size) (end + 1) past_end }
{
    if end < size { end + 1 } else { PAST_END }
}
