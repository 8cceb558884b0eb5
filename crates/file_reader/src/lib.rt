// Move files read: from a file's bytes to its poses and its box.
#![tactic(auto)]

ghost use Rattle.std.specs.Prelude.{◌≡◌, map, ◌≤◌, length, replicate};
ghost use Rattle.motion_file.specs.Layout.{names, values, values_of, max_bytes, max_pose_lines, has_pads, pose_of, MoveFile-poses, MoveFile-read};
ghost use Rattle.motion_file.specs.means.Columns.{MoveFile-read_as, MoveFile-poses_as};
ghost use Rattle.motion_file.specs.Front.{front};
ghost use Rattle.motion_file.specs.means.Place.{line_at, after_line, through, lines_through};

use motion_file::MoveFile;

// Puts the poses that a file's bytes hold into the front of `poses`, each its time, its matrix row by row and its pad, and gives their number and the box;
// refused with 11, and `poses` kept as it is, where the bytes depart from the layout. Accuracy: exact; every pattern of a NaN gives NaN.
pub fn read(bytes: &[u8], poses: &mut [[f32; 18]; 559]) -> MoveFile
    ensures value { result ≡ MoveFile-read bytes.now }
    ensures left { poses.new ≡ front (MoveFile-poses bytes.now) poses.old }
    ensures count { result.count ≤ max_pose_lines }
{
    if has_pads(bytes) {
        return read_columns(
            bytes,
            b"time m00 m01 m02 m03 m10 m11 m12 m13 m20 m21 m22 m23 pad",
            14,
            poses,
        );
    }
    read_columns(
        bytes,
        b"time m00 m01 m02 m03 m10 m11 m12 m13 m20 m21 m22 m23",
        13,
        poses,
    )
}

// Whether the first line is the fourteen names.
fn has_pads(s: &[u8]) -> bool
    ensures { result ≡ has_pads s.now }
{
    let end = motion_file::line_end(s, 0);
    if end <= s.len() {
        return file_lines::is_names(
            &s[0..end],
            b"time m00 m01 m02 m03 m10 m11 m12 m13 m20 m21 m22 m23 pad",
        );
    }
    false
}

// Reads a file whose poses have so many values with those names.
fn read_columns(bytes: &[u8], text: &[u8], columns: usize, poses: &mut [[f32; 18]; 559]) -> MoveFile
    requires le_columns { 13 ≤ columns }
    requires columns_bound { columns ≤ 14 }
    ensures value { result ≡ MoveFile-read_as text.now columns bytes.now }
    ensures left { poses.new ≡ front (MoveFile-poses_as text.now columns bytes.now) poses.old }
    ensures count { result.count ≤ max_pose_lines }
{
    if 65536 < bytes.len() {
        return motion_file::departs();
    }
    let mut pose = [0.0f32; 14];
    let mut bounds = [0.0f32; 6];
    // Each line begins where the one before it ends; behind a line that departs from the layout none stands.
    let count = motion_file::pose_lines(bytes);
    let first = names_line(bytes, 0, text);
    let behind = after_values(bytes, first, count, &mut pose[..columns]);
    let values = names_line(bytes, behind, b"x0 y0 z0 x1 y1 z1");
    let end = values_line(bytes, values, &mut bounds);
    if end != bytes.len() {
        return motion_file::departs();
    }
    // Only now is anything put into the lent array.
    put_poses(bytes, first, count, columns, poses);
    MoveFile {
        count,
        bounds,
        refusal: 0,
    }
}

// Where the line behind `count` lines of as many values as `scratch` has places begins, past the end where one of them is none.
fn after_values(s: &[u8], at: usize, count: usize, scratch: &mut [f32]) -> usize
    requires { length s.now ≤ max_bytes }
    ensures { result ≡ through (replicate count (values (length scratch.old))) s.now at }
{
    let mut place = at;
    for _ in 0..count {
        place = values_line(s, place, scratch);
    }
    place
}

// Puts the `count` poses whose lines begin at `at` into the front of the array.
fn put_poses(s: &[u8], at: usize, count: usize, columns: usize, poses: &mut [[f32; 18]; 559])
    requires s_len_bound { length s.now ≤ max_bytes }
    requires count_le_max_pose_lines { count ≤ max_pose_lines }
    requires le_columns { 13 ≤ columns }
    requires columns_bound { columns ≤ 14 }
    requires at_in_bounds { through (replicate count (values columns)) s.now at ≤ length s.now }
    ensures { poses.new ≡ front (map pose_of (lines_through (replicate count (values columns)) s.now at)) poses.old }
{
    let mut place = at;
    for pose in &mut poses[..count] {
        let mut line = [0.0f32; 14];
        place = values_line(s, place, &mut line[..columns]);
        *pose = motion_file::pose_of(line);
    }
}

// Where the next line begins if the names `text` stand at `at`, and past the end otherwise.
fn names_line(s: &[u8], at: usize, text: &[u8]) -> usize
    ensures { result ≡ after_line (names text.now) s.now at }
{
    let end = motion_file::line_end(s, at);
    if end <= s.len() {
        if file_lines::is_names(&s[at..end], text) {
            return motion_file::after_line_feed(end, s.len());
        }
    }
    motion_file::PAST_END
}

// Where the next line begins if as many values as `out` has places stand at `at`, which `out` then holds, and past the end otherwise.
fn values_line(s: &[u8], at: usize, out: &mut [f32]) -> usize
    requires { length s.now ≤ max_bytes }
    ensures value { result ≡ after_line (values (length out.old)) s.now at }
    ensures out_after { result ≤ length s.now → out.new ≡ values_of (line_at s.now at) }
{
    let end = motion_file::line_end(s, at);
    if end <= s.len() {
        if file_lines::read_values(&s[at..end], out) {
            return motion_file::after_line_feed(end, s.len());
        }
    }
    motion_file::PAST_END
}
