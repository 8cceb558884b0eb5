// Document 02's "One way to write a move file": a kept chain and a box as the text of a move file, in the front of a lent buffer.
#![tactic(auto)]

ghost use Rattle.std.specs.Prelude.{◌+◌, ◌*◌, ◌≤◌, ◌<◌, ◌≡◌, map, length, take};
ghost use Rattle.std.proofs.Math.Seq.{paste};
ghost use Rattle.bounds3.specs.List.{Bounds3f-list};
ghost use Rattle.lent_arrays.specs.Arrays.{Pose-of_list};
ghost use Rattle.chain_rows.specs.motion_chain.Built.{Each};
ghost use Rattle.kept_poses.specs.built_poses.Poses.{Chain-poses, places_per_pose};
ghost use Rattle.chain_rows.specs.Kept.{Moves-chain};
ghost use Rattle.motion_text.specs.Answer.{bounds_text, text_left};
ghost use Rattle.file_text.specs.Text.{pose_columns, values_text, lines_text};
ghost use Rattle.file_text.specs.RoundTrip.{Floats};
ghost use Rattle.chain_text.specs.means.Lines.{Rows-end_values};
ghost use Rattle.chain_text.specs.Write.{Pose-values, Moves-text, room_refusal, Moves-write_refusal, Moves-write};
ghost use Rattle.chain_text.specs.Write.{TextAnswer-refusal, TextAnswer-length, TextAnswer-left};
ghost use Rattle.chain_text.specs.Theorem.{WrittenBack};

use bounds3::Bounds3f;
use refusal::first_refusal;

// The bytes of the line of names, of a pose's line, and of the box's two lines.
const NAMES: usize = 57;

const POSE: usize = 126;

const BOX: usize = 72;

// What came of writing: the text's length and 0, or 0 and the number of a refusal.
#[repr(C)]
#[derive(Clone, Copy)]
pub struct Written {
    pub length: usize,
    pub refusal: u8,
}

// The values of a pose's line: the time, the upper three rows of the matrix, and the pad.
fn line_values(pose: [f32; 18]) -> [f32; 14]
    ensures { result ≡ Pose-values (Pose-of_list pose) }
{
    [
        pose[0], pose[1], pose[2], pose[3], pose[4], pose[5], pose[6], pose[7], pose[8], pose[9],
        pose[10], pose[11], pose[12], pose[17],
    ]
}

// Puts a pose's line into `out` from `at` on.
fn put_pose(pose: [f32; 18], out: &mut [u8], at: usize)
    requires { at + 126 ≤ length out.old }
    ensures left { out.new ≡ paste out.old at (values_text (Pose-values (Pose-of_list pose))) 126 }
    ensures floats { Floats places_per_pose pose }
{
    motion_text::write_values(&line_values(pose), &mut out[at..]);
}

// Puts the box's lines into `out` from `at` on.
fn put_bounds(b: Bounds3f, out: &mut [u8], at: usize)
    requires { at + 72 ≤ length out.old }
    ensures { out.new ≡ paste out.old at (bounds_text (Bounds3f-list b)) 72 }
{
    motion_text::write_bounds(lent_arrays::bounds_values(b), &mut out[at..]);
}

// Puts the lines of the moves' ends into `out`, behind those of the names and the first pose.
fn put_ends(moves: &[[[f32; 4]; 45]], out: &mut [u8])
    requires { 183 + 126 * length moves.now ≤ length out.old }
    ensures left { out.new
        ≡ paste out.old 183 (lines_text (map Rows-end_values moves.now)) (126 * length moves.now) }
    ensures floats { Each (Floats pose_columns) (map Rows-end_values moves.now) }
{
    for (i, rows) in moves.iter().enumerate() {
        put_pose(kept_poses::end_pose(rows), out, NAMES + POSE + POSE * i);
    }
}

// Puts the text into the front of `out`.
fn put(moves: &[[[f32; 4]; 45]], b: Bounds3f, out: &mut [u8])
    requires moves_nonzero { 0 < length moves.now }
    requires moves_in_bounds { 255 + 126 * length moves.now ≤ length out.old }
    ensures left { out.new ≡ text_left (Moves-text moves.now b) out.old }
    ensures floats { Each (Floats pose_columns) (map Pose-values (Chain-poses (Moves-chain moves.now))) }
{
    motion_text::write_text(
        b"time m00 m01 m02 m03 m10 m11 m12 m13 m20 m21 m22 m23 pad\n",
        out,
    );
    put_pose(kept_poses::start_pose(&moves[0]), out, NAMES);
    put_ends(moves, out);
    put_bounds(b, out, NAMES + POSE + POSE * moves.len());
}

// 15 where a text of this length has no room, and 0.
fn room_refusal(length: usize, room: usize) -> u8
    ensures { result ≡ room_refusal room length }
{
    if length <= room { 0 } else { 15 }
}

// The length of the text of a chain of so many moves and a box.
fn text_length(moves: &[[[f32; 4]; 45]]) -> usize
    ensures { result ≡ 255 + 126 * length moves.now }
{
    NAMES + POSE * (moves.len() + 1) + BOX
}

// 12 where there are no moves, then 6 or 7 of the box, then 15 where `size` places are too few for the text, and 0.
fn write_refusal(moves: &[[[f32; 4]; 45]], b: Bounds3f, size: usize) -> u8
    ensures { result ≡ Moves-write_refusal moves.now b size }
{
    if moves.len() == 0 {
        return 12;
    }
    let judged = bounds_query::refusal(b);
    let room = room_refusal(text_length(moves), size);
    first_refusal(judged, room)
}

// Writes the poses of a kept chain and the box b as a move file into the front of `out`, and gives the length of the text;
// the bytes behind it are kept. Refused with 12 where there are no moves, then with 6 or 7, then with 15 where `out` is
// too short, and `out` is kept as it is. Accuracy: exact; a NaN is written as 7fc00000.
pub fn write(moves: &[[[f32; 4]; 45]], b: Bounds3f, out: &mut [u8]) -> Written
    ensures refusal { result.refusal ≡ TextAnswer-refusal (Moves-write moves.now b (length out.old)) }
    ensures length { result.length ≡ TextAnswer-length (Moves-write moves.now b (length out.old)) }
    ensures left { out.new ≡ TextAnswer-left (Moves-write moves.now b (length out.old)) out.old }
    ensures written_back { result.refusal ≡ 0 → WrittenBack moves.now b (take result.length out.new) }
{
    let number = write_refusal(moves, b, out.len());
    if number != 0 {
        return Written {
            length: 0,
            refusal: number,
        };
    }
    put(moves, b, out);
    Written {
        length: text_length(moves),
        refusal: 0,
    }
}
