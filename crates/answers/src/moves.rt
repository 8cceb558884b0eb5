// Questions about a move: move T0 M0 T1 M1 builds one and keeps it for the questions after it, each of which is an error where none is kept:
// parts, point T X Y Z, interp T (both halves of the transform), motion BOX, pmotion X Y Z (`bound_point_motion`),
// each with three counts behind its box, cover D BOX, with a depth D. `parts` asks whether it is animated and whether
// it rotates, for start and end t, r, S and the inverse, then c1 to c5, each on the axes x y z, each kc kx ky kz.
// A move is kept as the library's callers keep it, in 45 rows (`motion_rows`).
use answer_lines::put_text;
use answer_values::put_error;
use question_values::values_at;

// What stands first in the row of constants where no move is kept: a kept move has 0 or 1 there.
pub(crate) const NONE: f32 = 2.0;

// Builds a move and keeps it, or none where it is refused.
pub(crate) fn build(
    x: &[f32; 34],
    out: &mut [u8; 16384],
    at: usize,
    motion: &mut [[f32; 4]; 45],
) -> usize {
    let start = pose_at(x, 0);
    let end = pose_at(x, 17);
    let refusal = api::jellyplain_build(false, &start, &end, motion);
    if refusal != 0 {
        motion[43] = [NONE; 4];
    }
    put_built(refusal, out, at)
}

fn put_built(refusal: u8, out: &mut [u8; 16384], at: usize) -> usize {
    if refusal != 0 {
        return answer_lines::put_refused(refusal, out, at);
    }
    put_text(b"ok\n", out, at)
}

// A pose of 17 floats, from a place on; its pad is +0.
fn pose_at(x: &[f32; 34], i: usize) -> [f32; 18] {
    let mut pose = [0.0f32; 18];
    question_values::put_values(x, i, &mut pose[0..17]);
    pose
}

// Answers a question about the kept move, by its kind.
pub(crate) fn put_answer(
    kind: usize,
    n: u64,
    x: &[f32; 34],
    motion: &[[f32; 4]; 45],
    out: &mut [u8; 16384],
    at: usize,
) -> usize {
    let last = motion[43];
    if last[0] == NONE {
        return put_error(out, at);
    }
    match kind {
        21 => put_parts(motion, out, at),
        22 => point(x, motion, out, at),
        23 => interpolate(x, motion, out, at),
        24 => motion_bounds(x, motion, out, at),
        25 => bound_point_motion(x, motion, out, at),
        26 => cover(x, question_lines::saturated(n), motion, out, at),
        _ => put_error(out, at),
    }
}

fn put_parts(motion: &[[f32; 4]; 45], out: &mut [u8; 16384], at: usize) -> usize {
    let ok = put_text(b"ok", out, at);
    let end = motion_parts::put_parts(motion, out, ok);
    put_text(b"\n", out, end)
}

fn point(x: &[f32; 34], motion: &[[f32; 4]; 45], out: &mut [u8; 16384], at: usize) -> usize {
    let p = values_at::<3>(x, 1);
    let mut moved = [0.0f32; 3];
    let refusal = api::jellyplain_point(motion, x[0], &p, &mut moved);
    answer_values::put_point(refusal, &moved, out, at)
}

fn interpolate(x: &[f32; 34], motion: &[[f32; 4]; 45], out: &mut [u8; 16384], at: usize) -> usize {
    let mut rows = [[0.0f32; 4]; 8];
    let refusal = api::jellyplain_interpolate(motion, x[0], &mut rows);
    answer_values::put_transform(refusal, &rows, out, at)
}

fn motion_bounds(
    x: &[f32; 34],
    motion: &[[f32; 4]; 45],
    out: &mut [u8; 16384],
    at: usize,
) -> usize {
    let asked = values_at::<6>(x, 0);
    let mut b = [0.0f32; 6];
    let mut examined = [0u32; 3];
    let refusal = api::jellyplain_motion_bounds(motion, &asked, &mut b, &mut examined);
    answer_values::put_motion_bounds(refusal, &b, &examined, out, at)
}

fn bound_point_motion(
    x: &[f32; 34],
    motion: &[[f32; 4]; 45],
    out: &mut [u8; 16384],
    at: usize,
) -> usize {
    let p = values_at::<3>(x, 0);
    let mut b = [0.0f32; 6];
    let mut examined = [0u32; 3];
    let refusal = api::jellyplain_bound_point_motion(motion, &p, &mut b, &mut examined);
    answer_values::put_motion_bounds(refusal, &b, &examined, out, at)
}

fn cover(
    x: &[f32; 34],
    depth: u32,
    motion: &[[f32; 4]; 45],
    out: &mut [u8; 16384],
    at: usize,
) -> usize {
    let asked = values_at::<6>(x, 0);
    let mut b = [0.0f32; 6];
    let refusal = api::jellyplain_cover(motion, &asked, depth, &mut b);
    answer_values::put_bounds(refusal, &b, out, at)
}
