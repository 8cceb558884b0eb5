// Chains of poses, each kept in a slot as the library's callers keep it, 45 rows for each move, beside how many poses it was built from, 0 where none is kept
// and 1 for a move built by itself; and the questions about them. A pose is 18 floats: its time, its matrix by rows, and its pad.
ghost use Rattle.std.specs.Prelude.{◌≤◌};

use answer_lines::put_text;
use answer_values::{put_bounds, put_count, put_error, put_values};
use chain_slots::kept_moves;
use question_values::values_at;

// Builds a chain and keeps it, or none where it is refused.
pub(crate) fn build_chain(
    rigid: bool,
    slot: u64,
    count: usize,
    x: &[f32; 900],
    out: &mut [u8; 32768],
    at: usize,
    kept: &mut [[[[f32; 4]; 45]; 31]; 4],
    poses: &mut [usize; 4],
) -> usize {
    if 3 < slot {
        return put_error(out, at);
    }
    let s = slot as usize;
    // No line holds so many.
    if 50 < count {
        return put_error(out, at);
    }
    let mut given = [[0.0f32; 18]; 50];
    question_values::put_groups(x, &mut given);
    let refusal = api::jellyplain_build_moves(rigid, &given[0..count], &mut kept[s]);
    poses[s] = kept_count(refusal, count);
    put_count(refusal, count, out, at)
}

// Builds a move by itself and keeps it, or none where it is refused.
pub(crate) fn build_lone(
    rigid: bool,
    slot: u64,
    x: &[f32; 900],
    out: &mut [u8; 32768],
    at: usize,
    kept: &mut [[[[f32; 4]; 45]; 31]; 4],
    poses: &mut [usize; 4],
) -> usize {
    if 3 < slot {
        return put_error(out, at);
    }
    let s = slot as usize;
    let start = values_at::<18>(x, 0);
    let end = values_at::<18>(x, 18);
    let refusal = api::jellyplain_build(rigid, &start, &end, &mut kept[s][0]);
    poses[s] = kept_count(refusal, 1);
    put_count(refusal, 2, out, at)
}

// Joins the chains of two slots and keeps what is made of them, or none where it is refused. Of a slot that is no chain nothing is joined.
pub(crate) fn join(
    slot: u64,
    a: u64,
    b: u64,
    out: &mut [u8; 32768],
    at: usize,
    kept: &mut [[[[f32; 4]; 45]; 31]; 4],
    poses: &mut [usize; 4],
) -> usize {
    if 3 < slot {
        return put_error(out, at);
    }
    let s = slot as usize;
    let first = kept_moves(kept, poses, a, 2);
    let second = kept_moves(kept, poses, b, 2);
    if (first.len() == 0) | (second.len() == 0) {
        return put_error(out, at);
    }
    let count = first.len() + second.len() + 1;
    // The slot may be one of the two.
    let mut joined = [[[0.0f32; 4]; 45]; 31];
    let refusal = api::jellyplain_moves_join(first, second, &mut joined);
    kept[s] = joined;
    poses[s] = kept_count(refusal, count);
    put_count(refusal, count, out, at)
}

// The shortest refused run of poses, its place and its length.
pub(crate) fn stretch(
    rigid: bool,
    count: usize,
    x: &[f32; 900],
    out: &mut [u8; 32768],
    at: usize,
) -> usize {
    // No line holds so many.
    if 50 < count {
        return put_error(out, at);
    }
    let mut given = [[0.0f32; 18]; 50];
    question_values::put_groups(x, &mut given);
    let run = api::jellyplain_refused_run(rigid, &given[0..count]);
    if run.refusal != 0 {
        return answer_lines::put_refused(run.refusal, out, at);
    }
    let ok = put_text(b"ok", out, at);
    let place = answer_lines::put_decimal(run.place as u64, out, ok);
    let end = answer_lines::put_decimal(run.length as u64, out, place);
    put_text(b"\n", out, end)
}

fn kept_count(refusal: u8, count: usize) -> usize {
    if refusal == 0 { count } else { 0 }
}

// A point at a time of a kept chain.
pub(crate) fn point(
    moves: &[[[f32; 4]; 45]],
    x: &[f32; 900],
    out: &mut [u8; 32768],
    at: usize,
) -> usize {
    let p = values_at::<3>(x, 1);
    let mut moved = [0.0f32; 3];
    let refusal = api::jellyplain_moves_point(moves, x[0], &p, &mut moved);
    answer_values::put_point(refusal, &moved, out, at)
}

// The pad of a kept chain at a time.
pub(crate) fn pad(
    moves: &[[[f32; 4]; 45]],
    x: &[f32; 900],
    out: &mut [u8; 32768],
    at: usize,
) -> usize {
    let mut pad = [0.0f32; 1];
    let refusal = api::jellyplain_moves_pad(moves, x[0], &mut pad);
    put_pad(refusal, &pad, out, at)
}

fn put_pad(refusal: u8, pad: &[f32; 1], out: &mut [u8; 32768], at: usize) -> usize {
    put_values(refusal, pad, 1, out, at)
}

// As many answers are lent as the question says, or more than the times of any line ask for.
pub(crate) fn points(
    moves: &[[[f32; 4]; 45]],
    places: u64,
    floats: usize,
    x: &[f32; 900],
    out: &mut [u8; 32768],
    at: usize,
) -> usize {
    let p = values_at::<3>(x, 0);
    let mut answers = [0.0f32; 2700];
    let size = places_lent(places);
    let refusal = api::jellyplain_moves_points(
        moves,
        question_values::part(x, 3, floats),
        &p,
        &mut answers[0..size],
    );
    put_points(refusal, &answers, size, out, at)
}

fn places_lent(places: u64) -> usize
    ensures { result ≤ 2700 }
{
    if places < 2700 { places as usize } else { 2700 }
}

// The cover of a kept chain.
pub(crate) fn cover(
    moves: &[[[f32; 4]; 45]],
    depth: u64,
    x: &[f32; 900],
    out: &mut [u8; 32768],
    at: usize,
) -> usize {
    let asked = values_at::<6>(x, 0);
    let mut b = [0.0f32; 6];
    let refusal = api::jellyplain_moves_cover(
        moves,
        &asked,
        question_lines::saturated(depth),
        &mut b,
    );
    put_bounds(refusal, &b, out, at)
}

// The cover of the chain with a pose at a place.
pub(crate) fn try_pose(
    moves: &[[[f32; 4]; 45]],
    place: u64,
    depth: u64,
    x: &[f32; 900],
    out: &mut [u8; 32768],
    at: usize,
) -> usize {
    let pose = values_at::<18>(x, 0);
    // The box stands behind the 18 floats of the pose.
    let asked = values_at::<6>(x, 18);
    let mut b = [0.0f32; 6];
    let refusal = api::jellyplain_moves_try(
        moves,
        question_lines::saturated(place) as usize,
        &pose,
        &asked,
        question_lines::saturated(depth),
        &mut b,
    );
    put_bounds(refusal, &b, out, at)
}

// The union of the covers of as many boxes, and then the covers.
pub(crate) fn covers(
    moves: &[[[f32; 4]; 45]],
    depth: u64,
    count: usize,
    x: &[f32; 900],
    out: &mut [u8; 32768],
    at: usize,
) -> usize {
    // No line holds so many.
    if 150 < count {
        return put_error(out, at);
    }
    let mut boxes = [[0.0f32; 6]; 150];
    question_values::put_groups(x, &mut boxes);
    let mut covers = [[0.0f32; 6]; 16];
    let mut union = [0.0f32; 6];
    let refusal = api::jellyplain_moves_covers(
        moves,
        &boxes[0..count],
        question_lines::saturated(depth),
        &mut covers,
        &mut union,
    );
    put_set(refusal, &union, covers, count, out, at)
}

// Both halves of the transform at a time.
pub(crate) fn interpolate(
    motion: &[[f32; 4]; 45],
    x: &[f32; 900],
    out: &mut [u8; 32768],
    at: usize,
) -> usize {
    let mut rows = [[0.0f32; 4]; 8];
    let refusal = api::jellyplain_interpolate(motion, x[0], &mut rows);
    answer_values::put_transform(refusal, &rows, out, at)
}

// The parts of a kept move.
pub(crate) fn parts(motion: &[[f32; 4]; 45], out: &mut [u8; 32768], at: usize) -> usize {
    let ok = put_text(b"ok", out, at);
    let end = motion_parts::put_parts(motion, out, ok);
    put_text(b"\n", out, end)
}

// The motion box of a kept move, with its counts.
pub(crate) fn motion_bounds(
    motion: &[[f32; 4]; 45],
    x: &[f32; 900],
    out: &mut [u8; 32768],
    at: usize,
) -> usize {
    let asked = values_at::<6>(x, 0);
    let mut b = [0.0f32; 6];
    let mut examined = [0u32; 3];
    let refusal = api::jellyplain_motion_bounds(motion, &asked, &mut b, &mut examined);
    answer_values::put_motion_bounds(refusal, &b, &examined, out, at)
}

// The motion box of one point of a kept move, with its counts.
pub(crate) fn bound_point_motion(
    motion: &[[f32; 4]; 45],
    x: &[f32; 900],
    out: &mut [u8; 32768],
    at: usize,
) -> usize {
    let p = values_at::<3>(x, 0);
    let mut b = [0.0f32; 6];
    let mut examined = [0u32; 3];
    let refusal = api::jellyplain_bound_point_motion(motion, &p, &mut b, &mut examined);
    answer_values::put_motion_bounds(refusal, &b, &examined, out, at)
}

// The cover of one window of a chain's times.
pub(crate) fn window_cover(
    moves: &[[[f32; 4]; 45]],
    depth: u64,
    x: &[f32; 900],
    out: &mut [u8; 32768],
    at: usize,
) -> usize {
    let asked = values_at::<6>(x, 0);
    let mut b = [0.0f32; 6];
    let refusal = api::jellyplain_moves_window_cover(
        moves,
        &asked,
        question_lines::saturated(depth),
        x[6],
        x[7],
        &mut b,
    );
    put_bounds(refusal, &b, out, at)
}

// The windows in which the covers of the chains in two slots meet.
pub(crate) fn windows(
    wholes: &[u64; 4],
    floats: usize,
    x: &[f32; 900],
    out: &mut [u8; 32768],
    at: usize,
    kept: &[[[[f32; 4]; 45]; 31]; 4],
    poses: &[usize; 4],
) -> usize {
    let moves = kept_moves(kept, poses, wholes[0], 2);
    let others = kept_moves(kept, poses, wholes[1], 2);
    if moves.len() == 0 {
        return put_error(out, at);
    }
    if others.len() == 0 {
        return put_error(out, at);
    }
    let b = values_at::<6>(x, 0);
    let other = values_at::<6>(x, 6);
    let mut places = [0u32; 63];
    let met = api::jellyplain_moves_windows(
        moves,
        others,
        &b,
        &other,
        question_lines::saturated(wholes[2]),
        question_values::part(x, 12, floats),
        &mut places,
    );
    put_windows(met.refusal, &places, met.count, out, at)
}

fn put_windows(
    refusal: u8,
    places: &[u32; 63],
    count: usize,
    out: &mut [u8; 32768],
    at: usize,
) -> usize {
    answer_values::put_places(refusal, places, count, out, at)
}

// The union first, and then the covers.
fn put_set(
    refusal: u8,
    union: &[f32; 6],
    covers: [[f32; 6]; 16],
    count: usize,
    out: &mut [u8; 32768],
    at: usize,
) -> usize {
    if refusal != 0 {
        return answer_lines::put_refused(refusal, out, at);
    }
    // No set holds so many.
    if 16 < count {
        return put_error(out, at);
    }
    let ok = put_text(b"ok", out, at);
    let behind = answer_lines::put_floats(union, 6, out, ok);
    let end = answer_values::put_rows(&covers[0..count], out, behind);
    put_text(b"\n", out, end)
}

fn put_points(
    refusal: u8,
    values: &[f32; 2700],
    count: usize,
    out: &mut [u8; 32768],
    at: usize,
) -> usize {
    put_values(refusal, values, count, out, at)
}
