// A question's answer: `ok` and values, the number of a refusal, or `error` for a line that is no question, or one about a slot
// that keeps nothing of which it may be asked.
use crate::{chains, files, question, reach, rows};
use answer_values::put_error;
use question_reader::Question;

// Answers a question.
pub(crate) fn put_answer(
    q: Question,
    wholes: &[u64; 4],
    x: &[f32; 900],
    out: &mut [u8; 32768],
    at: usize,
    kept: &mut [[[[f32; 4]; 45]; 31]; 4],
    poses: &mut [usize; 4],
) -> usize {
    let kind = q.kind;
    let floats = q.floats;
    if kind == 10 {
        return put_arc_cosine(x[0], out, at);
    }
    if kind == 15 {
        return chains::stretch(q.rigid, floats / 18, x, out, at);
    }
    if kind == 18 {
        return rows::reached(floats / 6, x, out, at);
    }
    let slot = wholes[0];
    if kind == 19 {
        return reach::put_cut(slot, x, out, at);
    }
    match kind {
        0 => chains::build_chain(q.rigid, slot, floats / 18, x, out, at, kept, poses),
        1 => chains::build_lone(q.rigid, slot, x, out, at, kept, poses),
        14 => chains::join(slot, wholes[1], wholes[2], out, at, kept, poses),
        16 => chains::windows(wholes, floats, x, out, at, kept, poses),
        _ => put_asked(
            kind,
            wholes,
            floats,
            x,
            chain_slots::kept_moves(kept, poses, slot, question::poses_of(kind)),
            out,
            at,
        ),
    }
}

// Answers acosn C: the arc cosine, and how many cosines were worked out for it.
fn put_arc_cosine(c: f32, out: &mut [u8; 32768], at: usize) -> usize {
    let arc = arc_cosine::acos_counted(c);
    answer_values::put_counted(0, &[arc.angle], &[arc.cosines], out, at)
}

// Answers a question about a kept chain.
fn put_asked(
    kind: usize,
    wholes: &[u64; 4],
    floats: usize,
    x: &[f32; 900],
    moves: &[[[f32; 4]; 45]],
    out: &mut [u8; 32768],
    at: usize,
) -> usize {
    if moves.len() == 0 {
        return put_error(out, at);
    }
    let n = wholes[1];
    match kind {
        2 => chains::point(moves, x, out, at),
        3 => chains::points(moves, n, floats, x, out, at),
        4 => chains::cover(moves, n, x, out, at),
        9 => chains::covers(moves, n, floats / 6, x, out, at),
        11 => files::write(moves, n, &question_values::values_at::<6>(x, 0), out, at),
        12 => chains::pad(moves, x, out, at),
        13 => chains::try_pose(moves, n, wholes[2], x, out, at),
        17 => chains::window_cover(moves, n, x, out, at),
        _ => put_asked_move(kind, n, x, moves, out, at),
    }
}

// Answers a question about the move at a place of a kept chain.
fn put_asked_move(
    kind: usize,
    place: u64,
    x: &[f32; 900],
    moves: &[[[f32; 4]; 45]],
    out: &mut [u8; 32768],
    at: usize,
) -> usize {
    if moves.len() as u64 <= place {
        return put_error(out, at);
    }
    let i = place as usize;
    match kind {
        5 => chains::interpolate(&moves[i], x, out, at),
        6 => chains::parts(&moves[i], out, at),
        7 => chains::motion_bounds(&moves[i], x, out, at),
        8 => chains::bound_point_motion(&moves[i], x, out, at),
        _ => put_error(out, at),
    }
}
