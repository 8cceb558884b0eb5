// A question's answer: `ok` and values, the number of a refusal, or `error` for a line that is no question, or one about a move where none is kept.
use crate::{matrices, moves};
use question_reader::Question;

// Answers a question.
pub(crate) fn put_answer(
    q: Question,
    n: u64,
    x: &[f32; 34],
    out: &mut [u8; 16384],
    at: usize,
    motion: &mut [[f32; 4]; 45],
) -> usize {
    let kind = q.kind;
    if kind < 11 {
        return put_value(value(kind, n, x), out, at);
    }
    if kind < 20 {
        return matrices::put_answer(kind, x, out, at);
    }
    if kind == 20 {
        return moves::build(x, out, at, motion);
    }
    moves::put_answer(kind, n, x, motion, out, at)
}

fn put_value(value: f32, out: &mut [u8; 16384], at: usize) -> usize {
    answer_values::put_values(0, &[value], 1, out, at)
}

// The questions that ask for a float: abs A, root A, sin A, cos A, acos C, least A B, greatest A B, lerp T A B, clamp V A B, whole N, dot Q Q.
fn value(kind: usize, n: u64, x: &[f32; 34]) -> f32 {
    let a = x[0];
    let b = x[1];
    let c = x[2];
    match kind {
        0 => float32::abs(a),
        1 => square_root::sqrt(a),
        2 => trig::sin(a),
        3 => trig::cos(a),
        4 => arc_cosine::acos(a),
        5 => float32::min(a, b),
        6 => float32::max(a, b),
        7 => float32::lerp(a, b, c),
        8 => float32::clamp(a, b, c),
        9 => float_bits::from_u64(n),
        _ => matrices::quaternion_at(x, 0).dot(matrices::quaternion_at(x, 4)),
    }
}
