// Questions about matrices and quaternions: rotation Q, normalize Q, quat M, slerp T Q Q, inverse M, mul M M, bounds M BOX, decompose M (t, r and S),
// zeros C1 C2 C3 C4 C5 THETA (how many, then eight places).
// A matrix is 16 floats by rows, a quaternion x y z w, a box x0 y0 z0 x1 y1 z1; `bounds` is what `transform_bounds` makes of the box.
use answer_lines::{put_floats, put_refused, put_text};
use quaternion::Quaternion;
use question_values::values_at;
use transform::Transform;
use vector3::Vector3f;

// Answers a question about matrices, quaternions, points and boxes, by its kind.
pub(crate) fn put_answer(kind: usize, x: &[f32; 34], out: &mut [u8; 16384], at: usize) -> usize {
    match kind {
        11 => {
            let t = rotation::transform_from_quaternion(quaternion_at(x, 0));
            put_matrix(t.m.to_rows(), out, at)
        }
        15 => inverse(x, out, at),
        16 => put_matrix(matrix4x4::mul(matrix_at(x, 0), matrix_at(x, 16)), out, at),
        17 => bounds(x, out, at),
        18 => decompose(x, out, at),
        19 => zeros(x, out, at),
        _ => put_quaternion(quaternion_value(kind, x), out, at),
    }
}

fn quaternion_value(kind: usize, x: &[f32; 34]) -> Quaternion {
    match kind {
        12 => quaternion_at(x, 0).normalize(),
        13 => matrix_quaternion::quaternion_from_matrix(matrix_at(x, 0)),
        _ => quaternion::slerp(quaternion_at(x, 1), quaternion_at(x, 5), x[0]),
    }
}

fn inverse(x: &[f32; 34], out: &mut [u8; 16384], at: usize) -> usize {
    match matrix_inverse::inverse(matrix_at(x, 0)) {
        Ok(m) => put_matrix(m, out, at),
        Err(refusal) => put_refused(refusal.number(), out, at),
    }
}

fn bounds(x: &[f32; 34], out: &mut [u8; 16384], at: usize) -> usize {
    let m = matrix_at(x, 0);
    let b = values_at::<6>(x, 16);
    let moved = Transform::from_matrices(m, m).transform_bounds(lent_arrays::bounds(&b));
    let mut values = [0.0f32; 6];
    let refusal = lent_arrays::put_bounds(moved, &mut values);
    answer_values::put_bounds(refusal, &values, out, at)
}

fn decompose(x: &[f32; 34], out: &mut [u8; 16384], at: usize) -> usize {
    let d = match decomposition::decompose(false, matrix_at(x, 0)) {
        Ok(d) => d,
        Err(refusal) => return put_refused(refusal.number(), out, at),
    };
    let t = d.t;
    let ok = put_text(b"ok", out, at);
    let translation = put_floats(&[t.x, t.y, t.z], 3, out, ok);
    let rotation = put_parts(d.r, out, translation);
    let end = put_rows(d.s.to_rows(), out, rotation);
    put_text(b"\n", out, end)
}

fn zeros(x: &[f32; 34], out: &mut [u8; 16384], at: usize) -> usize {
    let z = zero_search::interval_find_zeros(x[0], x[1], x[2], x[3], x[4], x[5]).zeros;
    if z.refusal != 0 {
        return put_refused(z.refusal, out, at);
    }
    let places = z.zeros;
    let ok = put_text(b"ok", out, at);
    let count = answer_lines::put_decimal(z.count as u64, out, ok);
    let end = put_floats(&places, 8, out, count);
    put_text(b"\n", out, end)
}

fn put_quaternion(q: Quaternion, out: &mut [u8; 16384], at: usize) -> usize {
    let ok = put_text(b"ok", out, at);
    let end = put_parts(q, out, ok);
    put_text(b"\n", out, end)
}

// The four floats of a quaternion.
fn put_parts(q: Quaternion, out: &mut [u8; 16384], at: usize) -> usize {
    let v = q.v;
    put_floats(&[v.x, v.y, v.z, q.w], 4, out, at)
}

fn put_matrix(m: [[f32; 4]; 4], out: &mut [u8; 16384], at: usize) -> usize {
    let ok = put_text(b"ok", out, at);
    let end = put_rows(m, out, ok);
    put_text(b"\n", out, end)
}

fn put_rows(m: [[f32; 4]; 4], out: &mut [u8; 16384], at: usize) -> usize {
    answer_values::put_rows(&m, out, at)
}

// The matrix in the sixteen floats from place i on, row by row.
fn matrix_at(x: &[f32; 34], i: usize) -> [[f32; 4]; 4] {
    if i < 19 {
        return [
            values_at::<4>(x, i),
            values_at::<4>(x, i + 4),
            values_at::<4>(x, i + 8),
            values_at::<4>(x, i + 12),
        ];
    }
    [[0.0; 4]; 4]
}

// The quaternion in the four floats from place i on.
pub(crate) fn quaternion_at(x: &[f32; 34], i: usize) -> Quaternion {
    let r = values_at::<4>(x, i);
    let v = Vector3f {
        x: r[0],
        y: r[1],
        z: r[2],
    };
    Quaternion { v, w: r[3] }
}
