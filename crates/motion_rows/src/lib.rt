// A move as 45 rows of four floats, and back: the form in which a caller of the library keeps a built move, with the constants that a point query needs,
// computed once.
#![tactic(auto)]

ghost use Rattle.std.specs.Prelude.{◌+◌, ◌<◌, ◌≡◌};
ghost use Rattle.refusal.specs.Number.{numbered};
ghost use Rattle.animated_transform.specs.New.{AnimatedTransformAnswer-of_result};
ghost use Rattle.motion_point.specs.TransformPoint.{AnimatedTransform-moved_point};
ghost use Rattle.motion_rows.specs.TransformPoint.{Rows-transform_point};
ghost use Rattle.motion_rows.specs.Rows.{flag, constants_row, pads_row, fields_rows, vector_at, quaternion_at, matrix_at};
ghost use Rattle.motion_rows.specs.Rows.{transform_at, term_at, derivative_at, coefficients_at, AnimatedTransform-to_rows};
ghost use Rattle.motion_rows.specs.Rows.{AnimatedTransformAnswer-left, AnimatedTransform-from_rows, PoseConstants-from_rows};

use animated_transform::AnimatedTransform;
use axis_derivative::{Derivative, DerivativeTerm};
use bounds3::Point3f;
use coefficients::Coefficients;
use matrix4x4::Matrix4x4;
use pose_steps::PoseConstants;
use quaternion::Quaternion;
use refusal::Refusal;
use transform::Transform;
use vector3::Vector3f;

fn flag(b: bool) -> f32
    ensures value { result ≡ flag b }
{
    if b { 1.0 } else { 0.0 }
}

// The two yes or no, and the constants of the pose between.
fn constants_row(m: AnimatedTransform) -> [f32; 4]
    ensures value { result ≡ constants_row m }
{
    let a = motion_point::constants(m);
    [
        flag(m.actually_animated),
        flag(m.has_rotation),
        a.cos_theta,
        a.theta,
    ]
}

// The pads and the kind.
fn pads_row(m: AnimatedTransform) -> [f32; 4]
    ensures value { result ≡ pads_row m }
{
    [m.pad0, m.pad1, flag(m.rigid), 0.0]
}

// The fields of a move, row by row, with the rows of its constants and of its pads last.
fn fields_rows(m: AnimatedTransform, constants: [f32; 4], pads: [f32; 4]) -> [[f32; 4]; 45]
    ensures value { result ≡ fields_rows m constants pads }
{
    let start = m.start_transform;
    let end = m.end_transform;
    let start_m = start.m;
    let start_inv = start.m_inv;
    let end_m = end.m;
    let end_inv = end.m_inv;
    let s0 = m.s0;
    let s1 = m.s1;
    let c = m.coefficients;
    let x = c.x;
    let y = c.y;
    let z = c.z;
    let a0 = start_m.r0;
    let a1 = start_m.r1;
    let a2 = start_m.r2;
    let a3 = start_m.r3;
    let b0 = start_inv.r0;
    let b1 = start_inv.r1;
    let b2 = start_inv.r2;
    let b3 = start_inv.r3;
    let d0 = end_m.r0;
    let d1 = end_m.r1;
    let d2 = end_m.r2;
    let d3 = end_m.r3;
    let e0 = end_inv.r0;
    let e1 = end_inv.r1;
    let e2 = end_inv.r2;
    let e3 = end_inv.r3;
    let t0 = m.t0;
    let t1 = m.t1;
    let q0 = m.r0;
    let q1 = m.r1;
    let v0 = q0.v;
    let v1 = q1.v;
    let f0 = s0.r0;
    let f1 = s0.r1;
    let f2 = s0.r2;
    let f3 = s0.r3;
    let g0 = s1.r0;
    let g1 = s1.r1;
    let g2 = s1.r2;
    let g3 = s1.r3;
    let x1 = x.c1;
    let x2 = x.c2;
    let x3 = x.c3;
    let x4 = x.c4;
    let x5 = x.c5;
    let y1 = y.c1;
    let y2 = y.c2;
    let y3 = y.c3;
    let y4 = y.c4;
    let y5 = y.c5;
    let z1 = z.c1;
    let z2 = z.c2;
    let z3 = z.c3;
    let z4 = z.c4;
    let z5 = z.c5;
    [
        a0,
        a1,
        a2,
        a3,
        b0,
        b1,
        b2,
        b3,
        d0,
        d1,
        d2,
        d3,
        e0,
        e1,
        e2,
        e3,
        [t0.x, t0.y, t0.z, m.start_time],
        [t1.x, t1.y, t1.z, m.end_time],
        [v0.x, v0.y, v0.z, q0.w],
        [v1.x, v1.y, v1.z, q1.w],
        f0,
        f1,
        f2,
        f3,
        g0,
        g1,
        g2,
        g3,
        [x1.kc, x1.kx, x1.ky, x1.kz],
        [x2.kc, x2.kx, x2.ky, x2.kz],
        [x3.kc, x3.kx, x3.ky, x3.kz],
        [x4.kc, x4.kx, x4.ky, x4.kz],
        [x5.kc, x5.kx, x5.ky, x5.kz],
        [y1.kc, y1.kx, y1.ky, y1.kz],
        [y2.kc, y2.kx, y2.ky, y2.kz],
        [y3.kc, y3.kx, y3.ky, y3.kz],
        [y4.kc, y4.kx, y4.ky, y4.kz],
        [y5.kc, y5.kx, y5.ky, y5.kz],
        [z1.kc, z1.kx, z1.ky, z1.kz],
        [z2.kc, z2.kx, z2.ky, z2.kz],
        [z3.kc, z3.kx, z3.ky, z3.kz],
        [z4.kc, z4.kx, z4.ky, z4.kz],
        [z5.kc, z5.kx, z5.ky, z5.kz],
        constants,
        pads,
    ]
}

// The rows of a move and of its constants.
fn to_rows(m: AnimatedTransform) -> [[f32; 4]; 45]
    ensures value { result ≡ AnimatedTransform-to_rows m }
{
    fields_rows(m, constants_row(m), pads_row(m))
}

// Puts a built move into `out`, or after a refusal nothing, and gives the refusal's number, 0 for none.
// Accuracy: exact but for the constants of the pose between, which are those of `motion_point`.
pub fn put_motion(answer: Result<AnimatedTransform, Refusal>, out: &mut [[f32; 4]; 45]) -> u8
    ensures refusal { result ≡ (AnimatedTransformAnswer-of_result answer).refusal }
    ensures left { out.new ≡ AnimatedTransformAnswer-left (AnimatedTransformAnswer-of_result answer) out.old }
{
    match answer {
        Ok(m) => {
            *out = to_rows(m);
            0
        }
        Err(refusal) => refusal.number(),
    }
}

fn vector_at(rows: &[[f32; 4]; 45], i: usize) -> Vector3f
    requires { i < 45 }
    ensures value { result ≡ vector_at rows.now i }
{
    let r = rows[i];
    Vector3f {
        x: r[0],
        y: r[1],
        z: r[2],
    }
}

fn quaternion_at(rows: &[[f32; 4]; 45], i: usize) -> Quaternion
    requires { i < 45 }
    ensures value { result ≡ quaternion_at rows.now i }
{
    let r = rows[i];
    let v = Vector3f {
        x: r[0],
        y: r[1],
        z: r[2],
    };
    Quaternion { v, w: r[3] }
}

// The matrix of four rows from a place on. Accuracy: exact.
pub fn matrix_at(rows: &[[f32; 4]; 45], i: usize) -> Matrix4x4
    requires { i + 3 < 45 }
    ensures value { result ≡ matrix_at rows.now i }
{
    let r0 = rows[i];
    let r1 = rows[i + 1];
    let r2 = rows[i + 2];
    let r3 = rows[i + 3];
    Matrix4x4 { r0, r1, r2, r3 }
}

// The transform of eight rows from a place on. Accuracy: exact.
pub fn transform_at(rows: &[[f32; 4]; 45], i: usize) -> Transform
    requires { i + 7 < 45 }
    ensures value { result ≡ transform_at rows.now i }
{
    let m = matrix_at(rows, i);
    let m_inv = matrix_at(rows, i + 4);
    Transform { m, m_inv }
}

fn term_at(rows: &[[f32; 4]; 45], i: usize) -> DerivativeTerm
    requires { i < 45 }
    ensures value { result ≡ term_at rows.now i }
{
    let r = rows[i];
    DerivativeTerm {
        kc: r[0],
        kx: r[1],
        ky: r[2],
        kz: r[3],
    }
}

fn derivative_at(rows: &[[f32; 4]; 45], i: usize) -> Derivative
    requires { i + 4 < 45 }
    ensures value { result ≡ derivative_at rows.now i }
{
    let c1 = term_at(rows, i);
    let c2 = term_at(rows, i + 1);
    let c3 = term_at(rows, i + 2);
    let c4 = term_at(rows, i + 3);
    let c5 = term_at(rows, i + 4);
    Derivative { c1, c2, c3, c4, c5 }
}

fn coefficients_at(rows: &[[f32; 4]; 45], i: usize) -> Coefficients
    requires { i + 14 < 45 }
    ensures value { result ≡ coefficients_at rows.now i }
{
    let x = derivative_at(rows, i);
    let y = derivative_at(rows, i + 5);
    let z = derivative_at(rows, i + 10);
    Coefficients { x, y, z }
}

// The move that its rows hold. Accuracy: exact.
pub fn from_rows(rows: &[[f32; 4]; 45]) -> AnimatedTransform
    ensures value { result ≡ AnimatedTransform-from_rows rows.now }
{
    let start = rows[16];
    let end = rows[17];
    let constants = rows[43];
    let pads = rows[44];
    let start_transform = transform_at(rows, 0);
    let end_transform = transform_at(rows, 8);
    let t0 = vector_at(rows, 16);
    let t1 = vector_at(rows, 17);
    let r0 = quaternion_at(rows, 18);
    let r1 = quaternion_at(rows, 19);
    let s0 = matrix_at(rows, 20);
    let s1 = matrix_at(rows, 24);
    let coefficients = coefficients_at(rows, 28);
    AnimatedTransform {
        start_transform,
        end_transform,
        start_time: start[3],
        end_time: end[3],
        actually_animated: constants[0] == 1.0,
        has_rotation: constants[1] == 1.0,
        t0,
        t1,
        r0,
        r1,
        s0,
        s1,
        coefficients,
        pad0: pads[0],
        pad1: pads[1],
        rigid: pads[2] == 1.0,
    }
}

// The constants of the pose between, which are kept beside the move. Accuracy: exact.
pub fn constants_from_rows(rows: &[[f32; 4]; 45]) -> PoseConstants
    ensures value { result ≡ PoseConstants-from_rows rows.now }
{
    let constants = rows[43];
    let pads = rows[44];
    let t0 = vector_at(rows, 16);
    let t1 = vector_at(rows, 17);
    let r0 = quaternion_at(rows, 18);
    let r1 = quaternion_at(rows, 19);
    PoseConstants {
        t0,
        t1,
        r0,
        r1,
        cos_theta: constants[2],
        theta: constants[3],
        rigid: pads[2] == 1.0,
    }
}

// The scale of a kept move's first pose, and of its second. Accuracy: exact.
pub fn start_scale(rows: &[[f32; 4]; 45]) -> Matrix4x4
    ensures value { result ≡ (AnimatedTransform-from_rows rows.now).s0 }
{
    matrix_at(rows, 20)
}

pub fn end_scale(rows: &[[f32; 4]; 45]) -> Matrix4x4
    ensures value { result ≡ (AnimatedTransform-from_rows rows.now).s1 }
{
    matrix_at(rows, 24)
}

// `motion_point::moved_point` of a kept move, which reads the rows that it needs and no others; refused with 5 where a finished value isn't finite.
// Accuracy: each operation but sine and cosine is correctly rounded.
pub fn moved_point(rows: &[[f32; 4]; 45], time: f32, p: Point3f) -> Result<Point3f, Refusal>
    ensures value { numbered result ≡ AnimatedTransform-moved_point (AnimatedTransform-from_rows rows.now)
        (PoseConstants-from_rows rows.now) time p }
{
    let start = rows[16];
    let end = rows[17];
    let constants = rows[43];
    if !(constants[0] == 1.0) | (time <= start[3]) {
        return transform_at(rows, 0).transform_point(p);
    }
    if time >= end[3] {
        return transform_at(rows, 8).transform_point(p);
    }
    pose::moved_point(
        constants_from_rows(rows),
        matrix_at(rows, 20),
        matrix_at(rows, 24),
        (time - start[3]) / (end[3] - start[3]),
        p,
    )
}

// Where a point stands at a time of a kept move. Refused with 5 or 6. Accuracy: each operation but sine and cosine is correctly rounded.
pub fn transform_point(rows: &[[f32; 4]; 45], time: f32, p: Point3f) -> Result<Point3f, Refusal>
    ensures value { numbered result ≡ Rows-transform_point rows.now time p }
{
    if (time != time) | !p.is_finite() {
        return Err(Refusal::Query);
    }
    moved_point(rows, time, p)
}
