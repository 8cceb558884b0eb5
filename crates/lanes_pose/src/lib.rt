// The poses of four neighbouring slices of dt, without judging and without terms by constants: `LeanPose-over` of `pose_lean` has one.
// Each stage has one call, so that it is compiled in place.
#![tactic(auto)]

ghost use Rattle.std.specs.Prelude.{◌≡◌};
ghost use Rattle.lanes.specs.means.Lanes.{Lane, four, Lanes-lane, Lanes-of, Lanes-zip};
ghost use Rattle.lanes_rotation.specs.means.Matrices.{LanesVector-lane, LanesVector-of, LanesMatrix-lane, LanesMatrix-of};
ghost use Rattle.lanes_slerp.specs.pose_lean.means.Lean.{lerp, shifted, scale_row, scale, dot, row_by, product, pad_high};
ghost use Rattle.lanes_pose.specs.means.Poses.{LeanPose-by, LanesPose-of, LanesMatrix-linear_by};

use lanes::Lanes;
use lanes_rotation::{LanesMatrix, LanesVector};
use lanes_slerp::mix;
use matrix4x4::Matrix4x4;
use pose_steps::PoseConstants;
use quaternion::{Quaternion, SLERP_THRESHOLD};
use vector3::Vector3f;

// The linear part, the translation and the pad, the high end of its interval.
#[derive(Clone, Copy)]
pub struct LanesPose {
    pub linear: LanesMatrix,
    pub translation: LanesVector,
    pub pad: [f32; 4],
}

// The first by x and the second by y. Accuracy: encloses, for finite ends.
fn lerp(x: f32, y: f32, u: Lanes, t: Lanes) -> Lanes
    ensures value { result ≡ Lanes-zip (lerp x y) u t }
{
    lanes::add(lanes::scaled(u, x), lanes::scaled(t, y))
}

// The translation. Accuracy: encloses, for finite ends.
fn shifted(a: Vector3f, b: Vector3f, u: Lanes, t: Lanes) -> LanesVector
    ensures value { result ≡ LanesVector-of (λ (k : Lane). shifted a b (Lanes-lane k u) (Lanes-lane k t)) }
{
    let x = mix(a.x, b.x, u, t);
    let y = mix(a.y, b.y, u, t);
    let z = mix(a.z, b.z, u, t);
    LanesVector { x, y, z }
}

// A row of the scale. Accuracy: encloses, for finite ends.
fn scale_row(r: [f32; 4], s: [f32; 4], u: Lanes, t: Lanes) -> LanesVector
    ensures value { result ≡ LanesVector-of (λ (k : Lane). scale_row r s (Lanes-lane k u) (Lanes-lane k t)) }
{
    let x = lerp(r[0], s[0], u, t);
    let y = lerp(r[1], s[1], u, t);
    let z = lerp(r[2], s[2], u, t);
    LanesVector { x, y, z }
}

// The scale. Accuracy: encloses, for finite ends.
fn scale(s0: Matrix4x4, s1: Matrix4x4, u: Lanes, t: Lanes) -> LanesMatrix
    ensures value { result ≡ LanesMatrix-of (λ (k : Lane). scale s0 s1 (Lanes-lane k u) (Lanes-lane k t)) }
{
    let a0 = s0.r0;
    let b0 = s1.r0;
    let a1 = s0.r1;
    let b1 = s1.r1;
    let a2 = s0.r2;
    let b2 = s1.r2;
    let r0 = scale_row(a0, b0, u, t);
    let r1 = scale_row(a1, b1, u, t);
    let r2 = scale_row(a2, b2, u, t);
    LanesMatrix { r0, r1, r2 }
}

// A row times a column. Accuracy: encloses, for finite ends.
fn dot(a: LanesVector, x: Lanes, y: Lanes, z: Lanes) -> Lanes
    ensures value { result ≡ Lanes-of (λ (k : Lane). dot (LanesVector-lane k a) (Lanes-lane k x) (Lanes-lane k y) (Lanes-lane k z)) }
{
    lanes::add(
        lanes::add(lanes::mul(a.x, x), lanes::mul(a.y, y)),
        lanes::mul(a.z, z),
    )
}

// A row times a matrix. Accuracy: encloses, for finite ends.
fn row_by(a: LanesVector, s: LanesMatrix) -> LanesVector
    ensures value { result ≡ LanesVector-of (λ (k : Lane). row_by (LanesVector-lane k a) (LanesMatrix-lane k s)) }
{
    let x = dot(a, s.r0.x, s.r1.x, s.r2.x);
    let y = dot(a, s.r0.y, s.r1.y, s.r2.y);
    let z = dot(a, s.r0.z, s.r1.z, s.r2.z);
    LanesVector { x, y, z }
}

// The product of two matrices. Accuracy: encloses, for finite ends.
fn product(m: LanesMatrix, s: LanesMatrix) -> LanesMatrix
    ensures value { result ≡ LanesMatrix-of (λ (k : Lane). product (LanesMatrix-lane k m) (LanesMatrix-lane k s)) }
{
    let r0 = row_by(m.r0, s);
    let r1 = row_by(m.r1, s);
    let r2 = row_by(m.r2, s);
    LanesMatrix { r0, r1, r2 }
}

// The rotation times the scale; a rigid move has no scale. Accuracy: encloses, for finite ends.
fn linear_part(
    rigid: bool,
    m: LanesMatrix,
    s0: Matrix4x4,
    s1: Matrix4x4,
    u: Lanes,
    t: Lanes,
) -> LanesMatrix
    ensures value { result ≡ LanesMatrix-linear_by rigid m s0 s1 u t }
{
    if rigid {
        m
    } else {
        product(m, scale(s0, s1, u, t))
    }
}

// The high end of the pad's interval. Accuracy: encloses, for finite ends.
fn pad_high(pad0: f32, pad1: f32, u: Lanes, t: Lanes) -> [f32; 4]
    ensures value { result ≡ four (λ (k : Lane). pad_high pad0 pad1 (Lanes-lane k u) (Lanes-lane k t)) }
{
    let pad = lerp(pad0, pad1, u, t);
    let high = pad.high;
    high
}

// The poses over four intervals of dt, with the second quaternion of `second_by`; c and s are cosine and sine at the borders.
// Accuracy: encloses, where nothing is refused.
pub fn pose(
    a: PoseConstants,
    second: Quaternion,
    s0: Matrix4x4,
    s1: Matrix4x4,
    pad0: f32,
    pad1: f32,
    dt: Lanes,
    c: Lanes,
    s: Lanes,
) -> LanesPose
    ensures value { result ≡ LanesPose-of (λ (k : Lane). LeanPose-by a second s0 s1 pad0 pad1 (Lanes-lane k dt) (Lanes-lane k c) (Lanes-lane k s)) }
{
    let u = lanes::one_minus(dt);
    let near = a.cos_theta > SLERP_THRESHOLD;
    let turned = lanes_slerp::slerp(near, a.r0, second, dt, c, s);
    let rotation = lanes_rotation::rotation(turned);
    let linear = linear_part(a.rigid, rotation, s0, s1, u, dt);
    let translation = shifted(a.t0, a.t1, u, dt);
    let pad = pad_high(pad0, pad1, u, dt);
    LanesPose {
        linear,
        translation,
        pad,
    }
}
