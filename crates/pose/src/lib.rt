// A move's pose between its two poses, and a point that it moves: the steps of pbrt's `interpolate` and `transform_point`, matrix half, in sequence.
// In floats at a dt, where a finished value that isn't finite is refused with 5; in intervals over any interval of dt, from a translation and a rotation at
// hand, where each is judged as it is formed.
#![tactic(auto)]

ghost use Rattle.std.specs.Prelude.{◌≡◌};
ghost use Rattle.interval.specs.refusal.Number.{numbered};
ghost use Rattle.transform.specs.Transform.{translation};
ghost use Rattle.pose_steps.specs.Pose.{Pose-mul, all_finite, PoseAnswer-judged, Pose-matrix, Pose-moved_point};
ghost use Rattle.pose_steps.specs.Judged.{JudgedMatrix-outcome};
ghost use Rattle.pose_steps.specs.Enclose.{Pose-enclose_composition};
ghost use Rattle.pose.specs.means.Composition.{Pose-composition, Pose-composed_point};

use bounds3::Point3f;
use interval::Interval;
use matrix4x4::Matrix4x4;
use pose_steps::{IntervalMatrix, IntervalQuaternion, IntervalVector, PoseAnswer, PoseConstants};
use quaternion::Quaternion;
use refusal::Refusal;
use vector3::Vector3f;

// The matrix that adds v to a point.
fn translation_matrix(v: Vector3f) -> Matrix4x4
    ensures value { result ≡ translation v.x v.y v.z }
{
    Matrix4x4 {
        r0: [1.0, 0.0, 0.0, v.x],
        r1: [0.0, 1.0, 0.0, v.y],
        r2: [0.0, 0.0, 1.0, v.z],
        r3: [0.0, 0.0, 0.0, 1.0],
    }
}

fn product(a: Matrix4x4, b: Matrix4x4) -> Matrix4x4
    ensures value { result ≡ Pose-mul a b }
{
    Matrix4x4::from(pose_product::mul(a.to_rows(), b.to_rows()))
}

fn all_finite(m: Matrix4x4) -> bool
    ensures value { result ≡ all_finite m }
{
    matrix4x4::is_finite(m.to_rows())
}

fn judged(finite: bool, m: Matrix4x4) -> PoseAnswer
    ensures value { result ≡ PoseAnswer-judged finite m }
{
    if finite {
        PoseAnswer { m, refusal: 0 }
    } else {
        let z = Matrix4x4 {
            r0: [0.0; 4],
            r1: [0.0; 4],
            r2: [0.0; 4],
            r3: [0.0; 4],
        };
        PoseAnswer { m: z, refusal: 5 }
    }
}

// pbrt's `interpolate`, matrix half, at a dt between the two poses; refused with 5 where a finished value isn't finite.
// Accuracy: each operation but sine and cosine is correctly rounded.
pub fn matrix(a: PoseConstants, s0: Matrix4x4, s1: Matrix4x4, dt: f32) -> PoseAnswer
    ensures value { result ≡ Pose-matrix a s0 s1 dt }
{
    let trans = pose_parts::translation(a.t0, a.t1, dt);
    let rotate = pose_slerp::slerp(a, dt);
    let scaling = pose_parts::scale_by(a.rigid, s0, s1, dt);
    let translate = translation_matrix(trans);
    let rotating = pose_rotation::rotation(rotate);
    let first = product(translate, rotating);
    let last = product(first, scaling);
    let finite = rotate.is_finite()
        & all_finite(scaling)
        & all_finite(translate)
        & all_finite(rotating)
        & all_finite(first)
        & all_finite(last);
    judged(finite, last)
}

// pbrt's `transform_point` at a dt between the two poses; refused with 5 where a finished value isn't finite.
// Accuracy: each operation but sine and cosine is correctly rounded.
pub fn moved_point(
    a: PoseConstants,
    s0: Matrix4x4,
    s1: Matrix4x4,
    dt: f32,
    p: Point3f,
) -> Result<Point3f, Refusal>
    ensures value { numbered result ≡ Pose-moved_point a s0 s1 dt p }
{
    let pose = matrix(a, s0, s1, dt);
    let q = pose_point::transform_point(pose.m, p);
    if (pose.refusal == 0) & q.is_finite() {
        Ok(q)
    } else {
        Err(Refusal::NotFinite)
    }
}

// `matrix` with its rotation given. It is written out again: with one body for both a single point takes a tenth more, since the scales are copied twice.
fn composition(
    a: PoseConstants,
    rotate: Quaternion,
    s0: Matrix4x4,
    s1: Matrix4x4,
    dt: f32,
) -> PoseAnswer
    ensures value { result ≡ Pose-composition a rotate s0 s1 dt }
{
    let trans = pose_parts::translation(a.t0, a.t1, dt);
    let scaling = pose_parts::scale_by(a.rigid, s0, s1, dt);
    let translate = translation_matrix(trans);
    let rotating = pose_rotation::rotation(rotate);
    let first = product(translate, rotating);
    let whole = product(first, scaling);
    let finite = rotate.is_finite()
        & all_finite(scaling)
        & all_finite(translate)
        & all_finite(rotating)
        & all_finite(first)
        & all_finite(whole);
    judged(finite, whole)
}

// `moved_point` with its rotation given, for a caller with many times of one move; refused with 5 where a finished value isn't finite. Accuracy: each operation is correctly rounded.
pub fn composed_point(
    a: PoseConstants,
    rotate: Quaternion,
    s0: Matrix4x4,
    s1: Matrix4x4,
    dt: f32,
    p: Point3f,
) -> Result<Point3f, Refusal>
    ensures value { numbered result ≡ Pose-composed_point a rotate s0 s1 dt p }
{
    let pose = composition(a, rotate, s0, s1, dt);
    let q = pose_point::transform_point(pose.m, p);
    if (pose.refusal == 0) & q.is_finite() {
        Ok(q)
    } else {
        Err(Refusal::NotFinite)
    }
}

// The pose's matrix over an interval of dt, from its translation and its rotation there; refused with 5. Accuracy: encloses.
pub fn composition_enclosure(
    rigid: bool,
    trans: IntervalVector,
    rotate: IntervalQuaternion,
    s0: Matrix4x4,
    s1: Matrix4x4,
    dt: Interval,
) -> Result<IntervalMatrix, Refusal>
    ensures value { numbered result ≡ JudgedMatrix-outcome (Pose-enclose_composition rigid trans
        (record { quaternion = rotate; refusal = 0 }) s0 s1 dt) }
{
    let scaling = pose_parts::scale_by_enclosure(rigid, s0, s1, dt)?;
    let rotating = pose_rotation::rotation_enclosure(rotate)?;
    let first = pose_product::translate_enclosure(trans, rotating)?;
    pose_product::mul_enclosure(first, scaling)
}
