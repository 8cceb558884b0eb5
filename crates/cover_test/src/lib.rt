// The test that lets a cover be computed leanly: the parts of a move are finite, its angle lies from 0 to a quarter turn and its pads are at least zero.
// What passes it meets what the laws of `cover_lean` ask. Each test also says that its numbers are values of binary32, as every f32 is.
#![tactic(auto)]

ghost use Rattle.std.specs.Prelude.{◌≡◌, T};
ghost use Rattle.std.specs.Float.{binary32};
ghost use Rattle.std.specs.Float.Ieee.{fits};
ghost use Rattle.std.specs.Float.Ieee.Scale.{finite};
ghost use Rattle.bounds3.specs.List.{Point3f-list};
ghost use Rattle.bounds3.specs.Finite.{Point3f-is_finite, Bounds3f-is_finite};
ghost use Rattle.quaternion.specs.IsFinite.{Quaternion-is_finite};
ghost use Rattle.pose_steps.specs.Pose.{Vector3f-list, Quaternion-list, three};
ghost use Rattle.cover_lean.specs.pose_lean.means.Values.{AllValues, PoseConstants-Values, ScaleValues, Bounds3f-Values};
ghost use Rattle.cover_lean.specs.means.Test.{Vector3f-is_finite, is_finite_front, is_finite_scale, is_quarter_angle, is_pad, PoseConstants-is_valid, Pose-is_enclosable};
ghost use Rattle.cover_test.specs.means.Values.{Parts-Values};

use bounds3::{Bounds3f, Point3f};
use matrix4x4::Matrix4x4;
use pose_steps::PoseConstants;
use quaternion::Quaternion;
use vector3::Vector3f;

// The float nearest to a quarter turn.
const QUARTER_TURN: f32 = 1.5707964;

// Whether a number is finite. Accuracy: exact.
fn is_finite(x: f32) -> bool
    ensures value { result ≡ finite x }
    ensures number { T (fits binary32 x) }
{
    float32::is_finite(x)
}

// Whether three numbers are finite. Accuracy: exact.
fn is_finite_vector(v: Vector3f) -> bool
    ensures value { result ≡ Vector3f-is_finite v }
    ensures numbers { AllValues (Vector3f-list v) }
{
    is_finite(v.x) & is_finite(v.y) & is_finite(v.z)
}

// Whether four numbers are finite. Accuracy: exact.
fn is_finite_quaternion(q: Quaternion) -> bool
    ensures value { result ≡ Quaternion-is_finite q }
    ensures numbers { AllValues (Quaternion-list q) }
{
    is_finite(q.v.x) & is_finite(q.v.y) & is_finite(q.v.z) & is_finite(q.w)
}

// Whether the first three entries of a row are finite. Accuracy: exact.
fn is_finite_front(row: [f32; 4]) -> bool
    ensures value { result ≡ is_finite_front row }
    ensures numbers { AllValues (three row) }
{
    is_finite(row[0]) & is_finite(row[1]) & is_finite(row[2])
}

// Whether the nine entries of a scale that are read are finite. Accuracy: exact.
fn is_finite_scale(s: Matrix4x4) -> bool
    ensures value { result ≡ is_finite_scale s }
    ensures numbers { ScaleValues s }
{
    let r0 = s.r0;
    let r1 = s.r1;
    let r2 = s.r2;
    is_finite_front(r0) & is_finite_front(r1) & is_finite_front(r2)
}

// Whether an angle lies from 0 to a quarter turn. Accuracy: exact.
fn is_quarter_angle(theta: f32) -> bool
    ensures value { result ≡ is_quarter_angle theta }
    ensures number { T (fits binary32 theta) }
{
    (0.0 <= theta) & (theta <= QUARTER_TURN)
}

// Whether a pad is finite and at least zero. Accuracy: exact.
fn is_pad(pad: f32) -> bool
    ensures value { result ≡ is_pad pad }
    ensures number { T (fits binary32 pad) }
{
    is_finite(pad) & (0.0 <= pad)
}

// Whether a move's constants are finite, its angle lying from 0 to a quarter turn. Accuracy: exact.
fn is_valid(a: PoseConstants) -> bool
    ensures value { result ≡ PoseConstants-is_valid a }
    ensures numbers { PoseConstants-Values a }
{
    is_finite_vector(a.t0)
        & is_finite_vector(a.t1)
        & is_finite_quaternion(a.r0)
        & is_finite_quaternion(a.r1)
        & is_finite(a.cos_theta)
        & is_quarter_angle(a.theta)
}

// Whether a move's parts pass the test. Accuracy: exact.
pub fn is_enclosable(a: PoseConstants, s0: Matrix4x4, s1: Matrix4x4, pad0: f32, pad1: f32) -> bool
    ensures value { result ≡ Pose-is_enclosable a s0 s1 pad0 pad1 }
    ensures numbers { Parts-Values a s0 s1 pad0 pad1 }
{
    is_valid(a) & is_finite_scale(s0) & is_finite_scale(s1) & is_pad(pad0) & is_pad(pad1)
}

// A corner's numbers. Accuracy: exact.
fn is_finite_point(p: Point3f) -> bool
    ensures value { result ≡ Point3f-is_finite p }
    ensures numbers { AllValues (Point3f-list p) }
{
    is_finite(p.x) & is_finite(p.y) & is_finite(p.z)
}

// Whether both corners of a box are finite. Accuracy: exact.
pub fn is_finite_box(b: Bounds3f) -> bool
    ensures value { result ≡ Bounds3f-is_finite b }
    ensures numbers { Bounds3f-Values b }
{
    is_finite_point(b.p_min) & is_finite_point(b.p_max)
}
