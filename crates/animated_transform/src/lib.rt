// pbrt's AnimatedTransform, built from two poses: a move by translation, rotation and scale.
#![tactic(auto)]

ghost use Rattle.std.specs.Prelude.{◌≡◌, IfOk};
ghost use Rattle.decomposition.specs.Decompose.{Decomposition-accepted};
ghost use Rattle.animated_transform.specs.Built.{Built};
ghost use Rattle.animated_transform.specs.New.{AnimatedTransformAnswer-of_result, AnimatedTransform-from_parts};
ghost use Rattle.animated_transform.specs.New.{AnimatedTransform-from_poses, AnimatedTransform-new};
ghost use Rattle.animated_transform.specs.means.Parts.{AnimatedTransformAnswer-of_parts};

use coefficients::Coefficients;
use decomposition::Decomposition;
use matrix4x4::Matrix4x4;
use pose_pair::Pose;
use quaternion::{Quaternion, SLERP_THRESHOLD};
use refusal::Refusal;
use transform::Transform;
use vector3::Vector3f;

// 0 stands for the start and 1 for the end, so that pbrt's t[0] is t0; the coefficients are pbrt's c1 to c5. The pads are the poses' own, and a rigid
// move neither stretches nor shears: pbrt knows neither.
#[derive(Clone, Copy)]
pub struct AnimatedTransform {
    pub start_transform: Transform,
    pub end_transform: Transform,
    pub start_time: f32,
    pub end_time: f32,
    pub actually_animated: bool,
    pub has_rotation: bool,
    pub t0: Vector3f,
    pub t1: Vector3f,
    pub r0: Quaternion,
    pub r1: Quaternion,
    pub s0: Matrix4x4,
    pub s1: Matrix4x4,
    pub coefficients: Coefficients,
    pub pad0: f32,
    pub pad1: f32,
    pub rigid: bool,
}

// What is worked of each pose by itself: the transforms a and b, and the parts p and q.
#[derive(Clone, Copy)]
struct PairParts {
    a: Transform,
    b: Transform,
    p: Decomposition,
    q: Decomposition,
}

// Both inverses are met before the parts. Not inlined, so that its stack is given back before the arc cosine takes its own.
#[inline(never)]
fn pair_parts(rigid: bool, start: Pose, end: Pose) -> Result<PairParts, Refusal>
    ensures value { AnimatedTransformAnswer-of_parts rigid start end result ≡ AnimatedTransform-from_poses rigid start end }
{
    let m0 = start.m.to_rows();
    let m1 = end.m.to_rows();
    let a = Transform::from_matrix(m0)?;
    let b = Transform::from_matrix(m1)?;
    let p = decomposition::decompose(rigid, m0)?;
    let q = decomposition::decompose(rigid, m1)?;
    Ok(PairParts { a, b, p, q })
}

// The move between two poses, from what was worked of each.
fn from_parts(
    rigid: bool,
    start: Pose,
    end: Pose,
    parts: &PairParts,
) -> Result<AnimatedTransform, Refusal>
    ensures value { AnimatedTransformAnswer-of_result result ≡ AnimatedTransform-from_parts rigid start end parts.now.a parts.now.b
        (Decomposition-accepted parts.now.p) (Decomposition-accepted parts.now.q) }
{
    let t0 = parts.p.t;
    let t1 = parts.q.t;
    let r0 = parts.p.r;
    let r1 = rotation_arc::flip(r0, parts.q.r);
    let s0 = parts.p.s;
    let s1 = parts.q.s;
    let cos_theta = r0.dot(r1);
    // slerp is linear above 0.9995 and has_rotation asks for less: at 0.9995 itself neither holds.
    let has_rotation = cos_theta < SLERP_THRESHOLD;
    rotation_arc::judge_dots(r0.dot(parts.q.r), cos_theta)?;
    let coefficients = rotation_arc::pair_coefficients(
        has_rotation,
        t0,
        t1,
        r0,
        r1,
        s0,
        s1,
        cos_theta,
    )?;
    Ok(AnimatedTransform {
        start_transform: parts.a,
        end_transform: parts.b,
        start_time: start.time,
        end_time: end.time,
        actually_animated: parts.a != parts.b,
        has_rotation,
        t0,
        t1,
        r0,
        r1,
        s0,
        s1,
        coefficients,
        pad0: start.pad,
        pad1: end.pad,
        rigid,
    })
}

// The move of two poses that are finite, affine and in order.
fn from_poses(rigid: bool, start: Pose, end: Pose) -> Result<AnimatedTransform, Refusal>
    ensures value { AnimatedTransformAnswer-of_result result ≡ AnimatedTransform-from_poses rigid start end }
{
    let parts = pair_parts(rigid, start, end)?;
    from_parts(rigid, start, end, &parts)
}

impl AnimatedTransform {
    // pbrt's `AnimatedTransform::new`: a move from two poses; refused with 1 to 5 or 16, whichever is met first, where pbrt goes on. A rigid move is
    // refused with 17 or 18 too, and pbrt knows none. What isn't refused is a built move.
    // Accuracy: each operation but the arc cosine is correctly rounded.
    pub fn new(rigid: bool, start: Pose, end: Pose) -> Result<AnimatedTransform, Refusal>
        ensures value { AnimatedTransformAnswer-of_result result ≡ AnimatedTransform-new rigid start end }
        ensures built { IfOk result Built }
    {
        pose_pair::judge_poses(start, end)?;
        start.judge_kind(rigid)?;
        end.judge_kind(rigid)?;
        from_poses(rigid, start, end)
    }
}
