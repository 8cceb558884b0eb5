// pbrt's `AnimatedTransform::interpolate`: the transform of a move at a time, both halves, judged.
// At and outside the end times, and where the two poses are equal, it is a stored transform, refused with 5 where it isn't finite, as in rows that nobody
// built; between them it is computed, and refused with 4 or 5, whichever is met first.
#![tactic(auto)]

ghost use Rattle.std.specs.Prelude.{◌≡◌};
ghost use Rattle.matrix4x4.specs.Rows.{Matrix4x4-to_rows};
ghost use Rattle.transform.specs.Transform.{TransformAnswer-of_result};
ghost use Rattle.interpolation.specs.Interpolate.{Transform-is_finite, TransformAnswer-judged, scaled, composed};
ghost use Rattle.interpolation.specs.Interpolate.{AnimatedTransform-pose_at, AnimatedTransform-interpolate};

use animated_transform::AnimatedTransform;
use matrix4x4::Matrix4x4;
use quaternion::Quaternion;
use refusal::Refusal;
use transform::Transform;
use vector3::Vector3f;

// Both halves.
fn is_finite(t: Transform) -> bool
    ensures value { result ≡ Transform-is_finite t }
{
    matrix4x4::is_finite(t.m.to_rows()) & matrix4x4::is_finite(t.m_inv.to_rows())
}

// A transform as it is stored, refused with 5 where a half isn't finite. Accuracy: exact.
pub fn judged(transform: Transform) -> Result<Transform, Refusal>
    ensures value { TransformAnswer-of_result result ≡ TransformAnswer-judged transform }
{
    if is_finite(transform) {
        Ok(transform)
    } else {
        Err(Refusal::NotFinite)
    }
}

// The scale's inverse is met here, after the first product and before the last.
fn scaled(first: Transform, scale: Matrix4x4) -> Result<Transform, Refusal>
    ensures value { TransformAnswer-of_result result ≡ scaled first (Matrix4x4-to_rows scale) }
{
    let s = Transform::from_matrix(scale.to_rows())?;
    judged(first * s)
}

// Each thing that is finished is judged before the next, so that the first refusal stands.
fn composed_in_order(
    trans: Vector3f,
    rotate: Quaternion,
    scale: Matrix4x4,
) -> Result<Transform, Refusal>
    ensures value { TransformAnswer-of_result result ≡ composed trans rotate (Matrix4x4-to_rows scale) }
{
    let translation = Transform::translate(trans);
    let rotation = rotation::transform_from_quaternion(rotate);
    let first = translation * rotation;
    let finite = rotate.is_finite()
        & matrix4x4::is_finite(scale.to_rows())
        & is_finite(translation)
        & is_finite(rotation)
        & is_finite(first);
    if finite {
        scaled(first, scale)
    } else {
        Err(Refusal::NotFinite)
    }
}

// pbrt's last line: Transform::translate(&trans) * rotate.into() * Transform::from_matrix(&scale). Refused with 4 or 5, whichever is met first.
// What isn't finite stays so in sums and products: where the last product is finite and the scale has its inverse, all that stands before is finite.
// Accuracy: each operation is correctly rounded.
pub fn composed(trans: Vector3f, rotate: Quaternion, scale: Matrix4x4) -> Result<Transform, Refusal>
    ensures value { TransformAnswer-of_result result ≡ composed trans rotate (Matrix4x4-to_rows scale) }
{
    let translation = Transform::translate(trans);
    let rotation = rotation::transform_from_quaternion(rotate);
    let first = translation * rotation;
    if let Ok(s) = Transform::from_matrix(scale.to_rows()) {
        let last = first * s;
        if is_finite(last) {
            return Ok(last);
        }
    }
    composed_in_order(trans, rotate, scale)
}

// The transform between the two poses: dt runs from 0 to 1.
fn pose_at(m: AnimatedTransform, dt: f32) -> Result<Transform, Refusal>
    ensures value { TransformAnswer-of_result result ≡ AnimatedTransform-pose_at m dt }
{
    let trans = pose_parts::translation(m.t0, m.t1, dt);
    let rotate = quaternion::slerp(m.r0, m.r1, dt);
    let scale = pose_parts::scale_by(m.rigid, m.s0, m.s1, dt);
    composed(trans, rotate, scale)
}

// pbrt's `interpolate`: the transform at a time; refused with 6 for a NaN time, with 5 for a stored transform that isn't finite, and between the two poses
// with 4 or 5; pbrt goes on where this refuses.
// Accuracy: each operation but sine, cosine and arc cosine is correctly rounded.
pub fn interpolate(m: AnimatedTransform, time: f32) -> Result<Transform, Refusal>
    ensures value { TransformAnswer-of_result result ≡ AnimatedTransform-interpolate m time }
{
    if time != time {
        return Err(Refusal::Query);
    }
    if !m.actually_animated | (time <= m.start_time) {
        return judged(m.start_transform);
    }
    if time >= m.end_time {
        return judged(m.end_transform);
    }
    pose_at(m, unit_interval::dt(m.start_time, m.end_time, time))
}
