// The shorter arc between the rotations of two poses, and the coefficients c1 to c5 of a move along it.
#![tactic(auto)]

ghost use Rattle.std.specs.Prelude.{◌≡◌};
ghost use Rattle.refusal.specs.Number.{refusal_number};
ghost use Rattle.rotation_arc.specs.ShorterArc.{flip, dots_refusal};
ghost use Rattle.rotation_arc.specs.ArcCoefficients.{CoefficientsAnswer-of_result, CoefficientsAnswer-judged, rotation_coefficients, pair_coefficients};

use coefficients::Coefficients;
use matrix4x4::Matrix4x4;
use quaternion::Quaternion;
use refusal::Refusal;
use vector3::Vector3f;

// The end's quaternion, negated where the rounded dot product with the start's is below zero, so that slerp takes the shorter arc. Accuracy: exact.
pub fn flip(r0: Quaternion, r1: Quaternion) -> Quaternion
    ensures value { result ≡ flip r0 r1 }
{
    if r0.dot(r1) < 0.0 { -r1 } else { r1 }
}

// Refused with 5 where the dot product of the two quaternions isn't finite, before or after the flip. Accuracy: exact.
pub fn judge_dots(before: f32, after: f32) -> Result<(), Refusal>
    ensures value { refusal_number result ≡ dots_refusal before after }
{
    if float32::is_finite(before) & float32::is_finite(after) {
        Ok(())
    } else {
        Err(Refusal::NotFinite)
    }
}

fn judged(qperp: Quaternion, value: Coefficients) -> Result<Coefficients, Refusal>
    ensures value { CoefficientsAnswer-of_result result ≡ CoefficientsAnswer-judged qperp value }
{
    if qperp.is_finite() & value.is_finite() {
        Ok(value)
    } else {
        Err(Refusal::NotFinite)
    }
}

// The coefficients of a move with rotation: r1 is flipped already, and cos_theta is its dot product with r0.
fn rotation_coefficients(
    t0: Vector3f,
    t1: Vector3f,
    r0: Quaternion,
    r1: Quaternion,
    s0: Matrix4x4,
    s1: Matrix4x4,
    cos_theta: f32,
) -> Result<Coefficients, Refusal>
    ensures value { CoefficientsAnswer-of_result result ≡ rotation_coefficients t0 t1 r0 r1 s0 s1 cos_theta }
{
    let theta = arc_cosine::acos(float32::clamp(cos_theta, -1.0, 1.0));
    let qperp = (r1 - r0 * cos_theta).normalize();
    judged(
        qperp,
        Coefficients::new(t0, t1, r0, qperp, theta, s0.to_rows(), s1.to_rows()),
    )
}

// pbrt's c1 to c5 of a move, of which each is +0 without rotation; refused with 5 where the perpendicular quaternion or a coefficient isn't finite.
// Accuracy: each operation but the arc cosine is correctly rounded.
pub fn pair_coefficients(
    has_rotation: bool,
    t0: Vector3f,
    t1: Vector3f,
    r0: Quaternion,
    r1: Quaternion,
    s0: Matrix4x4,
    s1: Matrix4x4,
    cos_theta: f32,
) -> Result<Coefficients, Refusal>
    ensures value { CoefficientsAnswer-of_result result ≡ pair_coefficients has_rotation t0 t1 r0 r1 s0 s1 cos_theta }
{
    if has_rotation {
        rotation_coefficients(t0, t1, r0, r1, s0, s1, cos_theta)
    } else {
        Ok(Coefficients::zero())
    }
}
