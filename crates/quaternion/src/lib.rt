// pbrt's Quaternion: a vector and a scalar, which rotates where its length is 1. Nothing is refused here: each function is stated for all arguments, NaN and
// infinities included, and the functions that build and that answer queries judge what comes out.
#![tactic(auto)]

ghost use Rattle.std.specs.Prelude.{◌≡◌};
ghost use Rattle.quaternion.specs.Quaternion.{Quaternion-dot, Quaternion-normalize, Quaternion-add};
ghost use Rattle.quaternion.specs.Quaternion.{Quaternion-sub, Quaternion-neg, Quaternion-mul, Quaternion-div};
ghost use Rattle.quaternion.specs.IsFinite.{Quaternion-is_finite};
ghost use Rattle.quaternion.specs.Slerp.{slerp_near, slerp_far, Quaternion-slerp};

use std::ops::{Add, Div, Mul, Neg, Sub};
use vector3::Vector3f;

// slerp is linear where the dot product is above it, and a move has rotation where it is below: at 0.9995 itself neither holds.
pub const SLERP_THRESHOLD: f32 = 0.9995;

#[derive(Clone, Copy)]
pub struct Quaternion {
    pub v: Vector3f,
    pub w: f32,
}

impl Quaternion {
    // pbrt's `dot`: the sum of the products of the components, those of v first. Accuracy: each operation is correctly rounded.
    pub fn dot(self, q: Quaternion) -> f32
        ensures value { result ≡ Quaternion-dot self q }
    {
        self.v.dot(q.v) + self.w * q.w
    }

    // pbrt's `normalize`: the quaternion divided by its length. Accuracy: each operation is correctly rounded.
    pub fn normalize(self) -> Quaternion
        ensures value { result ≡ Quaternion-normalize self }
    {
        self / square_root::sqrt(self.dot(self))
    }

    // Whether no component is a NaN or an infinity. Accuracy: exact.
    pub fn is_finite(self) -> bool
        ensures value { result ≡ Quaternion-is_finite self }
    {
        let v = self.v;
        float32::is_finite(v.x)
            & float32::is_finite(v.y)
            & float32::is_finite(v.z)
            & float32::is_finite(self.w)
    }
}

// pbrt's sum, component by component. Accuracy: correctly rounded.
impl Add for Quaternion {
    type Output = Quaternion;

    ghost add_gives = { λ q r s. s ≡ Quaternion-add q r };

    fn add(self, q: Quaternion) -> Quaternion {
        Quaternion {
            v: self.v + q.v,
            w: self.w + q.w,
        }
    }
}

// pbrt's difference, component by component. Accuracy: correctly rounded.
impl Sub for Quaternion {
    type Output = Quaternion;

    ghost sub_gives = { λ q r s. s ≡ Quaternion-sub q r };

    fn sub(self, q: Quaternion) -> Quaternion {
        Quaternion {
            v: self.v - q.v,
            w: self.w - q.w,
        }
    }
}

// pbrt's negative, which is the same rotation. Accuracy: exact.
impl Neg for Quaternion {
    type Output = Quaternion;

    ghost neg_gives = { λ q r. r ≡ Quaternion-neg q };

    fn neg(self) -> Quaternion {
        Quaternion {
            v: -self.v,
            w: -self.w,
        }
    }
}

// Each component times f. Accuracy: correctly rounded.
impl Mul<f32> for Quaternion {
    type Output = Quaternion;

    ghost mul_gives = { λ q f r. r ≡ Quaternion-mul q f };

    fn mul(self, f: f32) -> Quaternion {
        Quaternion {
            v: self.v * f,
            w: self.w * f,
        }
    }
}

// Each component divided by f. Accuracy: correctly rounded.
impl Div<f32> for Quaternion {
    type Output = Quaternion;

    ghost div_gives = { λ q f r. r ≡ Quaternion-div q f };

    fn div(self, f: f32) -> Quaternion {
        Quaternion {
            v: self.v / f,
            w: self.w / f,
        }
    }
}

// The straight line between the two, normalized.
fn slerp_near(q1: Quaternion, q2: Quaternion, t: f32) -> Quaternion
    ensures value { result ≡ slerp_near q1 q2 t }
{
    (q1 * (1.0 - t) + q2 * t).normalize()
}

// The arc from q1 towards q2, through the angle between them times t.
fn slerp_far(q1: Quaternion, q2: Quaternion, t: f32, cos_theta: f32) -> Quaternion
    ensures value { result ≡ slerp_far q1 q2 t cos_theta }
{
    let theta = arc_cosine::acos(float32::clamp(cos_theta, -1.0, 1.0));
    let thetap = theta * t;
    let qperp = (q2 - q1 * cos_theta).normalize();
    let angle = trig::sin_cos(thetap);
    q1 * angle.cos + qperp * angle.sin
}

// pbrt's `slerp`: spherical interpolation from q1 at t = 0 to q2 at t = 1, linear where the dot product is above 0.9995; has_rotation asks for less: at 0.9995
// itself neither holds. Accuracy: each operation but sine, cosine and arc cosine is correctly rounded.
pub fn slerp(q1: Quaternion, q2: Quaternion, t: f32) -> Quaternion
    ensures value { result ≡ Quaternion-slerp q1 q2 t }
{
    let cos_theta = q1.dot(q2);
    if cos_theta > SLERP_THRESHOLD {
        slerp_near(q1, q2, t)
    } else {
        slerp_far(q1, q2, t, cos_theta)
    }
}
