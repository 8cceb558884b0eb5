// The rotation of a pose at dt, pbrt's `slerp` with its dot product and angle given: in floats and in intervals.
// Where a sum over ends is finite, judging is left out, which gives the same. slerp is linear above 0.9995. A squared length whose low end is zero or below is
// refused with 10 before its root is taken.
// What far slerp needs that does not depend on t is computed by `perpendicular_to`, so that a caller with many intervals of t keeps it.
#![tactic(auto)]

ghost use Rattle.std.specs.Prelude.{◌≡◌};
ghost use Rattle.interval.specs.refusal.Number.{numbered};
ghost use Rattle.pose_steps.specs.Pose.{PoseConstants-new, Pose-slerp_near, Pose-slerp_far, Pose-slerp};
ghost use Rattle.pose_steps.specs.Judged.{JudgedQuaternion-outcome};
ghost use Rattle.pose_steps.specs.Enclose.{IntervalQuaternion-point, Pose-enclose_slerp_near, Pose-enclose_slerp_far, Pose-enclose_slerp};
ghost use Rattle.interval.specs.Interval.{Interval-point};
ghost use Rattle.pose_slerp.specs.means.Unjudged.{Perpendicular-of, Quaternion-turned, IntervalQuaternion-combination};
ghost use Rattle.pose_slerp.specs.means.Unjudged.{IntervalQuaternion-squared, IntervalQuaternion-quotient};

use interval::Interval;
use interval_unjudged::ends_sum;
use pose_steps::{IntervalQuaternion, PoseConstants};
use quaternion::{Quaternion, SLERP_THRESHOLD};
use refusal::Refusal;
use vector3::Vector3f;

// The unit quaternion that `slerp` turns the first one to, and the length that it was divided by.
#[derive(Clone, Copy)]
pub struct Perpendicular {
    pub q: Quaternion,
    pub length: f32,
}

// The constants of a move: the dot product of its rotations and the angle between them are computed here, once.
// Accuracy: each operation but the arc cosine is correctly rounded.
pub fn constants(
    rigid: bool,
    t0: Vector3f,
    t1: Vector3f,
    r0: Quaternion,
    r1: Quaternion,
) -> PoseConstants
    ensures value { result ≡ PoseConstants-new rigid t0 t1 r0 r1 }
{
    let cos_theta = r0.dot(r1);
    let theta = arc_cosine::acos(float32::clamp(cos_theta, -1.0, 1.0));
    PoseConstants {
        t0,
        t1,
        r0,
        r1,
        cos_theta,
        theta,
        rigid,
    }
}

// pbrt's `slerp` where it is linear: the straight line from q1 to q2, normalized. Accuracy: each operation is correctly rounded.
pub fn slerp_near(q1: Quaternion, q2: Quaternion, t: f32) -> Quaternion
    ensures value { result ≡ Pose-slerp_near q1 q2 t }
{
    let s = 1.0 - t;
    let x = q1.v.x * s + q2.v.x * t;
    let y = q1.v.y * s + q2.v.y * t;
    let z = q1.v.z * s + q2.v.z * t;
    let w = q1.w * s + q2.w * t;
    let n = square_root::sqrt(x * x + y * y + z * z + w * w);
    let v = Vector3f {
        x: x / n,
        y: y / n,
        z: z / n,
    };
    Quaternion { v, w: w / n }
}

// p cos + q sin. Accuracy: each operation is correctly rounded.
pub fn turned(p: Quaternion, q: Quaternion, sin: f32, cos: f32) -> Quaternion
    ensures value { result ≡ Quaternion-turned p q sin cos }
{
    let v = Vector3f {
        x: p.v.x * cos + q.v.x * sin,
        y: p.v.y * cos + q.v.y * sin,
        z: p.v.z * cos + q.v.z * sin,
    };
    Quaternion {
        v,
        w: p.w * cos + q.w * sin,
    }
}

// pbrt's `slerp` where it isn't linear: the arc from q1 towards q2, through theta t. Accuracy: each operation but sine and cosine is correctly rounded.
pub fn slerp_far(q1: Quaternion, q2: Quaternion, cos_theta: f32, theta: f32, t: f32) -> Quaternion
    ensures value { result ≡ Pose-slerp_far q1 q2 cos_theta theta t }
{
    let perp = perpendicular_to(q1, q2, cos_theta);
    let angle = trig::sin_cos(theta * t);
    turned(q1, perp.q, angle.sin, angle.cos)
}

// pbrt's `slerp` of a move's two rotations, linear where their dot product is above 0.9995. Accuracy: each operation but sine and cosine is correctly rounded.
pub fn slerp(a: PoseConstants, t: f32) -> Quaternion
    ensures value { result ≡ Pose-slerp a t }
{
    if a.cos_theta > SLERP_THRESHOLD {
        slerp_near(a.r0, a.r1, t)
    } else {
        slerp_far(a.r0, a.r1, a.cos_theta, a.theta, t)
    }
}

fn quaternion_point(q: Quaternion) -> IntervalQuaternion
    ensures value { result ≡ IntervalQuaternion-point q }
{
    let x = Interval::from(q.v.x);
    let y = Interval::from(q.v.y);
    let z = Interval::from(q.v.z);
    let w = Interval::from(q.w);
    IntervalQuaternion { x, y, z, w }
}

// p a + q b, with no interval judged. Accuracy: encloses, for finite ends.
pub fn combination_unjudged(
    p: Quaternion,
    q: Quaternion,
    a: Interval,
    b: Interval,
) -> IntervalQuaternion
    ensures value { result ≡ IntervalQuaternion-combination (IntervalQuaternion-point p) (IntervalQuaternion-point q) a b }
{
    let v = quaternion_point(p);
    let u = quaternion_point(q);
    let px = interval_unjudged::mul_ordered(v.x, a);
    let qx = interval_unjudged::mul_ordered(u.x, b);
    let x = interval_unjudged::add_enclosure(px, qx);
    let py = interval_unjudged::mul_ordered(v.y, a);
    let qy = interval_unjudged::mul_ordered(u.y, b);
    let y = interval_unjudged::add_enclosure(py, qy);
    let pz = interval_unjudged::mul_ordered(v.z, a);
    let qz = interval_unjudged::mul_ordered(u.z, b);
    let z = interval_unjudged::add_enclosure(pz, qz);
    let pw = interval_unjudged::mul_ordered(v.w, a);
    let qw = interval_unjudged::mul_ordered(u.w, b);
    let w = interval_unjudged::add_enclosure(pw, qw);
    IntervalQuaternion { x, y, z, w }
}

// The dot product of q and q.
fn squared_unjudged(q: IntervalQuaternion) -> Interval
    ensures value { result ≡ IntervalQuaternion-squared q }
{
    let xx = interval_unjudged::mul_ordered(q.x, q.x);
    let yy = interval_unjudged::mul_ordered(q.y, q.y);
    let xy = interval_unjudged::add_enclosure(xx, yy);
    let zz = interval_unjudged::mul_ordered(q.z, q.z);
    let xyz = interval_unjudged::add_enclosure(xy, zz);
    let ww = interval_unjudged::mul_ordered(q.w, q.w);
    interval_unjudged::add_enclosure(xyz, ww)
}

fn quotient_unjudged(q: IntervalQuaternion, n: Interval) -> IntervalQuaternion
    ensures value { result ≡ IntervalQuaternion-quotient q n }
{
    let x = interval_unjudged::div_ordered(q.x, n);
    let y = interval_unjudged::div_ordered(q.y, n);
    let z = interval_unjudged::div_ordered(q.z, n);
    let w = interval_unjudged::div_ordered(q.w, n);
    IntervalQuaternion { x, y, z, w }
}

// Linear slerp over an interval of t; refused with 5 where an end isn't finite, and with 10 where the low end of the squared length is zero or below.
// Accuracy: encloses.
pub fn slerp_near_enclosure(
    q1: Quaternion,
    q2: Quaternion,
    t: Interval,
) -> Result<IntervalQuaternion, Refusal>
    ensures value { numbered result ≡ JudgedQuaternion-outcome (Pose-enclose_slerp_near 0 (IntervalQuaternion-point q1) (IntervalQuaternion-point q2) t) }
{
    let one = Interval {
        low: 1.0,
        high: 1.0,
    };
    let s = interval_unjudged::sub_enclosure(one, t);
    let q = combination_unjudged(q1, q2, s, t);
    let dot = squared_unjudged(q);
    let n = interval_unjudged::sqrt_enclosure(dot);
    let quaternion = quotient_unjudged(q, n);
    let ends = ends_sum(t)
        + ends_sum(s)
        + ends_sum(n)
        + pose_ends::quaternion_ends_sum(q)
        + pose_ends::quaternion_ends_sum(quaternion);
    if float32::is_finite(ends) & (0.0 < n.low) & (0.0 < n.high) {
        Ok(quaternion)
    } else {
        let a = quaternion_point(q1);
        let b = quaternion_point(q2);
        pose_judged::slerp_near_enclosure(a, b, t)
    }
}

// The unit quaternion perpendicular to q1, towards q2, as in `slerp_far`: it doesn't depend on t. Accuracy: each operation is correctly rounded.
pub fn perpendicular_to(q1: Quaternion, q2: Quaternion, cos_theta: f32) -> Perpendicular
    ensures value { result ≡ Perpendicular-of q1 q2 cos_theta }
{
    let x = q2.v.x - q1.v.x * cos_theta;
    let y = q2.v.y - q1.v.y * cos_theta;
    let z = q2.v.z - q1.v.z * cos_theta;
    let w = q2.w - q1.w * cos_theta;
    let n = square_root::sqrt(x * x + y * y + z * z + w * w);
    let v = Vector3f {
        x: x / n,
        y: y / n,
        z: z / n,
    };
    let q = Quaternion { v, w: w / n };
    Perpendicular { q, length: n }
}

// slerp by the angle over an interval of t, with every interval judged, and refused as linear slerp is.
// Accuracy: encloses, for an angle from 0 to a quarter turn and t from 0 to 1.
pub fn slerp_far_enclosure(a: PoseConstants, t: Interval) -> Result<IntervalQuaternion, Refusal>
    ensures value { numbered result ≡ JudgedQuaternion-outcome (Pose-enclose_slerp_far 0 (IntervalQuaternion-point a.r0)
        (IntervalQuaternion-point a.r1) (Interval-point a.cos_theta) (Interval-point a.theta) t) }
{
    let p = quaternion_point(a.r0);
    let q = quaternion_point(a.r1);
    let cos_theta = Interval::from(a.cos_theta);
    let theta = Interval::from(a.theta);
    pose_judged::slerp_far_enclosure(p, q, cos_theta, theta, t)
}
