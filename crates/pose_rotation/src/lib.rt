// The matrix of a quaternion, pbrt's `From<Quaternion> for Transform`, matrix half: in floats, and in intervals of which each is judged as it is formed.
// Where a sum over ends is finite, judging is left out, which gives the same.
#![tactic(auto)]

ghost use Rattle.std.specs.Prelude.{◌≡◌};
ghost use Rattle.interval.specs.refusal.Number.{numbered};
ghost use Rattle.pose_steps.specs.Pose.{Pose-rotation};
ghost use Rattle.pose_steps.specs.Judged.{JudgedMatrix-outcome};
ghost use Rattle.pose_steps.specs.Enclose.{Pose-enclose_rotation};
ghost use Rattle.pose_rotation.specs.means.Unjudged.{Products-of, Products-ends_sum, Pose-unjudged_rotation};

use interval::Interval;
use interval_unjudged::ends_sum;
use matrix4x4::Matrix4x4;
use pose_steps::{IntervalMatrix, IntervalQuaternion, IntervalRow};
use quaternion::Quaternion;
use refusal::Refusal;

// The products of two components each.
#[derive(Clone, Copy)]
struct Products {
    xx: Interval,
    yy: Interval,
    zz: Interval,
    xy: Interval,
    xz: Interval,
    yz: Interval,
    wx: Interval,
    wy: Interval,
    wz: Interval,
}

// pbrt's `From<Quaternion> for Transform`, matrix half: the matrix of a quaternion, transposed once. Accuracy: each operation is correctly rounded.
pub fn rotation(q: Quaternion) -> Matrix4x4
    ensures value { result ≡ Pose-rotation q }
{
    let xx = q.v.x * q.v.x;
    let yy = q.v.y * q.v.y;
    let zz = q.v.z * q.v.z;
    let xy = q.v.x * q.v.y;
    let xz = q.v.x * q.v.z;
    let yz = q.v.y * q.v.z;
    let wx = q.v.x * q.w;
    let wy = q.v.y * q.w;
    let wz = q.v.z * q.w;
    let m00 = 1.0 - 2.0 * (yy + zz);
    let m01 = 2.0 * (xy + wz);
    let m02 = 2.0 * (xz - wy);
    let m10 = 2.0 * (xy - wz);
    let m11 = 1.0 - 2.0 * (xx + zz);
    let m12 = 2.0 * (yz + wx);
    let m20 = 2.0 * (xz + wy);
    let m21 = 2.0 * (yz - wx);
    let m22 = 1.0 - 2.0 * (xx + yy);
    Matrix4x4 {
        r0: [m00, m10, m20, 0.0],
        r1: [m01, m11, m21, 0.0],
        r2: [m02, m12, m22, 0.0],
        r3: [0.0, 0.0, 0.0, 1.0],
    }
}

fn products_unjudged(q: IntervalQuaternion) -> Products
    ensures value { result ≡ Products-of q }
{
    let xx = interval_unjudged::mul_ordered(q.x, q.x);
    let yy = interval_unjudged::mul_ordered(q.y, q.y);
    let zz = interval_unjudged::mul_ordered(q.z, q.z);
    let xy = interval_unjudged::mul_ordered(q.x, q.y);
    let xz = interval_unjudged::mul_ordered(q.x, q.z);
    let yz = interval_unjudged::mul_ordered(q.y, q.z);
    let wx = interval_unjudged::mul_ordered(q.x, q.w);
    let wy = interval_unjudged::mul_ordered(q.y, q.w);
    let wz = interval_unjudged::mul_ordered(q.z, q.w);
    Products {
        xx,
        yy,
        zz,
        xy,
        xz,
        yz,
        wx,
        wy,
        wz,
    }
}

fn products_ends_sum(p: Products) -> f32
    ensures value { result ≡ Products-ends_sum p }
{
    ends_sum(p.xx)
        + ends_sum(p.yy)
        + ends_sum(p.zz)
        + (ends_sum(p.xy) + ends_sum(p.xz) + ends_sum(p.yz))
        + (ends_sum(p.wx) + ends_sum(p.wy) + ends_sum(p.wz))
}

fn rotation_unjudged(p: Products) -> IntervalMatrix
    ensures value { result ≡ Pose-unjudged_rotation p }
{
    let zero = Interval {
        low: 0.0,
        high: 0.0,
    };
    let one = Interval {
        low: 1.0,
        high: 1.0,
    };
    let two = Interval {
        low: 2.0,
        high: 2.0,
    };
    let a00 = interval_unjudged::add_enclosure(p.yy, p.zz);
    let b00 = interval_unjudged::mul_ordered(two, a00);
    let m00 = interval_unjudged::sub_enclosure(one, b00);
    let a01 = interval_unjudged::add_enclosure(p.xy, p.wz);
    let m01 = interval_unjudged::mul_ordered(two, a01);
    let a02 = interval_unjudged::sub_enclosure(p.xz, p.wy);
    let m02 = interval_unjudged::mul_ordered(two, a02);
    let a10 = interval_unjudged::sub_enclosure(p.xy, p.wz);
    let m10 = interval_unjudged::mul_ordered(two, a10);
    let a11 = interval_unjudged::add_enclosure(p.xx, p.zz);
    let b11 = interval_unjudged::mul_ordered(two, a11);
    let m11 = interval_unjudged::sub_enclosure(one, b11);
    let a12 = interval_unjudged::add_enclosure(p.yz, p.wx);
    let m12 = interval_unjudged::mul_ordered(two, a12);
    let a20 = interval_unjudged::add_enclosure(p.xz, p.wy);
    let m20 = interval_unjudged::mul_ordered(two, a20);
    let a21 = interval_unjudged::sub_enclosure(p.yz, p.wx);
    let m21 = interval_unjudged::mul_ordered(two, a21);
    let a22 = interval_unjudged::add_enclosure(p.xx, p.yy);
    let b22 = interval_unjudged::mul_ordered(two, a22);
    let m22 = interval_unjudged::sub_enclosure(one, b22);
    let r0 = IntervalRow {
        c0: m00,
        c1: m10,
        c2: m20,
        c3: zero,
    };
    let r1 = IntervalRow {
        c0: m01,
        c1: m11,
        c2: m21,
        c3: zero,
    };
    let r2 = IntervalRow {
        c0: m02,
        c1: m12,
        c2: m22,
        c3: zero,
    };
    IntervalMatrix { r0, r1, r2 }
}

// The same in intervals; refused with 5 where an end isn't finite. Accuracy: encloses.
pub fn rotation_enclosure(q: IntervalQuaternion) -> Result<IntervalMatrix, Refusal>
    ensures value { numbered result ≡ JudgedMatrix-outcome (Pose-enclose_rotation 0 q) }
{
    let p = products_unjudged(q);
    let matrix = rotation_unjudged(p);
    let ends = pose_ends::quaternion_ends_sum(q)
        + products_ends_sum(p)
        + pose_ends::matrix_ends_sum(matrix);
    if float32::is_finite(ends) {
        Ok(matrix)
    } else {
        pose_judged::rotation_enclosure(q)
    }
}
