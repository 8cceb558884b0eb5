// The stages of a pose in intervals, each interval judged as it is formed: the first refusal that is met stands. A stage is refused with 5 for an end that isn't
// finite, and slerp with 10 for a squared length whose low end is zero or below.
// Where all ends are finite, and slerp's length above zero, nothing is refused, and the stages' own crates leave the judging out; these are what they fall back
// on where that test fails.
#![tactic(auto)]

ghost use Rattle.std.specs.Prelude.{◌≡◌};
ghost use Rattle.interval.specs.refusal.Number.{numbered};
ghost use Rattle.pose_steps.specs.Judged.{JudgedVector-outcome, JudgedQuaternion-outcome, JudgedRow-outcome, JudgedMatrix-outcome};
ghost use Rattle.pose_steps.specs.Enclose.{Pose-enclose_translation, Pose-enclose_slerp_near, Pose-enclose_slerp_far, Pose-enclose_scale_row};
ghost use Rattle.pose_steps.specs.Enclose.{Pose-enclose_scale, Pose-enclose_rotation, Pose-enclose_mul_row, Pose-enclose_mul, Pose-enclose_transform_point};
ghost use Rattle.pose_judged.specs.means.Steps.{weighted_sum, add_product, sub_product, lerp, twice_sum, twice_difference, one_less_twice_sum};
ghost use Rattle.pose_judged.specs.means.Steps.{moved, entry, normalized, mul_parts};

use interval::Interval;
use pose_steps::{IntervalMatrix, IntervalQuaternion, IntervalRow, IntervalVector};
use refusal::Refusal;

// The products of a quaternion's parts that its matrix is made of.
#[derive(Clone, Copy)]
struct Products {
    xx: Interval,
    yy: Interval,
    zz: Interval,
    xy: Interval,
    xz: Interval,
    yz: Interval,
    wx: Interval,
    wy: Interval,
    wz: Interval,
}

// p·s + q·t
fn weighted_sum(p: Interval, s: Interval, q: Interval, t: Interval) -> Result<Interval, Refusal>
    ensures value { numbered result ≡ weighted_sum p s q t }
{
    let a = p.mul_enclosure(s)?;
    let b = q.mul_enclosure(t)?;
    a.add_enclosure(b)
}

// a + p·q
fn add_product(a: Interval, p: Interval, q: Interval) -> Result<Interval, Refusal>
    ensures value { numbered result ≡ add_product a p q }
{
    let product = p.mul_enclosure(q)?;
    a.add_enclosure(product)
}

// a - p·q
fn sub_product(a: Interval, p: Interval, q: Interval) -> Result<Interval, Refusal>
    ensures value { numbered result ≡ sub_product a p q }
{
    let product = p.mul_enclosure(q)?;
    a.sub_enclosure(product)
}

// (1 - t)·a + t·b
fn lerp(t: Interval, a: Interval, b: Interval) -> Result<Interval, Refusal>
    ensures value { numbered result ≡ lerp t a b }
{
    let one = Interval {
        low: 1.0,
        high: 1.0,
    };
    let s = one.sub_enclosure(t)?;
    weighted_sum(s, a, t, b)
}

// 2·(p + q)
fn twice_sum(p: Interval, q: Interval) -> Result<Interval, Refusal>
    ensures value { numbered result ≡ twice_sum p q }
{
    let two = Interval {
        low: 2.0,
        high: 2.0,
    };
    let sum = p.add_enclosure(q)?;
    two.mul_enclosure(sum)
}

// 2·(p - q)
fn twice_difference(p: Interval, q: Interval) -> Result<Interval, Refusal>
    ensures value { numbered result ≡ twice_difference p q }
{
    let two = Interval {
        low: 2.0,
        high: 2.0,
    };
    let difference = p.sub_enclosure(q)?;
    two.mul_enclosure(difference)
}

// 1 - 2·(p + q)
fn one_less_twice_sum(p: Interval, q: Interval) -> Result<Interval, Refusal>
    ensures value { numbered result ≡ one_less_twice_sum p q }
{
    let one = Interval {
        low: 1.0,
        high: 1.0,
    };
    let twice = twice_sum(p, q)?;
    one.sub_enclosure(twice)
}

// A quaternion divided by its length.
fn normalized(q: IntervalQuaternion) -> Result<IntervalQuaternion, Refusal>
    ensures value { numbered result ≡ normalized q }
{
    let xx = q.x.mul_enclosure(q.x)?;
    let xy = add_product(xx, q.y, q.y)?;
    let xyz = add_product(xy, q.z, q.z)?;
    let dot = add_product(xyz, q.w, q.w)?;
    let n = dot.sqrt_enclosure()?;
    let x = q.x.div_enclosure(n)?;
    let y = q.y.div_enclosure(n)?;
    let z = q.z.div_enclosure(n)?;
    let w = q.w.div_enclosure(n)?;
    Ok(IntervalQuaternion { x, y, z, w })
}

fn mul_parts(q: IntervalQuaternion) -> Result<Products, Refusal>
    ensures value { numbered result ≡ mul_parts q }
{
    let xx = q.x.mul_enclosure(q.x)?;
    let yy = q.y.mul_enclosure(q.y)?;
    let zz = q.z.mul_enclosure(q.z)?;
    let xy = q.x.mul_enclosure(q.y)?;
    let xz = q.x.mul_enclosure(q.z)?;
    let yz = q.y.mul_enclosure(q.z)?;
    let wx = q.x.mul_enclosure(q.w)?;
    let wy = q.y.mul_enclosure(q.w)?;
    let wz = q.z.mul_enclosure(q.w)?;
    Ok(Products {
        xx,
        yy,
        zz,
        xy,
        xz,
        yz,
        wx,
        wy,
        wz,
    })
}

// The translation between two poses. Accuracy: encloses.
pub fn translation_enclosure(
    t0: IntervalVector,
    t1: IntervalVector,
    dt: Interval,
) -> Result<IntervalVector, Refusal>
    ensures value { numbered result ≡ JudgedVector-outcome (Pose-enclose_translation 0 t0 t1 dt) }
{
    let one = Interval {
        low: 1.0,
        high: 1.0,
    };
    let s = one.sub_enclosure(dt)?;
    let x = weighted_sum(t0.x, s, t1.x, dt)?;
    let y = weighted_sum(t0.y, s, t1.y, dt)?;
    let z = weighted_sum(t0.z, s, t1.z, dt)?;
    Ok(IntervalVector { x, y, z })
}

// slerp where it is linear. Accuracy: encloses.
pub fn slerp_near_enclosure(
    q1: IntervalQuaternion,
    q2: IntervalQuaternion,
    t: Interval,
) -> Result<IntervalQuaternion, Refusal>
    ensures value { numbered result ≡ JudgedQuaternion-outcome (Pose-enclose_slerp_near 0 q1 q2 t) }
{
    let one = Interval {
        low: 1.0,
        high: 1.0,
    };
    let s = one.sub_enclosure(t)?;
    let x = weighted_sum(q1.x, s, q2.x, t)?;
    let y = weighted_sum(q1.y, s, q2.y, t)?;
    let z = weighted_sum(q1.z, s, q2.z, t)?;
    let w = weighted_sum(q1.w, s, q2.w, t)?;
    normalized(IntervalQuaternion { x, y, z, w })
}

// slerp where it isn't linear, with its dot product and angle given. Accuracy: encloses, for an angle from 0 to a quarter turn and t from 0 to 1.
pub fn slerp_far_enclosure(
    q1: IntervalQuaternion,
    q2: IntervalQuaternion,
    cos_theta: Interval,
    theta: Interval,
    t: Interval,
) -> Result<IntervalQuaternion, Refusal>
    ensures value { numbered result ≡ JudgedQuaternion-outcome (Pose-enclose_slerp_far 0 q1 q2 cos_theta theta t) }
{
    let thetap = theta.mul_enclosure(t)?;
    let px = sub_product(q2.x, q1.x, cos_theta)?;
    let py = sub_product(q2.y, q1.y, cos_theta)?;
    let pz = sub_product(q2.z, q1.z, cos_theta)?;
    let pw = sub_product(q2.w, q1.w, cos_theta)?;
    let perp = normalized(IntervalQuaternion {
        x: px,
        y: py,
        z: pz,
        w: pw,
    })?;
    let at = thetap.sin_cos_enclosure()?;
    let x = weighted_sum(q1.x, at.cos, perp.x, at.sin)?;
    let y = weighted_sum(q1.y, at.cos, perp.y, at.sin)?;
    let z = weighted_sum(q1.z, at.cos, perp.z, at.sin)?;
    let w = weighted_sum(q1.w, at.cos, perp.w, at.sin)?;
    Ok(IntervalQuaternion { x, y, z, w })
}

// The fourth entries are not read.
fn scale_row_enclosure(
    s0: IntervalRow,
    s1: IntervalRow,
    dt: Interval,
) -> Result<IntervalRow, Refusal>
    ensures value { numbered result ≡ JudgedRow-outcome (Pose-enclose_scale_row 0 s0 s1 dt) }
{
    let zero = Interval {
        low: 0.0,
        high: 0.0,
    };
    let c0 = lerp(dt, s0.c0, s1.c0)?;
    let c1 = lerp(dt, s0.c1, s1.c1)?;
    let c2 = lerp(dt, s0.c2, s1.c2)?;
    Ok(IntervalRow {
        c0,
        c1,
        c2,
        c3: zero,
    })
}

// The scale between two poses. Accuracy: encloses.
pub fn scale_enclosure(
    s0: IntervalMatrix,
    s1: IntervalMatrix,
    dt: Interval,
) -> Result<IntervalMatrix, Refusal>
    ensures value { numbered result ≡ JudgedMatrix-outcome (Pose-enclose_scale 0 s0 s1 dt) }
{
    let r0 = scale_row_enclosure(s0.r0, s1.r0, dt)?;
    let r1 = scale_row_enclosure(s0.r1, s1.r1, dt)?;
    let r2 = scale_row_enclosure(s0.r2, s1.r2, dt)?;
    Ok(IntervalMatrix { r0, r1, r2 })
}

// The matrix of a quaternion, transposed once: m00 and its like are the inverse half's. Accuracy: encloses.
pub fn rotation_enclosure(q: IntervalQuaternion) -> Result<IntervalMatrix, Refusal>
    ensures value { numbered result ≡ JudgedMatrix-outcome (Pose-enclose_rotation 0 q) }
{
    let zero = Interval {
        low: 0.0,
        high: 0.0,
    };
    let p = mul_parts(q)?;
    let m00 = one_less_twice_sum(p.yy, p.zz)?;
    let m01 = twice_sum(p.xy, p.wz)?;
    let m02 = twice_difference(p.xz, p.wy)?;
    let m10 = twice_difference(p.xy, p.wz)?;
    let m11 = one_less_twice_sum(p.xx, p.zz)?;
    let m12 = twice_sum(p.yz, p.wx)?;
    let m20 = twice_sum(p.xz, p.wy)?;
    let m21 = twice_difference(p.yz, p.wx)?;
    let m22 = one_less_twice_sum(p.xx, p.yy)?;
    let r0 = IntervalRow {
        c0: m00,
        c1: m10,
        c2: m20,
        c3: zero,
    };
    let r1 = IntervalRow {
        c0: m01,
        c1: m11,
        c2: m21,
        c3: zero,
    };
    let r2 = IntervalRow {
        c0: m02,
        c1: m12,
        c2: m22,
        c3: zero,
    };
    Ok(IntervalMatrix { r0, r1, r2 })
}

// A row by a column with the entry `last` of the bottom row.
fn entry(
    a: IntervalRow,
    b0: Interval,
    b1: Interval,
    b2: Interval,
    last: Interval,
) -> Result<Interval, Refusal>
    ensures value { numbered result ≡ entry a b0 b1 b2 last }
{
    let p = a.c0.mul_enclosure(b0)?;
    let s = add_product(p, a.c1, b1)?;
    let u = add_product(s, a.c2, b2)?;
    add_product(u, a.c3, last)
}

// A row of the first matrix by the rows of the second, whose bottom row is 0, 0, 0, 1.
fn mul_row_enclosure(a: IntervalRow, b: IntervalMatrix) -> Result<IntervalRow, Refusal>
    ensures value { numbered result ≡ JudgedRow-outcome (Pose-enclose_mul_row 0 a b) }
{
    let zero = Interval {
        low: 0.0,
        high: 0.0,
    };
    let one = Interval {
        low: 1.0,
        high: 1.0,
    };
    let c0 = entry(a, b.r0.c0, b.r1.c0, b.r2.c0, zero)?;
    let c1 = entry(a, b.r0.c1, b.r1.c1, b.r2.c1, zero)?;
    let c2 = entry(a, b.r0.c2, b.r1.c2, b.r2.c2, zero)?;
    let c3 = entry(a, b.r0.c3, b.r1.c3, b.r2.c3, one)?;
    Ok(IntervalRow { c0, c1, c2, c3 })
}

// The product of two matrices whose bottom rows are 0, 0, 0, 1. Accuracy: encloses.
pub fn mul_enclosure(a: IntervalMatrix, b: IntervalMatrix) -> Result<IntervalMatrix, Refusal>
    ensures value { numbered result ≡ JudgedMatrix-outcome (Pose-enclose_mul 0 a b) }
{
    let r0 = mul_row_enclosure(a.r0, b)?;
    let r1 = mul_row_enclosure(a.r1, b)?;
    let r2 = mul_row_enclosure(a.r2, b)?;
    Ok(IntervalMatrix { r0, r1, r2 })
}

// A coordinate of the moved points.
fn moved(r: IntervalRow, p: IntervalVector) -> Result<Interval, Refusal>
    ensures value { numbered result ≡ moved r p }
{
    let x = p.x.mul_enclosure(r.c0)?;
    let xy = add_product(x, p.y, r.c1)?;
    let xyz = add_product(xy, p.z, r.c2)?;
    xyz.add_enclosure(r.c3)
}

// A box of points moved by a matrix whose bottom row is 0, 0, 0, 1. Accuracy: encloses.
pub fn transform_point_enclosure(
    a: IntervalMatrix,
    p: IntervalVector,
) -> Result<IntervalVector, Refusal>
    ensures value { numbered result ≡ JudgedVector-outcome (Pose-enclose_transform_point 0 a p) }
{
    let x = moved(a.r0, p)?;
    let y = moved(a.r1, p)?;
    let z = moved(a.r2, p)?;
    Ok(IntervalVector { x, y, z })
}
