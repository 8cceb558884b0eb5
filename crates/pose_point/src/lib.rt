// A point moved by a matrix whose bottom row is 0, 0, 0, 1, pbrt's `transform_point` with wp = 1: in floats, and in intervals of which each is judged as it is
// formed. Where a sum over all ends is finite, judging is left out, which gives the same.
// And vectors and matrices of floats as intervals with equal ends.
#![tactic(auto)]

ghost use Rattle.std.specs.Prelude.{◌≡◌};
ghost use Rattle.interval.specs.refusal.Number.{numbered};
ghost use Rattle.pose_steps.specs.Pose.{Pose-transform_point};
ghost use Rattle.pose_steps.specs.Judged.{JudgedVector-outcome};
ghost use Rattle.pose_steps.specs.Enclose.{IntervalVector-point, IntervalRow-point, IntervalMatrix-point, Pose-enclose_transform_point};
ghost use Rattle.pose_point.specs.means.Unjudged.{Pose-unjudged_transform_point};

use bounds3::Point3f;
use interval::Interval;
use matrix4x4::Matrix4x4;
use pose_steps::{IntervalMatrix, IntervalRow, IntervalVector};
use refusal::Refusal;
use vector3::Vector3f;

// A vector with equal ends. Accuracy: exact.
pub fn vector_point(v: Vector3f) -> IntervalVector
    ensures value { result ≡ IntervalVector-point v }
{
    let x = Interval::from(v.x);
    let y = Interval::from(v.y);
    let z = Interval::from(v.z);
    IntervalVector { x, y, z }
}

// A row with equal ends. Accuracy: exact.
pub fn row_point(r: [f32; 4]) -> IntervalRow
    ensures value { result ≡ IntervalRow-point r }
{
    let c0 = Interval::from(r[0]);
    let c1 = Interval::from(r[1]);
    let c2 = Interval::from(r[2]);
    let c3 = Interval::from(r[3]);
    IntervalRow { c0, c1, c2, c3 }
}

// A matrix of floats, with equal ends: its bottom row is left out. Accuracy: exact.
pub fn matrix_point(m: Matrix4x4) -> IntervalMatrix
    ensures value { result ≡ IntervalMatrix-point m }
{
    let a = m.r0;
    let b = m.r1;
    let c = m.r2;
    let r0 = row_point(a);
    let r1 = row_point(b);
    let r2 = row_point(c);
    IntervalMatrix { r0, r1, r2 }
}

// pbrt's `transform_point` with wp = 1: the three upper rows of a matrix times (x, y, z, 1), summed from the left.
// Accuracy: each operation is correctly rounded.
pub fn transform_point(m: Matrix4x4, p: Point3f) -> Point3f
    ensures value { result ≡ Pose-transform_point m p }
{
    let r0 = m.r0;
    let r1 = m.r1;
    let r2 = m.r2;
    Point3f {
        x: p.x * r0[0] + p.y * r0[1] + p.z * r0[2] + r0[3],
        y: p.x * r1[0] + p.y * r1[1] + p.z * r1[2] + r1[3],
        z: p.x * r2[0] + p.y * r2[1] + p.z * r2[2] + r2[3],
    }
}

fn transform_point_unjudged(a: IntervalMatrix, p: IntervalVector) -> IntervalVector
    ensures value { result ≡ Pose-unjudged_transform_point a p }
{
    let r0 = a.r0;
    let r1 = a.r1;
    let r2 = a.r2;
    let p0 = interval_unjudged::mul_ordered(p.x, r0.c0);
    let q0 = interval_unjudged::mul_ordered(p.y, r0.c1);
    let s0 = interval_unjudged::add_enclosure(p0, q0);
    let t0 = interval_unjudged::mul_ordered(p.z, r0.c2);
    let u0 = interval_unjudged::add_enclosure(s0, t0);
    let x = interval_unjudged::add_enclosure(u0, r0.c3);
    let p1 = interval_unjudged::mul_ordered(p.x, r1.c0);
    let q1 = interval_unjudged::mul_ordered(p.y, r1.c1);
    let s1 = interval_unjudged::add_enclosure(p1, q1);
    let t1 = interval_unjudged::mul_ordered(p.z, r1.c2);
    let u1 = interval_unjudged::add_enclosure(s1, t1);
    let y = interval_unjudged::add_enclosure(u1, r1.c3);
    let p2 = interval_unjudged::mul_ordered(p.x, r2.c0);
    let q2 = interval_unjudged::mul_ordered(p.y, r2.c1);
    let s2 = interval_unjudged::add_enclosure(p2, q2);
    let t2 = interval_unjudged::mul_ordered(p.z, r2.c2);
    let u2 = interval_unjudged::add_enclosure(s2, t2);
    let z = interval_unjudged::add_enclosure(u2, r2.c3);
    IntervalVector { x, y, z }
}

// The same over a box of points; refused with 5 where an end isn't finite. Accuracy: encloses.
pub fn transform_point_enclosure(
    a: IntervalMatrix,
    p: IntervalVector,
) -> Result<IntervalVector, Refusal>
    ensures value { numbered result ≡ JudgedVector-outcome (Pose-enclose_transform_point 0 a p) }
{
    let vector = transform_point_unjudged(a, p);
    let ends = pose_ends::matrix_ends_sum(a)
        + pose_ends::vector_ends_sum(p)
        + pose_ends::vector_ends_sum(vector);
    if float32::is_finite(ends) {
        Ok(vector)
    } else {
        pose_judged::transform_point_enclosure(a, p)
    }
}
