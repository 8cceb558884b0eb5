// The product of two matrices whose bottom rows are 0, 0, 0, 1, pbrt's `Matrix4x4::mul` on the three rows above it, all four terms of each sum:
// in floats, and in intervals of which each is judged as it is formed. Where a sum over all ends is finite, judging is left out, which gives the same.
#![tactic(auto)]

ghost use Rattle.std.specs.Prelude.{◌≡◌};
ghost use Rattle.interval.specs.refusal.Number.{numbered};
ghost use Rattle.pose_steps.specs.matrix4x4.Rows.{Matrix4x4-to_rows, Matrix4x4-from_rows};
ghost use Rattle.pose_steps.specs.Pose.{Pose-mul_row, Pose-mul};
ghost use Rattle.pose_steps.specs.Judged.{JudgedMatrix-outcome};
ghost use Rattle.pose_steps.specs.Enclose.{Pose-enclose_mul, IntervalMatrix-translation};
ghost use Rattle.pose_product.specs.means.Unjudged.{Pose-unjudged_mul_row, Pose-unjudged_mul, IntervalVector-times, Pose-translated_column};

use interval::Interval;
use pose_steps::{IntervalMatrix, IntervalRow, IntervalVector};
use refusal::Refusal;

// A row of the first matrix by the rows of the second, whose bottom row is taken as 0, 0, 0, 1.
fn mul_row(a: [f32; 4], b: [[f32; 4]; 4]) -> [f32; 4]
    ensures value { result ≡ Pose-mul_row a (Matrix4x4-from_rows b) }
{
    let r0 = b[0];
    let r1 = b[1];
    let r2 = b[2];
    let x = a[0];
    let y = a[1];
    let z = a[2];
    let w = a[3];
    [
        x * r0[0] + y * r1[0] + z * r2[0] + w * 0.0,
        x * r0[1] + y * r1[1] + z * r2[1] + w * 0.0,
        x * r0[2] + y * r1[2] + z * r2[2] + w * 0.0,
        x * r0[3] + y * r1[3] + z * r2[3] + w * 1.0,
    ]
}

// pbrt's `Matrix4x4::mul` of two matrices whose bottom rows are 0, 0, 0, 1. Accuracy: each operation is correctly rounded.
pub fn mul(a: [[f32; 4]; 4], b: [[f32; 4]; 4]) -> [[f32; 4]; 4]
    ensures value { result ≡ Matrix4x4-to_rows (Pose-mul (Matrix4x4-from_rows a) (Matrix4x4-from_rows b)) }
{
    let a0 = a[0];
    let a1 = a[1];
    let a2 = a[2];
    let r0 = mul_row(a0, b);
    let r1 = mul_row(a1, b);
    let r2 = mul_row(a2, b);
    [r0, r1, r2, [0.0, 0.0, 0.0, 1.0]]
}

fn mul_row_unjudged(a: IntervalRow, b: IntervalMatrix) -> IntervalRow
    ensures value { result ≡ Pose-unjudged_mul_row a b }
{
    let zero = Interval {
        low: 0.0,
        high: 0.0,
    };
    let one = Interval {
        low: 1.0,
        high: 1.0,
    };
    let r0 = b.r0;
    let r1 = b.r1;
    let r2 = b.r2;
    let p0 = interval_unjudged::mul_ordered(a.c0, r0.c0);
    let q0 = interval_unjudged::mul_ordered(a.c1, r1.c0);
    let s0 = interval_unjudged::add_enclosure(p0, q0);
    let t0 = interval_unjudged::mul_ordered(a.c2, r2.c0);
    let u0 = interval_unjudged::add_enclosure(s0, t0);
    let v0 = interval_unjudged::mul_ordered(a.c3, zero);
    let c0 = interval_unjudged::add_enclosure(u0, v0);
    let p1 = interval_unjudged::mul_ordered(a.c0, r0.c1);
    let q1 = interval_unjudged::mul_ordered(a.c1, r1.c1);
    let s1 = interval_unjudged::add_enclosure(p1, q1);
    let t1 = interval_unjudged::mul_ordered(a.c2, r2.c1);
    let u1 = interval_unjudged::add_enclosure(s1, t1);
    let v1 = interval_unjudged::mul_ordered(a.c3, zero);
    let c1 = interval_unjudged::add_enclosure(u1, v1);
    let p2 = interval_unjudged::mul_ordered(a.c0, r0.c2);
    let q2 = interval_unjudged::mul_ordered(a.c1, r1.c2);
    let s2 = interval_unjudged::add_enclosure(p2, q2);
    let t2 = interval_unjudged::mul_ordered(a.c2, r2.c2);
    let u2 = interval_unjudged::add_enclosure(s2, t2);
    let v2 = interval_unjudged::mul_ordered(a.c3, zero);
    let c2 = interval_unjudged::add_enclosure(u2, v2);
    let p3 = interval_unjudged::mul_ordered(a.c0, r0.c3);
    let q3 = interval_unjudged::mul_ordered(a.c1, r1.c3);
    let s3 = interval_unjudged::add_enclosure(p3, q3);
    let t3 = interval_unjudged::mul_ordered(a.c2, r2.c3);
    let u3 = interval_unjudged::add_enclosure(s3, t3);
    let v3 = interval_unjudged::mul_ordered(a.c3, one);
    let c3 = interval_unjudged::add_enclosure(u3, v3);
    IntervalRow { c0, c1, c2, c3 }
}

// The same in intervals; refused with 5 where an end isn't finite. Accuracy: encloses.
pub fn mul_enclosure(a: IntervalMatrix, b: IntervalMatrix) -> Result<IntervalMatrix, Refusal>
    ensures value { numbered result ≡ JudgedMatrix-outcome (Pose-enclose_mul 0 a b) }
{
    let r0 = mul_row_unjudged(a.r0, b);
    let r1 = mul_row_unjudged(a.r1, b);
    let r2 = mul_row_unjudged(a.r2, b);
    let matrix = IntervalMatrix { r0, r1, r2 };
    let ends = pose_ends::matrix_ends_sum(a)
        + pose_ends::matrix_ends_sum(b)
        + pose_ends::matrix_ends_sum(matrix);
    if float32::is_finite(ends) {
        Ok(matrix)
    } else {
        pose_judged::mul_enclosure(a, b)
    }
}

// The matrix that adds v to a point.
fn translation_matrix(v: IntervalVector) -> IntervalMatrix
    ensures value { result ≡ IntervalMatrix-translation v }
{
    let zero = Interval {
        low: 0.0,
        high: 0.0,
    };
    let one = Interval {
        low: 1.0,
        high: 1.0,
    };
    let x = v.x;
    let y = v.y;
    let z = v.z;
    let r0 = IntervalRow {
        c0: one,
        c1: zero,
        c2: zero,
        c3: x,
    };
    let r1 = IntervalRow {
        c0: zero,
        c1: one,
        c2: zero,
        c3: y,
    };
    let r2 = IntervalRow {
        c0: zero,
        c1: zero,
        c2: one,
        c3: z,
    };
    IntervalMatrix { r0, r1, r2 }
}

// A vector times a number, with no interval judged.
fn times(v: IntervalVector, c: Interval) -> IntervalVector
    ensures value { result ≡ IntervalVector-times v c }
{
    let x = interval_unjudged::mul_ordered(v.x, c);
    let y = interval_unjudged::mul_ordered(v.y, c);
    let z = interval_unjudged::mul_ordered(v.z, c);
    IntervalVector { x, y, z }
}

// A column of the translation's product, where x, y, z are the second matrix's column and l is the vector times what stands below it.
// Each product by zero serves two rows.
fn translated_column(l: IntervalVector, x: Interval, y: Interval, z: Interval) -> IntervalVector
    ensures value { result ≡ Pose-translated_column l x y z }
{
    let zero = Interval {
        low: 0.0,
        high: 0.0,
    };
    let one = Interval {
        low: 1.0,
        high: 1.0,
    };
    let ox = interval_unjudged::mul_ordered(one, x);
    let oy = interval_unjudged::mul_ordered(one, y);
    let oz = interval_unjudged::mul_ordered(one, z);
    let zx = interval_unjudged::mul_ordered(zero, x);
    let zy = interval_unjudged::mul_ordered(zero, y);
    let zz = interval_unjudged::mul_ordered(zero, z);
    let sx = interval_unjudged::add_enclosure(ox, zy);
    let tx = interval_unjudged::add_enclosure(sx, zz);
    let ux = interval_unjudged::add_enclosure(tx, l.x);
    let sy = interval_unjudged::add_enclosure(zx, oy);
    let ty = interval_unjudged::add_enclosure(sy, zz);
    let uy = interval_unjudged::add_enclosure(ty, l.y);
    let sz = interval_unjudged::add_enclosure(zx, zy);
    let tz = interval_unjudged::add_enclosure(sz, oz);
    let uz = interval_unjudged::add_enclosure(tz, l.z);
    IntervalVector {
        x: ux,
        y: uy,
        z: uz,
    }
}

// The product of the matrix that adds v to a point, and b, with no interval judged.
fn translated(v: IntervalVector, b: IntervalMatrix) -> IntervalMatrix
    ensures value { result ≡ Pose-unjudged_mul (IntervalMatrix-translation v) b }
{
    let zero = Interval {
        low: 0.0,
        high: 0.0,
    };
    let one = Interval {
        low: 1.0,
        high: 1.0,
    };
    let b0 = b.r0;
    let b1 = b.r1;
    let b2 = b.r2;
    let by_zero = times(v, zero);
    let by_one = times(v, one);
    let e0 = translated_column(by_zero, b0.c0, b1.c0, b2.c0);
    let e1 = translated_column(by_zero, b0.c1, b1.c1, b2.c1);
    let e2 = translated_column(by_zero, b0.c2, b1.c2, b2.c2);
    let e3 = translated_column(by_one, b0.c3, b1.c3, b2.c3);
    let m00 = e0.x;
    let m01 = e1.x;
    let m02 = e2.x;
    let m03 = e3.x;
    let r0 = IntervalRow {
        c0: m00,
        c1: m01,
        c2: m02,
        c3: m03,
    };
    let m10 = e0.y;
    let m11 = e1.y;
    let m12 = e2.y;
    let m13 = e3.y;
    let r1 = IntervalRow {
        c0: m10,
        c1: m11,
        c2: m12,
        c3: m13,
    };
    let m20 = e0.z;
    let m21 = e1.z;
    let m22 = e2.z;
    let m23 = e3.z;
    let r2 = IntervalRow {
        c0: m20,
        c1: m21,
        c2: m22,
        c3: m23,
    };
    IntervalMatrix { r0, r1, r2 }
}

// The product of the matrix that adds v to a point, and b; refused with 5 where an end isn't finite. Accuracy: encloses.
pub fn translate_enclosure(v: IntervalVector, b: IntervalMatrix) -> Result<IntervalMatrix, Refusal>
    ensures value { numbered result ≡ JudgedMatrix-outcome (Pose-enclose_mul 0 (IntervalMatrix-translation v) b) }
{
    let translate = translation_matrix(v);
    let product = translated(v, b);
    let ends = pose_ends::matrix_ends_sum(translate)
        + pose_ends::matrix_ends_sum(b)
        + pose_ends::matrix_ends_sum(product);
    if float32::is_finite(ends) {
        Ok(product)
    } else {
        pose_judged::mul_enclosure(translate, b)
    }
}
