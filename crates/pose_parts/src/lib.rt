// Translation and scale of a pose at dt, from those of a move's two poses: in floats, and in intervals of which each is judged as it is formed.
// Where a sum over the ends that come out is finite, judging is left out, which gives the same.
#![tactic(auto)]

ghost use Rattle.std.specs.Prelude.{◌≡◌};
ghost use Rattle.interval.specs.refusal.Number.{numbered};
ghost use Rattle.pose_steps.specs.Pose.{Pose-translation, Pose-scale_row, Pose-scale, Pose-scale_by};
ghost use Rattle.pose_steps.specs.Judged.{JudgedVector-outcome, JudgedMatrix-outcome};
ghost use Rattle.pose_steps.specs.Enclose.{IntervalVector-point, IntervalRow-point, IntervalMatrix-point};
ghost use Rattle.pose_steps.specs.Enclose.{Pose-enclose_translation, Pose-enclose_scale, enclose_scale_by};
ghost use Rattle.pose_parts.specs.means.Unjudged.{Pose-unjudged_translation, Pose-unjudged_scale_row, Pose-unjudged_scale};

use interval::Interval;
use matrix4x4::Matrix4x4;
use pose_steps::{IntervalMatrix, IntervalRow, IntervalVector};
use refusal::Refusal;
use vector3::Vector3f;

// The translation at dt: t0 (1 - dt) + t1 dt, as `interpolate` has it. Accuracy: each operation is correctly rounded.
pub fn translation(t0: Vector3f, t1: Vector3f, dt: f32) -> Vector3f
    ensures value { result ≡ Pose-translation t0 t1 dt }
{
    let s = 1.0 - dt;
    Vector3f {
        x: t0.x * s + t1.x * dt,
        y: t0.y * s + t1.y * dt,
        z: t0.z * s + t1.z * dt,
    }
}

fn translation_unjudged(t0: Vector3f, t1: Vector3f, dt: Interval) -> IntervalVector
    ensures value { result ≡ Pose-unjudged_translation (IntervalVector-point t0) (IntervalVector-point t1) dt }
{
    let one = Interval {
        low: 1.0,
        high: 1.0,
    };
    let a = pose_point::vector_point(t0);
    let b = pose_point::vector_point(t1);
    let s = interval_unjudged::sub_enclosure(one, dt);
    let px = interval_unjudged::mul_ordered(a.x, s);
    let qx = interval_unjudged::mul_ordered(b.x, dt);
    let x = interval_unjudged::add_enclosure(px, qx);
    let py = interval_unjudged::mul_ordered(a.y, s);
    let qy = interval_unjudged::mul_ordered(b.y, dt);
    let y = interval_unjudged::add_enclosure(py, qy);
    let pz = interval_unjudged::mul_ordered(a.z, s);
    let qz = interval_unjudged::mul_ordered(b.z, dt);
    let z = interval_unjudged::add_enclosure(pz, qz);
    IntervalVector { x, y, z }
}

// The same over an interval of dt; refused with 5 where an end isn't finite. Accuracy: encloses.
pub fn translation_enclosure(
    t0: Vector3f,
    t1: Vector3f,
    dt: Interval,
) -> Result<IntervalVector, Refusal>
    ensures value { numbered result ≡ JudgedVector-outcome (Pose-enclose_translation 0 (IntervalVector-point t0) (IntervalVector-point t1) dt) }
{
    let one = Interval {
        low: 1.0,
        high: 1.0,
    };
    let s = interval_unjudged::sub_enclosure(one, dt);
    let vector = translation_unjudged(t0, t1, dt);
    let ends = interval_unjudged::ends_sum(dt)
        + interval_unjudged::ends_sum(s)
        + pose_ends::vector_ends_sum(vector);
    if float32::is_finite(ends) {
        Ok(vector)
    } else {
        let a = pose_point::vector_point(t0);
        let b = pose_point::vector_point(t1);
        pose_judged::translation_enclosure(a, b, dt)
    }
}

// A row of the scale at dt: pbrt's `lerp` of three entries; the fourth are not read. Accuracy: each operation is correctly rounded.
pub fn scale_row(s0: [f32; 4], s1: [f32; 4], dt: f32) -> [f32; 4]
    ensures value { result ≡ Pose-scale_row s0 s1 dt }
{
    [
        (1.0 - dt) * s0[0] + dt * s1[0],
        (1.0 - dt) * s0[1] + dt * s1[1],
        (1.0 - dt) * s0[2] + dt * s1[2],
        0.0,
    ]
}

// The scale at dt: pbrt's `lerp` of the three by three entries, in a matrix that is otherwise the identity. Accuracy: each operation is correctly rounded.
pub fn scale(s0: Matrix4x4, s1: Matrix4x4, dt: f32) -> Matrix4x4
    ensures value { result ≡ Pose-scale s0 s1 dt }
{
    let a0 = s0.r0;
    let b0 = s1.r0;
    let a1 = s0.r1;
    let b1 = s1.r1;
    let a2 = s0.r2;
    let b2 = s1.r2;
    let r0 = scale_row(a0, b0, dt);
    let r1 = scale_row(a1, b1, dt);
    let r2 = scale_row(a2, b2, dt);
    let r3 = [0.0, 0.0, 0.0, 1.0];
    Matrix4x4 { r0, r1, r2, r3 }
}

// The scale at dt of a move of either kind: a rigid one has the identity. Accuracy: each operation is correctly rounded.
pub fn scale_by(rigid: bool, s0: Matrix4x4, s1: Matrix4x4, dt: f32) -> Matrix4x4
    ensures value { result ≡ Pose-scale_by rigid s0 s1 dt }
{
    if rigid {
        Matrix4x4 {
            r0: [1.0, 0.0, 0.0, 0.0],
            r1: [0.0, 1.0, 0.0, 0.0],
            r2: [0.0, 0.0, 1.0, 0.0],
            r3: [0.0, 0.0, 0.0, 1.0],
        }
    } else {
        scale(s0, s1, dt)
    }
}

fn scale_row_unjudged(s0: [f32; 4], s1: [f32; 4], dt: Interval) -> IntervalRow
    ensures value { result ≡ Pose-unjudged_scale_row (IntervalRow-point s0) (IntervalRow-point s1) dt }
{
    let one = Interval {
        low: 1.0,
        high: 1.0,
    };
    let a = pose_point::row_point(s0);
    let b = pose_point::row_point(s1);
    let d0 = interval_unjudged::sub_enclosure(one, dt);
    let p0 = interval_unjudged::mul_ordered(d0, a.c0);
    let q0 = interval_unjudged::mul_ordered(dt, b.c0);
    let c0 = interval_unjudged::add_enclosure(p0, q0);
    let d1 = interval_unjudged::sub_enclosure(one, dt);
    let p1 = interval_unjudged::mul_ordered(d1, a.c1);
    let q1 = interval_unjudged::mul_ordered(dt, b.c1);
    let c1 = interval_unjudged::add_enclosure(p1, q1);
    let d2 = interval_unjudged::sub_enclosure(one, dt);
    let p2 = interval_unjudged::mul_ordered(d2, a.c2);
    let q2 = interval_unjudged::mul_ordered(dt, b.c2);
    let c2 = interval_unjudged::add_enclosure(p2, q2);
    let c3 = Interval {
        low: 0.0,
        high: 0.0,
    };
    IntervalRow { c0, c1, c2, c3 }
}

fn scale_unjudged(s0: Matrix4x4, s1: Matrix4x4, dt: Interval) -> IntervalMatrix
    ensures value { result ≡ Pose-unjudged_scale (IntervalMatrix-point s0) (IntervalMatrix-point s1) dt }
{
    let a0 = s0.r0;
    let b0 = s1.r0;
    let a1 = s0.r1;
    let b1 = s1.r1;
    let a2 = s0.r2;
    let b2 = s1.r2;
    let r0 = scale_row_unjudged(a0, b0, dt);
    let r1 = scale_row_unjudged(a1, b1, dt);
    let r2 = scale_row_unjudged(a2, b2, dt);
    IntervalMatrix { r0, r1, r2 }
}

// The same over an interval of dt; refused with 5 where an end isn't finite. Accuracy: encloses.
pub fn scale_enclosure(
    s0: Matrix4x4,
    s1: Matrix4x4,
    dt: Interval,
) -> Result<IntervalMatrix, Refusal>
    ensures value { numbered result ≡ JudgedMatrix-outcome (Pose-enclose_scale 0 (IntervalMatrix-point s0) (IntervalMatrix-point s1) dt) }
{
    let one = Interval {
        low: 1.0,
        high: 1.0,
    };
    let s = interval_unjudged::sub_enclosure(one, dt);
    let matrix = scale_unjudged(s0, s1, dt);
    let ends = interval_unjudged::ends_sum(dt)
        + interval_unjudged::ends_sum(s)
        + pose_ends::matrix_ends_sum(matrix);
    if float32::is_finite(ends) {
        Ok(matrix)
    } else {
        let a = pose_point::matrix_point(s0);
        let b = pose_point::matrix_point(s1);
        pose_judged::scale_enclosure(a, b, dt)
    }
}

// The same of a move of either kind: a rigid one has the identity with equal ends, and is not refused. Accuracy: encloses.
pub fn scale_by_enclosure(
    rigid: bool,
    s0: Matrix4x4,
    s1: Matrix4x4,
    dt: Interval,
) -> Result<IntervalMatrix, Refusal>
    ensures value { numbered result ≡ JudgedMatrix-outcome (enclose_scale_by rigid 0 s0 s1 dt) }
{
    if rigid {
        let zero = Interval {
            low: 0.0,
            high: 0.0,
        };
        let one = Interval {
            low: 1.0,
            high: 1.0,
        };
        let r0 = IntervalRow {
            c0: one,
            c1: zero,
            c2: zero,
            c3: zero,
        };
        let r1 = IntervalRow {
            c0: zero,
            c1: one,
            c2: zero,
            c3: zero,
        };
        let r2 = IntervalRow {
            c0: zero,
            c1: zero,
            c2: one,
            c3: zero,
        };
        Ok(IntervalMatrix { r0, r1, r2 })
    } else {
        scale_enclosure(s0, s1, dt)
    }
}
