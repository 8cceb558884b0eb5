// Poses, points, boxes and transforms that cross to Rust and C in arrays of floats, and answers put into a lent array:
// the answer's number is returned, 0 for none, and after a refusal the array is as it was. A box is its least corner
// and its greatest, a transform the four rows of its matrix and those of its inverse.
#![tactic(auto)]

ghost use Rattle.std.specs.Prelude.{◌≡◌};
ghost use Rattle.refusal.specs.Number.{numbered};
ghost use Rattle.bounds3.specs.List.{Point3f-of_list, Bounds3f-list, Bounds3f-of_list};
ghost use Rattle.transform.specs.Answer.{PointAnswer-refusal, BoundsAnswer-refusal};
ghost use Rattle.transform.specs.Transform.{TransformAnswer-of_result};
ghost use Rattle.lent_arrays.specs.Arrays.{Pose-of_list, transform_rows, PointAnswer-left, BoundsAnswer-left, TransformAnswer-left};

use bounds3::{Bounds3f, Point3f};
use matrix4x4::Matrix4x4;
use pose_pair::Pose;
use refusal::Refusal;
use transform::{BoundsAnswer, Transform};

// The point of three coordinates. Accuracy: exact.
pub fn point(p: &[f32; 3]) -> Point3f
    ensures value { result ≡ Point3f-of_list p.now }
{
    Point3f {
        x: p[0],
        y: p[1],
        z: p[2],
    }
}

// The box of six coordinates, those of its least corner first. Accuracy: exact.
pub fn bounds(b: &[f32; 6]) -> Bounds3f
    ensures value { result ≡ Bounds3f-of_list b.now }
{
    let p_min = Point3f {
        x: b[0],
        y: b[1],
        z: b[2],
    };
    let p_max = Point3f {
        x: b[3],
        y: b[4],
        z: b[5],
    };
    Bounds3f { p_min, p_max }
}

// The six coordinates of a box, those of its least corner first. Accuracy: exact.
pub fn bounds_values(b: Bounds3f) -> [f32; 6]
    ensures value { result ≡ Bounds3f-list b }
{
    let l = b.p_min;
    let h = b.p_max;
    [l.x, l.y, l.z, h.x, h.y, h.z]
}

// The pose of 18 floats: its time, then its matrix row by row, then its pad. Accuracy: exact.
pub fn pose(values: &[f32; 18]) -> Pose
    ensures value { result ≡ Pose-of_list values.now }
{
    let r0 = [values[1], values[2], values[3], values[4]];
    let r1 = [values[5], values[6], values[7], values[8]];
    let r2 = [values[9], values[10], values[11], values[12]];
    let r3 = [values[13], values[14], values[15], values[16]];
    let m = Matrix4x4 { r0, r1, r2, r3 };
    Pose {
        time: values[0],
        m,
        pad: values[17],
    }
}

// Puts a moved point into `out`, or after a refusal nothing, and gives the refusal's number, 0 for none. Accuracy: exact.
pub fn put_point(answer: Result<Point3f, Refusal>, out: &mut [f32; 3]) -> u8
    ensures refusal { result ≡ PointAnswer-refusal (numbered answer) }
    ensures left { out.new ≡ PointAnswer-left (numbered answer) out.old }
{
    match answer {
        Ok(p) => {
            *out = [p.x, p.y, p.z];
            0
        }
        Err(refusal) => refusal.number(),
    }
}

// Puts a box into `out`, or after a refusal nothing, and gives the refusal's number, 0 for none. Accuracy: exact.
pub fn put_bounds(answer: BoundsAnswer, out: &mut [f32; 6]) -> u8
    ensures refusal { result ≡ BoundsAnswer-refusal answer }
    ensures left { out.new ≡ BoundsAnswer-left answer out.old }
{
    match answer {
        BoundsAnswer::Bounds(b) => {
            *out = bounds_values(b);
            0
        }
        BoundsAnswer::Refused(n) => n,
    }
}

// A transform's matrix and its inverse. Accuracy: exact.
fn transform_rows(t: Transform) -> [[f32; 4]; 8]
    ensures value { result ≡ transform_rows t }
{
    let m = t.m;
    let m_inv = t.m_inv;
    let a0 = m.r0;
    let a1 = m.r1;
    let a2 = m.r2;
    let a3 = m.r3;
    let b0 = m_inv.r0;
    let b1 = m_inv.r1;
    let b2 = m_inv.r2;
    let b3 = m_inv.r3;
    [a0, a1, a2, a3, b0, b1, b2, b3]
}

// Puts both halves of a transform into `out`, or after a refusal nothing, and gives the refusal's number, 0 for none. Accuracy: exact.
pub fn put_transform(answer: Result<Transform, Refusal>, out: &mut [[f32; 4]; 8]) -> u8
    ensures refusal { result ≡ (TransformAnswer-of_result answer).refusal }
    ensures left { out.new ≡ TransformAnswer-left (TransformAnswer-of_result answer) out.old }
{
    match answer {
        Ok(transform) => {
            *out = transform_rows(transform);
            0
        }
        Err(refusal) => refusal.number(),
    }
}
