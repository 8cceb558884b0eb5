// pbrt's Transform: a 4x4 matrix with its inverse, applied to points, vectors and boxes.
// Who judges what: `transform_point` and `transform_bounds` refuse a moved point that isn't finite, 5; `from_matrix` hands on the inverse's,
// 4 or 5. All others refuse nothing. Neither a matrix nor a point is asked to be finite here: that is for the functions that build and that answer queries.
#![tactic(auto)]

ghost use Rattle.std.specs.Prelude.{◌≡◌};
ghost use Rattle.refusal.specs.Number.{numbered};
ghost use Rattle.matrix4x4.specs.Rows.{Matrix4x4-to_rows};
ghost use Rattle.transform.specs.Transform.{TransformAnswer-of_result, Transform-from_matrices, Transform-from_matrix};
ghost use Rattle.transform.specs.Transform.{Transform-mul, Transform-translate};
ghost use Rattle.transform.specs.Answer.{PointAnswer-Judged, BoundsAnswer-Judged};
ghost use Rattle.transform.specs.TransformPoint.{mul_point, moved_point, Transform-transform_point};
ghost use Rattle.transform.specs.TransformVector.{mul_vector, moved_vector, Transform-transform_vector};
ghost use Rattle.transform.specs.TransformBounds.{BoundsAnswer-from_moved, BoundsAnswer-union_moved, union_corner, Transform-transform_bounds};
ghost use Rattle.transform.specs.HasScale.{not_one, image_squared, Matrix4x4-has_scale, Transform-has_scale};

use bounds3::{Bounds3f, Point3f};
use matrix4x4::Matrix4x4;
use refusal::Refusal;
use std::ops::Mul;
use vector3::Vector3f;

// `==` is pbrt's, of both halves: `Transform-eq`.
#[derive(Clone, Copy, PartialEq)]
pub struct Transform {
    pub m: Matrix4x4,
    pub m_inv: Matrix4x4,
}

// A moved box, or the number of a refusal.
#[derive(Clone, Copy)]
pub enum BoundsAnswer {
    Bounds(Bounds3f),
    Refused(u8),
}

// A row times (x, y, z, 1), summed from the left.
fn mul_point(r: [f32; 4], p: Point3f) -> f32
    ensures value { result ≡ mul_point r p }
{
    p.x * r[0] + p.y * r[1] + p.z * r[2] + r[3]
}

// A row times (x, y, z, 0), summed from the left.
fn mul_vector(r: [f32; 4], v: Vector3f) -> f32
    ensures value { result ≡ mul_vector r v }
{
    v.x * r[0] + v.y * r[1] + v.z * r[2]
}

// pbrt asserts that wp is not zero: here a quotient by zero is never finite, so that the caller's judgement refuses it.
fn moved_point(m: Matrix4x4, p: Point3f) -> Point3f
    ensures value { result ≡ moved_point (Matrix4x4-to_rows m) p }
{
    let r0 = m.r0;
    let r1 = m.r1;
    let r2 = m.r2;
    let r3 = m.r3;
    let q = Point3f {
        x: mul_point(r0, p),
        y: mul_point(r1, p),
        z: mul_point(r2, p),
    };
    let wp = mul_point(r3, p);
    if wp == 1.0 { q } else { q / wp }
}

// The box of a moved point, or its refusal. Accuracy: exact.
pub fn from_moved(a: Result<Point3f, Refusal>) -> BoundsAnswer
    ensures value { result ≡ BoundsAnswer-from_moved (numbered a) }
{
    match a {
        Ok(p) => BoundsAnswer::Bounds(Bounds3f::from_point(p)),
        Err(refusal) => BoundsAnswer::Refused(refusal.number()),
    }
}

// The box with one more moved point: the first refusal stands.
fn union_moved(r: BoundsAnswer, a: Result<Point3f, Refusal>) -> BoundsAnswer
    ensures value { result ≡ BoundsAnswer-union_moved r (numbered a) }
{
    match r {
        BoundsAnswer::Bounds(b) => match a {
            Ok(p) => BoundsAnswer::Bounds(b.union_point(p)),
            Err(refusal) => BoundsAnswer::Refused(refusal.number()),
        },
        BoundsAnswer::Refused(n) => BoundsAnswer::Refused(n),
    }
}

fn moved_vector(m: [[f32; 4]; 4], v: Vector3f) -> Vector3f
    ensures value { result ≡ moved_vector m v }
{
    let r0 = m[0];
    let r1 = m[1];
    let r2 = m[2];
    Vector3f {
        x: mul_vector(r0, v),
        y: mul_vector(r1, v),
        z: mul_vector(r2, v),
    }
}

fn not_one(x: f32) -> bool
    ensures value { result ≡ not_one x }
{
    (x < 0.999) | (x > 1.001)
}

fn image_squared(m: [[f32; 4]; 4], x: f32, y: f32, z: f32) -> f32
    ensures value { result ≡ image_squared m x y z }
{
    let v = moved_vector(m, Vector3f { x, y, z });
    v.dot(v)
}

// pbrt's `has_scale` of a matrix: whether the image of a unit vector on some axis has a squared length below 0.999 or above 1.001.
// Accuracy: heuristic, by rounded squared lengths.
pub fn has_scale(m: [[f32; 4]; 4]) -> bool
    ensures value { result ≡ Matrix4x4-has_scale m }
{
    not_one(image_squared(m, 1.0, 0.0, 0.0))
        | not_one(image_squared(m, 0.0, 1.0, 0.0))
        | not_one(image_squared(m, 0.0, 0.0, 1.0))
}

impl Transform {
    // pbrt's `from_matrices`: a transform of two halves, of which nothing asks that they are inverse to each other. Accuracy: exact.
    pub fn from_matrices(m: [[f32; 4]; 4], m_inv: [[f32; 4]; 4]) -> Transform
        ensures value { result ≡ Transform-from_matrices m m_inv }
    {
        let a = Matrix4x4::from(m);
        let b = Matrix4x4::from(m_inv);
        Transform { m: a, m_inv: b }
    }

    // pbrt's `from_matrix`: a matrix with its inverse; pbrt goes on past a zero pivot, and here the refusal of the inverse, 4 or 5, is handed on.
    // Accuracy: each operation is correctly rounded.
    pub fn from_matrix(m: [[f32; 4]; 4]) -> Result<Transform, Refusal>
        ensures value { TransformAnswer-of_result result ≡ Transform-from_matrix m }
    {
        let inverse = matrix_inverse::inverse(m)?;
        Ok(Transform::from_matrices(m, inverse))
    }

    // pbrt's `translate`: the matrix that adds delta to a point, and the one that subtracts it. Accuracy: exact.
    pub fn translate(delta: Vector3f) -> Transform
        ensures value { result ≡ Transform-translate delta }
    {
        let m = Matrix4x4 {
            r0: [1.0, 0.0, 0.0, delta.x],
            r1: [0.0, 1.0, 0.0, delta.y],
            r2: [0.0, 0.0, 1.0, delta.z],
            r3: [0.0, 0.0, 0.0, 1.0],
        };
        let m_inv = Matrix4x4 {
            r0: [1.0, 0.0, 0.0, -delta.x],
            r1: [0.0, 1.0, 0.0, -delta.y],
            r2: [0.0, 0.0, 1.0, -delta.z],
            r3: [0.0, 0.0, 0.0, 1.0],
        };
        Transform { m, m_inv }
    }

    // pbrt's `transform_point`: the matrix half times (x, y, z, 1), divided by the fourth coordinate where that isn't 1; refused with 5 where a moved
    // coordinate isn't finite. Accuracy: each operation is correctly rounded.
    pub fn transform_point(self, p: Point3f) -> Result<Point3f, Refusal>
        ensures value { numbered result ≡ Transform-transform_point self p }
        ensures judged { PointAnswer-Judged (numbered result) }
    {
        let q = moved_point(self.m, p);
        if q.is_finite() {
            Ok(q)
        } else {
            Err(Refusal::NotFinite)
        }
    }

    // pbrt's `transform_vector`: the matrix half times (x, y, z, 0). Accuracy: each operation is correctly rounded.
    pub fn transform_vector(self, v: Vector3f) -> Vector3f
        ensures value { result ≡ Transform-transform_vector self v }
    {
        moved_vector(self.m.to_rows(), v)
    }

    // pbrt's `has_scale`: that of the matrix half. Accuracy: heuristic, by rounded squared lengths.
    pub fn has_scale(self) -> bool
        ensures value { result ≡ Transform-has_scale self }
    {
        has_scale(self.m.to_rows())
    }

    fn union_corner(self, r: BoundsAnswer, x: f32, y: f32, z: f32) -> BoundsAnswer
        ensures value { result ≡ union_corner self r x y z }
    {
        union_moved(r, self.transform_point(Point3f { x, y, z }))
    }

    // pbrt's `transform_bounds`: the box of the eight moved corners, in pbrt's order: of two equal zeros the first stands; refused with 5 where a moved corner
    // isn't finite. Accuracy: encloses, for an affine matrix and a box with ordered corners, both finite.
    pub fn transform_bounds(self, b: Bounds3f) -> BoundsAnswer
        ensures value { result ≡ Transform-transform_bounds self b }
        ensures judged { BoundsAnswer-Judged result }
    {
        let l = b.p_min;
        let h = b.p_max;
        let r0 = from_moved(self.transform_point(l));
        let r1 = self.union_corner(r0, h.x, l.y, l.z);
        let r2 = self.union_corner(r1, l.x, h.y, l.z);
        let r3 = self.union_corner(r2, l.x, l.y, h.z);
        let r4 = self.union_corner(r3, l.x, h.y, h.z);
        let r5 = self.union_corner(r4, h.x, h.y, l.z);
        let r6 = self.union_corner(r5, h.x, l.y, h.z);
        self.union_corner(r6, h.x, h.y, h.z)
    }
}

// pbrt's product: first other, then self. Accuracy: each operation is correctly rounded.
impl Mul for Transform {
    type Output = Transform;

    ghost mul_gives = { λ s t r. r ≡ Transform-mul s t };

    fn mul(self, other: Transform) -> Transform {
        let m = matrix4x4::mul(self.m.to_rows(), other.m.to_rows());
        let m_inv = matrix4x4::mul(other.m_inv.to_rows(), self.m_inv.to_rows());
        Transform::from_matrices(m, m_inv)
    }
}
