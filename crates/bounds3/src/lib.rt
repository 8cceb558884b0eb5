// pbrt's Point3f and Bounds3f: an axis-aligned box from a least to a greatest corner.
// Nothing is refused here: each function is stated for all boxes and points, NaN, infinities and a least corner above the greatest included.
#![tactic(auto)]

ghost use Rattle.std.specs.Prelude.{◌≡◌};
ghost use Rattle.bounds3.specs.Point3f.{Point3f-min, Point3f-max, Point3f-div};
ghost use Rattle.bounds3.specs.Bounds3f.{Bounds3f-from_point, Bounds3f-from_points, Bounds3f-default, Bounds3f-index};
ghost use Rattle.bounds3.specs.Bounds3f.{Bounds3f-corner, Bounds3f-union_point, Bounds3f-union_bounds};
ghost use Rattle.bounds3.specs.Finite.{Point3f-is_finite, Bounds3f-is_finite};

use std::ops::{Div, Index};

#[derive(Clone, Copy)]
pub struct Point3f {
    pub x: f32,
    pub y: f32,
    pub z: f32,
}

#[derive(Clone, Copy)]
pub struct Bounds3f {
    pub p_min: Point3f,
    pub p_max: Point3f,
}

impl Point3f {
    // The least of each coordinate. Accuracy: exact.
    pub fn min(self, p: Point3f) -> Point3f
        ensures value { result ≡ Point3f-min self p }
    {
        Point3f {
            x: float32::min(self.x, p.x),
            y: float32::min(self.y, p.y),
            z: float32::min(self.z, p.z),
        }
    }

    // The greatest of each coordinate. Accuracy: exact.
    pub fn max(self, p: Point3f) -> Point3f
        ensures value { result ≡ Point3f-max self p }
    {
        Point3f {
            x: float32::max(self.x, p.x),
            y: float32::max(self.y, p.y),
            z: float32::max(self.z, p.z),
        }
    }

    // Whether no coordinate is a NaN or an infinity. Accuracy: exact.
    pub fn is_finite(self) -> bool
        ensures value { result ≡ Point3f-is_finite self }
    {
        float32::is_finite(self.x) & float32::is_finite(self.y) & float32::is_finite(self.z)
    }
}

// Each coordinate over f. Accuracy: correctly rounded.
impl Div<f32> for Point3f {
    type Output = Point3f;

    ghost div_gives = { λ p f r. r ≡ Point3f-div p f };

    fn div(self, f: f32) -> Point3f {
        Point3f {
            x: self.x / f,
            y: self.y / f,
            z: self.z / f,
        }
    }
}

impl Bounds3f {
    // pbrt's `from_point`: the box of one point, which is both of its corners. Accuracy: exact.
    pub fn from_point(p: Point3f) -> Bounds3f
        ensures value { result ≡ Bounds3f-from_point p }
    {
        Bounds3f { p_min: p, p_max: p }
    }

    // pbrt's `from_points`: the smallest box that holds both points. Accuracy: exact.
    pub fn from_points(p1: Point3f, p2: Point3f) -> Bounds3f
        ensures value { result ≡ Bounds3f-from_points p1 p2 }
    {
        let p_min = p1.min(p2);
        let p_max = p1.max(p2);
        Bounds3f { p_min, p_max }
    }

    // pbrt's default, the empty box: from the greatest finite float down to the least. Accuracy: exact.
    pub fn default() -> Bounds3f
        ensures value { result ≡ Bounds3f-default }
    {
        let max_num = 3.4028235e38;
        let min_num = -max_num;
        let p_min = Point3f {
            x: max_num,
            y: max_num,
            z: max_num,
        };
        let p_max = Point3f {
            x: min_num,
            y: min_num,
            z: min_num,
        };
        Bounds3f { p_min, p_max }
    }

    // pbrt's `corner`: bits 0, 1 and 2 of c choose between the least and the greatest x, y and z; pbrt asserts that c is below 8, and here its other bits are
    // not read. Accuracy: exact.
    pub fn corner(self, c: usize) -> Point3f
        ensures value { result ≡ Bounds3f-corner self c }
    {
        Point3f {
            x: self[c & 1 != 0].x,
            y: self[c & 2 != 0].y,
            z: self[c & 4 != 0].z,
        }
    }

    // pbrt's `union_point`: the smallest box that holds the box and the point. Accuracy: exact.
    pub fn union_point(self, p: Point3f) -> Bounds3f
        ensures value { result ≡ Bounds3f-union_point self p }
    {
        let p_min = self.p_min.min(p);
        let p_max = self.p_max.max(p);
        Bounds3f { p_min, p_max }
    }

    // pbrt's `union_bounds`: the smallest box that holds both boxes. Accuracy: exact.
    pub fn union_bounds(self, b: Bounds3f) -> Bounds3f
        ensures value { result ≡ Bounds3f-union_bounds self b }
    {
        let p_min = self.p_min.min(b.p_min);
        let p_max = self.p_max.max(b.p_max);
        Bounds3f { p_min, p_max }
    }

    // Whether both corners are finite. Accuracy: exact.
    pub fn is_finite(self) -> bool
        ensures value { result ≡ Bounds3f-is_finite self }
    {
        self.p_min.is_finite() & self.p_max.is_finite()
    }
}

// One of the two corners that a box is given by: the greatest where i is true. Accuracy: exact.
impl Index<bool> for Bounds3f {
    type Output = Point3f;

    ghost index_gives = { λ b i p. p ≡ Bounds3f-index b i };

    fn index(&self, i: bool) -> &Point3f {
        if i { &self.p_max } else { &self.p_min }
    }
}
