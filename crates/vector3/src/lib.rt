// Vectors of three floats, by value: pbrt's Vector3f with the operations that a move needs. Each is stated for all arguments.
#![tactic(auto)]

ghost use Rattle.std.specs.Prelude.{◌≡◌};
ghost use Rattle.vector3.specs.Vector.{Vector3f-dot, Vector3f-div, Vector3f-add, Vector3f-sub, Vector3f-mul, Vector3f-neg};

use std::ops::{Add, Div, Mul, Neg, Sub};

#[derive(Clone, Copy)]
pub struct Vector3f {
    pub x: f32,
    pub y: f32,
    pub z: f32,
}

impl Vector3f {
    // The dot product, summed x, y, z. Accuracy: each operation is correctly rounded.
    pub fn dot(self, other: Vector3f) -> f32
        ensures value { result ≡ Vector3f-dot self other }
    {
        self.x * other.x + self.y * other.y + self.z * other.z
    }
}

// Each component divided by s. Accuracy: correctly rounded.
impl Div<f32> for Vector3f {
    type Output = Vector3f;

    ghost div_gives = { λ v s r. r ≡ Vector3f-div v s };

    fn div(self, s: f32) -> Vector3f {
        Vector3f {
            x: self.x / s,
            y: self.y / s,
            z: self.z / s,
        }
    }
}

// The sum, component by component. Accuracy: correctly rounded.
impl Add for Vector3f {
    type Output = Vector3f;

    ghost add_gives = { λ v w r. r ≡ Vector3f-add v w };

    fn add(self, other: Vector3f) -> Vector3f {
        Vector3f {
            x: self.x + other.x,
            y: self.y + other.y,
            z: self.z + other.z,
        }
    }
}

// The difference, component by component. Accuracy: correctly rounded.
impl Sub for Vector3f {
    type Output = Vector3f;

    ghost sub_gives = { λ v w r. r ≡ Vector3f-sub v w };

    fn sub(self, other: Vector3f) -> Vector3f {
        Vector3f {
            x: self.x - other.x,
            y: self.y - other.y,
            z: self.z - other.z,
        }
    }
}

// Each component times s. Accuracy: correctly rounded.
impl Mul<f32> for Vector3f {
    type Output = Vector3f;

    ghost mul_gives = { λ v s r. r ≡ Vector3f-mul v s };

    fn mul(self, s: f32) -> Vector3f {
        Vector3f {
            x: self.x * s,
            y: self.y * s,
            z: self.z * s,
        }
    }
}

// The vector of the same length in the opposite direction. Accuracy: exact.
impl Neg for Vector3f {
    type Output = Vector3f;

    ghost neg_gives = { λ v r. r ≡ Vector3f-neg v };

    fn neg(self) -> Vector3f {
        Vector3f {
            x: -self.x,
            y: -self.y,
            z: -self.z,
        }
    }
}
