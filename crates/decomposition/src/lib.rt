// pbrt's `AnimatedTransform::decompose`: a matrix as a translation, a rotation and a scale.
// The rotation is where the polar rounds end, the scale what is left of the matrix.
#![tactic(auto)]

ghost use Rattle.std.specs.Prelude.{◌≡◌};
ghost use Rattle.decomposition.specs.Decompose.{DecompositionAnswer-of_result, Decomposition-judged, scale_by, parts, Matrix4x4-decompose};

use matrix4x4::Matrix4x4;
use quaternion::Quaternion;
use refusal::Refusal;
use vector3::Vector3f;

#[derive(Clone, Copy)]
pub struct Decomposition {
    pub t: Vector3f,
    pub r: Quaternion,
    pub s: Matrix4x4,
}

fn judged(m: [[f32; 4]; 4], r: Quaternion, s: [[f32; 4]; 4]) -> Result<Decomposition, Refusal>
    ensures value { DecompositionAnswer-of_result result ≡ Decomposition-judged m r s }
{
    if r.is_finite() & matrix4x4::is_finite(s) {
        let a = m[0];
        let b = m[1];
        let c = m[2];
        let t = Vector3f {
            x: a[3],
            y: b[3],
            z: c[3],
        };
        let rows = Matrix4x4::from(s);
        Ok(Decomposition { t, r, s: rows })
    } else {
        Err(Refusal::NotFinite)
    }
}

// What is left of m, or the identity for a rigid move.
fn scale_by(rigid: bool, inverse: [[f32; 4]; 4], m: [[f32; 4]; 4]) -> [[f32; 4]; 4]
    ensures value { result ≡ scale_by rigid inverse m }
{
    if rigid {
        [
            [1.0, 0.0, 0.0, 0.0],
            [0.0, 1.0, 0.0, 0.0],
            [0.0, 0.0, 1.0, 0.0],
            [0.0, 0.0, 0.0, 1.0],
        ]
    } else {
        matrix4x4::mul(inverse, m)
    }
}

// The parts of m, whose rotation is the matrix r. pbrt computes the inverse of r twice; it is the same both times.
fn parts(rigid: bool, m: [[f32; 4]; 4], r: [[f32; 4]; 4]) -> Result<Decomposition, Refusal>
    ensures value { DecompositionAnswer-of_result result ≡ parts rigid m r }
{
    let inverse = matrix_inverse::inverse(r)?;
    judged(
        m,
        matrix_quaternion::quaternion_from_matrix(r),
        scale_by(rigid, inverse, m),
    )
}

// pbrt's `decompose`: translation, rotation and scale of a matrix; a rigid move's scale is the identity. pbrt goes on where this refuses:
// 4 at a zero pivot, 5 where a matrix or the quaternion holds a value that isn't finite. Accuracy: each operation is correctly rounded.
pub fn decompose(rigid: bool, m: [[f32; 4]; 4]) -> Result<Decomposition, Refusal>
    ensures value { DecompositionAnswer-of_result result ≡ Matrix4x4-decompose rigid m }
{
    let mut r = polar_round::linear_part(m);
    let mut counter = 0u32;
    let rotation = loop {
        let rit = matrix_inverse::inverse(matrix4x4::transpose(r))?;
        let rnext = polar_round::mean(r, rit);
        if !matrix4x4::is_finite(rnext) {
            return Err(Refusal::NotFinite);
        }
        let norm = polar_round::distance(r, rnext);
        counter += 1;
        if (counter >= 100) | (norm <= 0.0001) {
            break rnext;
        }
        r = rnext;
    };
    parts(rigid, m, rotation)
}
