// pbrt's Matrix4x4: four rows of four floats, by value, as `[[f32; 4]; 4]`. Each function is stated for all arguments, NaN and infinities included.
#![tactic(auto)]

ghost use Rattle.std.specs.Prelude.{◌≡◌};
ghost use Rattle.std.specs.Ordering.{on};
ghost use Rattle.std.specs.Float.Ieee.Scale.{finite};
ghost use Rattle.matrix4x4.specs.Rows.{row, col, tabulate, all, Matrix4x4-to_rows, Matrix4x4-from_rows};
ghost use Rattle.matrix4x4.specs.Transpose.{Matrix4x4-transpose};
ghost use Rattle.matrix4x4.specs.Mul.{dot4, Matrix4x4-mul};
ghost use Rattle.matrix4x4.specs.Eq.{Matrix4x4-eq};
ghost use Rattle.matrix4x4.specs.means.EqLaws.{Matrix4x4-eq-laws};
ghost use Rattle.matrix4x4.specs.IsFinite.{Matrix4x4-is_finite};
ghost use Rattle.matrix4x4.specs.IsAffine.{Matrix4x4-is_affine};

// A matrix that is kept: a transform's, a pose's, a scale. It has a field for each row, since many of its readers take single rows.
#[derive(Clone, Copy)]
pub struct Matrix4x4 {
    pub r0: [f32; 4],
    pub r1: [f32; 4],
    pub r2: [f32; 4],
    pub r3: [f32; 4],
}

impl Matrix4x4 {
    // The four rows of a matrix, as an array. Accuracy: exact.
    pub fn to_rows(self) -> [[f32; 4]; 4]
        ensures value { result ≡ Matrix4x4-to_rows self }
    {
        let r0 = self.r0;
        let r1 = self.r1;
        let r2 = self.r2;
        let r3 = self.r3;
        [r0, r1, r2, r3]
    }
}

// The matrix of four rows, as a struct holds it. Accuracy: exact.
impl From<[[f32; 4]; 4]> for Matrix4x4 {
    ghost from_gives = { λ m r. r ≡ Matrix4x4-from_rows m };

    fn from(m: [[f32; 4]; 4]) -> Matrix4x4 {
        let r0 = m[0];
        let r1 = m[1];
        let r2 = m[2];
        let r3 = m[3];
        Matrix4x4 { r0, r1, r2, r3 }
    }
}

// pbrt's `==`: a NaN differs from itself, and the two zeros are equal. Accuracy: exact.
impl PartialEq for Matrix4x4 {
    ghost eq = { on Matrix4x4-to_rows Matrix4x4-eq };

    ghost laws = { Matrix4x4-eq-laws };

    fn eq(&self, other: &Matrix4x4) -> bool {
        (self.r0 == other.r0)
            & (self.r1 == other.r1)
            & (self.r2 == other.r2)
            & (self.r3 == other.r3)
    }
}

// The transpose. Accuracy: exact.
pub fn transpose(m: [[f32; 4]; 4]) -> [[f32; 4]; 4]
    ensures value { result ≡ Matrix4x4-transpose m }
{
    let a = m[0];
    let b = m[1];
    let c = m[2];
    let d = m[3];
    [
        [a[0], b[0], c[0], d[0]],
        [a[1], b[1], c[1], d[1]],
        [a[2], b[2], c[2], d[2]],
        [a[3], b[3], c[3], d[3]],
    ]
}

fn dot4(r: [f32; 4], c: [f32; 4]) -> f32
    ensures value { result ≡ dot4 r c }
{
    r[0] * c[0] + r[1] * c[1] + r[2] * c[2] + r[3] * c[3]
}

// A row times each column of a matrix that is given transposed.
fn mul_row(r: [f32; 4], t: [[f32; 4]; 4]) -> [f32; 4]
    ensures value { result ≡ tabulate (λ j. dot4 r (row t j)) }
{
    let a = t[0];
    let b = t[1];
    let c = t[2];
    let d = t[3];
    [dot4(r, a), dot4(r, b), dot4(r, c), dot4(r, d)]
}

// The product. Accuracy: each operation is correctly rounded.
pub fn mul(m1: [[f32; 4]; 4], m2: [[f32; 4]; 4]) -> [[f32; 4]; 4]
    ensures value { result ≡ Matrix4x4-mul m1 m2 }
{
    let t = transpose(m2);
    let a = m1[0];
    let b = m1[1];
    let c = m1[2];
    let d = m1[3];
    [mul_row(a, t), mul_row(b, t), mul_row(c, t), mul_row(d, t)]
}

fn row_is_finite(r: [f32; 4]) -> bool
    ensures value { result ≡ all (λ j. finite (col r j)) }
{
    float32::is_finite(r[0])
        & float32::is_finite(r[1])
        & float32::is_finite(r[2])
        & float32::is_finite(r[3])
}

// Whether no entry is a NaN or an infinity. Accuracy: exact.
pub fn is_finite(m: [[f32; 4]; 4]) -> bool
    ensures value { result ≡ Matrix4x4-is_finite m }
{
    let a = m[0];
    let b = m[1];
    let c = m[2];
    let d = m[3];
    row_is_finite(a) & row_is_finite(b) & row_is_finite(c) & row_is_finite(d)
}

// Whether the bottom row is 0 0 0 1, with a zero of either sign. Accuracy: exact.
pub fn is_affine(m: [[f32; 4]; 4]) -> bool
    ensures value { result ≡ Matrix4x4-is_affine m }
{
    let d = m[3];
    (d[0] == 0.0) & (d[1] == 0.0) & (d[2] == 0.0) & (d[3] == 1.0)
}
