// The arithmetic of a polar round of pbrt's `decompose`: the linear part of a matrix, the mean of two matrices and how far they are apart.
#![tactic(auto)]

ghost use Rattle.std.specs.Prelude.{◌≡◌};
ghost use Rattle.polar_round.specs.PolarRound.{linear_part, mean, mean_row, row_distance, distance};

// The matrix without its translation: its right column and its bottom row are the identity's. Accuracy: exact.
pub fn linear_part(m: [[f32; 4]; 4]) -> [[f32; 4]; 4]
    ensures value { result ≡ linear_part m }
{
    let a = m[0];
    let b = m[1];
    let c = m[2];
    [
        [a[0], a[1], a[2], 0.0],
        [b[0], b[1], b[2], 0.0],
        [c[0], c[1], c[2], 0.0],
        [0.0, 0.0, 0.0, 1.0],
    ]
}

fn mean_row(r: [f32; 4], s: [f32; 4]) -> [f32; 4]
    ensures value { result ≡ mean_row r s }
{
    [
        0.5 * (r[0] + s[0]),
        0.5 * (r[1] + s[1]),
        0.5 * (r[2] + s[2]),
        0.5 * (r[3] + s[3]),
    ]
}

// The mean of two matrices, entry by entry. Accuracy: each operation is correctly rounded.
pub fn mean(m1: [[f32; 4]; 4], m2: [[f32; 4]; 4]) -> [[f32; 4]; 4]
    ensures value { result ≡ mean m1 m2 }
{
    let a1 = m1[0];
    let b1 = m1[1];
    let c1 = m1[2];
    let d1 = m1[3];
    let a2 = m2[0];
    let b2 = m2[1];
    let c2 = m2[2];
    let d2 = m2[3];
    [
        mean_row(a1, a2),
        mean_row(b1, b2),
        mean_row(c1, c2),
        mean_row(d1, d2),
    ]
}

fn row_distance(r: [f32; 4], s: [f32; 4]) -> f32
    ensures value { result ≡ row_distance r s }
{
    float32::abs(r[0] - s[0]) + float32::abs(r[1] - s[1]) + float32::abs(r[2] - s[2])
}

// pbrt's `norm` of the difference of two matrices: the greatest of the rows' sums of absolute values, over the linear part.
// Accuracy: each operation is correctly rounded.
pub fn distance(m1: [[f32; 4]; 4], m2: [[f32; 4]; 4]) -> f32
    ensures value { result ≡ distance m1 m2 }
{
    let a1 = m1[0];
    let b1 = m1[1];
    let c1 = m1[2];
    let a2 = m2[0];
    let b2 = m2[1];
    let c2 = m2[2];
    let a = float32::max(0.0, row_distance(a1, a2));
    let b = float32::max(a, row_distance(b1, b2));
    float32::max(b, row_distance(c1, c2))
}
