// What a rigid build asks of the matrix of a pose, before anything is computed from it. Each is stated for all arguments.
#![tactic(auto)]

ghost use Rattle.std.specs.Prelude.{◌≡◌};
ghost use Rattle.refusal.specs.Number.{refusal_number};
ghost use Rattle.rigid_pose.specs.Rigid.{dot3, near_zero, Matrix4x4-has_shear, expansion, Matrix4x4-determinant, Matrix4x4-rigid_number};

use refusal::Refusal;

fn dot3(a: [f32; 4], b: [f32; 4]) -> f32
    ensures value { result ≡ dot3 a b }
{
    a[0] * b[0] + a[1] * b[1] + a[2] * b[2]
}

fn near_zero(x: f32) -> bool
    ensures value { result ≡ near_zero x }
{
    float32::abs(x) <= 0.001
}

// Whether two columns of the three-by-three part have a dot product above 0.001 in size, or a NaN. Accuracy: heuristic, by rounded dot products.
pub fn has_shear(m: [[f32; 4]; 4]) -> bool
    ensures value { result ≡ Matrix4x4-has_shear m }
{
    let t = matrix4x4::transpose(m);
    let x = t[0];
    let y = t[1];
    let z = t[2];
    let xy = near_zero(dot3(x, y));
    let xz = near_zero(dot3(x, z));
    let yz = near_zero(dot3(y, z));
    !(xy & xz & yz)
}

fn expansion(a: [f32; 4], b: [f32; 4], c: [f32; 4]) -> f32
    ensures value { result ≡ expansion a b c }
{
    a[0] * (b[1] * c[2] - b[2] * c[1]) - a[1] * (b[0] * c[2] - b[2] * c[0])
        + a[2] * (b[0] * c[1] - b[1] * c[0])
}

// The determinant of the three-by-three part, expanded along the first row. Accuracy: each operation is correctly rounded.
pub fn determinant(m: [[f32; 4]; 4]) -> f32
    ensures value { result ≡ Matrix4x4-determinant m }
{
    let a = m[0];
    let b = m[1];
    let c = m[2];
    expansion(a, b, c)
}

// Refused with 17 where it scales or shears, then with 18 where its determinant isn't above zero. Accuracy: heuristic, by rounded products.
pub fn judge(m: [[f32; 4]; 4]) -> Result<(), Refusal>
    ensures value { refusal_number result ≡ Matrix4x4-rigid_number m }
{
    let distorts = transform::has_scale(m) | has_shear(m);
    let proper = determinant(m) > 0.0;
    if distorts {
        return Err(Refusal::NotRigid);
    }
    if proper {
        Ok(())
    } else {
        Err(Refusal::Determinant)
    }
}
