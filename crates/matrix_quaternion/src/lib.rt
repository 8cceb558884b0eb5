// pbrt's `From<Transform> for Quaternion`: the quaternion of a rotation's matrix. Nothing is refused here: each function is stated for all arguments.
#![tactic(auto)]

ghost use Rattle.std.specs.Prelude.{◌≡◌, ◌<◌};
ghost use Rattle.matrix_quaternion.specs.FromMatrix.{from_trace, largest, nxt, half_over, from_largest, Quaternion-from_matrix, Quaternion-from_transform};

use quaternion::Quaternion;
use transform::Transform;
use vector3::Vector3f;

// The trace is positive, so that w is well away from zero.
fn from_trace(m: [[f32; 4]; 4], trace: f32) -> Quaternion
    ensures value { result ≡ from_trace m trace }
{
    let m0 = m[0];
    let m1 = m[1];
    let m2 = m[2];
    let s = square_root::sqrt(trace + 1.0);
    let r = 0.5 / s;
    let v = Vector3f {
        x: (m2[1] - m1[2]) * r,
        y: (m0[2] - m2[0]) * r,
        z: (m1[0] - m0[1]) * r,
    };
    Quaternion { v, w: s / 2.0 }
}

// The axis of the largest entry on the diagonal.
fn largest(m: [[f32; 4]; 4]) -> usize
    ensures value { result ≡ largest m }
    ensures axis { result < 3 }
{
    let m0 = m[0];
    let m1 = m[1];
    let m2 = m[2];
    if m1[1] > m0[0] {
        if m2[2] > m1[1] { 2 } else { 1 }
    } else {
        if m2[2] > m0[0] { 2 } else { 0 }
    }
}

// The axis after i, in the circle x, y, z.
fn nxt(i: usize) -> usize
    requires { i < 3 }
    ensures value { result ≡ nxt i }
    ensures axis { result < 3 }
{
    if i == 0 {
        return 1;
    }
    if i == 1 { 2 } else { 0 }
}

fn half_over(s: f32) -> f32
    ensures value { result ≡ half_over s }
{
    if s != 0.0 { 0.5 / s } else { s }
}

// The component on axis i is the largest of the three.
fn from_largest(m: [[f32; 4]; 4], i: usize, j: usize, k: usize) -> Quaternion
    requires { (i < 3) × (j < 3) × (k < 3) }
    ensures value { result ≡ from_largest m i j k }
{
    let mi = m[i];
    let mj = m[j];
    let mk = m[k];
    let s = square_root::sqrt((mi[i] - (mj[j] + mk[k])) + 1.0);
    let r = half_over(s);
    let mut q = [0.0f32; 3];
    q[i] = s * 0.5;
    q[j] = (mj[i] + mi[j]) * r;
    q[k] = (mk[i] + mi[k]) * r;
    let w = (mk[j] - mj[k]) * r;
    let v = Vector3f {
        x: q[0],
        y: q[1],
        z: q[2],
    };
    Quaternion { v, w }
}

// The quaternion of a rotation's matrix, by its trace where that is positive, and otherwise by the largest entry of its diagonal.
// Accuracy: each operation is correctly rounded.
pub fn quaternion_from_matrix(m: [[f32; 4]; 4]) -> Quaternion
    ensures value { result ≡ Quaternion-from_matrix m }
{
    let m0 = m[0];
    let m1 = m[1];
    let m2 = m[2];
    let trace = m0[0] + m1[1] + m2[2];
    if trace > 0.0 {
        return from_trace(m, trace);
    }
    let i = largest(m);
    let j = nxt(i);
    let k = nxt(j);
    from_largest(m, i, j, k)
}

// pbrt's `From<Transform> for Quaternion`: the quaternion of a rotation, of which only the matrix half is read. Accuracy: each operation is correctly rounded.
pub fn quaternion_from_transform(t: Transform) -> Quaternion
    ensures value { result ≡ Quaternion-from_transform t }
{
    quaternion_from_matrix(t.m.to_rows())
}
