// pbrt's `From<Quaternion> for Transform`: the rotation of a quaternion. Nothing is refused here: each function is stated for all arguments.
#![tactic(auto)]

ghost use Rattle.std.specs.Prelude.{◌≡◌};
ghost use Rattle.rotation.specs.FromQuaternion.{inverse_rotation, Transform-from_quaternion};

use quaternion::Quaternion;
use transform::Transform;

// The matrix that pbrt computes before it transposes it: the inverse half of the rotation.
fn inverse_rotation(q: Quaternion) -> [[f32; 4]; 4]
    ensures value { result ≡ inverse_rotation q }
{
    let xx = q.v.x * q.v.x;
    let yy = q.v.y * q.v.y;
    let zz = q.v.z * q.v.z;
    let xy = q.v.x * q.v.y;
    let xz = q.v.x * q.v.z;
    let yz = q.v.y * q.v.z;
    let wx = q.v.x * q.w;
    let wy = q.v.y * q.w;
    let wz = q.v.z * q.w;
    [
        [1.0 - 2.0 * (yy + zz), 2.0 * (xy + wz), 2.0 * (xz - wy), 0.0],
        [2.0 * (xy - wz), 1.0 - 2.0 * (xx + zz), 2.0 * (yz + wx), 0.0],
        [2.0 * (xz + wy), 2.0 * (yz - wx), 1.0 - 2.0 * (xx + yy), 0.0],
        [0.0, 0.0, 0.0, 1.0],
    ]
}

// pbrt's `From<Quaternion> for Transform`: the rotation of a quaternion, transposed once, for the matrix half. Accuracy: each operation is correctly rounded.
pub fn transform_from_quaternion(q: Quaternion) -> Transform
    ensures value { result ≡ Transform-from_quaternion q }
{
    let m = inverse_rotation(q);
    Transform::from_matrices(matrix4x4::transpose(m), m)
}
