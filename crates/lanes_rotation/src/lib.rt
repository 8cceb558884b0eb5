// The matrices of four quaternions, without judging and without the column that is 0.
#![tactic(auto)]

ghost use Rattle.std.specs.Prelude.{◌≡◌};
ghost use Rattle.lanes.specs.means.Lanes.{Lane, Lanes-zip};
ghost use Rattle.lanes_slerp.specs.means.Quaternions.{LanesQuaternion-lane};
ghost use Rattle.lanes_slerp.specs.pose_lean.means.Lean.{diagonal, twice_sum, twice_difference, rotation};
ghost use Rattle.lanes_rotation.specs.means.Matrices.{LanesMatrix-of, LanesProducts-of, LanesMatrix-entries};

use lanes::Lanes;
use lanes_slerp::LanesQuaternion;

#[derive(Clone, Copy)]
pub struct LanesVector {
    pub x: Lanes,
    pub y: Lanes,
    pub z: Lanes,
}

// Three rows of three.
#[derive(Clone, Copy)]
pub struct LanesMatrix {
    pub r0: LanesVector,
    pub r1: LanesVector,
    pub r2: LanesVector,
}

// The products of a quaternion's components of which the matrix is made.
#[derive(Clone, Copy)]
struct LanesProducts {
    xx: Lanes,
    yy: Lanes,
    zz: Lanes,
    xy: Lanes,
    xz: Lanes,
    yz: Lanes,
    wx: Lanes,
    wy: Lanes,
    wz: Lanes,
}

// One less twice a sum. Accuracy: encloses, for finite ends.
fn diagonal(a: Lanes, b: Lanes) -> Lanes
    ensures value { result ≡ Lanes-zip diagonal a b }
{
    lanes::one_minus(lanes::twice(lanes::add(a, b)))
}

// Twice a sum. Accuracy: encloses, for finite ends.
fn twice_sum(a: Lanes, b: Lanes) -> Lanes
    ensures value { result ≡ Lanes-zip twice_sum a b }
{
    lanes::twice(lanes::add(a, b))
}

// Twice a difference. Accuracy: encloses, for finite ends.
fn twice_difference(a: Lanes, b: Lanes) -> Lanes
    ensures value { result ≡ Lanes-zip twice_difference a b }
{
    lanes::twice(lanes::sub(a, b))
}

// The nine products. Accuracy: encloses, for finite ends.
fn products(q: LanesQuaternion) -> LanesProducts
    ensures value { result ≡ LanesProducts-of q }
{
    let xx = lanes::mul(q.x, q.x);
    let yy = lanes::mul(q.y, q.y);
    let zz = lanes::mul(q.z, q.z);
    let xy = lanes::mul(q.x, q.y);
    let xz = lanes::mul(q.x, q.z);
    let yz = lanes::mul(q.y, q.z);
    let wx = lanes::mul(q.x, q.w);
    let wy = lanes::mul(q.y, q.w);
    let wz = lanes::mul(q.z, q.w);
    LanesProducts {
        xx,
        yy,
        zz,
        xy,
        xz,
        yz,
        wx,
        wy,
        wz,
    }
}

// The nine entries. Accuracy: encloses, for finite ends.
fn entries(p: LanesProducts) -> LanesMatrix
    ensures value { result ≡ LanesMatrix-entries p }
{
    let m00 = diagonal(p.yy, p.zz);
    let m01 = twice_difference(p.xy, p.wz);
    let m02 = twice_sum(p.xz, p.wy);
    let m10 = twice_sum(p.xy, p.wz);
    let m11 = diagonal(p.xx, p.zz);
    let m12 = twice_difference(p.yz, p.wx);
    let m20 = twice_difference(p.xz, p.wy);
    let m21 = twice_sum(p.yz, p.wx);
    let m22 = diagonal(p.xx, p.yy);
    let r0 = LanesVector {
        x: m00,
        y: m01,
        z: m02,
    };
    let r1 = LanesVector {
        x: m10,
        y: m11,
        z: m12,
    };
    let r2 = LanesVector {
        x: m20,
        y: m21,
        z: m22,
    };
    LanesMatrix { r0, r1, r2 }
}

// The matrix of a quaternion. Accuracy: encloses, for finite ends.
pub fn rotation(q: LanesQuaternion) -> LanesMatrix
    ensures value { result ≡ LanesMatrix-of (λ (k : Lane). rotation (LanesQuaternion-lane k q)) }
{
    entries(products(q))
}
