// The rotations of four neighbouring slices of dt, near or far slerp, without judging: `pose_lean` has one slice.
#![tactic(auto)]

ghost use Rattle.std.specs.Prelude.{◌≡◌};
ghost use Rattle.lanes.specs.means.Lanes.{Lane, Lanes-lane, Lanes-of, Lanes-zip};
ghost use Rattle.pose_lean.specs.means.Lean.{mix, turned, length, over, normalized, slerp_by};
ghost use Rattle.lanes_slerp.specs.means.Quaternions.{LanesQuaternion-lane, LanesQuaternion-of};

use lanes::Lanes;
use quaternion::Quaternion;

#[derive(Clone, Copy)]
pub struct LanesQuaternion {
    pub x: Lanes,
    pub y: Lanes,
    pub z: Lanes,
    pub w: Lanes,
}

// x by the first and y by the second. Accuracy: encloses, for finite ends.
pub fn mix(x: f32, y: f32, u: Lanes, t: Lanes) -> Lanes
    ensures value { result ≡ Lanes-zip (mix x y) u t }
{
    lanes::add(lanes::times(x, u), lanes::times(y, t))
}

// Two quaternions mixed. Accuracy: encloses, for finite ends.
fn turned(q: Quaternion, p: Quaternion, c: Lanes, s: Lanes) -> LanesQuaternion
    ensures value { result ≡ LanesQuaternion-of (λ (k : Lane). turned q p (Lanes-lane k c) (Lanes-lane k s)) }
{
    let x = mix(q.v.x, p.v.x, c, s);
    let y = mix(q.v.y, p.v.y, c, s);
    let z = mix(q.v.z, p.v.z, c, s);
    let w = mix(q.w, p.w, c, s);
    LanesQuaternion { x, y, z, w }
}

// The root of the squared length. Accuracy: encloses, for finite ends and a positive squared length.
fn length(q: LanesQuaternion) -> Lanes
    ensures value { result ≡ Lanes-of (λ (k : Lane). length (LanesQuaternion-lane k q)) }
{
    let x = lanes::mul(q.x, q.x);
    let y = lanes::mul(q.y, q.y);
    let z = lanes::mul(q.z, q.z);
    let w = lanes::mul(q.w, q.w);
    lanes::sqrt(lanes::add(lanes::add(lanes::add(x, y), z), w))
}

// A quaternion over a number. Accuracy: encloses, for finite ends and a positive number.
fn over(q: LanesQuaternion, n: Lanes) -> LanesQuaternion
    ensures value { result ≡ LanesQuaternion-of (λ (k : Lane). over (LanesQuaternion-lane k q) (Lanes-lane k n)) }
{
    let x = lanes::div(q.x, n);
    let y = lanes::div(q.y, n);
    let z = lanes::div(q.z, n);
    let w = lanes::div(q.w, n);
    LanesQuaternion { x, y, z, w }
}

// A quaternion over its length. Accuracy: encloses, for finite ends and a positive squared length.
fn normalized(q: LanesQuaternion) -> LanesQuaternion
    ensures value { result ≡ LanesQuaternion-of (λ (k : Lane). normalized (LanesQuaternion-lane k q)) }
{
    over(q, length(q))
}

// The rotation from q by slerp, near or far, with the second quaternion of `second_by`; c and s are cosine and sine at the borders, which near slerp
// doesn't read. One call of `turned` serves both, so that it is compiled in place. Accuracy: encloses, where nothing is refused.
pub fn slerp(
    near: bool,
    q: Quaternion,
    second: Quaternion,
    dt: Lanes,
    c: Lanes,
    s: Lanes,
) -> LanesQuaternion
    ensures value { result ≡ LanesQuaternion-of (λ (k : Lane). slerp_by near q second (Lanes-lane k dt) (Lanes-lane k c) (Lanes-lane k s)) }
{
    let u = lanes::one_minus(dt);
    let x = lanes::chosen(near, u, c);
    let y = lanes::chosen(near, dt, s);
    let mixed = turned(q, second, x, y);
    if near { normalized(mixed) } else { mixed }
}
