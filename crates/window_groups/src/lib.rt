// The pieces of a window's share of dt four at a time, without any test: halves down to four neighbouring pieces, their lean boxes joined lane by lane, and at
// the end the four lanes. Where a few coarse pieces of the same share are accepted, no finer one is refused and this is their union but for zeros' signs.
#![tactic(auto)]

ghost use Rattle.std.specs.Prelude.{◌≡◌};
ghost use Rattle.interval.specs.Interval.{Interval-midpoint};
ghost use Rattle.pose_steps.specs.Pose.{is_near};
ghost use Rattle.cover_groups.specs.means.Groups.{Border-at};
ghost use Rattle.window_groups.specs.means.Halves.{Border-between, LanesBorders-quarters, fold_halves, LanesVector-quarters, Halves-union};

use bounds3::Bounds3f;
use cover_groups::{Border, LanesBorders};
use interval::Interval;
use lanes_rotation::LanesVector;
use matrix4x4::Matrix4x4;
use pose_steps::PoseConstants;
use quaternion::{Quaternion, SLERP_THRESHOLD};
use trig::Sines;

// The border half way between two. Accuracy: heuristic, as sine and cosine are.
fn border_between(sines: &Sines, near: bool, theta: f32, from: Border, to: Border) -> Border
    ensures value { result ≡ Border-between near theta from.dt to.dt }
{
    let dt = Interval {
        low: from.dt,
        high: to.dt,
    };
    cover_groups::border_at(sines, near, theta, dt.midpoint())
}

// The borders of the four pieces between two borders. Accuracy: heuristic, as sine and cosine are.
fn quarters(sines: &Sines, near: bool, theta: f32, from: Border, to: Border) -> LanesBorders
    requires from { from ≡ Border-at near theta from.dt }
    requires to { to ≡ Border-at near theta to.dt }
    ensures value { result ≡ LanesBorders-quarters near theta from.dt to.dt }
{
    let mid = border_between(sines, near, theta, from, to);
    let b = border_between(sines, near, theta, from, mid);
    let d = border_between(sines, near, theta, mid, to);
    let dt = cover_groups::ends(from.dt, b.dt, mid.dt, d.dt, to.dt);
    let cos = cover_groups::ends(from.cos, b.cos, mid.cos, d.cos, to.cos);
    let sin = cover_groups::ends(from.sin, b.sin, mid.sin, d.sin, to.sin);
    LanesBorders { dt, cos, sin }
}

// The boxes of the 4 * 2^depth pieces between two borders, of the points p, joined to those before. Accuracy: encloses, where nothing is refused.
fn join_halves(
    sines: &Sines,
    a: PoseConstants,
    second: Quaternion,
    s0: Matrix4x4,
    s1: Matrix4x4,
    pad0: f32,
    pad1: f32,
    p: LanesVector,
    from: Border,
    to: Border,
    depth: u32,
    union: LanesVector,
) -> LanesVector
    requires { (from ≡ Border-at (is_near a) a.theta from.dt) × (to ≡ Border-at (is_near a) a.theta to.dt) }
    ensures value { result ≡ fold_halves (LanesVector-quarters a second s0 s1 pad0 pad1 p) depth from.dt to.dt union }
{
    let near = a.cos_theta > SLERP_THRESHOLD;
    if depth == 0 {
        let g = quarters(sines, near, a.theta, from, to);
        return cover_groups::join_pieces(a, second, s0, s1, pad0, pad1, p, g, union);
    }
    let mid = border_between(sines, near, a.theta, from, to);
    let below = join_halves(
        sines,
        a,
        second,
        s0,
        s1,
        pad0,
        pad1,
        p,
        from,
        mid,
        depth - 1,
        union,
    );
    join_halves(
        sines,
        a,
        second,
        s0,
        s1,
        pad0,
        pad1,
        p,
        mid,
        to,
        depth - 1,
        below,
    )
}

// The box `first` and the lean boxes of the 4 * 2^depth pieces of an interval of dt. Accuracy: encloses, where no piece is refused and no end is a NaN.
pub fn union_groups(
    a: PoseConstants,
    s0: Matrix4x4,
    s1: Matrix4x4,
    pad0: f32,
    pad1: f32,
    b: Bounds3f,
    dt: Interval,
    depth: u32,
    first: Bounds3f,
) -> Bounds3f
    ensures value { result ≡ Halves-union a s0 s1 pad0 pad1 b depth dt first }
{
    let sines = Sines::new();
    let second = cover_groups::second_quaternion(a);
    let p = lanes_box::repeated(b);
    let union = lanes_box::repeated(first);
    let near = a.cos_theta > SLERP_THRESHOLD;
    let from = cover_groups::border_at(&sines, near, a.theta, dt.low);
    let to = cover_groups::border_at(&sines, near, a.theta, dt.high);
    let joined = join_halves(
        &sines, a, second, s0, s1, pad0, pad1, p, from, to, depth, union,
    );
    lanes_box::joined(joined)
}
