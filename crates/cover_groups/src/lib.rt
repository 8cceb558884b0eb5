// The slices of a cover four at a time, without any test: the union of the lean boxes of neighbouring slices lane by lane, and at the end that of the
// four lanes. Where the coarse slices of the same cover are accepted, no finer one is refused and this is the cover but for zeros' signs.
// What it does with four borders and the constants is lent to the pieces of a window.
#![tactic(auto)]

ghost use Rattle.std.specs.Prelude.{◌*◌, ◌/◌, ◌^◌, ◌≤◌, min, ◌≡◌};
ghost use Rattle.pose_steps.specs.control_flow.Loop.{loop};
ghost use Rattle.pose_steps.specs.unit_interval.Unit.{slice_end};
ghost use Rattle.motion_cover.specs.bounds_query.Query.{max_depth};
ghost use Rattle.pose_steps.specs.Pose.{is_near};
ghost use Rattle.lanes_rotation.specs.pose_lean.means.Lean.{second_by};
ghost use Rattle.cover_groups.specs.means.Groups.{Lanes-ends, Border-at, Border-last, LanesBorders-steps, LanesVector-pieces};
ghost use Rattle.cover_groups.specs.means.Groups.{LanesVector-group, Groups-union};

use bounds3::Bounds3f;
use lanes::Lanes;
use lanes_rotation::LanesVector;
use matrix4x4::Matrix4x4;
use pose_steps::PoseConstants;
use quaternion::{Quaternion, SLERP_THRESHOLD};
use trig::Sines;

const MAX_DEPTH: u32 = 12;

// Where two slices meet: dt, and cosine and sine of the angle that slerp has turned by there. Near slerp asks for no angle.
#[derive(Clone, Copy)]
pub struct Border {
    pub dt: f32,
    pub cos: f32,
    pub sin: f32,
}

// The borders of four neighbouring slices: those where they begin as low ends, those where they end as high ends.
#[derive(Clone, Copy)]
pub struct LanesBorders {
    pub dt: Lanes,
    pub cos: Lanes,
    pub sin: Lanes,
}

// The boxes of some slices joined, and the border where the next slice begins.
#[derive(Clone, Copy)]
struct Reached {
    union: LanesVector,
    from: Border,
}

// A depth, held at 12. Accuracy: exact.
fn held_depth(d: u32) -> u32
    ensures value { result ≡ min d max_depth }
{
    if d > MAX_DEPTH { MAX_DEPTH } else { d }
}

// The border at dt. Accuracy: heuristic, as sine and cosine are.
pub fn border_at(sines: &Sines, near: bool, theta: f32, dt: f32) -> Border
    ensures value { result ≡ Border-at near theta dt }
{
    if near {
        Border {
            dt,
            cos: 1.0,
            sin: 0.0,
        }
    } else {
        let x = theta * dt;
        let angle = sines.sin_cos(x);
        Border {
            dt,
            cos: angle.cos,
            sin: angle.sin,
        }
    }
}

// Four intervals by five numbers, each from one to the next. Accuracy: exact.
pub fn ends(a: f32, b: f32, c: f32, d: f32, e: f32) -> Lanes
    ensures value { result ≡ Lanes-ends a b c d e }
{
    let low = [a, b, c, d];
    let high = [b, c, d, e];
    Lanes { low, high }
}

// The borders of four slices of one width, of which the first is known. Accuracy: heuristic, as sine and cosine are.
fn borders_from(sines: &Sines, near: bool, theta: f32, width: f32, from: Border) -> LanesBorders
    requires { from ≡ Border-at near theta from.dt }
    ensures value { result ≡ LanesBorders-steps near theta width from.dt }
{
    let second = from.dt + width;
    let third = second + width;
    let fourth = third + width;
    let fifth = fourth + width;
    let b = border_at(sines, near, theta, second);
    let c = border_at(sines, near, theta, third);
    let d = border_at(sines, near, theta, fourth);
    let e = border_at(sines, near, theta, fifth);
    let dt = ends(from.dt, b.dt, c.dt, d.dt, e.dt);
    let cos = ends(from.cos, b.cos, c.cos, d.cos, e.cos);
    let sin = ends(from.sin, b.sin, c.sin, d.sin, e.sin);
    LanesBorders { dt, cos, sin }
}

// The border where the last of four slices ends. Accuracy: exact.
fn last(g: LanesBorders) -> Border
    ensures value { result ≡ Border-last g }
{
    let t = g.dt.high;
    let c = g.cos.high;
    let s = g.sin.high;
    Border {
        dt: t[3],
        cos: c[3],
        sin: s[3],
    }
}

// The boxes of four slices, of the points p, joined to those before. Accuracy: encloses, where nothing is refused.
pub fn join_pieces(
    a: PoseConstants,
    second: Quaternion,
    s0: Matrix4x4,
    s1: Matrix4x4,
    pad0: f32,
    pad1: f32,
    p: LanesVector,
    g: LanesBorders,
    union: LanesVector,
) -> LanesVector
    ensures value { result ≡ LanesVector-pieces a second s0 s1 pad0 pad1 p g union }
{
    let pose = lanes_pose::pose(a, second, s0, s1, pad0, pad1, g.dt, g.cos, g.sin);
    lanes_box::join(union, lanes_box::box_enclosure(pose, p))
}

// Four more slices of one width. Accuracy: encloses, where nothing is refused.
fn reach_next(
    sines: &Sines,
    a: PoseConstants,
    second: Quaternion,
    s0: Matrix4x4,
    s1: Matrix4x4,
    pad0: f32,
    pad1: f32,
    p: LanesVector,
    width: f32,
    reached: Reached,
) -> Reached
    requires { reached.from ≡ Border-at (is_near a) a.theta reached.from.dt }
    ensures joined { result.union ≡ LanesVector-pieces a second s0 s1 pad0 pad1 p (LanesBorders-steps (is_near a) a.theta width reached.from.dt) reached.union }
    ensures next { result.from ≡ Border-last (LanesBorders-steps (is_near a) a.theta width reached.from.dt) }
{
    let near = a.cos_theta > SLERP_THRESHOLD;
    let g = borders_from(sines, near, a.theta, width, reached.from);
    let union = join_pieces(a, second, s0, s1, pad0, pad1, p, g, reached.union);
    let from = last(g);
    Reached { union, from }
}

// n groups of four slices, from the first border on. Accuracy: encloses, where nothing is refused.
fn join_groups(
    sines: &Sines,
    a: PoseConstants,
    second: Quaternion,
    s0: Matrix4x4,
    s1: Matrix4x4,
    pad0: f32,
    pad1: f32,
    p: LanesVector,
    h: u32,
    n: u64,
    start: Reached,
) -> LanesVector
    requires h_bound { h ≤ max_depth }
    requires groups { 4 * n ≤ 2 ^ h }
    requires start { start.from ≡ Border-at (is_near a) a.theta (slice_end h 0) }
    ensures value { result ≡ loop (LanesVector-group a second s0 s1 pad0 pad1 p h) n start.union }
{
    // Borders up to depth 12 are exact, so each is the one before and the width, to the bit.
    let width = float_bits::from_fixed(1, h);
    let mut reached = start;
    for _ in 0..n {
        let next = reach_next(sines, a, second, s0, s1, pad0, pad1, p, width, reached);
        reached = next;
    }
    let union = reached.union;
    union
}

// The second quaternion that slerp mixes. Accuracy: each operation is correctly rounded.
pub fn second_quaternion(a: PoseConstants) -> Quaternion
    ensures value { result ≡ second_by (is_near a) a }
{
    if a.cos_theta > SLERP_THRESHOLD {
        let q = a.r1;
        q
    } else {
        let perp = pose_slerp::perpendicular_to(a.r0, a.r1, a.cos_theta);
        let q = perp.q;
        q
    }
}

// The box `first` and the lean boxes of 2^h slices of dt in groups of four, with h the depth, held at 12. A depth below 2 has no group.
// Accuracy: encloses, where no slice is refused and no end is a NaN.
pub fn union_groups(
    a: PoseConstants,
    s0: Matrix4x4,
    s1: Matrix4x4,
    pad0: f32,
    pad1: f32,
    b: Bounds3f,
    d: u32,
    first: Bounds3f,
) -> Bounds3f
    ensures value { result ≡ Groups-union a s0 s1 pad0 pad1 b (min d max_depth) (2 ^ min d max_depth / 4) first }
{
    let h = held_depth(d);
    let n = (1u64 << h) / 4;
    let sines = Sines::new();
    let second = second_quaternion(a);
    let p = lanes_box::repeated(b);
    let union = lanes_box::repeated(first);
    let near = a.cos_theta > SLERP_THRESHOLD;
    let from = border_at(&sines, near, a.theta, 0.0);
    let start = Reached { union, from };
    let joined = join_groups(&sines, a, second, s0, s1, pad0, pad1, p, h, n, start);
    lanes_box::joined(joined)
}
