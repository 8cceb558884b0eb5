// The motion box: pbrt's `bound_point_motion` and `motion_bounds`. It holds where the two poses take a point, and where the move takes it at the times that the
// zero search found, so that it isn't a cover of the motion. What is asked of the arguments (6, 7) stands apart from what is met on the way (5, 9).
// Each box comes with how many intervals its search examined.
#![tactic(auto)]

ghost use Rattle.std.specs.Prelude.{◌≡◌, ◌+◌, ◌<◌};
ghost use Rattle.refusal.specs.Number.{numbered};
ghost use Rattle.zero_search.specs.Stored.{Stored};
ghost use Rattle.motion_bounds.specs.MotionBounds.{DerivativeTerm-eval, BoundsAnswer-from_ends, point_at, union_zero, union_zeros};
ghost use Rattle.motion_bounds.specs.MotionBounds.{all_places, axis_search, union_axis, point_bounds, union_corners, box_bounds};
ghost use Rattle.motion_bounds.specs.Examined.{Examined-AtMost, Examined-add, point_examined, corners_examined, box_examined};
ghost use Rattle.motion_bounds.specs.Answer.{BoundsAnswer-counted, AnimatedTransform-bound_point_motion, AnimatedTransform-motion_bounds};
ghost use Rattle.motion_bounds.specs.means.Steps.{axis_bounds, union_axes, axes_examined};

use animated_transform::AnimatedTransform;
use axis_derivative::{Derivative, DerivativeTerm};
use bounds3::{Bounds3f, Point3f};
use pose_steps::PoseConstants;
use refusal::Refusal;
use transform::BoundsAnswer;
use zero_list::Zeros;
use zero_search::Search;

// How many intervals the zero search examined on each axis.
#[derive(Clone, Copy)]
pub struct Examined {
    pub x: u32,
    pub y: u32,
    pub z: u32,
}

// A motion box and what its search cost, or the number of a refusal, which carries no counts.
#[derive(Clone, Copy)]
pub enum MotionBoundsAnswer {
    Bounds(Bounds3f, Examined),
    Refused(u8),
}

// The box with one axis's points, and how many intervals were examined for them.
#[derive(Clone, Copy)]
struct AxisBounds {
    bounds: BoundsAnswer,
    examined: u32,
}

const NONE_EXAMINED: Examined = Examined { x: 0, y: 0, z: 0 };

// The counts of up to seven corners and of one more.
fn add(e: Examined, f: Examined) -> Examined
    requires { Examined-AtMost 3577 e × Examined-AtMost 511 f }
    ensures value { result ≡ Examined-add e f }
{
    Examined {
        x: e.x + f.x,
        y: e.y + f.y,
        z: e.z + f.z,
    }
}

// A box with its counts; a refusal carries none.
fn counted(r: BoundsAnswer, e: Examined) -> MotionBoundsAnswer
    ensures value { result ≡ BoundsAnswer-counted r e }
{
    match r {
        BoundsAnswer::Bounds(b) => MotionBoundsAnswer::Bounds(b, e),
        BoundsAnswer::Refused(n) => MotionBoundsAnswer::Refused(n),
    }
}

// kc + kx * x + ky * y + kz * z. Accuracy: each operation is correctly rounded.
fn eval(k: DerivativeTerm, p: Point3f) -> f32
    ensures value { result ≡ DerivativeTerm-eval k p }
{
    k.kc + k.kx * p.x + k.ky * p.y + k.kz * p.z
}

// The box of a point moved by the start and by the end: the start's refusal stands before the end's.
fn from_ends(start: Result<Point3f, Refusal>, end: Result<Point3f, Refusal>) -> BoundsAnswer
    ensures value { result ≡ BoundsAnswer-from_ends (numbered start) (numbered end) }
{
    match start {
        Ok(p1) => match end {
            Ok(p2) => BoundsAnswer::Bounds(Bounds3f::from_points(p1, p2)),
            Err(refusal) => BoundsAnswer::Refused(refusal.number()),
        },
        Err(refusal) => BoundsAnswer::Refused(refusal.number()),
    }
}

// The point at one zero's time, which may be an infinity: that means a stored pose.
fn point_at(
    m: AnimatedTransform,
    a: PoseConstants,
    p: Point3f,
    zero: f32,
) -> Result<Point3f, Refusal>
    ensures value { numbered result ≡ point_at m a p zero }
{
    motion_point::moved_point(m, a, float32::lerp(zero, m.start_time, m.end_time), p)
}

// The box with the point at one zero's time; after a refusal nothing is computed.
fn union_zero(
    m: AnimatedTransform,
    a: PoseConstants,
    p: Point3f,
    zero: f32,
    r: BoundsAnswer,
) -> BoundsAnswer
    ensures value { result ≡ union_zero m a p zero r }
{
    match r {
        BoundsAnswer::Bounds(b) => {
            let q = point_at(m, a, p, zero);
            match q {
                Ok(pz) => BoundsAnswer::Bounds(b.union_point(pz)),
                Err(refusal) => BoundsAnswer::Refused(refusal.number()),
            }
        }
        BoundsAnswer::Refused(_) => r,
    }
}

// All eight places are joined, as in pbrt-rust: an unused one is 0.0, the start, which is joined once for all of them.
fn union_zeros(
    m: AnimatedTransform,
    a: PoseConstants,
    p: Point3f,
    found: Zeros,
    r: BoundsAnswer,
) -> BoundsAnswer
    requires { Stored found }
    ensures value { result ≡ union_zeros m a p found.zeros 8 r }
{
    let zeros = found.zeros;
    let count = found.count;
    let mut s = r;
    for k in 0..count {
        s = union_zero(m, a, p, zeros[k], s);
    }
    if count < 8 {
        return union_zero(m, a, p, 0.0, s);
    }
    s
}

// The search for where the derivative of a point's motion along one axis may vanish. The five terms at the point may overflow: the search goes on.
fn axis_search(a: PoseConstants, p: Point3f, d: Derivative) -> Search
    ensures value { result ≡ axis_search a p d }
{
    zero_search::interval_find_zeros(
        eval(d.c1, p),
        eval(d.c2, p),
        eval(d.c3, p),
        eval(d.c4, p),
        eval(d.c5, p),
        a.theta,
    )
}

// The box with the points at one axis's zeros; a ninth zero is met before any of them. After a refusal nothing is examined.
fn union_axis(
    m: AnimatedTransform,
    a: PoseConstants,
    p: Point3f,
    d: Derivative,
    r: BoundsAnswer,
) -> AxisBounds
    ensures value { result ≡ axis_bounds m a p d r }
{
    match r {
        BoundsAnswer::Bounds(_) => {
            let found = axis_search(a, p, d);
            let zeros = found.zeros;
            let examined = found.examined;
            if zeros.refusal != 0 {
                let bounds = BoundsAnswer::Refused(zeros.refusal);
                return AxisBounds { bounds, examined };
            }
            let bounds = union_zeros(m, a, p, zeros, r);
            AxisBounds { bounds, examined }
        }
        BoundsAnswer::Refused(_) => AxisBounds {
            bounds: r,
            examined: 0,
        },
    }
}

// The box with the points at the zeros of the three axes, in turn.
fn union_axes(
    m: AnimatedTransform,
    a: PoseConstants,
    p: Point3f,
    ends: BoundsAnswer,
) -> MotionBoundsAnswer
    ensures value { result ≡ BoundsAnswer-counted (union_axes m a p ends) (axes_examined m a p) }
{
    let c = m.coefficients;
    let along_x = union_axis(m, a, p, c.x, ends);
    let after_x = along_x.bounds;
    let along_y = union_axis(m, a, p, c.y, after_x);
    let after_y = along_y.bounds;
    let along_z = union_axis(m, a, p, c.z, after_y);
    let after_z = along_z.bounds;
    let examined = Examined {
        x: along_x.examined,
        y: along_y.examined,
        z: along_z.examined,
    };
    counted(after_z, examined)
}

// `bound_point_motion` of a finite point, with the move's constants at hand. Accuracy: heuristic.
fn point_bounds(m: AnimatedTransform, a: PoseConstants, p: Point3f) -> MotionBoundsAnswer
    ensures value { result ≡ BoundsAnswer-counted (point_bounds all_places m a p) (point_examined m a p) }
{
    let start = m.start_transform.transform_point(p);
    if !m.actually_animated {
        return counted(transform::from_moved(start), NONE_EXAMINED);
    }
    union_axes(
        m,
        a,
        p,
        from_ends(start, m.end_transform.transform_point(p)),
    )
}

// The box with one corner's motion, which adds to the counts; after a refusal nothing is computed.
fn union_corner(
    m: AnimatedTransform,
    a: PoseConstants,
    b: Bounds3f,
    c: usize,
    r: MotionBoundsAnswer,
) -> MotionBoundsAnswer
    requires { (c < 8) × (r ≡ BoundsAnswer-counted (union_corners all_places m a b c) (corners_examined m a b c)) }
    ensures value { result ≡ BoundsAnswer-counted (union_corners all_places m a b (c + 1)) (corners_examined m a b (c + 1)) }
{
    match r {
        MotionBoundsAnswer::Bounds(joined, e) => {
            let s = point_bounds(m, a, b.corner(c));
            match s {
                MotionBoundsAnswer::Bounds(corner, f) => {
                    MotionBoundsAnswer::Bounds(joined.union_bounds(corner), add(e, f))
                }
                MotionBoundsAnswer::Refused(_) => s,
            }
        }
        MotionBoundsAnswer::Refused(_) => r,
    }
}

// The motion of the eight corners.
fn union_corners(m: AnimatedTransform, a: PoseConstants, b: Bounds3f) -> MotionBoundsAnswer
    ensures value { result ≡ BoundsAnswer-counted (union_corners all_places m a b 8) (corners_examined m a b 8) }
{
    let mut r = MotionBoundsAnswer::Bounds(Bounds3f::default(), NONE_EXAMINED);
    for c in 0..8 {
        r = union_corner(m, a, b, c, r);
    }
    r
}

// `motion_bounds` of a box that isn't refused. Accuracy: heuristic.
fn box_bounds(m: AnimatedTransform, b: Bounds3f) -> MotionBoundsAnswer
    ensures value { result ≡ BoundsAnswer-counted (box_bounds all_places m b) (box_examined m b) }
{
    let start = m.start_transform.transform_bounds(b);
    if !m.actually_animated {
        return counted(start, NONE_EXAMINED);
    }
    if !m.has_rotation {
        let ends = bounds_query::union_bounds(start, m.end_transform.transform_bounds(b));
        return counted(ends, NONE_EXAMINED);
    }
    union_corners(m, motion_point::constants(m), b)
}

// pbrt's `bound_point_motion`: the motion box of a point, with at most 511 intervals examined on each axis. Refused with 6 for a coordinate that isn't finite;
// then with 5 for a moved point that isn't and with 9 for a ninth zero of an axis, whichever is met first:
// pbrt goes on in the first two cases and panics in the last. Accuracy: heuristic.
pub fn bound_point_motion(m: AnimatedTransform, p: Point3f) -> MotionBoundsAnswer
    ensures value { result ≡ AnimatedTransform-bound_point_motion m p }
{
    if !p.is_finite() {
        return MotionBoundsAnswer::Refused(6);
    }
    point_bounds(m, motion_point::constants(m), p)
}

// pbrt's `motion_bounds`: the union of the two poses' boxes without rotation, and with it that of the corners' motion boxes, whose counts are added. Refused
// with 6 and 7 for a box with a coordinate that isn't finite or with a least corner above its greatest; then as each corner is. Accuracy: heuristic.
pub fn motion_bounds(m: AnimatedTransform, b: Bounds3f) -> MotionBoundsAnswer
    ensures value { result ≡ AnimatedTransform-motion_bounds m b }
{
    let n = bounds_query::refusal(b);
    if n != 0 {
        return MotionBoundsAnswer::Refused(n);
    }
    box_bounds(m, b)
}
