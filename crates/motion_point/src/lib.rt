// The point query of a move: pbrt's two-argument `AnimatedTransform::transform_point`.
// At and outside the end times, and where the two poses are equal, the stored transform moves the point; between them the pose at dt does.
#![tactic(auto)]

ghost use Rattle.std.specs.Prelude.{◌≡◌};
ghost use Rattle.refusal.specs.Number.{numbered};
ghost use Rattle.motion_point.specs.TransformPoint.{AnimatedTransform-constants, AnimatedTransform-moved_point, AnimatedTransform-transform_point};

use animated_transform::AnimatedTransform;
use bounds3::Point3f;
use pose_steps::PoseConstants;
use refusal::Refusal;

// The constants of the pose between, computed once for any number of points. Accuracy: each operation but the arc cosine is correctly rounded.
pub fn constants(m: AnimatedTransform) -> PoseConstants
    ensures value { result ≡ AnimatedTransform-constants m }
{
    pose_slerp::constants(m.rigid, m.t0, m.t1, m.r0, m.r1)
}

// Where a move with its constants at hand takes a point at a time, neither of which is judged here; refused with 5 where a finished value isn't finite.
// Accuracy: each operation but sine and cosine is correctly rounded.
pub fn moved_point(
    m: AnimatedTransform,
    a: PoseConstants,
    time: f32,
    p: Point3f,
) -> Result<Point3f, Refusal>
    ensures value { numbered result ≡ AnimatedTransform-moved_point m a time p }
{
    if !m.actually_animated | (time <= m.start_time) {
        return m.start_transform.transform_point(p);
    }
    if time >= m.end_time {
        return m.end_transform.transform_point(p);
    }
    pose::moved_point(
        a,
        m.s0,
        m.s1,
        unit_interval::dt(m.start_time, m.end_time, time),
        p,
    )
}

// pbrt's `transform_point` of two arguments: where a move takes a point at a time. Refused with 6 for a NaN time or a coordinate that isn't finite, and with 5
// where a finished value isn't; pbrt goes on in both cases. Accuracy: each operation but sine, cosine and arc cosine is correctly rounded.
pub fn transform_point(m: AnimatedTransform, time: f32, p: Point3f) -> Result<Point3f, Refusal>
    ensures value { numbered result ≡ AnimatedTransform-transform_point m time p }
{
    if (time != time) | !p.is_finite() {
        return Err(Refusal::Query);
    }
    moved_point(m, constants(m), time, p)
}
