// A piece of a cover in two steps: the poses over any interval of dt as one matrix with their pad, and the box that they move a box to.
// Many boxes then share the first step. Nothing is asked of dt or of the constants: what isn't finite is refused.
#![tactic(auto)]

ghost use Rattle.std.specs.Prelude.{◌≡◌};
ghost use Rattle.interval.specs.refusal.Number.{numbered};
ghost use Rattle.pose_steps.specs.Judged.{JudgedQuaternion-outcome, JudgedMatrix-outcome};
ghost use Rattle.pose_steps.specs.Enclose.{Pose-enclose_slerp, Pose-enclose_matrix, Bounds3f-intervals, IntervalVector-bounds};
ghost use Rattle.motion_piece.specs.means.Piece.{moved_box, moved_intervals, PaddedPose-judged, PaddedPose-enclose_bounds, PaddedPose-over, PaddedPose-stored};

use bounds3::{Bounds3f, Point3f};
use interval::Interval;
use matrix4x4::Matrix4x4;
use pose_steps::{IntervalMatrix, IntervalQuaternion, IntervalVector, PoseConstants};
use quaternion::SLERP_THRESHOLD;
use refusal::Refusal;
use transform::{BoundsAnswer, Transform};

// Poses as one matrix, with their pad. The matrix's refusal comes first, then that of a moved box, then the pad's.
#[derive(Clone, Copy)]
pub struct PaddedPose {
    pub matrix: Result<IntervalMatrix, Refusal>,
    pub pad: Result<Interval, Refusal>,
}

// The rotation over an interval of dt; refused with 5 or 10. Accuracy: encloses, for an angle from 0 to a quarter turn and dt from 0 to 1.
pub fn slerp_enclosure(a: PoseConstants, dt: Interval) -> Result<IntervalQuaternion, Refusal>
    ensures value { numbered result ≡ JudgedQuaternion-outcome (Pose-enclose_slerp 0 a dt) }
{
    if a.cos_theta > SLERP_THRESHOLD {
        pose_slerp::slerp_near_enclosure(a.r0, a.r1, dt)
    } else {
        pose_slerp::slerp_far_enclosure(a, dt)
    }
}

// The pose's matrix over an interval of dt; refused with 5 or 10. Accuracy: encloses, for an angle from 0 to a quarter turn and dt from 0 to 1.
pub fn pose_enclosure(
    a: PoseConstants,
    s0: Matrix4x4,
    s1: Matrix4x4,
    dt: Interval,
) -> Result<IntervalMatrix, Refusal>
    ensures value { numbered result ≡ JudgedMatrix-outcome (Pose-enclose_matrix a s0 s1 dt) }
{
    let trans = pose_parts::translation_enclosure(a.t0, a.t1, dt)?;
    let rotate = slerp_enclosure(a, dt)?;
    pose::composition_enclosure(a.rigid, trans, rotate, s0, s1, dt)
}

// The same with the pad over that interval. Accuracy: encloses, for an angle from 0 to a quarter turn and dt from 0 to 1.
pub fn padded_enclosure(
    a: PoseConstants,
    s0: Matrix4x4,
    s1: Matrix4x4,
    pad0: f32,
    pad1: f32,
    dt: Interval,
) -> PaddedPose
    ensures value { PaddedPose-judged result ≡ PaddedPose-over a s0 s1 pad0 pad1 dt }
{
    let matrix = pose_enclosure(a, s0, s1, dt);
    let pad = motion_pad::pad_enclosure(pad0, pad1, dt);
    PaddedPose { matrix, pad }
}

// A stored transform's matrix and a pad, with equal ends. Accuracy: exact.
pub fn stored_enclosure(own: f32, t: Transform) -> PaddedPose
    ensures value { PaddedPose-judged result ≡ PaddedPose-stored own t }
{
    let matrix = pose_point::matrix_point(t.m);
    let pad = motion_pad::stored_pad(own);
    PaddedPose {
        matrix: Ok(matrix),
        pad: Ok(pad),
    }
}

// A box as three intervals. Accuracy: exact.
pub fn intervals(b: Bounds3f) -> IntervalVector
    ensures value { result ≡ Bounds3f-intervals b }
{
    let l = b.p_min;
    let h = b.p_max;
    let x = Interval {
        low: l.x,
        high: h.x,
    };
    let y = Interval {
        low: l.y,
        high: h.y,
    };
    let z = Interval {
        low: l.z,
        high: h.z,
    };
    IntervalVector { x, y, z }
}

// And back. Accuracy: exact.
fn bounds(w: IntervalVector) -> Bounds3f
    ensures value { result ≡ IntervalVector-bounds w }
{
    let p_min = Point3f {
        x: w.x.low,
        y: w.y.low,
        z: w.z.low,
    };
    let p_max = Point3f {
        x: w.x.high,
        y: w.y.high,
        z: w.z.high,
    };
    Bounds3f { p_min, p_max }
}

// The intervals that a matrix moves a box to.
fn moved_intervals(
    matrix: Result<IntervalMatrix, Refusal>,
    b: Bounds3f,
) -> Result<IntervalVector, Refusal>
    ensures value { numbered result ≡ moved_intervals (numbered matrix) b }
{
    let a = matrix?;
    pose_point::transform_point_enclosure(a, intervals(b))
}

// Three intervals as a box, or the number that was met on the way. Accuracy: exact.
fn moved_box(moved: Result<IntervalVector, Refusal>) -> BoundsAnswer
    ensures value { result ≡ moved_box (numbered moved) }
{
    match moved {
        Ok(w) => BoundsAnswer::Bounds(bounds(w)),
        Err(refusal) => BoundsAnswer::Refused(refusal.number()),
    }
}

// The box that a matrix moves a box to, grown by the high end of the pad; refused with the matrix's number, or with 5. Accuracy: encloses.
pub fn box_enclosure(pose: PaddedPose, b: Bounds3f) -> BoundsAnswer
    ensures value { result ≡ PaddedPose-enclose_bounds (PaddedPose-judged pose) b }
{
    let moved = moved_intervals(pose.matrix, b);
    motion_pad::grow(pose.pad, moved_box(moved))
}
