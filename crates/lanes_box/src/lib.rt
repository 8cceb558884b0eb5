// A box moved by four poses, grown by their pads, and the union of such boxes lane by lane. Nothing is judged.
#![tactic(auto)]

ghost use Rattle.std.specs.Prelude.{◌≡◌};
ghost use Rattle.lanes.specs.means.Lanes.{Lane, at, Lanes-lane, Lanes-of};
ghost use Rattle.lanes_rotation.specs.means.Matrices.{LanesVector-lane, LanesVector-of, LanesMatrix-lane};
ghost use Rattle.lanes_rotation.specs.pose_steps.Enclose.{Bounds3f-intervals};
ghost use Rattle.lanes_rotation.specs.pose_lean.means.Lean.{moved, moved_by, IntervalVector-grown, LeanPose-vector};
ghost use Rattle.lanes_pose.specs.means.Poses.{LanesPose-lane};
ghost use Rattle.lanes_box.specs.means.Boxes.{IntervalVector-join, LanesVector-joined};

use bounds3::{Bounds3f, Point3f};
use interval::Interval;
use lanes::Lanes;
use lanes_pose::LanesPose;
use lanes_rotation::{LanesMatrix, LanesVector};

// A coordinate of the moved points: three products and the translation. Accuracy: encloses, for finite ends.
fn moved(p: LanesVector, row: LanesVector, t: Lanes) -> Lanes
    ensures value { result ≡ Lanes-of (λ (k : Lane). moved (LanesVector-lane k p) (LanesVector-lane k row) (Lanes-lane k t)) }
{
    let x = lanes::mul(p.x, row.x);
    let y = lanes::mul(p.y, row.y);
    let z = lanes::mul(p.z, row.z);
    lanes::add(lanes::add(lanes::add(x, y), z), t)
}

// The moved points. Accuracy: encloses, for finite ends.
fn moved_by(p: LanesVector, m: LanesMatrix, t: LanesVector) -> LanesVector
    ensures value { result ≡ LanesVector-of (λ (k : Lane). moved_by (LanesVector-lane k p) (LanesMatrix-lane k m) (LanesVector-lane k t)) }
{
    let x = moved(p, m.r0, t.x);
    let y = moved(p, m.r1, t.y);
    let z = moved(p, m.r2, t.z);
    LanesVector { x, y, z }
}

// Grown by a pad on every face. Accuracy: each face is correctly rounded.
fn grown(v: LanesVector, pad: [f32; 4]) -> LanesVector
    ensures value { result ≡ LanesVector-of (λ (k : Lane). IntervalVector-grown (at k pad) (LanesVector-lane k v)) }
{
    let x = lanes::widened(v.x, pad);
    let y = lanes::widened(v.y, pad);
    let z = lanes::widened(v.z, pad);
    LanesVector { x, y, z }
}

// The points p moved by four poses, grown by their pads. Accuracy: encloses, where nothing is refused.
pub fn box_enclosure(pose: LanesPose, p: LanesVector) -> LanesVector
    ensures value { result ≡ LanesVector-of (λ (k : Lane). LeanPose-vector (LanesPose-lane k pose) (LanesVector-lane k p)) }
{
    let pad = pose.pad;
    let v = moved_by(p, pose.linear, pose.translation);
    grown(v, pad)
}

// The union, where no end is a NaN. Accuracy: exact.
pub fn join(u: LanesVector, v: LanesVector) -> LanesVector
    ensures value { result ≡ LanesVector-of (λ (k : Lane). IntervalVector-join (LanesVector-lane k u) (LanesVector-lane k v)) }
{
    let x = lanes::join(u.x, v.x);
    let y = lanes::join(u.y, v.y);
    let z = lanes::join(u.z, v.z);
    LanesVector { x, y, z }
}

// One box in all four lanes. Accuracy: exact.
pub fn repeated(b: Bounds3f) -> LanesVector
    ensures value { result ≡ LanesVector-of (λ (k : Lane). Bounds3f-intervals b) }
{
    let l = b.p_min;
    let h = b.p_max;
    let x = lanes::repeated(Interval {
        low: l.x,
        high: h.x,
    });
    let y = lanes::repeated(Interval {
        low: l.y,
        high: h.y,
    });
    let z = lanes::repeated(Interval {
        low: l.z,
        high: h.z,
    });
    LanesVector { x, y, z }
}

// The union of the four, where no end is a NaN. Accuracy: exact.
pub fn joined(v: LanesVector) -> Bounds3f
    ensures value { result ≡ LanesVector-joined v }
{
    let x = lanes::joined(v.x);
    let y = lanes::joined(v.y);
    let z = lanes::joined(v.z);
    let p_min = Point3f {
        x: x.low,
        y: y.low,
        z: z.low,
    };
    let p_max = Point3f {
        x: x.high,
        y: y.high,
        z: z.high,
    };
    Bounds3f { p_min, p_max }
}
