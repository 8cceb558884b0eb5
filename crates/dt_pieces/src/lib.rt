// The boxes of a move over the pieces of an interval of dt, joined.
#![tactic(auto)]

ghost use Rattle.std.specs.Prelude.{min, ◌≡◌};
ghost use Rattle.bounds_query.specs.Query.{BoundsAnswer-union_bounds, max_depth};
ghost use Rattle.dt_pieces.specs.means.Pieces.{piece_box, union_pieces};

use bounds3::Bounds3f;
use interval::Interval;
use matrix4x4::Matrix4x4;
use pose_steps::PoseConstants;
use transform::BoundsAnswer;

const MAX_DEPTH: u32 = 12;

// The box of the poses over an interval of dt, grown by the high end of their pad interval, joined to r. Accuracy: encloses.
fn union_piece(
    r: BoundsAnswer,
    a: PoseConstants,
    s0: Matrix4x4,
    s1: Matrix4x4,
    pad0: f32,
    pad1: f32,
    dt: Interval,
    b: Bounds3f,
) -> BoundsAnswer
    ensures value { result ≡ BoundsAnswer-union_bounds r (piece_box a s0 s1 pad0 pad1 b dt) }
{
    bounds_query::union_bounds(
        r,
        motion_piece::box_enclosure(motion_piece::padded_enclosure(a, s0, s1, pad0, pad1, dt), b),
    )
}

// The boxes of the 2^depth pieces of an interval of dt, in rising order, joined to r; the first refusal stands, 5 or 10. Accuracy: encloses.
fn union_halves(
    r: BoundsAnswer,
    a: PoseConstants,
    s0: Matrix4x4,
    s1: Matrix4x4,
    pad0: f32,
    pad1: f32,
    dt: Interval,
    depth: u32,
    b: Bounds3f,
) -> BoundsAnswer
    ensures value { result ≡ union_pieces (piece_box a s0 s1 pad0 pad1 b) r depth dt }
{
    if depth == 0 {
        return union_piece(r, a, s0, s1, pad0, pad1, dt, b);
    }
    let mid = dt.midpoint();
    let lower = Interval {
        low: dt.low,
        high: mid,
    };
    let upper = Interval {
        low: mid,
        high: dt.high,
    };
    let below = union_halves(r, a, s0, s1, pad0, pad1, lower, depth - 1, b);
    union_halves(below, a, s0, s1, pad0, pad1, upper, depth - 1, b)
}

// A depth, held at 12. Accuracy: exact.
fn held_depth(d: u32) -> u32
    ensures value { result ≡ min d max_depth }
{
    if d > MAX_DEPTH { MAX_DEPTH } else { d }
}

// The boxes of the 2^h pieces of an interval of dt, with h the depth, held at 12, in rising order, joined to r; the first refusal stands, 5 or 10.
// Accuracy: encloses.
pub fn union_pieces(
    r: BoundsAnswer,
    a: PoseConstants,
    s0: Matrix4x4,
    s1: Matrix4x4,
    pad0: f32,
    pad1: f32,
    dt: Interval,
    depth: u32,
    b: Bounds3f,
) -> BoundsAnswer
    ensures value { result ≡ union_pieces (piece_box a s0 s1 pad0 pad1 b) r (min depth max_depth) dt }
{
    union_halves(r, a, s0, s1, pad0, pad1, dt, held_depth(depth), b)
}
