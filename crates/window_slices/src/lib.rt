// The boxes of a move over the pieces of a window's share of dt, joined. A few coarse pieces are judged first. Where they are accepted no finer piece is
// refused, and those are computed four at a time without judging, which gives the same but for zeros' signs.
#![tactic(auto)]

ghost use Rattle.std.specs.Prelude.{◌≤◌, min, ◌≡◌, true};
ghost use Rattle.transform.specs.declared.BoundsAnswer.TheVariants.{Bounds};
ghost use Rattle.bounds_query.specs.Query.{max_depth};
ghost use Rattle.bounds_query.specs.Same.{BoundsAnswer-Same};
ghost use Rattle.bounds_query.specs.Zeros.{BoundsAnswer-positive_zeros};
ghost use Rattle.dt_pieces.specs.dt_share.means.Part.{UnitPart};
ghost use Rattle.cover_slices.specs.means.Lean.{coarse_depth};
ghost use Rattle.dt_pieces.specs.means.Pieces.{piece_box, union_pieces};
ghost use Rattle.window_groups.specs.means.Halves.{between};
ghost use Rattle.window_slices.specs.means.Lean.{Lean};

use bounds3::Bounds3f;
use interval::Interval;
use matrix4x4::Matrix4x4;
use pose_steps::PoseConstants;
use transform::BoundsAnswer;

const MAX_DEPTH: u32 = 12;

// A depth, held at 12. Accuracy: exact.
fn held_depth(d: u32) -> u32
    ensures value { result ≡ min d max_depth }
{
    if d > MAX_DEPTH { MAX_DEPTH } else { d }
}

// Whether two numbers rise and lie from 0 to 1.
fn is_unit_part(low: f32, high: f32) -> bool
    ensures value { result ≡ true → UnitPart (between low high) }
{
    (0.0 <= low) & (low <= high) & (high <= 1.0)
}

// Whether finer pieces may be computed without judging: the numbers pass the test, and the coarse pieces are accepted.
fn is_lean(
    first: Bounds3f,
    a: PoseConstants,
    s0: Matrix4x4,
    s1: Matrix4x4,
    pad0: f32,
    pad1: f32,
    dt: Interval,
    b: Bounds3f,
) -> bool
    ensures value { result ≡ true → Lean a s0 s1 pad0 pad1 b dt first }
{
    let parts = cover_test::is_enclosable(a, s0, s1, pad0, pad1);
    let numbers = cover_test::is_finite_box(b);
    let refusal = bounds_query::refusal(b);
    let finite = first.is_finite();
    let share = is_unit_part(dt.low, dt.high);
    if !(parts & numbers & finite & share) {
        return false;
    }
    if refusal != 0 {
        return false;
    }
    let start = BoundsAnswer::Bounds(first);
    let d = cover_slices::coarse_depth(a);
    cover_slices::is_box(dt_pieces::union_pieces(start, a, s0, s1, pad0, pad1, dt, d, b))
}

// The boxes of the 2^h pieces of an interval of dt, with h the depth, held at 12, in rising order, joined to r, but for zeros' signs; the first refusal stands,
// 5 or 10. Accuracy: encloses.
pub fn union_pieces(
    r: BoundsAnswer,
    a: PoseConstants,
    s0: Matrix4x4,
    s1: Matrix4x4,
    pad0: f32,
    pad1: f32,
    dt: Interval,
    depth: u32,
    b: Bounds3f,
) -> BoundsAnswer
    ensures value { BoundsAnswer-positive_zeros result ≡ BoundsAnswer-positive_zeros (union_pieces (piece_box a s0 s1 pad0 pad1 b) r (min depth max_depth) dt) }
    ensures same { (s : BoundsAnswer) → BoundsAnswer-Same r s
        → BoundsAnswer-Same result (union_pieces (piece_box a s0 s1 pad0 pad1 b) s (min depth max_depth) dt) }
{
    let h = held_depth(depth);
    let BoundsAnswer::Bounds(first) = r else {
        return r;
    };
    let coarse = cover_slices::coarse_depth(a);
    if (h > 1) & (h > coarse) {
        if is_lean(first, a, s0, s1, pad0, pad1, dt, b) {
            let union = window_groups::union_groups(a, s0, s1, pad0, pad1, b, dt, h - 2, first);
            return BoundsAnswer::Bounds(union);
        }
    }
    dt_pieces::union_pieces(r, a, s0, s1, pad0, pad1, dt, depth, b)
}
