// The slices of dt in a cover: the boxes of a move's poses from border to border, each grown by its pad, joined in rising order up to the first refusal that is
// met. A few coarse slices are judged first. Where they are accepted no finer slice is refused, and those are computed four at a time without judging, which
// gives the same but for zeros' signs; so zeros are +0.
#![tactic(auto)]

ghost use Rattle.std.specs.Prelude.{◌^◌, ◌≤◌, ◌<◌, min, ◌≡◌, true};
ghost use Rattle.transform.specs.declared.BoundsAnswer.TheVariants.{Bounds};
ghost use Rattle.pose_steps.specs.unit_interval.Unit.{slice};
ghost use Rattle.motion_point.specs.TransformPoint.{AnimatedTransform-constants};
ghost use Rattle.bounds_query.specs.Query.{max_depth};
ghost use Rattle.bounds_query.specs.Zeros.{BoundsAnswer-positive_zeros};
ghost use Rattle.motion_piece.specs.motion_cover.Cover.{AnimatedTransform-enclose_bounds, union_slices};
ghost use Rattle.cover_slices.specs.means.Lean.{coarse_depth, BoundsAnswer-is_box, Lean};

use animated_transform::AnimatedTransform;
use bounds3::Bounds3f;
use interval::Interval;
use pose_steps::PoseConstants;
use quaternion::SLERP_THRESHOLD;
use transform::BoundsAnswer;

const MAX_DEPTH: u32 = 12;

// The depth of the coarse slices where slerp is near. With fewer of them the squared length of what is mixed may reach zero.
const NEAR_COARSE_DEPTH: u32 = 2;

// A depth, held at 12. Accuracy: exact.
fn held_depth(d: u32) -> u32
    ensures value { result ≡ min d max_depth }
{
    if d > MAX_DEPTH { MAX_DEPTH } else { d }
}

// The depth of the slices that are judged before any finer one is computed without judging. Far slerp is seldom refused, and one slice will do.
pub fn coarse_depth(a: PoseConstants) -> u32
    ensures value { result ≡ coarse_depth a }
{
    if a.cos_theta > SLERP_THRESHOLD {
        NEAR_COARSE_DEPTH
    } else {
        0
    }
}

// The box of slice k of 2^h, judged; refused with 5 or 10. Accuracy: encloses.
fn slice_enclosure(
    m: AnimatedTransform,
    a: PoseConstants,
    b: Bounds3f,
    h: u32,
    k: u64,
) -> BoundsAnswer
    requires fact_1 { h ≤ max_depth }
    requires fact_2 { k < 2 ^ 32 }
    ensures value { result ≡ AnimatedTransform-enclose_bounds m a (slice h k) b }
{
    let low = float_bits::from_fixed(k, h);
    let high = float_bits::from_fixed(k + 1, h);
    let dt = Interval { low, high };
    let pose = motion_piece::padded_enclosure(a, m.s0, m.s1, m.pad0, m.pad1, dt);
    motion_piece::box_enclosure(pose, b)
}

// The box `first` and those of 2^h slices, each judged, in rising order; refused with 5 or 10. Accuracy: encloses.
fn union_judged(
    m: AnimatedTransform,
    a: PoseConstants,
    b: Bounds3f,
    h: u32,
    first: Bounds3f,
) -> BoundsAnswer
    requires { h ≤ max_depth }
    ensures value { result ≡ union_slices m a b h (Bounds first) (2 ^ h) }
{
    let slices = 1u64 << h;
    let mut union = first;
    for k in 0..slices {
        let answer = slice_enclosure(m, a, b, h, k);
        let BoundsAnswer::Bounds(moved) = answer else {
            return answer;
        };
        let next = union.union_bounds(moved);
        union = next;
    }
    BoundsAnswer::Bounds(union)
}

// Whether an answer is a box. Accuracy: exact.
pub fn is_box(answer: BoundsAnswer) -> bool
    ensures value { result ≡ BoundsAnswer-is_box answer }
{
    match answer {
        BoundsAnswer::Bounds(b) => true,
        BoundsAnswer::Refused(n) => false,
    }
}

// Whether finer slices may be computed without judging: the numbers pass the test, and the coarse slices are accepted.
fn is_lean(m: AnimatedTransform, a: PoseConstants, b: Bounds3f, first: Bounds3f) -> bool
    ensures value { result ≡ true → Lean m a b first }
{
    let parts = cover_test::is_enclosable(a, m.s0, m.s1, m.pad0, m.pad1);
    let numbers = cover_test::is_finite_box(b);
    let refusal = bounds_query::refusal(b);
    let finite = first.is_finite();
    if !(parts & numbers & finite) {
        return false;
    }
    if refusal != 0 {
        return false;
    }
    let d = coarse_depth(a);
    is_box(union_judged(m, a, b, d, first))
}

// The same at a depth beyond the coarse one that has groups of four, with zeros +0. Accuracy: encloses.
fn union_finer(
    m: AnimatedTransform,
    a: PoseConstants,
    b: Bounds3f,
    h: u32,
    first: Bounds3f,
) -> BoundsAnswer
    requires fact_1 { h ≤ max_depth }
    requires fact_2 { 2 ≤ h }
    requires fact_3 { coarse_depth a ≤ h }
    ensures value { result ≡ BoundsAnswer-positive_zeros (union_slices m a b h (Bounds first) (2 ^ h)) }
{
    if is_lean(m, a, b, first) {
        let union = cover_groups::union_groups(a, m.s0, m.s1, m.pad0, m.pad1, b, h, first);
        return bounds_query::positive_zeros(BoundsAnswer::Bounds(union));
    }
    let judged = union_judged(m, a, b, h, first);
    bounds_query::positive_zeros(judged)
}

// The box `first` and those of the 2^h slices of dt, with h the depth, held at 12; zeros are +0. A slice ends at the border where the next one begins. Refused
// with 5 or 10. Accuracy: encloses.
pub fn union_slices(m: AnimatedTransform, b: Bounds3f, d: u32, first: Bounds3f) -> BoundsAnswer
    ensures value { result ≡ BoundsAnswer-positive_zeros (union_slices m (AnimatedTransform-constants m) b (min d max_depth) (Bounds first) (2 ^ min d max_depth)) }
{
    let h = held_depth(d);
    let a = motion_point::constants(m);
    if (h > 1) & (h > coarse_depth(a)) {
        return union_finer(m, a, b, h, first);
    }
    bounds_query::positive_zeros(union_judged(m, a, b, h, first))
}
