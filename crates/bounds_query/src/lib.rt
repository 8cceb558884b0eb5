// Queries about a box: what is asked of the box and of the depth of a cover, unions of two answers, of which the first refusal stands, and the sign of an
// answer's zeros.
#![tactic(auto)]

ghost use Rattle.std.specs.Prelude.{◌≡◌};
ghost use Rattle.bounds_query.specs.Query.{Bounds3f-is_ordered, Bounds3f-refusal, cover_refusal, BoundsAnswer-union_bounds};
ghost use Rattle.bounds_query.specs.Zeros.{Point3f-positive_zeros, BoundsAnswer-positive_zeros};

use bounds3::{Bounds3f, Point3f};
use transform::BoundsAnswer;

const MAX_DEPTH: u32 = 12;

// Whether no least coordinate is above its greatest. Accuracy: exact.
pub fn is_ordered(b: Bounds3f) -> bool
    ensures value { result ≡ Bounds3f-is_ordered b }
{
    let l = b.p_min;
    let h = b.p_max;
    !((l.x > h.x) | (l.y > h.y) | (l.z > h.z))
}

// 6 for a coordinate that isn't finite, then 7 for a least corner above its greatest, 0 for neither. Accuracy: exact.
pub fn refusal(b: Bounds3f) -> u8
    ensures value { result ≡ Bounds3f-refusal b }
{
    let finite = b.is_finite();
    let ordered = is_ordered(b);
    if !finite {
        return 6;
    }
    if !ordered {
        return 7;
    }
    0
}

// 6 and 7 of the box, then 8 for a depth above 12, 0 for none. Accuracy: exact.
pub fn cover_refusal(b: Bounds3f, d: u32) -> u8
    ensures value { result ≡ cover_refusal b d }
{
    let n = refusal(b);
    if n != 0 {
        return n;
    }
    if d > MAX_DEPTH {
        return 8;
    }
    0
}

// pbrt's `union_bounds` of two answers: the smallest box that holds both, or the first refusal of the two. Accuracy: exact.
pub fn union_bounds(r: BoundsAnswer, s: BoundsAnswer) -> BoundsAnswer
    ensures value { result ≡ BoundsAnswer-union_bounds r s }
{
    match r {
        BoundsAnswer::Bounds(a) => match s {
            BoundsAnswer::Bounds(b) => BoundsAnswer::Bounds(a.union_bounds(b)),
            BoundsAnswer::Refused(n) => BoundsAnswer::Refused(n),
        },
        BoundsAnswer::Refused(n) => BoundsAnswer::Refused(n),
    }
}

// A corner with its zeros +0.
fn corner_zeros(p: Point3f) -> Point3f
    ensures value { result ≡ Point3f-positive_zeros p }
{
    Point3f {
        x: p.x + 0.0,
        y: p.y + 0.0,
        z: p.z + 0.0,
    }
}

// An answer whose box has its zeros +0; a refusal stands. Accuracy: exact.
pub fn positive_zeros(a: BoundsAnswer) -> BoundsAnswer
    ensures value { result ≡ BoundsAnswer-positive_zeros a }
{
    match a {
        BoundsAnswer::Bounds(b) => {
            let p_min = corner_zeros(b.p_min);
            let p_max = corner_zeros(b.p_max);
            BoundsAnswer::Bounds(Bounds3f { p_min, p_max })
        }
        BoundsAnswer::Refused(n) => BoundsAnswer::Refused(n),
    }
}
