// The cover query of a move, document 01's 'Cover (added)': start box, end box and slices of dt are computed in rising order, up to the first refusal that is
// met; each grows by its pad as soon as it is computed.
#![tactic(auto)]

ghost use Rattle.std.specs.Prelude.{◌≤◌, ◌≡◌};
ghost use Rattle.bounds_query.specs.Query.{max_depth};
ghost use Rattle.bounds_query.specs.Zeros.{BoundsAnswer-positive_zeros};
ghost use Rattle.motion_piece.specs.motion_cover.Cover.{AnimatedTransform-enclose_ends, AnimatedTransform-enclose_motion, AnimatedTransform-cover};
ghost use Rattle.motion_piece.specs.motion_cover.Theorem.{CoverContainsMotion};

use animated_transform::AnimatedTransform;
use bounds3::Bounds3f;
use transform::BoundsAnswer;

// The boxes of the start transform and of the end transform, each grown by its own pad. Accuracy: encloses.
fn ends_enclosure(m: AnimatedTransform, b: Bounds3f) -> BoundsAnswer
    ensures value { result ≡ AnimatedTransform-enclose_ends m b }
{
    let start = motion_piece::stored_enclosure(m.pad0, m.start_transform);
    let end = motion_piece::stored_enclosure(m.pad1, m.end_transform);
    bounds_query::union_bounds(
        motion_piece::box_enclosure(start, b),
        motion_piece::box_enclosure(end, b),
    )
}

// The cover of a box and a depth that aren't refused; its zeros are +0. Accuracy: encloses.
fn motion_enclosure(m: AnimatedTransform, b: Bounds3f, d: u32) -> BoundsAnswer
    requires { d ≤ max_depth }
    ensures value { result ≡ BoundsAnswer-positive_zeros (AnimatedTransform-enclose_motion m b d) }
{
    if !m.actually_animated {
        let pad = float32::max(m.pad0, m.pad1);
        return bounds_query::positive_zeros(motion_piece::box_enclosure(
            motion_piece::stored_enclosure(pad, m.start_transform),
            b,
        ));
    }
    let ends = ends_enclosure(m, b);
    match ends {
        BoundsAnswer::Bounds(first) => cover_slices::union_slices(m, b, d, first),
        BoundsAnswer::Refused(n) => BoundsAnswer::Refused(n),
    }
}

// The cover: a box that holds the box b wherever the move takes it; its zeros are +0. Refused with 6, 7 or 8 before it is computed, and then with 5 or 10,
// whichever is met first. Accuracy: encloses.
pub fn cover(m: AnimatedTransform, b: Bounds3f, depth: u32) -> BoundsAnswer
    ensures value { result ≡ AnimatedTransform-cover m b depth }
    ensures contains_motion { CoverContainsMotion m b result }
{
    let n = bounds_query::cover_refusal(b, depth);
    if n != 0 {
        return BoundsAnswer::Refused(n);
    }
    motion_enclosure(m, b, depth)
}
