// The boxes at the front of a set that are not refused so far, each with what it covers so far in a place of its own. The first refused box in order gives the
// number, so that those behind it are left aside: one pose is taken over the boxes in front alone.
#![tactic(auto)]

ghost use Rattle.std.specs.Prelude.{◌<◌, ◌≡◌, length};
ghost use Rattle.transform.specs.Answer.{BoundsAnswer-refusal};
ghost use Rattle.motion_piece.specs.means.Piece.{PaddedPose-judged, PaddedPose-enclose_bounds};
ghost use Rattle.box_front.specs.means.Front.{box_at, Boxes-answers, Bounds3f-tested, Front-of, BoundsAnswer-put, PaddedPose-front, PaddedPose-places};

use motion_piece::PaddedPose;
use transform::BoundsAnswer;

const PLACE_COUNT: usize = 16;

// How many boxes are not refused, and the number of the one behind them, 0 where there is none.
#[derive(Clone, Copy)]
pub struct Front {
    pub count: usize,
    pub refusal: u8,
}

// The boxes before the first that is refused with 6, 7 or 8. Accuracy: exact.
pub fn judged(boxes: &[[f32; 6]], depth: u32) -> Front
    ensures value { result ≡ Front-of (Boxes-answers (Bounds3f-tested depth) boxes.now) }
{
    for (k, b) in boxes.iter().enumerate() {
        let number = bounds_query::cover_refusal(lent_arrays::bounds(b), depth);
        if number != 0 {
            return Front {
                count: k,
                refusal: number,
            };
        }
    }
    Front {
        count: boxes.len(),
        refusal: 0,
    }
}

// Puts the box that a pose moves the box at i to into its place, joined to what stands there unless it is the first.
// Gives the number of a refusal, which leaves the place as it was. Accuracy: encloses.
fn take_box(first: bool, pose: PaddedPose, boxes: &[[f32; 6]], i: usize, place: &mut [f32; 6]) -> u8
    requires { i < length boxes.now }
    ensures refusal { result ≡ BoundsAnswer-refusal (PaddedPose-enclose_bounds (PaddedPose-judged pose) (box_at boxes.now i)) }
    ensures left { place.new ≡ BoundsAnswer-put first (PaddedPose-enclose_bounds (PaddedPose-judged pose) (box_at boxes.now i)) place.old }
{
    let moved = motion_piece::box_enclosure(pose, lent_arrays::bounds(&boxes[i]));
    if first {
        return lent_arrays::put_bounds(moved, place);
    }
    let old = BoundsAnswer::Bounds(lent_arrays::bounds(place));
    lent_arrays::put_bounds(bounds_query::union_bounds(old, moved), place)
}

// One pose over the boxes in front, in order, up to the first that it refuses: those before it are then the front. Nothing is done where the front
// is of more boxes than are lent, or than there are places. Accuracy: encloses.
pub fn take_pose(
    first: bool,
    pose: PaddedPose,
    boxes: &[[f32; 6]],
    front: Front,
    places: &mut [[f32; 6]; 16],
) -> Front
    ensures front { result ≡ PaddedPose-front (PaddedPose-judged pose) boxes.now front }
    ensures places { places.new ≡ PaddedPose-places first (PaddedPose-judged pose) boxes.now front places.old }
{
    let n = front.count;
    if n > boxes.len() {
        return front;
    }
    if n > PLACE_COUNT {
        return front;
    }
    for i in 0..n {
        let refusal = take_box(first, pose, boxes, i, &mut places[i]);
        if refusal != 0 {
            return Front { count: i, refusal };
        }
    }
    front
}
