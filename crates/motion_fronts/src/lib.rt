// The covers of many boxes over one move: each pose is enclosed once, with its pad, and taken over all boxes in front.
#![tactic(auto)]

ghost use Rattle.std.specs.Prelude.{◌^◌, ◌≤◌, ◌≡◌, length};
ghost use Rattle.motion_pad.specs.bounds_query.Query.{max_depth};
ghost use Rattle.motion_pad.specs.unit_interval.Unit.{slice};
ghost use Rattle.motion_point.specs.TransformPoint.{AnimatedTransform-constants};
ghost use Rattle.motion_piece.specs.motion_cover.Cover.{union_slices, AnimatedTransform-cover};
ghost use Rattle.box_front.specs.means.Front.{place_count, Boxes-answers, Front-of};
ghost use Rattle.motion_fronts.specs.means.Covered.{Boxes-asked, Places-answered, Covered, Continues};
ghost use Rattle.motion_fronts.specs.means.Zeros.{AnimatedTransform-enclose_tested, Place-positive_zeros, Places-positive_zeros};

use animated_transform::AnimatedTransform;
use box_front::Front;
use interval::Interval;

const PLACE_COUNT: usize = 16;

// The slice k of dt at the depth d. Accuracy: correctly rounded.
fn slice(d: u32, k: u64) -> Interval
    requires d_le_max_depth { d ≤ max_depth }
    requires k_bound { k ≤ 2 ^ d }
    ensures value { result ≡ slice d k }
{
    Interval {
        low: float_bits::from_fixed(k, d),
        high: float_bits::from_fixed(k + 1, d),
    }
}

// The 2^d slices of dt, in rising order, over the boxes in front. Accuracy: encloses.
fn take_slices(
    m: AnimatedTransform,
    boxes: &[[f32; 6]],
    d: u32,
    front: Front,
    places: &mut [[f32; 6]; 16],
) -> Front
    requires d_le_max_depth { d ≤ max_depth }
    requires boxes_len_bound { length boxes.now ≤ place_count }
    ensures covered { Continues (λ answer b. union_slices m (AnimatedTransform-constants m) b d (answer b) (2 ^ d))
        boxes.now places.old places.new front result }
{
    let a = motion_point::constants(m);
    let slices = 1u64 << d;
    let mut reached = front;
    for k in 0..slices {
        let pose = motion_piece::padded_enclosure(a, m.s0, m.s1, m.pad0, m.pad1, slice(d, k));
        let next = box_front::take_pose(false, pose, boxes, reached, places);
        reached = next;
    }
    reached
}

// The enclosure of each box's motion, in order, up to the first that is refused: its number is in the front. Accuracy: encloses.
fn enclose_motion(
    m: AnimatedTransform,
    boxes: &[[f32; 6]],
    depth: u32,
    places: &mut [[f32; 6]; 16],
) -> Front
    requires { length boxes.now ≤ place_count }
    ensures covered { Covered (λ b. AnimatedTransform-enclose_tested m b depth) boxes.now places.old places.new result }
{
    let front = box_front::judged(boxes, depth);
    if front.count == 0 {
        return front;
    }
    let pad = motion_pad::start_pad(m.actually_animated, m.pad0, m.pad1);
    let start = motion_piece::stored_enclosure(pad, m.start_transform);
    let started = box_front::take_pose(true, start, boxes, front, places);
    if !m.actually_animated {
        return started;
    }
    let end = motion_piece::stored_enclosure(m.pad1, m.end_transform);
    let ended = box_front::take_pose(false, end, boxes, started, places);
    take_slices(m, boxes, depth, ended, places)
}

// A place with the zeros of its box +0. Accuracy: exact.
fn place_zeros(place: &mut [f32; 6])
    ensures left { place.new ≡ Place-positive_zeros place.old }
{
    *place = [
        place[0] + 0.0,
        place[1] + 0.0,
        place[2] + 0.0,
        place[3] + 0.0,
        place[4] + 0.0,
        place[5] + 0.0,
    ];
}

// The places of all boxes with their zeros +0. Accuracy: exact.
fn places_zeros(boxes: &[[f32; 6]], places: &mut [[f32; 6]; 16])
    requires { length boxes.now ≤ place_count }
    ensures left { places.new ≡ Places-positive_zeros boxes.now places.old }
{
    for i in 0..boxes.len() {
        place_zeros(&mut places[i]);
    }
}

// The cover of each box, in order, up to the first that is refused: its number is in the front. Accuracy: encloses.
fn cover_boxes(
    m: AnimatedTransform,
    boxes: &[[f32; 6]],
    depth: u32,
    places: &mut [[f32; 6]; 16],
) -> Front
    requires { length boxes.now ≤ place_count }
    ensures covered { Covered (λ b. AnimatedTransform-cover m b depth) boxes.now places.old places.new result }
{
    let front = enclose_motion(m, boxes, depth, places);
    places_zeros(boxes, places);
    front
}

// The cover of each box in a place of its own, the unused places +0. Where a box is refused, or there are more boxes than places, all are +0.
// Gives the boxes before the first refused one and its number; of more boxes than places none is asked. Accuracy: encloses.
pub fn covers(
    m: AnimatedTransform,
    boxes: &[[f32; 6]],
    depth: u32,
    places: &mut [[f32; 6]; 16],
) -> Front
    ensures front { result ≡ Front-of (Boxes-answers (λ b. AnimatedTransform-cover m b depth) (Boxes-asked boxes.now)) }
    ensures places { places.new ≡ Places-answered (Boxes-answers (λ b. AnimatedTransform-cover m b depth) (Boxes-asked boxes.now)) }
{
    let none = [[0.0; 6]; 16];
    *places = none;
    if boxes.len() > PLACE_COUNT {
        return Front {
            count: 0,
            refusal: 0,
        };
    }
    let front = cover_boxes(m, boxes, depth, places);
    if front.count < boxes.len() {
        *places = none;
    }
    front
}
