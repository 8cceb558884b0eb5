// The covers of many boxes over a kept chain: those of its moves, in rising order, joined box by box. A box that a move refuses, and those behind it, are left
// aside.
#![tactic(auto)]

ghost use Rattle.std.specs.Prelude.{◌≤◌, ◌≡◌, [], length};
ghost use Rattle.box_front.specs.bounds_query.Query.{BoundsAnswer-union_bounds};
ghost use Rattle.box_front.specs.motion_cover.Cover.{AnimatedTransform-cover};
ghost use Rattle.motion_rows.specs.Rows.{AnimatedTransform-from_rows};
ghost use Rattle.chain_rows.specs.Kept.{Moves-cover};
ghost use Rattle.box_front.specs.means.Front.{place_count, Boxes-answers, Front-of};
ghost use Rattle.motion_fronts.specs.means.Covered.{Boxes-asked, Places-of, Places-answered, Covered, Continues};
ghost use Rattle.chain_fronts.specs.means.Joined.{joined_box, Places-joined};

use box_front::Front;

const PLACE_COUNT: usize = 16;

// A box joined to what stands in its place. Accuracy: exact.
fn join_box(b: &[f32; 6], place: &mut [f32; 6])
    ensures left { place.new ≡ joined_box b.now place.old }
{
    let old = lent_arrays::bounds(place);
    *place = lent_arrays::bounds_values(old.union_bounds(lent_arrays::bounds(b)));
}

// The first boxes joined to what stands in their places. Accuracy: exact.
fn join_boxes(count: usize, moved: &[[f32; 6]; 16], places: &mut [[f32; 6]; 16])
    requires count_le_place_count { count ≤ place_count }
    requires count_in_bounds { count ≤ length moved.now }
    ensures left { places.new ≡ Places-joined count moved.now places.old }
{
    for i in 0..count {
        join_box(&moved[i], &mut places[i]);
    }
}

// The covers over one more move, joined to those of the moves before it. Accuracy: encloses.
fn add_move(
    rows: &[[f32; 4]; 45],
    boxes: &[[f32; 6]],
    depth: u32,
    front: Front,
    places: &mut [[f32; 6]; 16],
) -> Front
    requires { length boxes.now ≤ place_count }
    ensures covered { Continues (λ answer b. BoundsAnswer-union_bounds (answer b) (AnimatedTransform-cover
        (AnimatedTransform-from_rows rows.now) b depth)) boxes.now places.old places.new front result }
{
    let n = front.count;
    if n > boxes.len() {
        return front;
    }
    let mut moved = [[0.0; 6]; 16];
    let m = motion_rows::from_rows(rows);
    let got = motion_fronts::covers(m, &boxes[..n], depth, &mut moved);
    if got.count < n {
        return got;
    }
    join_boxes(n, &moved, places);
    front
}

// The covers over all moves. The places are fresh before it. Accuracy: encloses.
fn join_moves(
    moves: &[[[f32; 4]; 45]],
    boxes: &[[f32; 6]],
    depth: u32,
    places: &mut [[f32; 6]; 16],
) -> Front
    requires fact { length moves.now ≡ 0 → ⊥ }
    requires boxes_len_bound { length boxes.now ≤ place_count }
    ensures covered { Covered (λ b. Moves-cover moves.now b depth) boxes.now (Places-of []) places.new result }
{
    let mut front = motion_fronts::covers(motion_rows::from_rows(&moves[0]), boxes, depth, places);
    for rows in &moves[1..] {
        front = add_move(rows, boxes, depth, front, places);
    }
    front
}

// The cover of each box over a kept chain in a place of its own, the unused places +0. Where a box is refused, or there are more boxes than places, all are +0.
// Gives the boxes before the first refused one and its number; of more boxes than places none is asked, and no moves are 12. Accuracy: encloses.
pub fn covers(
    moves: &[[[f32; 4]; 45]],
    boxes: &[[f32; 6]],
    depth: u32,
    places: &mut [[f32; 6]; 16],
) -> Front
    ensures front { result ≡ Front-of (Boxes-answers (λ b. Moves-cover moves.now b depth) (Boxes-asked boxes.now)) }
    ensures places { places.new
        ≡ Places-answered (Boxes-answers (λ b. Moves-cover moves.now b depth) (Boxes-asked boxes.now)) }
{
    let none = [[0.0; 6]; 16];
    *places = none;
    let n = boxes.len();
    if n == 0 {
        return Front {
            count: 0,
            refusal: 0,
        };
    }
    if n > PLACE_COUNT {
        return Front {
            count: 0,
            refusal: 0,
        };
    }
    if moves.len() == 0 {
        return Front {
            count: 0,
            refusal: 12,
        };
    }
    let front = join_moves(moves, boxes, depth, places);
    if front.count < n {
        *places = none;
    }
    front
}
