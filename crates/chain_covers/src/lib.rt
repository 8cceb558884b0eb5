// Document 02's "A boom of many boxes": the covers of 1 to 16 boxes over a kept chain, and their union. Every pose is enclosed once for all boxes.
#![tactic(auto)]

ghost use Rattle.std.specs.Prelude.{◌<◌, ◌≤◌, ◌≡◌, length};
ghost use Rattle.box_set.specs.Set.{max_boxes, SetAnswer-refusal};
ghost use Rattle.chain_covers.specs.Kept.{Moves-covers, SetAnswer-covers_left, SetAnswer-union_left};
ghost use Rattle.chain_covers.specs.Theorem.{KeptSetContainsMotion};
ghost use Rattle.chain_covers.specs.Finer.{KeptSetFiner};
ghost use Rattle.chain_covers.specs.means.Union.{union_places};

use bounds3::Bounds3f;

const MAX_BOXES: usize = 16;

// The union of the boxes in the first n places, in order. Accuracy: exact.
fn union_places(places: &[[f32; 6]; 16], n: usize) -> Bounds3f
    requires n_nonzero { 0 < n }
    requires n_le_max_boxes { n ≤ max_boxes }
    requires places_len { length places.now ≡ max_boxes }
    ensures value { result ≡ union_places places.now n }
{
    let mut union = lent_arrays::bounds(&places[0]);
    for place in &places[1..n] {
        union = union.union_bounds(lent_arrays::bounds(place));
    }
    union
}

// The cover of each box in a place of its own, the unused places +0, and the union of the covers. Gives 0, or a refusal's number, which leaves all as it was:
// 12 where there are no moves, then 14 for no box or more than 16, then 5, 6, 7, 8 or 10 of the first refused box in order. Accuracy: encloses.
pub fn covers(
    moves: &[[[f32; 4]; 45]],
    boxes: &[[f32; 6]],
    depth: u32,
    covers: &mut [[f32; 6]; 16],
    union: &mut [f32; 6],
) -> u8
    ensures refusal { result ≡ SetAnswer-refusal (Moves-covers moves.now boxes.now depth) }
    ensures covers { covers.new ≡ SetAnswer-covers_left (Moves-covers moves.now boxes.now depth) covers.old }
    ensures union { union.new ≡ SetAnswer-union_left (Moves-covers moves.now boxes.now depth) union.old }
    ensures contains_motion { result ≡ 0 → KeptSetContainsMotion moves.now boxes.now covers.new union.new }
    ensures finer { result ≡ 0 → KeptSetFiner moves.now boxes.now depth covers.new union.new }
{
    if moves.len() == 0 {
        return 12;
    }
    let n = boxes.len();
    if n == 0 {
        return 14;
    }
    if n > MAX_BOXES {
        return 14;
    }
    let mut work = [[0.0; 6]; 16];
    let front = chain_fronts::covers(moves, boxes, depth, &mut work);
    if front.count < n {
        return front.refusal;
    }
    *union = lent_arrays::bounds_values(union_places(&work, n));
    *covers = work;
    0
}
