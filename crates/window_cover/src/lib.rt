// The cover of one window of a kept chain's times: slices of all moves, then poses,
// then moves with equal poses, joined in that order, of which the first refusal stands. Its zeros are +0.
#![tactic(auto)]

ghost use Rattle.std.specs.Prelude.{◌+◌, ◌<◌, min, ◌≡◌, true, cond, [], ◌∷◌, map, eqb, length, get_or};
ghost use Rattle.transform.specs.Answer.{BoundsAnswer-refusal, BoundsAnswer-bounds};
ghost use Rattle.bounds_query.specs.Query.{max_depth};
ghost use Rattle.bounds_query.specs.Same.{BoundsAnswer-Same};
ghost use Rattle.chain_rows.specs.bounds_answers.UnionAll.{BoundsAnswer-union_all};
ghost use Rattle.motion_piece.specs.motion_cover.Cover.{Transform-enclose_padded};
ghost use Rattle.motion_rows.specs.Rows.{AnimatedTransform-from_rows};
ghost use Rattle.chain_rows.specs.motion_chain.Chain.{Chain};
ghost use Rattle.chain_rows.specs.Kept.{Chain-to_rows};
ghost use Rattle.chain_window.specs.Cover.{slice_boxes, boxes_from, Chain-window_cover};
ghost use Rattle.window_cover.specs.means.Stage.{stage_boxes};
ghost use Rattle.window_cover.specs.Kept.{Moves-window_cover, KeptWindowContainsMotion, KeptWindowFiner};

use animated_transform::AnimatedTransform;
use bounds3::Bounds3f;
use transform::{BoundsAnswer, Transform};
use window_times::Window;

// The slices of a move, joined to r, but for zeros' signs; the depth is held at 12, here and in what follows. What r is the same as is joined to the same.
// Accuracy: encloses.
fn union_slices(
    r: BoundsAnswer,
    m: AnimatedTransform,
    b: Bounds3f,
    depth: u32,
    w: Window,
) -> BoundsAnswer
    ensures same { (s : BoundsAnswer) → BoundsAnswer-Same r s
        → BoundsAnswer-Same result (BoundsAnswer-union_all s (slice_boxes b (min depth max_depth) w m)) }
{
    let overlaps = window_times::overlaps(w, m.start_time, m.end_time);
    if !(m.actually_animated & overlaps) {
        return r;
    }
    let a = motion_point::constants(m);
    let dt = dt_share::share(m.start_time, m.end_time, w.earlier, w.later);
    window_slices::union_pieces(r, a, m.s0, m.s1, m.pad0, m.pad1, dt, depth, b)
}

// A stored transform over a box, grown by a pad, joined to r where it is asked for. Accuracy: encloses.
fn union_pose(r: BoundsAnswer, asked: bool, pad: f32, t: Transform, b: Bounds3f) -> BoundsAnswer
    ensures value { result ≡ BoundsAnswer-union_all r (cond asked (Transform-enclose_padded pad t b ∷ []) []) }
{
    if !asked {
        return r;
    }
    bounds_query::union_bounds(
        r,
        motion_piece::box_enclosure(motion_piece::stored_enclosure(pad, t), b),
    )
}

// What the move at a place brings in a stage of the work, 0 slices, 1 the pose at its end, 2 equal poses, joined to r. Accuracy: encloses.
fn union_move(
    stage: u32,
    r: BoundsAnswer,
    moves: &[[[f32; 4]; 45]],
    i: usize,
    b: Bounds3f,
    depth: u32,
    w: Window,
) -> BoundsAnswer
    requires { i < length moves.now }
    ensures same { (s : BoundsAnswer) → BoundsAnswer-Same r s → BoundsAnswer-Same result (BoundsAnswer-union_all s
        (stage_boxes b (min depth max_depth) w stage (eqb i 0) (eqb (i + 1) (length moves.now))
        (AnimatedTransform-from_rows (get_or moves.now i [])))) }
{
    let first = i == 0;
    let last = i + 1 == moves.len();
    let m = motion_rows::from_rows(&moves[i]);
    if stage == 0 {
        return union_slices(r, m, b, depth, w);
    }
    if stage == 1 {
        let asked = window_times::asks_end(w, last, m.end_time);
        return union_pose(r, asked, m.pad1, m.end_transform, b);
    }
    let belongs = window_times::belongs(w, first, last, m.start_time, m.end_time);
    let pad = float32::max(m.pad0, m.pad1);
    union_pose(r, !m.actually_animated & belongs, pad, m.start_transform, b)
}

// What all moves bring in a stage, in rising order, joined to r. Accuracy: encloses.
fn union_moves(
    stage: u32,
    start: BoundsAnswer,
    moves: &[[[f32; 4]; 45]],
    b: Bounds3f,
    depth: u32,
    w: Window,
) -> BoundsAnswer
    ensures same { (s : BoundsAnswer) → BoundsAnswer-Same start s → BoundsAnswer-Same result (BoundsAnswer-union_all s
        (boxes_from (stage_boxes b (min depth max_depth) w stage) true (map AnimatedTransform-from_rows moves.now))) }
{
    let mut r = start;
    for i in 0..moves.len() {
        let u = union_move(stage, r, moves, i, b, depth, w);
        r = u;
    }
    r
}

// A box that holds the box b at every time of a window of a kept chain; its zeros are +0. Refused with 21 for ticks that don't rise,
// then 6, 7 or 8, then 5 or 10, and with 12 where there are no moves. Accuracy: encloses.
pub fn cover(moves: &[[[f32; 4]; 45]], b: Bounds3f, depth: u32, w: Window) -> BoundsAnswer
    ensures value { result ≡ Moves-window_cover moves.now b depth w }
    ensures kept { (c : Chain) → moves.now ≡ Chain-to_rows c → result ≡ Chain-window_cover c b depth w }
    ensures contains_motion { BoundsAnswer-refusal result ≡ 0 → KeptWindowContainsMotion moves.now b w (BoundsAnswer-bounds result) }
    ensures finer { BoundsAnswer-refusal result ≡ 0 → KeptWindowFiner moves.now b depth w (BoundsAnswer-bounds result) }
{
    if moves.len() == 0 {
        return BoundsAnswer::Refused(12);
    }
    let ticks = window_times::refusal(w);
    if ticks != 0 {
        return BoundsAnswer::Refused(ticks);
    }
    let n = bounds_query::cover_refusal(b, depth);
    if n != 0 {
        return BoundsAnswer::Refused(n);
    }
    let m = motion_rows::from_rows(&moves[0]);
    let empty = BoundsAnswer::Bounds(Bounds3f::default());
    let slices = union_moves(0, empty, moves, b, depth, w);
    let asked = window_times::asks_first(w, m.start_time);
    let first = union_pose(slices, asked, m.pad0, m.start_transform, b);
    let poses = union_moves(1, first, moves, b, depth, w);
    bounds_query::positive_zeros(union_moves(2, poses, moves, b, depth, w))
}
