// The rows that a boom of many boxes reaches in one window of a kept chain's times. Each pose is enclosed once for all boxes.
#![tactic(auto)]

ghost use Rattle.std.specs.Prelude.{◌+◌, ◌^◌, ◌≤◌, ◌<◌, ◌≡◌, true, false, cond, [], ◌∷◌, map, eqb, length, get_or, replicate};
ghost use Rattle.transform.specs.bounds3.List.{Bounds3f-of_list};
ghost use Rattle.motion_piece.specs.bounds_query.Query.{max_depth};
ghost use Rattle.motion_piece.specs.means.Piece.{PaddedPose-judged, PaddedPose-stored};
ghost use Rattle.motion_rows.specs.Rows.{AnimatedTransform-from_rows};
ghost use Rattle.box_front.specs.means.Front.{place_count};
ghost use Rattle.window_cover.specs.chain_rows.Kept.{Moves-chain};
ghost use Rattle.reach_rows.specs.Named.{max_rows};
ghost use Rattle.reach_window.specs.Named.{Moves-window_refusal, Moves-window_names};
ghost use Rattle.reach_window.specs.means.Poses.{piece_at, piece_poses, slice_poses, stage_poses, poses_from, window_poses};
ghost use Rattle.reach_window.specs.means.Walk.{Walks};

use animated_transform::AnimatedTransform;
use box_front::Front;
use interval::Interval;
use motion_piece::PaddedPose;
use transform::Transform;
use window_times::Window;

const MAX_BOXES: usize = 16;

const MAX_ROWS: usize = 256;

// Which rows are named, false behind them; none where the window is refused, with its number, 0 for none.
#[derive(Clone, Copy)]
pub struct Named {
    pub names: [bool; 256],
    pub refusal: u8,
}

// No rows, with a refusal's number.
fn none(refusal: u8) -> Named
    ensures names { result.names ≡ replicate max_rows false }
    ensures number { result.refusal ≡ refusal }
{
    Named {
        names: [false; 256],
        refusal,
    }
}

// Piece k of the 2^d pieces of an interval of dt, by rounded midpoints. Accuracy: each midpoint is correctly rounded.
fn piece(dt: Interval, d: u32, k: u64) -> Interval
    requires d_le_max_depth { d ≤ max_depth }
    requires k_bound { k < 2 ^ d }
    ensures value { result ≡ piece_at d k dt }
{
    let mut part = dt;
    let mut rest = k;
    for n in (0..d).rev() {
        let half = 1u64 << n;
        let mid = part.midpoint();
        let low = part.low;
        let high = part.high;
        if rest < half {
            part = Interval { low, high: mid };
        } else {
            part = Interval { low: mid, high };
            rest -= half;
        }
    }
    part
}

// One pose over the boxes in front, and the rows that the moved boxes meet. Accuracy: encloses.
fn take_pose(
    pose: PaddedPose,
    boxes: &[[f32; 6]],
    rows: &[[f32; 6]],
    front: Front,
    names: &mut [bool; 256],
) -> Front
    requires { length boxes.now ≤ place_count }
    ensures walks { Walks boxes.now rows.now (PaddedPose-judged pose ∷ []) front result names.old names.new }
{
    let mut moved = [[0.0; 6]; 16];
    let next = box_front::take_pose(true, pose, boxes, front, &mut moved);
    let n = next.count;
    if n > MAX_BOXES {
        return next;
    }
    reach_rows::name_rows(&moved[..n], rows, names);
    next
}

// The poses of the 2^d pieces of an interval of dt, in rising order. Accuracy: encloses.
fn take_pieces(
    m: AnimatedTransform,
    dt: Interval,
    d: u32,
    boxes: &[[f32; 6]],
    rows: &[[f32; 6]],
    front: Front,
    names: &mut [bool; 256],
) -> Front
    requires d_le_max_depth { d ≤ max_depth }
    requires boxes_len_bound { length boxes.now ≤ place_count }
    ensures walks { Walks boxes.now rows.now (piece_poses m d dt) front result names.old names.new }
{
    let a = motion_point::constants(m);
    let pieces = 1u64 << d;
    let mut reached = front;
    for k in 0..pieces {
        let pose = motion_piece::padded_enclosure(a, m.s0, m.s1, m.pad0, m.pad1, piece(dt, d, k));
        let next = take_pose(pose, boxes, rows, reached, names);
        reached = next;
    }
    reached
}

// The slices of a move that the window asks for. Accuracy: encloses.
fn take_slices(
    m: AnimatedTransform,
    d: u32,
    w: Window,
    boxes: &[[f32; 6]],
    rows: &[[f32; 6]],
    front: Front,
    names: &mut [bool; 256],
) -> Front
    requires d_le_max_depth { d ≤ max_depth }
    requires boxes_len_bound { length boxes.now ≤ place_count }
    ensures walks { Walks boxes.now rows.now (slice_poses d w m) front result names.old names.new }
{
    let overlaps = window_times::overlaps(w, m.start_time, m.end_time);
    if !(m.actually_animated & overlaps) {
        return front;
    }
    let dt = dt_share::share(m.start_time, m.end_time, w.earlier, w.later);
    take_pieces(m, dt, d, boxes, rows, front, names)
}

// A stored transform with its pad, where it is asked for. Accuracy: encloses.
fn take_stored(
    asked: bool,
    pad: f32,
    t: Transform,
    boxes: &[[f32; 6]],
    rows: &[[f32; 6]],
    front: Front,
    names: &mut [bool; 256],
) -> Front
    requires { length boxes.now ≤ place_count }
    ensures walks { Walks boxes.now rows.now (cond asked (PaddedPose-stored pad t ∷ []) [])
        front result names.old names.new }
{
    if !asked {
        return front;
    }
    take_pose(
        motion_piece::stored_enclosure(pad, t),
        boxes,
        rows,
        front,
        names,
    )
}

// What the move at a place brings in a stage of the work, 0 slices, 1 the pose at its end, 2 equal poses. Accuracy: encloses.
fn take_move(
    stage: u32,
    moves: &[[[f32; 4]; 45]],
    i: usize,
    d: u32,
    w: Window,
    boxes: &[[f32; 6]],
    rows: &[[f32; 6]],
    front: Front,
    names: &mut [bool; 256],
) -> Front
    requires i_in_bounds { i < length moves.now }
    requires d_le_max_depth { d ≤ max_depth }
    requires boxes_len_bound { length boxes.now ≤ place_count }
    ensures walks { Walks boxes.now rows.now
        (stage_poses d w stage (eqb i 0) (eqb (i + 1) (length moves.now)) (AnimatedTransform-from_rows (get_or moves.now i [])))
        front result names.old names.new }
{
    let first = i == 0;
    let last = i + 1 == moves.len();
    let m = motion_rows::from_rows(&moves[i]);
    if stage == 0 {
        return take_slices(m, d, w, boxes, rows, front, names);
    }
    if stage == 1 {
        let asked = window_times::asks_end(w, last, m.end_time);
        return take_stored(asked, m.pad1, m.end_transform, boxes, rows, front, names);
    }
    let belongs = window_times::belongs(w, first, last, m.start_time, m.end_time);
    let pad = float32::max(m.pad0, m.pad1);
    let stays = !m.actually_animated & belongs;
    take_stored(stays, pad, m.start_transform, boxes, rows, front, names)
}

// What all moves bring in a stage, in rising order. Accuracy: encloses.
fn take_moves(
    stage: u32,
    moves: &[[[f32; 4]; 45]],
    d: u32,
    w: Window,
    boxes: &[[f32; 6]],
    rows: &[[f32; 6]],
    front: Front,
    names: &mut [bool; 256],
) -> Front
    requires d_le_max_depth { d ≤ max_depth }
    requires boxes_len_bound { length boxes.now ≤ place_count }
    ensures walks { Walks boxes.now rows.now
        (poses_from (stage_poses d w stage) true (map AnimatedTransform-from_rows moves.now))
        front result names.old names.new }
{
    let mut reached = front;
    for i in 0..moves.len() {
        let next = take_move(stage, moves, i, d, w, boxes, rows, reached, names);
        reached = next;
    }
    reached
}

// The window's poses over the boxes, slices of all moves, then poses, then moves with equal poses. Accuracy: encloses.
fn take_window(
    moves: &[[[f32; 4]; 45]],
    d: u32,
    w: Window,
    boxes: &[[f32; 6]],
    rows: &[[f32; 6]],
    front: Front,
    names: &mut [bool; 256],
) -> Front
    requires fact { length moves.now ≡ 0 → ⊥ }
    requires d_le_max_depth { d ≤ max_depth }
    requires boxes_len_bound { length boxes.now ≤ place_count }
    ensures walks { Walks boxes.now rows.now (window_poses (Moves-chain moves.now) d w)
        front result names.old names.new }
{
    let m = motion_rows::from_rows(&moves[0]);
    let slices = take_moves(0, moves, d, w, boxes, rows, front, names);
    let asked = window_times::asks_first(w, m.start_time);
    let first = take_stored(asked, m.pad0, m.start_transform, boxes, rows, slices, names);
    let ends = take_moves(1, moves, d, w, boxes, rows, first, names);
    take_moves(2, moves, d, w, boxes, rows, ends, names)
}

// The rows that one of the boxes reaches in a window of a kept chain. Refused with 14 for no boxes or more than 16, then for more than 256 rows, with 12 where
// there are no moves, with 21 of the window, with 6, 7 or 8 of the first box that is refused so, and then with the number of the first box, in order, whose cover
// of the window is refused. Accuracy: encloses.
pub fn name_rows(
    moves: &[[[f32; 4]; 45]],
    boxes: &[[f32; 6]],
    depth: u32,
    w: Window,
    rows: &[[f32; 6]],
) -> Named
    ensures refusal { result.refusal ≡ Moves-window_refusal moves.now (map Bounds3f-of_list boxes.now) depth w (map Bounds3f-of_list rows.now) }
    ensures names { result.names ≡ Moves-window_names moves.now (map Bounds3f-of_list boxes.now) depth w (map Bounds3f-of_list rows.now) }
{
    let n = boxes.len();
    if (n == 0) | (n > MAX_BOXES) {
        return none(14);
    }
    if rows.len() > MAX_ROWS {
        return none(14);
    }
    if moves.len() == 0 {
        return none(12);
    }
    let ticks = window_times::refusal(w);
    if ticks != 0 {
        return none(ticks);
    }
    let judged = box_front::judged(boxes, depth);
    if judged.count < n {
        return none(judged.refusal);
    }
    let mut names = [false; 256];
    let front = take_window(moves, depth, w, boxes, rows, judged, &mut names);
    if front.count < n {
        return none(front.refusal);
    }
    Named { names, refusal: 0 }
}
