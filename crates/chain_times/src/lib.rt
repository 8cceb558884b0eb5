// The point query of a kept chain with a list of times: judged, passed over once for a refusal, and then written. In both passes each stretch
// of times is handed to its own move as a part of the list, and in the second that move's points go straight into its own part of the answers.
#![tactic(auto)]

ghost use Rattle.std.specs.Prelude.{◌+◌, ◌-◌, ◌*◌, ◌≤◌, ◌<◌, ◌≡◌, true, ◌++◌, length, take, drop};
ghost use Rattle.stretch_points.specs.motion_rows.TransformPoint.{Rows-transform_point};
ghost use Rattle.time_list.specs.motion_chain.Chain.{Chain};
ghost use Rattle.time_list.specs.motion_chain.Times.{never_falls, places_per_time, PointsAnswer-refusal, points_at};
ghost use Rattle.time_list.specs.motion_chain.Times.{PointsAnswer-left, Chain-transform_points, Chain-points_left};
ghost use Rattle.time_list.specs.motion_chain.Stretches.{count_up_to};
ghost use Rattle.chain_rows.specs.Kept.{Chain-to_rows, Moves-transform_point, Moves-transform_points};
ghost use Rattle.stretch_points.specs.Points.{floats_at};

use bounds3::Point3f;

// The place behind a stretch: the first from a place on whose time is above the end, or the list's length.
fn stretch_end(times: &[f32], from: usize, end: f32) -> usize
    requires { from ≤ length times.now }
    ensures value { result ≡ from + count_up_to end (drop from times.now) }
    ensures below { result ≤ length times.now }
    ensures above { from ≤ result }
{
    from + times[from..].iter().take_while(|t| **t <= end).count()
}

// The number of the first time at which the chain refuses the point; 0 for none.
fn first_refusal(moves: &[[[f32; 4]; 45]], times: &[f32], p: Point3f) -> u8
    requires moves_nonzero { 0 < length moves.now }
    requires times_value { never_falls times.now ≡ true }
    ensures value { result ≡ PointsAnswer-refusal (points_at (λ t. Moves-transform_point moves.now t p) times.now) }
{
    let last = moves.len() - 1;
    let mut from = 0;
    for i in 0..last {
        let end = stretch_end(times, from, moves[i][17][3]);
        let number = stretch_points::first_refusal(&moves[i], &times[from..end], p);
        if number != 0 {
            return number;
        }
        from = end;
    }
    stretch_points::first_refusal(&moves[last], &times[from..], p)
}

// A stretch's times and its part of the answers, lent to its move.
fn fill_part(
    motion: &[[f32; 4]; 45],
    times: &[f32],
    from: usize,
    to: usize,
    p: Point3f,
    answers: &mut [f32],
)
    requires from_le_to { from ≤ to }
    requires to_in_bounds { to ≤ length times.now }
    requires answers_len { length answers.old ≡ places_per_time * length times.now }
    ensures left { answers.new ≡ take (3 * from) answers.old ++ (floats_at (λ t. Rows-transform_point motion.now t p)
        (take (to - from) (drop from times.now)) ++ drop (3 * to - 3 * from) (drop (3 * from) answers.old)) }
    ensures same { length answers.new ≡ length answers.old }
{
    stretch_points::put_points(motion, &times[from..to], p, &mut answers[3 * from..3 * to]);
}

// Each stretch of times, handed to its own move.
fn fill_all(moves: &[[[f32; 4]; 45]], times: &[f32], p: Point3f, answers: &mut [f32])
    requires moves_nonzero { 0 < length moves.now }
    requires answers_len { length answers.old ≡ places_per_time * length times.now }
    requires times_value { never_falls times.now ≡ true }
    ensures left { answers.new ≡ floats_at (λ t. Moves-transform_point moves.now t p) times.now }
{
    let last = moves.len() - 1;
    let mut from = 0;
    for i in 0..last {
        let to = stretch_end(times, from, moves[i][17][3]);
        fill_part(&moves[i], times, from, to, p, answers);
        from = to;
    }
    fill_part(&moves[last], times, from, times.len(), p, answers);
}

// Where a point stands at each time of a list that never falls, three places a time. Refused with 6, 13 or 5, and with 12 where there are no moves;
// after a refusal the answers are as they came. Accuracy: each operation but sine and cosine is correctly rounded.
pub fn transform_points(
    moves: &[[[f32; 4]; 45]],
    times: &[f32],
    p: Point3f,
    answers: &mut [f32],
) -> u8
    ensures refusal { result ≡ PointsAnswer-refusal (Moves-transform_points moves.now times.now p (length answers.old)) }
    ensures left { answers.new
        ≡ PointsAnswer-left (Moves-transform_points moves.now times.now p (length answers.old)) answers.old }
    ensures kept { (c : Chain) → moves.now ≡ Chain-to_rows c → (result ≡ PointsAnswer-refusal (Chain-transform_points c times.now p
        (length answers.old))) × (answers.new ≡ Chain-points_left c times.now p answers.old) }
{
    if moves.len() == 0 {
        return 12;
    }
    let judged = time_list::refusal(times, p, answers.len());
    if judged != 0 {
        return judged;
    }
    let refused = first_refusal(moves, times, p);
    if refused != 0 {
        return refused;
    }
    fill_all(moves, times, p, answers);
    0
}
