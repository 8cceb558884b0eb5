// The transform of a kept move at a time, both halves, and of a kept chain: pbrt's `interpolate` by the dot product of the rotations and the angle between
// them that the rows hold, which the point query takes too.
#![tactic(auto)]

ghost use Rattle.std.specs.Prelude.{◌≡◌, IfOk};
ghost use Rattle.transform.specs.Transform.{TransformAnswer-of_result};
ghost use Rattle.interpolation.specs.Interpolate.{Pose-transform};
ghost use Rattle.motion_rows.specs.Rows.{AnimatedTransform-from_rows, PoseConstants-from_rows};
ghost use Rattle.chain_rows.specs.motion_chain.Chain.{Chain};
ghost use Rattle.chain_rows.specs.Kept.{Chain-to_rows};
ghost use Rattle.interpolate_kept.specs.Kept.{Rows-interpolate, Chain-interpolate, Moves-interpolate};
ghost use Rattle.interpolate_kept.specs.Theorem.{MovesPoints};

use refusal::Refusal;
use transform::Transform;

// The transform at a dt between the two poses.
fn pose_at(rows: &[[f32; 4]; 45], dt: f32) -> Result<Transform, Refusal>
    ensures value { TransformAnswer-of_result result ≡ Pose-transform (PoseConstants-from_rows rows.now)
        (AnimatedTransform-from_rows rows.now).s0 (AnimatedTransform-from_rows rows.now).s1 dt }
{
    let a = motion_rows::constants_from_rows(rows);
    let trans = pose_parts::translation(a.t0, a.t1, dt);
    let rotate = pose_slerp::slerp(a, dt);
    let scale = pose_parts::scale_by(
        a.rigid,
        motion_rows::matrix_at(rows, 20),
        motion_rows::matrix_at(rows, 24),
        dt,
    );
    interpolation::composed(trans, rotate, scale)
}

// The transform of a kept move at a time, whatever its rows. Refused with 6, then with 4 or 5, whichever is met first.
// Accuracy: each operation but sine and cosine is correctly rounded.
pub fn interpolate(rows: &[[f32; 4]; 45], time: f32) -> Result<Transform, Refusal>
    ensures value { TransformAnswer-of_result result ≡ Rows-interpolate rows.now time }
{
    if time != time {
        return Err(Refusal::Query);
    }
    let start = rows[16];
    let end = rows[17];
    let constants = rows[43];
    if !(constants[0] == 1.0) | (time <= start[3]) {
        return interpolation::judged(motion_rows::transform_at(rows, 0));
    }
    if time >= end[3] {
        return interpolation::judged(motion_rows::transform_at(rows, 8));
    }
    pose_at(rows, (time - start[3]) / (end[3] - start[3]))
}

// The transform of a kept chain at a time, that of the move to which the time belongs. Refused with 12 where there are no moves, with 6, then with 4 or 5.
// Accuracy: each operation but sine and cosine is correctly rounded.
pub fn interpolate_chain(moves: &[[[f32; 4]; 45]], time: f32) -> Result<Transform, Refusal>
    ensures value { TransformAnswer-of_result result ≡ Moves-interpolate moves.now time }
    ensures kept { (c : Chain) → moves.now ≡ Chain-to_rows c → TransformAnswer-of_result result ≡ Chain-interpolate c time }
    ensures moves_points { IfOk result (MovesPoints moves.now time) }
{
    if moves.len() == 0 {
        return Err(Refusal::Chain);
    }
    let i = chain_rows::place(moves, time);
    interpolate(&moves[i], time)
}
