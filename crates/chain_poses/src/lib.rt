// The poses of a chain in a lent array, 18 floats each, and what building a chain asks of them before it computes any move. A stage asks one thing of every
// pose, or of every neighbouring pair, before the next stage: 1, 2 and 16 of every pose, 12 of the count and of every pair, 3 of every pair,
// and of every pose of a rigid chain 17 and 18.
#![tactic(auto)]

ghost use Rattle.std.specs.Prelude.{◌+◌, ◌<◌, ◌≡◌, ◌||◌, cond, ltb, length};
ghost use Rattle.motion_chain.specs.Chain.{min_poses, max_poses, neighbours, stage, Pose-number, Pair-number, kind_stage, chain_refusal};
ghost use Rattle.chain_poses.specs.Poses.{Poses-of_lists, Poses-pair_at};

use pose_pair::Pose;
use refusal::first_refusal;

fn pose_number(k: u8, p: Pose) -> u8
    ensures value { result ≡ Pose-number k p }
{
    if k == 1 {
        if p.is_finite() {
            return 0;
        }
        return 1;
    }
    if k == 2 {
        if p.is_affine() {
            return 0;
        }
        return 2;
    }
    if k == 16 {
        if p.is_padded() {
            return 0;
        }
        return 16;
    }
    if k == 17 {
        return match p.judge_kind(true) {
            Ok(()) => 0,
            Err(refusal) => refusal.number(),
        };
    }
    0
}

fn pair_number_at(k: u8, poses: &[[f32; 18]], i: usize) -> u8
    requires { i + 1 < length poses.now }
    ensures value { result ≡ Pair-number k (Poses-pair_at poses.now i) }
{
    let start = poses[i][0];
    let end = poses[i + 1][0];
    if k == 12 {
        if start < end {
            return 0;
        }
        return 12;
    }
    if k == 3 {
        return match pose_pair::judge_times(start, end) {
            Ok(()) => 0,
            Err(refusal) => refusal.number(),
        };
    }
    0
}

fn pose_stage(k: u8, poses: &[[f32; 18]]) -> u8
    ensures value { result ≡ stage (Pose-number k) (Poses-of_lists poses.now) }
{
    for pose in poses {
        let number = pose_number(k, lent_arrays::pose(pose));
        if number != 0 {
            return number;
        }
    }
    0
}

fn pair_stage(k: u8, poses: &[[f32; 18]]) -> u8
    ensures value { result ≡ stage (Pair-number k) (neighbours (Poses-of_lists poses.now)) }
{
    for i in 1..poses.len() {
        let number = pair_number_at(k, poses, i - 1);
        if number != 0 {
            return number;
        }
    }
    0
}

// 17 and 18 of every pose, where the chain is built as rigid.
fn kind_stage(rigid: bool, poses: &[[f32; 18]]) -> u8
    ensures value { result ≡ kind_stage rigid (Poses-of_lists poses.now) }
{
    if rigid {
        return pose_stage(17, poses);
    }
    0
}

// 12 for fewer than 2 poses or more than 32.
fn count_number(n: usize) -> u8
    ensures value { result ≡ cond (ltb n min_poses || ltb max_poses n) 12 0 }
{
    if (n < 2) | (32 < n) { 12 } else { 0 }
}

// What building a chain asks of its poses before it computes any move: refused with 1, 2, 16, 12 or 3, and a rigid one with 17 or 18,
// judged in this order; 0 for none. Accuracy: heuristic for 17 and 18, by rounded products; otherwise exact.
pub fn refusal(rigid: bool, poses: &[[f32; 18]]) -> u8
    ensures value { result ≡ chain_refusal rigid (Poses-of_lists poses.now) }
{
    let finite = pose_stage(1, poses);
    let affine = pose_stage(2, poses);
    let padded = pose_stage(16, poses);
    let count = count_number(poses.len());
    let rise = pair_stage(12, poses);
    let times = pair_stage(3, poses);
    let kind = kind_stage(rigid, poses);
    let last = first_refusal(times, kind);
    let pairs = first_refusal(rise, last);
    let chain = first_refusal(count, pairs);
    let pads = first_refusal(padded, chain);
    let later = first_refusal(affine, pads);
    first_refusal(finite, later)
}
