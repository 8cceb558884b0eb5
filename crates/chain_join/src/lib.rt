// Document 02's "Two chains made one": the rows of two kept chains, the first's and then the second's, in the first of 31 lent blocks,
// and behind them what stood there. After a refusal all blocks are as they were.
#![tactic(auto)]

ghost use Rattle.std.specs.Prelude.{◌+◌, ◌<◌, ◌≤◌, ◌≡◌, length};
ghost use Rattle.std.specs.Bool.{beq};
ghost use Rattle.std.proofs.Math.Seq.{paste};
ghost use Rattle.kept_poses.specs.motion_rows.Rows.{AnimatedTransform-from_rows};
ghost use Rattle.kept_poses.specs.motion_chain.Chain.{Chain};
ghost use Rattle.chain_build.specs.chain_rows.Kept.{Moves-chain};
ghost use Rattle.chain_build.specs.chain_rows.Theorem.{Moves-Holds};
ghost use Rattle.joined_chains.specs.Join.{Chain-last_pose, Chain-first_pose, Chain-joined_poses, mismatch_refusal, count_refusal, rise_refusal};
ghost use Rattle.chain_join.specs.means.Rise.{rise_from};
ghost use Rattle.chain_join.specs.Rows.{Moves-join_refusal, Moves-join_left};
ghost use Rattle.chain_join.specs.Theorem.{Joined};

use refusal::first_refusal;

// The kinds of two moves, rigid or not.
fn same_kind(a: &[[f32; 4]; 45], b: &[[f32; 4]; 45]) -> bool
    ensures value { result ≡ beq (AnimatedTransform-from_rows a.now).rigid (AnimatedTransform-from_rows b.now).rigid }
{
    kept_poses::is_rigid(a) == kept_poses::is_rigid(b)
}

// 20 where the last pose of the first and the first pose of the second differ in a bit, or the chains in their kind, and 0.
fn mismatch_refusal(first: &[[[f32; 4]; 45]], second: &[[[f32; 4]; 45]]) -> u8
    requires first_nonzero { 0 < length first.now }
    requires second_nonzero { 0 < length second.now }
    ensures value { result ≡ mismatch_refusal (Moves-chain first.now) (Moves-chain second.now) }
    ensures same { result ≡ 0 → Chain-last_pose (Moves-chain first.now) ≡ Chain-first_pose (Moves-chain second.now) }
{
    let last = kept_poses::end_pose(&first[first.len() - 1]);
    let start = kept_poses::start_pose(&second[0]);
    if pose_bits::same_pose(&last, &start) & same_kind(&first[0], &second[0]) {
        0
    } else {
        20
    }
}

// 12 for more than 32 poses, and 0.
fn count_refusal(poses: usize) -> u8
    ensures value { result ≡ count_refusal poses }
{
    if 32 < poses { 12 } else { 0 }
}

// 12 where a time and the times at which the moves end don't rise strictly, and 0.
fn rise_from(time: f32, moves: &[[[f32; 4]; 45]]) -> u8
    ensures value { result ≡ rise_from time moves.now }
{
    let mut last = time;
    for rows in moves {
        let end = rows[17][3];
        if !(last < end) {
            return 12;
        }
        last = end;
    }
    0
}

// 12 where the times of the poses of the two, with the shared one once, don't rise strictly, and 0.
fn rise_refusal(first: &[[[f32; 4]; 45]], second: &[[[f32; 4]; 45]]) -> u8
    requires first_nonzero { 0 < length first.now }
    requires second_nonzero { 0 < length second.now }
    ensures value { result ≡ rise_refusal (Chain-joined_poses (Moves-chain first.now) (Moves-chain second.now)) }
{
    let last = first.len() - 1;
    let before = rise_from(first[0][16][3], first);
    let after = rise_from(first[last][17][3], second);
    first_refusal(before, after)
}

// The blocks with others put over them from `at` on.
fn with_blocks(
    others: &[[[f32; 4]; 45]],
    at: usize,
    blocks: [[[f32; 4]; 45]; 31],
) -> [[[f32; 4]; 45]; 31]
    requires { at + length others.now ≤ 31 }
    ensures places { length blocks ≡ 31 }
    ensures value { result ≡ paste blocks at others.now (length others.now) }
{
    let mut filled = blocks;
    filled[at..at + others.len()].copy_from_slice(others);
    filled
}

// Makes one chain of two kept ones, with the pose that they share once, in the first blocks of `joined`. Refused with 12 where either has no moves, then with
// 20 where the last pose of the first and the first pose of the second differ in a bit, or the chains in their kind, then with 12 for more than 32 poses or
// times that don't rise strictly, as in the block of a move by itself. Accuracy: exact.
pub fn join(
    first: &[[[f32; 4]; 45]],
    second: &[[[f32; 4]; 45]],
    joined: &mut [[[f32; 4]; 45]; 31],
) -> u8
    ensures refusal { result ≡ Moves-join_refusal first.now second.now }
    ensures left { joined.new ≡ Moves-join_left first.now second.now joined.old }
    ensures kept { (c d : Chain) → Moves-Holds first.now c → Moves-Holds second.now d
        → Joined first.now second.now joined.old joined.new result c d }
{
    if (first.len() == 0) | (second.len() == 0) {
        return 12;
    }
    let mismatch = mismatch_refusal(first, second);
    let count = count_refusal(first.len() + second.len() + 1);
    let rise = rise_refusal(first, second);
    let later = first_refusal(count, rise);
    let refusal = first_refusal(mismatch, later);
    if refusal != 0 {
        return refusal;
    }
    let front = with_blocks(first, 0, *joined);
    *joined = with_blocks(second, first.len(), front);
    0
}
