// Document 02's "Trying a pose first": the cover of a kept chain with one pose changed. Only the moves beside that pose are built anew; the others are asked as
// they are kept. The chain is lent and not changed.
#![tactic(auto)]

ghost use Rattle.std.specs.Prelude.{◌<◌, ◌≤◌, ◌≡◌, [], ◌∷◌, length};
ghost use Rattle.transform.specs.Answer.{BoundsAnswer-refusal, BoundsAnswer-bounds};
ghost use Rattle.changed_chain.specs.lent_arrays.Arrays.{Pose-of_list};
ghost use Rattle.changed_chain.specs.motion_chain.Chain.{Chain, ChainAnswer-refusal, Chain-new};
ghost use Rattle.changed_chain.specs.Trial.{Chain-try};
ghost use Rattle.changed_chain.specs.built_poses.Poses.{Chain-is_rigid};
ghost use Rattle.changed_chain.specs.Beside.{Chain-beside, Chain-new_beside};
ghost use Rattle.chain_build.specs.chain_rows.Kept.{Moves-chain, Moves-cover};
ghost use Rattle.chain_build.specs.chain_rows.Theorem.{Moves-Holds};
ghost use Rattle.trial_blocks.specs.Blocks.{changed_moves};
ghost use Rattle.chain_trial.specs.Try.{poses_in, Moves-change_refusal, Moves-try};
ghost use Rattle.chain_trial.specs.Theorem.{TrialContainsMotion};
ghost use Rattle.chain_trial.specs.means.Blocks.{NewMoves};

use bounds3::Bounds3f;
use transform::BoundsAnswer;

// The chain of two poses, its rows in the first of the blocks.
fn build_two(rigid: bool, start: [f32; 18], end: [f32; 18], blocks: &mut [[[f32; 4]; 45]; 31]) -> u8
    requires { length blocks.old ≡ 31 }
    ensures refusal { result ≡ ChainAnswer-refusal (Chain-new rigid (Pose-of_list start ∷ Pose-of_list end ∷ [])) }
    ensures built { result ≡ 0 → NewMoves rigid (Pose-of_list start ∷ Pose-of_list end ∷ []) blocks.new }
    ensures same { length blocks.new ≡ 31 }
{
    let poses = [start, end];
    chain_build::build(rigid, &poses, blocks)
}

// The chain of three poses, its rows in the first two of the blocks.
fn build_three(
    rigid: bool,
    start: [f32; 18],
    middle: [f32; 18],
    end: [f32; 18],
    blocks: &mut [[[f32; 4]; 45]; 31],
) -> u8
    requires { length blocks.old ≡ 31 }
    ensures refusal { result ≡ ChainAnswer-refusal (Chain-new rigid (Pose-of_list start ∷ Pose-of_list middle ∷ Pose-of_list end ∷ [])) }
    ensures built { result ≡ 0 → NewMoves rigid (Pose-of_list start ∷ Pose-of_list middle ∷ Pose-of_list end ∷ []) blocks.new }
    ensures same { length blocks.new ≡ 31 }
{
    let poses = [start, middle, end];
    chain_build::build(rigid, &poses, blocks)
}

// The moves beside a place, built anew with the pose there, in the kind of the first move.
fn build_beside(
    moves: &[[[f32; 4]; 45]],
    place: usize,
    pose: &[f32; 18],
    blocks: &mut [[[f32; 4]; 45]; 31],
) -> u8
    requires moves_nonzero { 0 < length moves.now }
    requires place_in_bounds { place ≤ length moves.now }
    requires blocks_len { length blocks.old ≡ 31 }
    ensures refusal { result ≡ ChainAnswer-refusal (Chain-new_beside (Moves-chain moves.now) place (Pose-of_list pose.now)) }
    ensures built { result ≡ 0 → NewMoves (Chain-is_rigid (Moves-chain moves.now))
        (Chain-beside (Moves-chain moves.now) place (Pose-of_list pose.now)) blocks.new }
    ensures same { length blocks.new ≡ 31 }
{
    let rigid = kept_poses::is_rigid(&moves[0]);
    if place == 0 {
        return build_two(rigid, *pose, kept_poses::end_pose(&moves[0]), blocks);
    }
    let start = kept_poses::start_pose(&moves[place - 1]);
    if place == moves.len() {
        return build_two(rigid, start, *pose, blocks);
    }
    build_three(
        rigid,
        start,
        *pose,
        kept_poses::end_pose(&moves[place]),
        blocks,
    )
}

// How many poses the moves have: one more than moves, and none where there are none.
fn pose_count(moves: &[[[f32; 4]; 45]]) -> usize
    ensures value { result ≡ poses_in moves.now }
{
    if moves.len() == 0 {
        return 0;
    }
    moves.len() + 1
}

// What changing the pose at a place is refused with: 19, then 12, then the number of building; 0 for none.
fn change_refusal(
    moves: &[[[f32; 4]; 45]],
    place: usize,
    pose: &[f32; 18],
    blocks: &mut [[[f32; 4]; 45]; 31],
) -> u8
    requires { length blocks.old ≡ 31 }
    ensures refusal { result ≡ Moves-change_refusal moves.now place (Pose-of_list pose.now) }
    ensures built { result ≡ 0 → NewMoves (Chain-is_rigid (Moves-chain moves.now))
        (Chain-beside (Moves-chain moves.now) place (Pose-of_list pose.now)) blocks.new }
    ensures same { length blocks.new ≡ 31 }
{
    let judged = trial_blocks::place_refusal(pose_count(moves), place);
    if judged != 0 {
        return judged;
    }
    build_beside(moves, place, pose, blocks)
}

// The cover of the kept moves with the new ones in place of those beside the pose. Not inlined, so that its copy of the moves isn't on the stack while a
// move is built.
#[inline(never)]
fn changed_cover(
    moves: &[[[f32; 4]; 45]],
    place: usize,
    beside: &[[[f32; 4]; 45]; 31],
    b: Bounds3f,
    depth: u32,
) -> BoundsAnswer
    requires moves_nonzero { 0 < length moves.now }
    requires moves_len_bound { length moves.now ≤ 31 }
    requires place_in_bounds { place ≤ length moves.now }
    ensures value { result ≡ Moves-cover (changed_moves moves.now place beside.now) b depth }
{
    let mut blocks = [[[0.0f32; 4]; 45]; 31];
    trial_blocks::put_changed(moves, place, beside, &mut blocks);
    let n = moves.len();
    chain_cover::cover(&blocks[..n], b, depth)
}

// The cover of a kept chain if the pose at a place were this one: the same as changing a copy of the chain and asking that. Places count from 0. Refused with
// 19 for a place beyond the last pose, then with the numbers of building, then with 6, 7, 8, 5 or 10. Accuracy: encloses.
pub fn try_pose(
    moves: &[[[f32; 4]; 45]],
    place: usize,
    pose: &[f32; 18],
    b: Bounds3f,
    depth: u32,
) -> BoundsAnswer
    ensures value { result ≡ Moves-try moves.now place (Pose-of_list pose.now) b depth }
    ensures kept { (c : Chain) → Moves-Holds moves.now c → result ≡ Chain-try c place (Pose-of_list pose.now) b depth }
    ensures contains_motion { BoundsAnswer-refusal result ≡ 0
        → TrialContainsMotion moves.now place (Pose-of_list pose.now) b (BoundsAnswer-bounds result) }
{
    let mut beside = [[[0.0f32; 4]; 45]; 31];
    let changed = change_refusal(moves, place, pose, &mut beside);
    // The query is judged before anything is copied for it; its number comes after that of the change.
    let asked = bounds_query::cover_refusal(b, depth);
    let refusal = trial_blocks::trial_refusal(changed, asked);
    if refusal != 0 {
        return BoundsAnswer::Refused(refusal);
    }
    changed_cover(moves, place, &beside, b, depth)
}
