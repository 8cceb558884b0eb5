// A chain built from lent poses, 18 floats each, into 31 lent blocks of 45 rows: the rows of its moves at the front, and behind them what stood there.
// After a refusal all blocks are as they were.
#![tactic(auto)]

ghost use Rattle.std.specs.Prelude.{◌+◌, ◌-◌, ◌<◌, ◌≤◌, ◌≡◌, map, length, set, take};
ghost use Rattle.chain_number.specs.Number.{Move-number};
ghost use Rattle.chain_poses.specs.motion_chain.Chain.{neighbours, stage, chain_refusal, Chain, built, ChainAnswer-refusal, Chain-new};
ghost use Rattle.chain_poses.specs.motion_chain.Built.{Each};
ghost use Rattle.chain_rows.specs.Theorem.{Moves-Holds};
ghost use Rattle.chain_poses.specs.Poses.{Poses-of_lists, Poses-pair_at};
ghost use Rattle.chain_build.specs.Build.{blocks_left, ChainAnswer-left};
ghost use Rattle.chain_build.specs.means.Pairs.{Pair-rows, Pair-Built};

use animated_transform::AnimatedTransform;

// The move of the pair at a place, built and put into its block.
fn put_pair(rigid: bool, poses: &[[f32; 18]], i: usize, moves: &mut [[[f32; 4]; 45]; 31]) -> u8
    requires i_in_bounds { i + 1 < length poses.now }
    requires i_bound { i < 31 }
    ensures refusal { result ≡ Move-number rigid (Poses-pair_at poses.now i) }
    ensures left { result ≡ 0 → moves.new ≡ set moves.old i (Pair-rows rigid (Poses-pair_at poses.now i)) }
    ensures built { result ≡ 0 → Pair-Built rigid (Poses-pair_at poses.now i) }
{
    let start = lent_arrays::pose(&poses[i]);
    let end = lent_arrays::pose(&poses[i + 1]);
    motion_rows::put_motion(AnimatedTransform::new(rigid, start, end), &mut moves[i])
}

// The moves of all pairs, in rising order, up to the first that is refused.
fn put_pairs(rigid: bool, poses: &[[f32; 18]], moves: &mut [[[f32; 4]; 45]; 31]) -> u8
    requires poses_len_bound { length poses.now ≤ 32 }
    requires moves_len { length moves.old ≡ 31 }
    ensures refusal { result ≡ stage (Move-number rigid) (neighbours (Poses-of_lists poses.now)) }
    ensures left { result ≡ 0
        → moves.new ≡ blocks_left (map (Pair-rows rigid) (neighbours (Poses-of_lists poses.now))) moves.old }
    ensures built { result ≡ 0 → Each (Pair-Built rigid) (neighbours (Poses-of_lists poses.now)) }
{
    for i in 1..poses.len() {
        let refusal = put_pair(rigid, poses, i - 1, moves);
        if refusal != 0 {
            return refusal;
        }
    }
    0
}

// A chain that has passed its checks. The work goes into a copy of the lent blocks, which takes their place once nothing is refused.
fn build_passed(
    rigid: bool,
    poses: &[[f32; 18]],
    copy: [[[f32; 4]; 45]; 31],
    moves: &mut [[[f32; 4]; 45]; 31],
) -> u8
    requires poses_value { chain_refusal rigid (Poses-of_lists poses.now) ≡ 0 }
    requires copy_value { copy ≡ moves.old }
    ensures refusal { result ≡ ChainAnswer-refusal (Chain-new rigid (Poses-of_lists poses.now)) }
    ensures left { moves.new ≡ ChainAnswer-left (Chain-new rigid (Poses-of_lists poses.now)) moves.old }
    ensures holds { (c : Chain) → Chain-new rigid (Poses-of_lists poses.now) ≡ built c
        → Moves-Holds (take (length poses.now - 1) moves.new) c }
{
    let mut work = copy;
    let refusal = put_pairs(rigid, poses, &mut work);
    if refusal != 0 {
        return refusal;
    }
    *moves = work;
    0
}

// Builds the chain of the poses, as rigid or not, into the first blocks, one for each move. Refused with 1, 2, 16, 12, 3, 4 or 5, and as rigid with 17 or 18.
// Accuracy: each operation but the arc cosine is correctly rounded.
pub fn build(rigid: bool, poses: &[[f32; 18]], moves: &mut [[[f32; 4]; 45]; 31]) -> u8
    ensures refusal { result ≡ ChainAnswer-refusal (Chain-new rigid (Poses-of_lists poses.now)) }
    ensures left { moves.new ≡ ChainAnswer-left (Chain-new rigid (Poses-of_lists poses.now)) moves.old }
    ensures holds { (c : Chain) → Chain-new rigid (Poses-of_lists poses.now) ≡ built c
        → Moves-Holds (take (length poses.now - 1) moves.new) c }
{
    let refusal = chain_poses::refusal(rigid, poses);
    if refusal != 0 {
        return refusal;
    }
    build_passed(rigid, poses, *moves, moves)
}
