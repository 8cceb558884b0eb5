// The number that building a chain of lent poses gives, and nothing of the chain: for those who ask only whether poses are refused, and with what.
#![tactic(auto)]

ghost use Rattle.std.specs.Prelude.{◌≡◌};
ghost use Rattle.lent_arrays.specs.Arrays.{Pose-of_list};
ghost use Rattle.chain_poses.specs.motion_chain.Chain.{neighbours, stage};
ghost use Rattle.chain_poses.specs.Poses.{Poses-of_lists};
ghost use Rattle.chain_number.specs.Number.{Move-number, Chain-number};

use animated_transform::AnimatedTransform;

// The number that building a move from one pose to another gives: 1 to 5 or 16, of a rigid one 17 or 18 too, and 0 for none. Accuracy: exact.
pub fn move_number(rigid: bool, start: &[f32; 18], end: &[f32; 18]) -> u8
    ensures value { result ≡ Move-number rigid (Pose-of_list start.now, Pose-of_list end.now) }
{
    match AnimatedTransform::new(rigid, lent_arrays::pose(start), lent_arrays::pose(end)) {
        Ok(_) => 0,
        Err(refusal) => refusal.number(),
    }
}

// The first number of the moves of neighbouring poses, in rising order; 0 for none.
fn moves_number(rigid: bool, poses: &[[f32; 18]]) -> u8
    ensures value { result ≡ stage (Move-number rigid) (neighbours (Poses-of_lists poses.now)) }
{
    for i in 1..poses.len() {
        let number = move_number(rigid, &poses[i - 1], &poses[i]);
        if number != 0 {
            return number;
        }
    }
    0
}

// The number that building the chain of the poses gives: 1, 2, 16, 12, 3, of a rigid one 17 or 18, then 4 or 5, and 0 for none. Accuracy: exact.
pub fn number(rigid: bool, poses: &[[f32; 18]]) -> u8
    ensures value { result ≡ Chain-number rigid (Poses-of_lists poses.now) }
{
    let checked = chain_poses::refusal(rigid, poses);
    if checked != 0 {
        return checked;
    }
    moves_number(rigid, poses)
}
