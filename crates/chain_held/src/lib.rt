// What a kept chain holds: the number of its poses, the times of its first and its last, its kind; and each of its poses, as it was set.
#![tactic(auto)]

ghost use Rattle.std.specs.Prelude.{◌≤◌, ◌<◌, ◌≡◌, Bool, List, Float, length};
ghost use Rattle.chain_rows.specs.lent_arrays.Arrays.{Pose-of_list};
ghost use Rattle.kept_poses.specs.built_poses.Poses.{Pose-list};
ghost use Rattle.chain_held.specs.Held.{Moves-held, pose_refusal, Moves-pose_refusal, Moves-pose_left};
ghost use Rattle.chain_held.specs.Theorem.{HeldAsSet, PoseAsSet};

// How many poses, the times of the first and of the last, whether the chain is rigid, and 0; or the number of a refusal, and 0, +0 and no.
#[repr(C)]
#[derive(Clone, Copy)]
pub struct ChainHeld {
    pub poses: usize,
    pub first: f32,
    pub last: f32,
    pub rigid: bool,
    pub refusal: u8,
}

// What a kept chain holds beside its poses. Refused with 12 where there are no moves. Accuracy: exact.
pub fn held(moves: &[[[f32; 4]; 45]]) -> ChainHeld
    ensures value { result ≡ Moves-held moves.now }
    ensures as_set { HeldAsSet moves.now result }
{
    let n = moves.len();
    if n == 0 {
        return ChainHeld {
            poses: 0,
            first: 0.0,
            last: 0.0,
            rigid: false,
            refusal: 12,
        };
    }
    let rigid = kept_poses::is_rigid(&moves[0]);
    ChainHeld {
        poses: n + 1,
        first: moves[0][16][3],
        last: moves[n - 1][17][3],
        rigid,
        refusal: 0,
    }
}

// 12 where there are no moves, then 19 for a place beyond the last pose; 0 for neither.
fn pose_refusal(count: usize, place: usize) -> u8
    ensures value { result ≡ pose_refusal count place }
    ensures inside { result ≡ 0 → (0 < count) × (place ≤ count) }
{
    if count == 0 {
        return 12;
    }
    if place > count {
        return 19;
    }
    0
}

fn put_values(values: [f32; 18], pose: &mut [f32; 18])
    ensures left { pose.new ≡ Pose-list (Pose-of_list values) }
{
    *pose = values;
}

// Puts the pose at a place, counted from 0, as it was set: its time, its matrix row by row and its pad; after a refusal nothing. Refused with 12 where there are
// no moves, then with 19 for a place beyond the last pose. Accuracy: exact.
pub fn pose(moves: &[[[f32; 4]; 45]], place: usize, pose: &mut [f32; 18]) -> u8
    ensures refusal { result ≡ Moves-pose_refusal moves.now place }
    ensures left { pose.new ≡ Moves-pose_left moves.now place pose.old }
    ensures as_set { result ≡ 0 → PoseAsSet moves.now place pose.new }
{
    let refusal = pose_refusal(moves.len(), place);
    if refusal != 0 {
        return refusal;
    }
    if place == 0 {
        put_values(kept_poses::start_pose(&moves[0]), pose);
        return 0;
    }
    put_values(kept_poses::end_pose(&moves[place - 1]), pose);
    0
}
