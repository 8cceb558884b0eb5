// The two poses of a kept move, as 18 floats each, in the form in which a chain is built from them, and its kind.
#![tactic(auto)]

ghost use Rattle.std.specs.Prelude.{◌≡◌};
ghost use Rattle.motion_rows.specs.lent_arrays.Arrays.{Pose-of_list};
ghost use Rattle.motion_rows.specs.Rows.{AnimatedTransform-from_rows};
ghost use Rattle.built_poses.specs.Poses.{AnimatedTransform-start_pose, AnimatedTransform-end_pose};
ghost use Rattle.kept_poses.specs.means.Poses.{pose};

// A pose's time, the rows of its matrix and its pad, one after the other.
fn pose_values(
    time: f32,
    r0: [f32; 4],
    r1: [f32; 4],
    r2: [f32; 4],
    r3: [f32; 4],
    pad: f32,
) -> [f32; 18]
    ensures value { Pose-of_list result ≡ pose time r0 r1 r2 r3 pad }
{
    [
        time, r0[0], r0[1], r0[2], r0[3], r1[0], r1[1], r1[2], r1[3], r2[0], r2[1], r2[2], r2[3],
        r3[0], r3[1], r3[2], r3[3], pad,
    ]
}

// The pose at which a kept move starts. Accuracy: exact.
pub fn start_pose(motion: &[[f32; 4]; 45]) -> [f32; 18]
    ensures value { Pose-of_list result ≡ AnimatedTransform-start_pose (AnimatedTransform-from_rows motion.now) }
{
    pose_values(
        motion[16][3],
        motion[0],
        motion[1],
        motion[2],
        motion[3],
        motion[44][0],
    )
}

// The pose at which a kept move ends. Accuracy: exact.
pub fn end_pose(motion: &[[f32; 4]; 45]) -> [f32; 18]
    ensures value { Pose-of_list result ≡ AnimatedTransform-end_pose (AnimatedTransform-from_rows motion.now) }
{
    pose_values(
        motion[17][3],
        motion[8],
        motion[9],
        motion[10],
        motion[11],
        motion[44][1],
    )
}

// Whether a kept move is rigid. Accuracy: exact.
pub fn is_rigid(motion: &[[f32; 4]; 45]) -> bool
    ensures value { result ≡ (AnimatedTransform-from_rows motion.now).rigid }
{
    motion[44][2] == 1.0
}
