// A pose, and what the building of a move asks of two of them before it computes anything; what a rigid one asks of each.
#![tactic(auto)]

ghost use Rattle.std.specs.Prelude.{◌≡◌};
ghost use Rattle.refusal.specs.Number.{refusal_number};
ghost use Rattle.pose_pair.specs.Pose.{Pose-is_finite, Pose-is_affine, Pose-is_padded, times_refusal, poses_refusal, Pose-kind_number};

use matrix4x4::Matrix4x4;
use refusal::Refusal;

// A matrix at a time, and the pad: how far beyond the boom the spray wets the ground then.
#[derive(Clone, Copy)]
pub struct Pose {
    pub time: f32,
    pub m: Matrix4x4,
    pub pad: f32,
}

impl Pose {
    // Whether the time, every entry and the pad are finite. Accuracy: exact.
    pub fn is_finite(self) -> bool
        ensures value { result ≡ Pose-is_finite self }
    {
        float32::is_finite(self.time)
            & matrix4x4::is_finite(self.m.to_rows())
            & float32::is_finite(self.pad)
    }

    // Whether the matrix's bottom row is 0 0 0 1, with a zero of either sign. Accuracy: exact.
    pub fn is_affine(self) -> bool
        ensures value { result ≡ Pose-is_affine self }
    {
        matrix4x4::is_affine(self.m.to_rows())
    }

    // Whether the pad is at least zero, of either sign. Accuracy: exact.
    pub fn is_padded(self) -> bool
        ensures value { result ≡ Pose-is_padded self }
    {
        self.pad >= 0.0
    }

    // What a rigid move asks of a pose: refused with 17 where it scales or shears, then with 18 where its determinant isn't above zero; of a plain move
    // nothing. Accuracy: heuristic, by rounded products.
    pub fn judge_kind(self, rigid: bool) -> Result<(), Refusal>
        ensures value { refusal_number result ≡ Pose-kind_number rigid self }
    {
        if rigid {
            rigid_pose::judge(self.m.to_rows())
        } else {
            Ok(())
        }
    }
}

// Refused with 3 where the end time is below the start time, or their rounded difference isn't finite. Accuracy: exact.
pub fn judge_times(start: f32, end: f32) -> Result<(), Refusal>
    ensures value { refusal_number result ≡ times_refusal start end }
{
    if (end < start) | !float32::is_finite(end - start) {
        Err(Refusal::Times)
    } else {
        Ok(())
    }
}

// Refused with 1 for a time, an entry or a pad that isn't finite, then with 2 for a bottom row other than 0 0 0 1, 16 for a pad below zero, 3 for the times.
// Accuracy: exact.
pub fn judge_poses(start: Pose, end: Pose) -> Result<(), Refusal>
    ensures value { refusal_number result ≡ poses_refusal start end }
{
    let finite = start.is_finite() & end.is_finite();
    let affine = start.is_affine() & end.is_affine();
    let padded = start.is_padded() & end.is_padded();
    if !finite {
        return Err(Refusal::PoseNotFinite);
    }
    if !affine {
        return Err(Refusal::BottomRow);
    }
    if !padded {
        return Err(Refusal::Pad);
    }
    judge_times(start.time, end.time)
}
