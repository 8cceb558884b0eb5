// The sum of all ends of an interval vector, quaternion, row or matrix. It is finite only where every end is, so that one test of it may stand for a test of
// each.
// Ends are added pair by pair, which keeps the sums independent of each other.
#![tactic(auto)]

ghost use Rattle.std.specs.Prelude.{◌≡◌};
ghost use Rattle.pose_ends.specs.means.Ends.{IntervalVector-ends_sum, IntervalQuaternion-ends_sum, IntervalRow-ends_sum, IntervalMatrix-ends_sum};

use interval_unjudged::ends_sum;
use pose_steps::{IntervalMatrix, IntervalQuaternion, IntervalRow, IntervalVector};

// The sum of the six ends of a vector: where it is finite, they are. Accuracy: each operation is correctly rounded.
pub fn vector_ends_sum(v: IntervalVector) -> f32
    ensures value { result ≡ IntervalVector-ends_sum v }
{
    ends_sum(v.x) + ends_sum(v.y) + ends_sum(v.z)
}

// The sum of the eight ends of a quaternion: where it is finite, they are. Accuracy: each operation is correctly rounded.
pub fn quaternion_ends_sum(q: IntervalQuaternion) -> f32
    ensures value { result ≡ IntervalQuaternion-ends_sum q }
{
    ends_sum(q.x) + ends_sum(q.y) + (ends_sum(q.z) + ends_sum(q.w))
}

// The sum of the eight ends of a row: where it is finite, they are. Accuracy: each operation is correctly rounded.
pub fn row_ends_sum(a: IntervalRow) -> f32
    ensures value { result ≡ IntervalRow-ends_sum a }
{
    ends_sum(a.c0) + ends_sum(a.c1) + (ends_sum(a.c2) + ends_sum(a.c3))
}

// The sum of the ends of three rows: where it is finite, they are. Accuracy: each operation is correctly rounded.
pub fn matrix_ends_sum(m: IntervalMatrix) -> f32
    ensures value { result ≡ IntervalMatrix-ends_sum m }
{
    row_ends_sum(m.r0) + row_ends_sum(m.r1) + row_ends_sum(m.r2)
}
