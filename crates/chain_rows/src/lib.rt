// A chain as its caller keeps it: the 45 rows of each of its moves, in rising order. Which of them a time belongs to, the point query and the pad query.
#![tactic(auto)]

ghost use Rattle.std.specs.Prelude.{◌<◌, ◌≡◌, length};
ghost use Rattle.motion_chain.specs.Chain.{Chain, Chain-transform_point};
ghost use Rattle.motion_chain.specs.MoveAt.{Chain-index_at};
ghost use Rattle.refusal.specs.Number.{numbered};
ghost use Rattle.chain_rows.specs.Kept.{Chain-to_rows, Moves-chain, Moves-transform_point, Chain-pad, Moves-pad};

use bounds3::Point3f;
use refusal::Refusal;

// The place of the move that a time belongs to. Accuracy: exact.
pub fn place(moves: &[[[f32; 4]; 45]], time: f32) -> usize
    requires { 0 < length moves.now }
    ensures value { result ≡ Chain-index_at (Moves-chain moves.now) time }
    ensures below { result < length moves.now }
{
    let last = moves.len() - 1;
    for i in 0..last {
        if time <= moves[i][17][3] {
            return i;
        }
    }
    last
}

// Where a point stands at a time of a kept chain. Refused with 5 or 6, and with 12 where there are no moves.
// Accuracy: each operation but sine and cosine is correctly rounded.
pub fn transform_point(moves: &[[[f32; 4]; 45]], time: f32, p: Point3f) -> Result<Point3f, Refusal>
    ensures value { numbered result ≡ Moves-transform_point moves.now time p }
    ensures kept { (c : Chain) → moves.now ≡ Chain-to_rows c → numbered result ≡ Chain-transform_point c time p }
{
    if moves.len() == 0 {
        return Err(Refusal::Chain);
    }
    let i = place(moves, time);
    motion_rows::transform_point(&moves[i], time, p)
}

// The pad of a kept chain at a time, that of the move to which the time belongs. Refused with 5 or 6, and with 12 where there are no moves.
// Accuracy: each operation is correctly rounded.
pub fn pad(moves: &[[[f32; 4]; 45]], time: f32) -> Result<f32, Refusal>
    ensures value { numbered result ≡ Moves-pad moves.now time }
    ensures kept { (c : Chain) → moves.now ≡ Chain-to_rows c → numbered result ≡ Chain-pad c time }
{
    if moves.len() == 0 {
        return Err(Refusal::Chain);
    }
    let i = place(moves, time);
    pad_query::pad(&moves[i], time)
}
