// The cover of a kept chain: the union of its moves' covers, in rising order, of which the first refusal stands.
#![tactic(auto)]

ghost use Rattle.std.specs.Prelude.{◌<◌, ◌≡◌, [], length, get_or};
ghost use Rattle.transform.specs.Answer.{BoundsAnswer-refusal, BoundsAnswer-bounds};
ghost use Rattle.bounds_query.specs.Query.{BoundsAnswer-union_bounds};
ghost use Rattle.chain_rows.specs.motion_cover.Cover.{AnimatedTransform-cover};
ghost use Rattle.motion_rows.specs.Rows.{AnimatedTransform-from_rows};
ghost use Rattle.chain_rows.specs.motion_chain.Chain.{Chain, Chain-cover};
ghost use Rattle.chain_rows.specs.Kept.{Chain-to_rows, Moves-cover};
ghost use Rattle.chain_rows.specs.Theorem.{KeptChainContainsMotion};
ghost use Rattle.chain_rows.specs.Finer.{KeptChainFiner};

use bounds3::Bounds3f;
use transform::BoundsAnswer;

// The cover of the move at a place, joined to the covers of those before it.
fn union_move(
    r: BoundsAnswer,
    moves: &[[[f32; 4]; 45]],
    i: usize,
    b: Bounds3f,
    depth: u32,
) -> BoundsAnswer
    requires { i < length moves.now }
    ensures value { result ≡ BoundsAnswer-union_bounds r (AnimatedTransform-cover (AnimatedTransform-from_rows (get_or moves.now i [])) b depth) }
{
    bounds_query::union_bounds(
        r,
        cover_query::cover(motion_rows::from_rows(&moves[i]), b, depth),
    )
}

// A box that holds the box b at every time of a kept chain, from 2^depth slices of each move.
// Refused with 5, 6, 7, 8 or 10, and with 12 where there are no moves.
// Accuracy: encloses.
pub fn cover(moves: &[[[f32; 4]; 45]], b: Bounds3f, depth: u32) -> BoundsAnswer
    ensures value { result ≡ Moves-cover moves.now b depth }
    ensures kept { (c : Chain) → moves.now ≡ Chain-to_rows c → result ≡ Chain-cover c b depth }
    ensures contains_motion { BoundsAnswer-refusal result ≡ 0 → KeptChainContainsMotion moves.now b (BoundsAnswer-bounds result) }
    ensures finer { BoundsAnswer-refusal result ≡ 0 → KeptChainFiner moves.now b depth (BoundsAnswer-bounds result) }
{
    if moves.len() == 0 {
        return BoundsAnswer::Refused(12);
    }
    let mut r = cover_query::cover(motion_rows::from_rows(&moves[0]), b, depth);
    for i in 1..moves.len() {
        r = union_move(r, moves, i, b, depth);
    }
    r
}
