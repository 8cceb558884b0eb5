// The moves that a query is asked of: those that are lent, 45 rows each, or none where they are more than a chain has.
#![tactic(auto)]

ghost use Rattle.std.specs.Prelude.{◌≡◌};
ghost use Rattle.moves_asked.specs.Asked.{Moves-asked};

// The most moves that a chain has: one fewer than 32 poses.
const MAX_MOVES: usize = 31;

// The lent moves, and none of more than a chain has, so that a query of them is refused as one of no moves is, with 12. Accuracy: exact.
pub fn asked(moves: &[[[f32; 4]; 45]]) -> &[[[f32; 4]; 45]]
    ensures value { result.now ≡ Moves-asked moves.now }
{
    if moves.len() > MAX_MOVES {
        return &moves[0..0];
    }
    moves
}
