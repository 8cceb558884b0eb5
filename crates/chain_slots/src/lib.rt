// Chains kept in four slots, each as the rows of its moves, 45 for each, beside how many poses it was built from:
// 0 where none is kept, 1 for a move built by itself.
#![tactic(auto)]

ghost use Rattle.std.specs.Prelude.{◌≡◌, take};
ghost use Rattle.chain_slots.specs.Slots.{moves_of, Slots-moves};

// The moves that a slot keeps; none where it was filled from fewer poses than are asked for, and where there is no such slot. Accuracy: exact.
pub fn kept_moves<'a>(
    kept: &'a [[[[f32; 4]; 45]; 31]; 4],
    poses: &[usize; 4],
    slot: u64,
    fewest: usize,
) -> &'a [[[f32; 4]; 45]]
    ensures value { result.now ≡ Slots-moves kept.now poses.now slot fewest }
{
    if 3 < slot {
        return first_moves(&kept[0], 0);
    }
    let i = slot as usize;
    first_moves(&kept[i], moves_of(poses[i], fewest))
}

// How many moves a chain of so many poses has, none where they are fewer than are asked for.
fn moves_of(poses: usize, fewest: usize) -> usize
    ensures { result ≡ moves_of poses fewest }
{
    if poses < fewest {
        return 0;
    }
    if poses < 2 { poses } else { poses - 1 }
}

fn first_moves(moves: &[[[f32; 4]; 45]], n: usize) -> &[[[f32; 4]; 45]]
    ensures { result.now ≡ take n moves.now }
{
    if moves.len() < n {
        return moves;
    }
    &moves[0..n]
}
