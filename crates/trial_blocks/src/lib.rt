// A pose that is tried in a kept chain: the number of its place, the order of the numbers, and the blocks of the kept moves,
// 45 rows each, with the new moves beside the place among them.
#![tactic(auto)]

ghost use Rattle.std.specs.Prelude.{◌-◌, ◌<◌, ◌≤◌, ◌≡◌, cond, eqb, length};
ghost use Rattle.std.proofs.lemmas.List.Edits.{sets};
ghost use Rattle.trial_blocks.specs.Place.{place_refusal};
ghost use Rattle.trial_blocks.specs.Blocks.{beside_blocks, changed_left};

// 19 for a place that is not below the number of poses, then 12 for more poses than a chain has, 0 for neither. Accuracy: exact.
pub fn place_refusal(poses: usize, place: usize) -> u8
    ensures value { result ≡ place_refusal poses place }
{
    if place >= poses {
        return 19;
    }
    if poses > 32 {
        return 12;
    }
    0
}

// The number of a trial: that of the change stands before that of the query; 0 for none. Accuracy: exact.
pub fn trial_refusal(changed: u8, asked: u8) -> u8
    ensures value { result ≡ cond (eqb changed 0) asked changed }
{
    if changed == 0 { asked } else { changed }
}

// The kept moves, copied into the front of the blocks.
fn copy_moves(moves: &[[[f32; 4]; 45]], blocks: &mut [[[f32; 4]; 45]; 31])
    requires { length moves.now ≤ 31 }
    ensures left { blocks.new ≡ sets blocks.old 0 moves.now }
{
    blocks[..moves.len()].copy_from_slice(moves);
}

// The place of the first move beside a pose's place: the one before it, or the first of all.
fn first_beside(place: usize) -> usize
    ensures value { result ≡ place - 1 }
{
    if place == 0 { 0 } else { place - 1 }
}

// The new moves beside a place, put where the old ones of n moves stand: two, but one at the first place and at the last.
fn put_beside(
    beside: &[[[f32; 4]; 45]; 31],
    n: usize,
    place: usize,
    blocks: &mut [[[f32; 4]; 45]; 31],
)
    requires n_nonzero { 0 < n }
    requires n_bound { n ≤ 31 }
    requires place_le_n { place ≤ n }
    ensures left { blocks.new ≡ sets blocks.old (place - 1) (beside_blocks n place beside.now) }
{
    let first = first_beside(place);
    blocks[first] = beside[0];
    if (place > 0) & (place < n) {
        blocks[place] = beside[1];
    }
}

// The kept moves in the front of the blocks, with the new ones in place of those beside the pose's place; behind them the blocks stay as they came.
// So do all where the moves are none or more than 31, or have no such place. Accuracy: exact.
pub fn put_changed(
    moves: &[[[f32; 4]; 45]],
    place: usize,
    beside: &[[[f32; 4]; 45]; 31],
    blocks: &mut [[[f32; 4]; 45]; 31],
)
    ensures left { blocks.new ≡ changed_left moves.now place beside.now blocks.old }
{
    let n = moves.len();
    if (n == 0) | (n > 31) | (place > n) {
        return;
    }
    copy_moves(moves, blocks);
    put_beside(beside, n, place, blocks);
}
