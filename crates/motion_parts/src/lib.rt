// The parts of a move that is kept as 45 rows, as test programs print them in an answer line: whether it is animated and whether it rotates,
// for start and end t, r, S and the inverse, then c1 to c5, each on the axes x y z, each kc kx ky kz.
#![tactic(auto)]

ghost use Rattle.std.specs.Prelude.{◌≡◌};
ghost use Rattle.answer_lines.specs.Pieces.{put_all, behind_all};
ghost use Rattle.motion_parts.specs.Parts.{part_size, row_pieces, flag_pieces, parts_pieces};

// The rows of the parts in order.
const PARTS: [usize; 35] = [
    16, 18, 20, 21, 22, 23, 4, 5, 6, 7, 17, 19, 24, 25, 26, 27, 12, 13, 14, 15, 28, 33, 38, 29, 34,
    39, 30, 35, 40, 31, 36, 41, 32, 37, 42,
];

// Puts a move's parts into `out` from `at` on, and gives the place behind them. Accuracy: exact.
pub fn put_parts(motion: &[[f32; 4]; 45], out: &mut [u8], at: usize) -> usize
    ensures value { result ≡ behind_all (parts_pieces motion.now) out.old at }
    ensures left { out.new ≡ put_all (parts_pieces motion.now) out.old at }
{
    let last = motion[43];
    let next = put_flag(last[0], out, at);
    let start = put_flag(last[1], out, next);
    put_part_rows(motion, out, start)
}

// A yes or no of a move as a whole number, 1 or 0.
fn put_flag(x: f32, out: &mut [u8], at: usize) -> usize
    ensures value { result ≡ behind_all (flag_pieces x) out.old at }
    ensures left { out.new ≡ put_all (flag_pieces x) out.old at }
{
    if x == 1.0 {
        return answer_lines::put_decimal(1, out, at);
    }
    answer_lines::put_decimal(0, out, at)
}

fn put_part_rows(motion: &[[f32; 4]; 45], out: &mut [u8], at: usize) -> usize
    ensures value { result ≡ behind_all (row_pieces motion.now 0) out.old at }
    ensures left { out.new ≡ put_all (row_pieces motion.now 0) out.old at }
{
    let mut end = at;
    for i in PARTS {
        end = answer_lines::put_floats(&motion[i], part_size(i), out, end);
    }
    end
}

// Of a translation's row the last float, a time, is no part.
fn part_size(i: usize) -> usize
    ensures { result ≡ part_size i }
{
    if (i == 16) | (i == 17) { 3 } else { 4 }
}
