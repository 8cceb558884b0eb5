// From a move file to its one form: the program `rewrite` but for its reading and writing.
#![tactic(auto)]

ghost use Rattle.std.specs.Prelude.{◌≤◌, ◌<◌, ◌≡◌, false, length, take};
ghost use Rattle.chain_build.specs.motion_chain.Chain.{Chain-new};
ghost use Rattle.chain_build.specs.chain_poses.Poses.{Poses-of_lists};
ghost use Rattle.motion_text.specs.Answer.{text_left, length_in};
ghost use Rattle.chain_text.specs.Write.{Moves-text};
ghost use Rattle.file_rewrite.specs.Rewrite.{boxed_text, ChainAnswer-text, rewritten_text};

use bounds3::Bounds3f;

// Writes a kept chain and the box as a file, or the refusal of the box.
fn write_moves(moves: &[[[f32; 4]; 45]], b: Bounds3f, out: &mut [u8]) -> usize
    requires { 0 < length moves.now }
    ensures value { result ≡ length_in (boxed_text b (Moves-text moves.now b)) out.old }
    ensures text { out.new ≡ text_left (boxed_text b (Moves-text moves.now b)) out.old }
    ensures counts { (result ≤ length out.new) × (result ≡ length (take result out.new)) }
{
    let refusal = bounds_query::refusal(b);
    if refusal != 0 {
        return motion_text::write_refusal(refusal, out);
    }
    // Refused with 15, which leaves `out` as it is, the length is 0.
    let written = chain_text::write(moves, b, out);
    written.length
}

// Writes the poses and the box as a file, or the refusal of their chain or of the box.
fn write_poses(poses: &[[f32; 18]], b: Bounds3f, out: &mut [u8]) -> usize
    ensures value { result ≡ length_in (ChainAnswer-text (Chain-new false (Poses-of_lists poses.now)) b) out.old }
    ensures text { out.new ≡ text_left (ChainAnswer-text (Chain-new false (Poses-of_lists poses.now)) b) out.old }
    ensures counts { (result ≤ length out.new) × (result ≡ length (take result out.new)) }
{
    let mut moves = [[[0.0f32; 4]; 45]; 31];
    let refusal = chain_build::build(false, poses, &mut moves);
    if refusal != 0 {
        return motion_text::write_refusal(refusal, out);
    }
    // A chain has a move fewer than poses.
    let n = poses.len() - 1;
    write_moves(&moves[..n], b, out)
}

// Writes the one form of a move file, or its refusal: 11, then building's numbers, then 6 or 7 of the box, into the front of `out`,
// and gives the length of the text, at most 4,161; where it doesn't fit, `out` is kept as it is and the answer is 0. Accuracy: exact.
pub fn rewrite(bytes: &[u8], out: &mut [u8]) -> usize
    ensures value { result ≡ length_in (rewritten_text bytes.now) out.old }
    ensures text { out.new ≡ text_left (rewritten_text bytes.now) out.old }
    ensures counts { (result ≤ length out.new) × (result ≡ length (take result out.new)) }
{
    let mut poses = [[0.0f32; 18]; 559];
    let file = file_reader::read(bytes, &mut poses);
    if file.refusal != 0 {
        return motion_text::write_refusal(file.refusal, out);
    }
    let n = file.count;
    let values = file.bounds;
    write_poses(&poses[..n], lent_arrays::bounds(&values), out)
}
