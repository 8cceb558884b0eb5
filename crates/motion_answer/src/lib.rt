// From a move file to the text that answers it: the programs `cover` and `cover_rigid` but for their reading and writing.
#![tactic(auto)]

ghost use Rattle.std.specs.Prelude.{◌≤◌, ◌≡◌, length, take};
ghost use Rattle.chain_build.specs.motion_chain.Chain.{Chain-new};
ghost use Rattle.chain_build.specs.chain_poses.Poses.{Poses-of_lists};
ghost use Rattle.motion_text.specs.Answer.{text_left, length_in};
ghost use Rattle.motion_answer.specs.Theorem.{AnswerContainsMotion, longest_text};
ghost use Rattle.motion_answer.specs.Answer.{ChainAnswer-cover, MoveFile-cover, BoundsAnswer-text, answer_text};

use bounds3::Bounds3f;
use transform::BoundsAnswer;

const DEPTH: u32 = 10;

// The cover of a box under the chain of the poses, built as rigid or as plain, refused by building, then by the query. Accuracy: encloses.
fn poses_cover(rigid: bool, poses: &[[f32; 18]], b: Bounds3f) -> BoundsAnswer
    ensures value { result ≡ ChainAnswer-cover (Chain-new rigid (Poses-of_lists poses.now)) b }
{
    let mut moves = [[[0.0f32; 4]; 45]; 31];
    let refusal = chain_build::build(rigid, poses, &mut moves);
    if refusal != 0 {
        return BoundsAnswer::Refused(refusal);
    }
    // A chain has a move fewer than poses.
    let n = poses.len() - 1;
    chain_cover::cover(&moves[..n], b, DEPTH)
}

// The cover of the file's box under the file's chain, refused with 11, then by building, then by the query. Accuracy: encloses.
fn file_cover(rigid: bool, bytes: &[u8]) -> BoundsAnswer
    ensures value { result ≡ MoveFile-cover rigid bytes.now }
{
    let mut poses = [[0.0f32; 18]; 559];
    let file = file_reader::read(bytes, &mut poses);
    if file.refusal != 0 {
        return BoundsAnswer::Refused(file.refusal);
    }
    let n = file.count;
    let values = file.bounds;
    poses_cover(rigid, &poses[..n], lent_arrays::bounds(&values))
}

// Writes a box or a refusal into the front of `out`.
fn write(cover: BoundsAnswer, out: &mut [u8]) -> usize
    ensures value { result ≡ length_in (BoundsAnswer-text cover) out.old }
    ensures text { out.new ≡ text_left (BoundsAnswer-text cover) out.old }
    ensures counts { (result ≤ length out.new) × (result ≡ length (take result out.new)) }
{
    match cover {
        BoundsAnswer::Bounds(b) => motion_text::write_bounds(lent_arrays::bounds_values(b), out),
        BoundsAnswer::Refused(n) => motion_text::write_refusal(n, out),
    }
}

// Writes the text that answers a file's bytes, its cover as rigid or as plain or its refusal, into the front of `out`, and gives its length, at most 72; where it doesn't fit,
// `out` is kept as it is and the answer is 0. Where 72 bytes are lent, the text is a refusal or a box that holds the file's chain. Accuracy: encloses, where
// it is a box.
pub fn answer(rigid: bool, bytes: &[u8], out: &mut [u8]) -> usize
    ensures value { result ≡ length_in (answer_text rigid bytes.now) out.old }
    ensures text { out.new ≡ text_left (answer_text rigid bytes.now) out.old }
    ensures counts { (result ≤ length out.new) × (result ≡ length (take result out.new)) }
    ensures contains_motion { longest_text ≤ length out.old → AnswerContainsMotion rigid bytes.now (take result out.new) }
{
    write(file_cover(rigid, bytes), out)
}
