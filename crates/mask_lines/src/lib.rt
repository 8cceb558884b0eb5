// Masks of windows as test programs print them in an answer line: sixteen hexadecimal digits each, the most significant first, with a space before each.
#![tactic(auto)]

ghost use Rattle.std.specs.Prelude.{◌≡◌, map};
ghost use Rattle.answer_lines.specs.Pieces.{put, behind, put_all, behind_all};
ghost use Rattle.answer_values.specs.Lines.{answer_pieces};
ghost use Rattle.mask_lines.specs.Masks.{mask_text};

use answer_lines::{put_refused, put_text};

// A space and the digits of a mask.
fn mask_text(mask: u64) -> [u8; 17]
    ensures value { result ≡ mask_text mask }
{
    let mut text = [b' '; 17];
    hexadecimal::write_word((mask / 4294967296) as u32, &mut text, 1);
    hexadecimal::write_word((mask % 4294967296) as u32, &mut text, 9);
    text
}

// Puts all masks. Accuracy: exact.
fn put_all(masks: &[u64], out: &mut [u8], at: usize) -> usize
    ensures value { result ≡ behind_all (map mask_text masks.now) out.old at }
    ensures left { out.new ≡ put_all (map mask_text masks.now) out.old at }
{
    let mut end = at;
    for mask in masks {
        let text = mask_text(*mask);
        end = put_text(&text, out, end);
    }
    end
}

// Puts the line that answers with masks, or with a refusal. Accuracy: exact.
pub fn put_masks(refusal: u8, masks: &[u64], out: &mut [u8], at: usize) -> usize
    ensures value { result ≡ behind_all (answer_pieces refusal (map mask_text masks.now)) out.old at }
    ensures left { out.new ≡ put_all (answer_pieces refusal (map mask_text masks.now)) out.old at }
{
    if refusal != 0 {
        return put_refused(refusal, out, at);
    }
    let ok = put_text(b"ok", out, at);
    let end = put_all(masks, out, ok);
    put_text(b"\n", out, end)
}
