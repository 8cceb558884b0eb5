// Answers as lines: `ok` and values, the number of a refusal, or `error`. Values are put one behind the other into a buffer, from a place on,
// a space before each, and the place behind them is given; a piece that has no room is left out.
#![tactic(auto)]

ghost use Rattle.std.specs.Prelude.{◌≡◌, [], ◌∷◌};
ghost use Rattle.answer_lines.specs.Pieces.{put, behind, put_all, behind_all, whole_pieces, floats_text};
ghost use Rattle.answer_values.specs.Lines.{error_text, wholes_pieces, rows_pieces, counted_pieces, places_pieces, answer_pieces};

use answer_lines::{put_decimal, put_floats, put_refused, put_text};

// Puts the line that answers what is no question. Accuracy: exact.
pub fn put_error(out: &mut [u8], at: usize) -> usize
    ensures value { result ≡ behind error_text out.old at }
    ensures left { out.new ≡ put error_text out.old at }
{
    put_text(b"error\n", out, at)
}

// Puts the first `count` whole numbers, where there are so many. Accuracy: exact.
pub fn put_decimals(values: &[u32], count: usize, out: &mut [u8], at: usize) -> usize
    ensures value { result ≡ behind_all (wholes_pieces values.now count) out.old at }
    ensures left { out.new ≡ put_all (wholes_pieces values.now count) out.old at }
{
    if values.len() < count {
        return at;
    }
    let mut end = at;
    for n in &values[..count] {
        end = put_decimal(wide(*n), out, end);
    }
    end
}

fn wide(n: u32) -> u64
    ensures { result ≡ n }
{
    n as u64
}

// Puts rows of floats. Accuracy: exact.
pub fn put_rows<const N: usize>(rows: &[[f32; N]], out: &mut [u8], at: usize) -> usize
    ensures value { result ≡ behind_all (rows_pieces N rows.now) out.old at }
    ensures left { out.new ≡ put_all (rows_pieces N rows.now) out.old at }
{
    let mut end = at;
    for row in rows {
        end = put_floats(row, N, out, end);
    }
    end
}

// Puts the line that answers with the first `count` floats, or with a refusal. Accuracy: exact.
pub fn put_values(refusal: u8, values: &[f32], count: usize, out: &mut [u8], at: usize) -> usize
    ensures value { result ≡ behind_all (answer_pieces refusal (floats_text values.now count ∷ [])) out.old at }
    ensures left { out.new ≡ put_all (answer_pieces refusal (floats_text values.now count ∷ [])) out.old at }
{
    if refusal != 0 {
        return put_refused(refusal, out, at);
    }
    let ok = put_text(b"ok", out, at);
    let end = put_floats(values, count, out, ok);
    put_text(b"\n", out, end)
}

// Puts the line that answers with all floats and the whole numbers behind them, or with a refusal. Accuracy: exact.
pub fn put_counted(refusal: u8, values: &[f32], counts: &[u32], out: &mut [u8], at: usize) -> usize
    ensures value { result ≡ behind_all (answer_pieces refusal (counted_pieces values.now counts.now)) out.old at }
    ensures left { out.new ≡ put_all (answer_pieces refusal (counted_pieces values.now counts.now)) out.old at }
{
    if refusal != 0 {
        return put_refused(refusal, out, at);
    }
    let ok = put_text(b"ok", out, at);
    let behind = put_floats(values, values.len(), out, ok);
    let end = put_decimals(counts, counts.len(), out, behind);
    put_text(b"\n", out, end)
}

// Puts the line that answers with a whole number, or with a refusal. Accuracy: exact.
pub fn put_count(refusal: u8, count: usize, out: &mut [u8], at: usize) -> usize
    ensures value { result ≡ behind_all (answer_pieces refusal (whole_pieces count)) out.old at }
    ensures left { out.new ≡ put_all (answer_pieces refusal (whole_pieces count)) out.old at }
{
    if refusal != 0 {
        return put_refused(refusal, out, at);
    }
    let ok = put_text(b"ok", out, at);
    let end = put_decimal(count as u64, out, ok);
    put_text(b"\n", out, end)
}

// Puts the line that answers with how many places there are, and then the places, or with a refusal. Accuracy: exact.
pub fn put_places(refusal: u8, places: &[u32], count: usize, out: &mut [u8], at: usize) -> usize
    ensures value { result ≡ behind_all (answer_pieces refusal (places_pieces places.now count)) out.old at }
    ensures left { out.new ≡ put_all (answer_pieces refusal (places_pieces places.now count)) out.old at }
{
    if refusal != 0 {
        return put_refused(refusal, out, at);
    }
    let ok = put_text(b"ok", out, at);
    let behind = put_decimal(count as u64, out, ok);
    let end = put_decimals(places, count, out, behind);
    put_text(b"\n", out, end)
}

// Puts the line that answers with a point, or with a refusal. Accuracy: exact.
pub fn put_point(refusal: u8, p: &[f32; 3], out: &mut [u8], at: usize) -> usize
    ensures value { result ≡ behind_all (answer_pieces refusal (floats_text p.now 3 ∷ [])) out.old at }
    ensures left { out.new ≡ put_all (answer_pieces refusal (floats_text p.now 3 ∷ [])) out.old at }
{
    put_values(refusal, p, 3, out, at)
}

// Puts the line that answers with a box, or with a refusal. Accuracy: exact.
pub fn put_bounds(refusal: u8, b: &[f32; 6], out: &mut [u8], at: usize) -> usize
    ensures value { result ≡ behind_all (answer_pieces refusal (floats_text b.now 6 ∷ [])) out.old at }
    ensures left { out.new ≡ put_all (answer_pieces refusal (floats_text b.now 6 ∷ [])) out.old at }
{
    put_values(refusal, b, 6, out, at)
}

// Puts the line that answers with a box and its three counts, or with a refusal. Accuracy: exact.
pub fn put_motion_bounds(
    refusal: u8,
    b: &[f32; 6],
    examined: &[u32; 3],
    out: &mut [u8],
    at: usize,
) -> usize
    ensures value { result ≡ behind_all (answer_pieces refusal (counted_pieces b.now examined.now)) out.old at }
    ensures left { out.new ≡ put_all (answer_pieces refusal (counted_pieces b.now examined.now)) out.old at }
{
    put_counted(refusal, b, examined, out, at)
}

// Puts the line that answers with the rows of a transform, or with a refusal. Accuracy: exact.
pub fn put_transform(refusal: u8, rows: &[[f32; 4]; 8], out: &mut [u8], at: usize) -> usize
    ensures value { result ≡ behind_all (answer_pieces refusal (rows_pieces 4 rows.now)) out.old at }
    ensures left { out.new ≡ put_all (answer_pieces refusal (rows_pieces 4 rows.now)) out.old at }
{
    if refusal != 0 {
        return put_refused(refusal, out, at);
    }
    let ok = put_text(b"ok", out, at);
    let end = put_rows(rows, out, ok);
    put_text(b"\n", out, end)
}
