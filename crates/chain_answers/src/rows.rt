// The rows that a boom reaches, `rows BOX BOX*`: a question about no slot, whose first box is the cover and whose others are the rows.
use answer_values::put_error;

// Answers how many of the rows, all but the first of so many boxes, the cover meets, and their places.
pub(crate) fn reached(boxes: usize, x: &[f32; 900], out: &mut [u8; 32768], at: usize) -> usize {
    // No line holds so many.
    if 150 < boxes {
        return put_error(out, at);
    }
    if boxes == 0 {
        return put_error(out, at);
    }
    let mut values = [[0.0f32; 6]; 150];
    question_values::put_groups(x, &mut values);
    let cover = question_values::values_at::<6>(x, 0);
    let mut places = [0u32; 256];
    let named = api::jellyplain_reached_rows(&cover, &values[1..boxes], &mut places);
    put_named(named.refusal, &places, named.count, out, at)
}

fn put_named(
    refusal: u8,
    places: &[u32; 256],
    count: usize,
    out: &mut [u8; 32768],
    at: usize,
) -> usize {
    answer_values::put_places(refusal, places, count, out, at)
}
