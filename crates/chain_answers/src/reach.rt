// Which rows, and when, `reach S D NB NT NR BOX* T* BOX*`: five whole numbers, the last three how many boxes, ticks and rows follow; and a box in parts, `cut N BOX`.
// The words have one space before each.
use answer_values::put_error;
use question_lines::part;

// A whole number, and the place behind its word: one that no line has where the word is malformed.
#[derive(Clone, Copy)]
struct Whole {
    value: u64,
    end: usize,
}

// The whole number behind the space at a place.
fn read_whole(line: &[u8], at: usize) -> Whole {
    if line.len() <= at {
        return Whole {
            value: 0,
            end: usize::MAX,
        };
    }
    if line[at] != b' ' {
        return Whole {
            value: 0,
            end: usize::MAX,
        };
    }
    let end = question_lines::find(line, at + 1, b' ');
    match question_lines::read_decimal(part(line, at + 1, end)) {
        Some(value) => Whole { value, end },
        None => Whole {
            value: 0,
            end: usize::MAX,
        },
    }
}

// Answers a line that asks of a slot which rows its boom reaches, and when.
pub(crate) fn put_reach(
    line: &[u8],
    out: &mut [u8; 32768],
    at: usize,
    kept: &[[[[f32; 4]; 45]; 31]; 4],
    poses: &[usize; 4],
) -> usize {
    let slot = read_whole(line, 5);
    let depth = read_whole(line, slot.end);
    let boxes = read_whole(line, depth.end);
    let ticks = read_whole(line, boxes.end);
    let rows = read_whole(line, ticks.end);
    let start = rows.end;
    let mut x = [0.0f32; 900];
    let floats = read_values(line, start, &mut x);
    if floats == usize::MAX {
        return put_error(out, at);
    }
    let moves = chain_slots::kept_moves(kept, poses, slot.value, 1);
    if moves.len() == 0 {
        return put_error(out, at);
    }
    put_asked(
        moves,
        question_lines::saturated(depth.value),
        boxes.value,
        ticks.value,
        rows.value,
        floats,
        &x,
        out,
        at,
    )
}

// How many floats the words from a place on are, and a number that no line has where one is malformed, or there are too many.
fn read_values(line: &[u8], start: usize, x: &mut [f32; 900]) -> usize {
    if line.len() < start {
        return usize::MAX;
    }
    let size = line.len() - start;
    let count = size / 9;
    if 900 < count {
        return usize::MAX;
    }
    if size % 9 != 0 {
        return usize::MAX;
    }
    if question_lines::read_floats(part(line, start, line.len()), count, x) {
        return count;
    }
    usize::MAX
}

// Asks a kept chain, where so many boxes, ticks and rows are just the floats.
fn put_asked(
    moves: &[[[f32; 4]; 45]],
    depth: u32,
    boxes: u64,
    ticks: u64,
    rows: u64,
    floats: usize,
    x: &[f32; 900],
    out: &mut [u8; 32768],
    at: usize,
) -> usize {
    // No line holds so many.
    if 150 < boxes {
        return put_error(out, at);
    }
    if 900 < ticks {
        return put_error(out, at);
    }
    if 150 < rows {
        return put_error(out, at);
    }
    let n = boxes as usize;
    let m = ticks as usize;
    let k = rows as usize;
    if 6 * n + m + 6 * k != floats {
        return put_error(out, at);
    }
    let mut many = [[0.0f32; 6]; 150];
    let mut asked = [[0.0f32; 6]; 150];
    question_values::put_groups(question_values::part(x, 0, 6 * n), &mut many);
    question_values::put_groups(question_values::part(x, 6 * n + m, floats), &mut asked);
    let mut masks = [0u64; 256];
    let refusal = api::jellyplain_moves_reach(
        moves,
        &many[0..n],
        depth,
        question_values::part(x, 6 * n, 6 * n + m),
        &asked[0..k],
        &mut masks,
    );
    put_masks(refusal, masks, k, out, at)
}

// Answers the n parts of a box.
pub(crate) fn put_cut(n: u64, x: &[f32; 900], out: &mut [u8; 32768], at: usize) -> usize {
    let b = question_values::values_at::<6>(x, 0);
    let mut parts = [[0.0f32; 6]; 16];
    let refusal = api::jellyplain_cut(&b, question_lines::saturated(n), &mut parts);
    put_parts(refusal, parts, n, out, at)
}

// The masks of so many rows.
fn put_masks(
    refusal: u8,
    masks: [u64; 256],
    rows: usize,
    out: &mut [u8; 32768],
    at: usize,
) -> usize {
    if 256 < rows {
        return put_error(out, at);
    }
    mask_lines::put_masks(refusal, &masks[0..rows], out, at)
}

// So many parts, or the number of a refusal.
fn put_parts(
    refusal: u8,
    parts: [[f32; 6]; 16],
    n: u64,
    out: &mut [u8; 32768],
    at: usize,
) -> usize {
    if refusal != 0 {
        return answer_lines::put_refused(refusal, out, at);
    }
    // No box has so many.
    if 16 < n {
        return put_error(out, at);
    }
    let count = n as usize;
    let ok = answer_lines::put_text(b"ok", out, at);
    let end = answer_values::put_rows(&parts[0..count], out, ok);
    answer_lines::put_text(b"\n", out, end)
}
