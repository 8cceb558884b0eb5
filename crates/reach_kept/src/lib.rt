// Which rows a boom of many boxes reaches, and in which windows: one mask a row, over a kept chain.
#![tactic(auto)]

ghost use Rattle.std.specs.Prelude.{◌+◌, ◌^◌, ◌≤◌, ◌<◌, ◌≡◌, map, length, take};
ghost use Rattle.bounds_query.specs.bounds3.List.{Bounds3f-of_list};
ghost use Rattle.bounds_query.specs.Query.{Bounds3f-refusal};
ghost use Rattle.reached_rows.specs.motion_chain.Chain.{stage};
ghost use Rattle.tick_list.specs.Ticks.{max_ticks};
ghost use Rattle.lent_laws.specs.Front.{in_front};
ghost use Rattle.reach_window.specs.reach_rows.Named.{max_rows};
ghost use Rattle.reach_window.specs.reach_laws.Reach.{count_refusal, arguments_refusal};
ghost use Rattle.reach_kept.specs.Kept.{Moves-reach_refusal, Moves-reach_left, KeptReachDry, KeptReachDryAlways, KeptReachFiner, KeptReachCovered};
ghost use Rattle.reach_kept.specs.means.Masks.{added_mask, added_masks, Below, Found-Is};

use window_times::Window;

const MAX_BOXES: usize = 16;

const MAX_ROWS: usize = 256;

const MAX_DEPTH: u32 = 12;

// The masks so far, 0 behind the rows'; all are 0 where a window is refused, with its number, 0 for none.
#[derive(Clone, Copy)]
struct Found {
    masks: [u64; 256],
    refusal: u8,
}

// 14 for none or more than `most`, 0 otherwise. Accuracy: exact.
fn count_refusal(most: usize, n: usize) -> u8
    ensures value { result ≡ count_refusal most n }
{
    if (n == 0) | (n > most) {
        return 14;
    }
    0
}

// 6 or 7 of the first box that is refused, 0 for none. Accuracy: exact.
fn first_refusal(boxes: &[[f32; 6]]) -> u8
    ensures value { result ≡ stage Bounds3f-refusal (map Bounds3f-of_list boxes.now) }
{
    for b in boxes {
        let number = bounds_query::refusal(lent_arrays::bounds(b));
        if number != 0 {
            return number;
        }
    }
    0
}

// 14 of the boxes, 14 of the rows, 21 of the ticks, 6 and 7 of the boxes, 6 and 7 of the rows, 8 of the depth, 0 for none. Accuracy: exact.
fn refusal(boxes: &[[f32; 6]], depth: u32, ticks: &[f32], rows: &[[f32; 6]]) -> u8
    ensures value { result ≡ arguments_refusal (map Bounds3f-of_list boxes.now) depth ticks.now (map Bounds3f-of_list rows.now) }
{
    let box_count = count_refusal(MAX_BOXES, boxes.len());
    if box_count != 0 {
        return box_count;
    }
    let row_count = count_refusal(MAX_ROWS, rows.len());
    if row_count != 0 {
        return row_count;
    }
    let order = tick_list::refusal(ticks);
    if order != 0 {
        return order;
    }
    let first_box = first_refusal(boxes);
    if first_box != 0 {
        return first_box;
    }
    let first_row = first_refusal(rows);
    if first_row != 0 {
        return first_row;
    }
    if depth > MAX_DEPTH {
        return 8;
    }
    0
}

// A mask below 2^k, with digit k where the row is named. Accuracy: exact.
fn add_digit(mask: u64, k: u32, named: bool) -> u64
    requires k_bound { k < 63 }
    requires mask_bound { mask < 2 ^ k }
    ensures value { result ≡ added_mask k mask named }
{
    if named {
        return mask + (1u64 << k);
    }
    mask
}

// The masks, each below 2^k, with digit k where its row is named. Accuracy: exact.
fn add_window(masks: [u64; 256], k: u32, names: [bool; 256]) -> [u64; 256]
    requires k_bound { k < 63 }
    requires below { Below k masks }
    ensures value { result ≡ added_masks k masks names }
{
    let mut added = masks;
    for (i, named) in names.iter().enumerate() {
        added[i] = add_digit(added[i], k, *named);
    }
    added
}

// The masks of the rows over all windows, in rising order, up to the first that is refused. Accuracy: encloses.
fn find(
    moves: &[[[f32; 4]; 45]],
    boxes: &[[f32; 6]],
    depth: u32,
    ticks: &[f32],
    rows: &[[f32; 6]],
) -> Found
    requires ticks_len_bound { length ticks.now ≤ max_ticks }
    requires rows_len_bound { length rows.now ≤ max_rows }
    ensures found { Found-Is moves.now (map Bounds3f-of_list boxes.now) depth ticks.now
        (map Bounds3f-of_list rows.now) result }
{
    let mut masks = [0u64; 256];
    for i in 1..ticks.len() {
        let w = Window {
            earlier: ticks[i - 1],
            later: ticks[i],
        };
        let named = reach_window::name_rows(moves, boxes, depth, w, rows);
        let refusal = named.refusal;
        if refusal != 0 {
            return Found {
                masks: [0; 256],
                refusal,
            };
        }
        let names = named.names;
        let next = add_window(masks, i as u32 - 1, names);
        masks = next;
    }
    Found { masks, refusal: 0 }
}

// The places with the first n masks in the first of them. Accuracy: exact.
fn put_masks(masks: [u64; 256], n: usize, old: [u64; 256]) -> [u64; 256]
    requires { n ≤ max_rows }
    ensures left { result ≡ in_front (take n masks) old }
    ensures length { length old ≡ max_rows }
{
    let mut places = old;
    places[..n].copy_from_slice(&masks[..n]);
    places
}

// Puts one mask a row into the first places: bit w is 1 exactly when the row is named in window w, counted from 0, that is where one of the boxes whose union is
// the window's cover, for one of the boom's boxes, meets it. Gives 0, or a refusal's number, which leaves all as they came: 12 for no moves, 14 for no boxes or
// more than 16, 14 for no rows or more than 256, 21 of the ticks, 6 and 7 of the boxes, 6 and 7 of the rows, 8, then window by window and box by box the number
// of that window's cover of that box. The places behind the rows' stay as they came. In a window in which a row isn't named no padded point of the boom is in it.
// Accuracy: encloses.
pub fn reach(
    moves: &[[[f32; 4]; 45]],
    boxes: &[[f32; 6]],
    depth: u32,
    ticks: &[f32],
    rows: &[[f32; 6]],
    masks: &mut [u64; 256],
) -> u8
    ensures refusal { result ≡ Moves-reach_refusal moves.now (map Bounds3f-of_list boxes.now) depth
        ticks.now (map Bounds3f-of_list rows.now) }
    ensures left { masks.new ≡ Moves-reach_left moves.now (map Bounds3f-of_list boxes.now) depth
        ticks.now (map Bounds3f-of_list rows.now) masks.old }
    ensures dry { result ≡ 0 → KeptReachDry moves.now (map Bounds3f-of_list boxes.now)
        ticks.now (map Bounds3f-of_list rows.now) masks.new }
    ensures dry_always { result ≡ 0 → KeptReachDryAlways moves.now (map Bounds3f-of_list boxes.now)
        ticks.now (map Bounds3f-of_list rows.now) masks.new }
    ensures finer { result ≡ 0 → KeptReachFiner moves.now (map Bounds3f-of_list boxes.now) depth
        ticks.now (map Bounds3f-of_list rows.now) masks.new }
    ensures covered { result ≡ 0 → KeptReachCovered moves.now (map Bounds3f-of_list boxes.now) depth
        ticks.now (map Bounds3f-of_list rows.now) masks.new }
{
    if moves.len() == 0 {
        return 12;
    }
    let number = refusal(boxes, depth, ticks, rows);
    if number != 0 {
        return number;
    }
    let found = find(moves, boxes, depth, ticks, rows);
    let met = found.refusal;
    if met != 0 {
        return met;
    }
    let old = *masks;
    let work = found.masks;
    let new = put_masks(work, rows.len(), old);
    *masks = new;
    0
}
