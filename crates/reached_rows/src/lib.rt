// Which rows a boom reaches: those of up to 256 rows, each a box, that a cover meets, listed in lent places.
#![tactic(auto)]

ghost use Rattle.std.specs.Prelude.{◌≤◌, ◌≡◌, map, length, take};
ghost use Rattle.bounds3.specs.List.{Bounds3f-of_list};
ghost use Rattle.bounds_query.specs.Query.{Bounds3f-refusal};
ghost use Rattle.window_pairs.specs.motion_chain.Chain.{stage};
ghost use Rattle.reached_rows.specs.Rows.{max_rows, rows_refusal, met_from, reached_rows, rows_left};
ghost use Rattle.reached_rows.specs.Theorem.{RowsApart, KeptRowsApart};
ghost use Rattle.reached_rows.specs.means.Named.{Named-Holds};

use bounds3::Bounds3f;

const MAX_ROWS: usize = 256;

// How many rows are named, and a refusal's number, 0 for none.
#[repr(C)]
#[derive(Clone, Copy)]
pub struct Reached {
    pub count: usize,
    pub refusal: u8,
}

// The places of the named rows in front, 0 behind them; and their count.
#[derive(Clone, Copy)]
struct Named {
    places: [u32; 256],
    count: usize,
}

// 6 or 7 of the first row that is refused, 0 for none. Accuracy: exact.
fn first_refusal(rows: &[[f32; 6]]) -> u8
    ensures value { result ≡ stage Bounds3f-refusal (map Bounds3f-of_list rows.now) }
{
    for row in rows {
        let number = bounds_query::refusal(lent_arrays::bounds(row));
        if number != 0 {
            return number;
        }
    }
    0
}

// 14 for no rows or more than 256, then 6 and 7 of the cover, then 6 or 7 of the first row that is refused, 0 for none. Accuracy: exact.
fn refusal(cover: Bounds3f, rows: &[[f32; 6]]) -> u8
    ensures value { result ≡ rows_refusal cover (map Bounds3f-of_list rows.now) }
{
    let n = rows.len();
    if (n == 0) | (MAX_ROWS < n) {
        return 14;
    }
    let number = bounds_query::refusal(cover);
    if number != 0 {
        return number;
    }
    first_refusal(rows)
}

// The rows that the cover meets, touching included, in rising order. Accuracy: exact.
fn name_rows(cover: Bounds3f, rows: &[[f32; 6]]) -> Named
    requires { length rows.now ≤ max_rows }
    ensures named { Named-Holds (met_from cover 0 (map Bounds3f-of_list rows.now)) result.places result.count }
{
    let mut places = [0u32; 256];
    let mut count = 0;
    for (i, row) in rows.iter().enumerate() {
        if bounds_overlap::meets(cover, lent_arrays::bounds(row)) {
            places[count] = i as u32;
            count += 1;
        }
    }
    Named { places, count }
}

// Puts the places, counted from 0, of the rows that the cover meets, touching included, into the first of the lent places, 0 into the others, and gives how
// many there are. Refused with 14 for no rows or more than 256, then with 6 and 7 of the cover, then with 6 or 7 of the first refused row in order; a refusal
// leaves the places as they came. A row that is not named holds no padded point of a boom whose cover this is. Accuracy: exact.
pub fn list_rows(cover: Bounds3f, rows: &[[f32; 6]], places: &mut [u32; 256]) -> Reached
    ensures refusal { result.refusal ≡ rows_refusal cover (map Bounds3f-of_list rows.now) }
    ensures count { result.count ≡ length (reached_rows cover (map Bounds3f-of_list rows.now)) }
    ensures left { places.new ≡ rows_left cover (map Bounds3f-of_list rows.now) places.old }
    ensures apart { result.refusal ≡ 0 → RowsApart cover (map Bounds3f-of_list rows.now) (take result.count places.new) }
    ensures kept_apart { result.refusal ≡ 0 → KeptRowsApart cover (map Bounds3f-of_list rows.now) (take result.count places.new) }
{
    let number = refusal(cover, rows);
    if number != 0 {
        return Reached {
            count: 0,
            refusal: number,
        };
    }
    let named = name_rows(cover, rows);
    let met = named.places;
    *places = met;
    Reached {
        count: named.count,
        refusal: 0,
    }
}
