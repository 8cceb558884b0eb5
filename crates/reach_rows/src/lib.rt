// Which rows are named by boxes: those that one of them meets, beside those that are named already.
#![tactic(auto)]

ghost use Rattle.std.specs.Prelude.{◌≡◌, ◌||◌, map};
ghost use Rattle.bounds3.specs.List.{Bounds3f-of_list};
ghost use Rattle.reach_rows.specs.Named.{met_by, named_rows};
ghost use Rattle.reach_rows.specs.means.Around.{Around};

use bounds3::Bounds3f;

const MAX_ROWS: usize = 256;

// A box that meets every row that one of the boxes meets: their union. Accuracy: exact.
fn around(boxes: &[[f32; 6]]) -> Bounds3f
    ensures around { Around (map Bounds3f-of_list boxes.now) result }
{
    let mut union = Bounds3f::default();
    for b in boxes {
        let next = union.union_bounds(lent_arrays::bounds(b));
        union = next;
    }
    union
}

// Whether one of the boxes meets the row, touching included. Accuracy: exact.
fn met_by(boxes: &[[f32; 6]], row: Bounds3f) -> bool
    ensures value { result ≡ met_by (map Bounds3f-of_list boxes.now) row }
{
    boxes
        .iter()
        .any(|b| bounds_overlap::meets(lent_arrays::bounds(b), row))
}

// Whether the row is named, or one of the boxes, which `union` is around, meets it. Accuracy: exact.
fn is_named(named: bool, union: Bounds3f, boxes: &[[f32; 6]], row: Bounds3f) -> bool
    requires { Around (map Bounds3f-of_list boxes.now) union }
    ensures value { result ≡ (named || met_by (map Bounds3f-of_list boxes.now) row) }
{
    if named {
        return true;
    }
    if !bounds_overlap::meets(union, row) {
        return false;
    }
    met_by(boxes, row)
}

// Names the rows that one of the boxes meets, beside those that are named already; nothing is done where there are more than 256 rows. Accuracy: exact.
pub fn name_rows(boxes: &[[f32; 6]], rows: &[[f32; 6]], names: &mut [bool; 256])
    ensures left { names.new
        ≡ named_rows (map Bounds3f-of_list boxes.now) (map Bounds3f-of_list rows.now) names.old }
{
    if rows.len() > MAX_ROWS {
        return;
    }
    let union = around(boxes);
    for (i, row) in rows.iter().enumerate() {
        names[i] = is_named(names[i], union, boxes, lent_arrays::bounds(row));
    }
}
