// A box in parts along its longest axis.
#![tactic(auto)]

ghost use Rattle.std.specs.Prelude.{ℕ, suc, ◌≤◌, ◌<◌, ◌≡◌, length};
ghost use Rattle.cut_laws.specs.lent_laws.Front.{in_front};
ghost use Rattle.cut_laws.specs.Theorem.{PartsWithin, PartsCover};
ghost use Rattle.cut_laws.specs.Cut.{max_parts, inner_face, face, longest_x, longest_y, with_x, with_y, with_z, Bounds3f-part, Bounds3f-parts, cut_refusal, Bounds3f-cut};

use bounds3::{Bounds3f, Point3f};

const MAX_PARTS: u32 = 16;

// A face between the two ends, at the fraction q. Accuracy: each operation is correctly rounded.
fn inner_face(low: f32, high: f32, q: f32) -> f32
    ensures value { result ≡ inner_face low high q }
{
    float32::min(low + (high - low) * q, high)
}

// Face i of n. Accuracy: each operation is correctly rounded.
fn face(low: f32, high: f32, n: u32, i: u32) -> f32
    ensures value { 0 < n → n ≤ max_parts → i ≤ n → result ≡ face low high n i }
{
    if i == 0 {
        return low;
    }
    if i == n {
        return high;
    }
    let k = float_bits::from_fixed(i as u64, 0);
    let m = float_bits::from_fixed(n as u64, 0);
    inner_face(low, high, k / m)
}

// Whether x is the longest axis, the first of equals. Accuracy: of the rounded widths, exact.
fn longest_x(b: Bounds3f) -> bool
    ensures value { result ≡ longest_x b }
{
    let l = b.p_min;
    let h = b.p_max;
    let x = h.x - l.x;
    !((x < h.y - l.y) | (x < h.z - l.z))
}

// Whether y is no shorter than z. Accuracy: of the rounded widths, exact.
fn longest_y(b: Bounds3f) -> bool
    ensures value { result ≡ longest_y b }
{
    let l = b.p_min;
    let h = b.p_max;
    !(h.y - l.y < h.z - l.z)
}

// The box from low to high on one axis, and as b on the others. Accuracy: exact.
fn with_x(b: Bounds3f, low: f32, high: f32) -> Bounds3f
    ensures value { result ≡ with_x b low high }
{
    let l = b.p_min;
    let h = b.p_max;
    Bounds3f {
        p_min: Point3f {
            x: low,
            y: l.y,
            z: l.z,
        },
        p_max: Point3f {
            x: high,
            y: h.y,
            z: h.z,
        },
    }
}

// The same along y. Accuracy: exact.
fn with_y(b: Bounds3f, low: f32, high: f32) -> Bounds3f
    ensures value { result ≡ with_y b low high }
{
    let l = b.p_min;
    let h = b.p_max;
    Bounds3f {
        p_min: Point3f {
            x: l.x,
            y: low,
            z: l.z,
        },
        p_max: Point3f {
            x: h.x,
            y: high,
            z: h.z,
        },
    }
}

// And along z. Accuracy: exact.
fn with_z(b: Bounds3f, low: f32, high: f32) -> Bounds3f
    ensures value { result ≡ with_z b low high }
{
    let l = b.p_min;
    let h = b.p_max;
    Bounds3f {
        p_min: Point3f {
            x: l.x,
            y: l.y,
            z: low,
        },
        p_max: Point3f {
            x: h.x,
            y: h.y,
            z: high,
        },
    }
}

// Part i of n, where next is i + 1. Accuracy: each operation is correctly rounded.
fn part(b: Bounds3f, n: u32, i: u32, next: u32) -> Bounds3f
    ensures value { 0 < n → n ≤ max_parts → i < n → next ≡ suc i → result ≡ Bounds3f-part b n i }
{
    let l = b.p_min;
    let h = b.p_max;
    if longest_x(b) {
        let f = face(l.x, h.x, n, i);
        let g = face(l.x, h.x, n, next);
        return with_x(b, f, g);
    }
    if longest_y(b) {
        let f = face(l.y, h.y, n, i);
        let g = face(l.y, h.y, n, next);
        return with_y(b, f, g);
    }
    let f = face(l.z, h.z, n, i);
    let g = face(l.z, h.z, n, next);
    with_z(b, f, g)
}

// 14 for no parts or more than 16, then 6 and 7 of the box; 0 is none. Accuracy: exact.
fn cut_refusal(b: Bounds3f, n: u32) -> u8
    ensures value { result ≡ cut_refusal b n }
{
    if (n == 0) | (n > MAX_PARTS) {
        return 14;
    }
    bounds_query::refusal(b)
}

// The places with the n parts in the first of them, for 1 to 16 parts. Accuracy: each operation is correctly rounded.
fn put_parts(b: Bounds3f, n: u32, old: [[f32; 6]; 16]) -> [[f32; 6]; 16]
    requires { n ≤ max_parts }
    ensures left { result ≡ in_front (Bounds3f-parts b n n) old }
    ensures length { length old ≡ max_parts }
{
    let mut parts = old;
    for i in 0..n {
        parts[i as usize] = lent_arrays::bounds_values(part(b, n, i, i + 1));
    }
    parts
}

// Puts the n parts of a box along its longest axis into the first of the lent places, and gives 0, or a refusal's number, which leaves all as they came: 14 for no
// parts or more than 16, then 6 and 7 of the box. The places behind the parts stay as they came. Each part lies in the box, and every point of the box is inside
// one. Accuracy: each operation is correctly rounded.
pub fn cut(b: Bounds3f, n: u32, parts: &mut [[f32; 6]; 16]) -> u8
    ensures refusal { result ≡ cut_refusal b n }
    ensures left { parts.new ≡ Bounds3f-cut b n parts.old }
    ensures parts_within { result ≡ 0 → PartsWithin b n parts.new }
    ensures parts_cover { result ≡ 0 → PartsCover b n parts.new }
{
    let number = cut_refusal(b, n);
    if number != 0 {
        return number;
    }
    let old = *parts;
    let new = put_parts(b, n, old);
    *parts = new;
    0
}
