// Sine and cosine, by document 01's table of sines, which a caller with many angles lends. Angles are in units of 2^-28, sines and cosines in units of 2^-30.
#![tactic(auto)]

ghost use Rattle.std.specs.Prelude.{◌≡◌, ℕ, List, false, cond, ◌+◌, ◌-◌, ◌*◌, ◌/◌, ◌%◌, ◌^◌, ◌≤◌, ◌<◌, min, eqb, pos};
ghost use Rattle.std.specs.Float.{binary32};
ghost use Rattle.std.specs.Float.Ieee.{round};
ghost use Rattle.sine_table.specs.Table.{quarter_turn, sine_table};
ghost use Rattle.sine_table.specs.QuarterSine.{entry};
ghost use Rattle.trig.specs.Units.{angle_units, sin_units_over, cos_units_over, nearest_float, with_sign};
ghost use Rattle.trig.specs.SinCos.{sin, cos, sin_over, cos_over};

use std::marker::Model;

const QUARTER_TURN: u64 = 421657428;

// 2^24: from here on an angle is far.
const FAR: f32 = 16777216.0;

// The weight of the exponent's field in a float's bits, which is also a significand's leading digit.
const FIELD: u32 = 0x80_0000;

// The bits of 2^-28, the least angle of one unit, and of the least float whose u is a quarter turn or more. Between them stands the first quarter.
const ONE_UNIT: u32 = 0x3180_0000;

const QUARTER_TURN_BITS: u32 = 0x3fc9_0fdb;

// The sine and the cosine of an angle.
#[derive(Clone, Copy)]
pub struct SinCos {
    pub sin: f32,
    pub cos: f32,
}

// Those of two angles, x and y.
#[derive(Clone, Copy)]
pub struct SinCosPair {
    pub sin_x: f32,
    pub cos_x: f32,
    pub sin_y: f32,
    pub cos_y: f32,
}

// m × 2^j / 2^149 rounded down.
fn shifted(m: u64, j: u64) -> u64
    requires fact_1 { m < 2 ^ 54 }
    requires fact_2 { j ≤ 149 }
    ensures value { result ≡ m * 2 ^ j / 2 ^ 149 }
{
    if j < 95 {
        return 0;
    }
    m >> (149 - j)
}

// u of an angle: |a| × 2^28 rounded down, and 2^52 for a finite a that is far. Accuracy: exact.
pub fn angle_units(a: f32) -> u64
    ensures value { result ≡ min (angle_units a) (2 ^ 52) }
{
    let d = float_bits::integer_decode(a);
    // With such an exponent the significand has 24 digits, so that |a| is 2^24 or more.
    if d.exponent > 149 {
        return 0x10_0000_0000_0000;
    }
    shifted(d.significand << 28, d.exponent)
}

// v, and a quarter turn less v in the quarters of odd number: the angle from 0 to a quarter turn whose sine has the same size.
fn folded(k: u64, v: u64) -> u64
    requires { v ≤ quarter_turn }
    ensures value { result ≡ cond (eqb (k % 2) 1) (quarter_turn - v) v }
{
    if k % 2 == 1 {
        return QUARTER_TURN - v;
    }
    v
}

// The float nearest to n units. Both halves are floats exactly, so that the sum alone is rounded.
fn from_units(n: u32) -> f32
    ensures value { result ≡ round binary32 false n (2 ^ 30) }
{
    (n / 0x1_0000) as f32 * 0.00006103515625
        + (n % 0x1_0000) as f32 * 0.000000000931322574615478515625
}

// The float nearest to n units, negated where the sign says so; a zero is +0.
fn units_float(negative: bool, n: u32) -> f32
    ensures value { result ≡ nearest_float (with_sign negative (pos n)) }
{
    let x = from_units(n);
    if negative & (n > 0) {
        return -x;
    }
    x
}

// The sine of u, negated where the sign says so, and the cosine. A quarter turn on, k is one more and v the same.
fn units_sin_cos(table: &[u32; 2049], negative: bool, u: u64) -> SinCos
    ensures sin { result.sin ≡ nearest_float (with_sign negative (sin_units_over (entry table.now) u)) }
    ensures cos { result.cos ≡ nearest_float (cos_units_over (entry table.now) u) }
{
    let k = u / QUARTER_TURN % 4;
    let h = sine_table::quarter_sin_cos_in(table, folded(k, u % QUARTER_TURN));
    SinCos {
        sin: units_float(negative != (k >= 2), h.sin),
        cos: units_float((k == 1) | (k == 2), h.cos),
    }
}

// u of an angle in the first quarter, by its bits: one shift.
fn first_quarter_units(bits: u32) -> u64
    requires { (0x31800000 ≤ bits) × (bits < 0x3fc90fdb) }
    ensures value { result ≡ (0x800000 + bits % 0x800000) * 32 / 2 ^ (127 - bits / 0x800000) }
{
    ((FIELD + bits % FIELD) as u64 * 32) >> (127 - bits / FIELD)
}

// The sine and the cosine of a u in the first quarter, where both are as the table has them.
fn first_quarter_sin_cos(table: &[u32; 2049], u: u64) -> SinCos
    requires { u < quarter_turn }
    ensures sin { result.sin ≡ nearest_float (sin_units_over (entry table.now) u) }
    ensures cos { result.cos ≡ nearest_float (cos_units_over (entry table.now) u) }
{
    let h = sine_table::quarter_sin_cos_in(table, u);
    SinCos {
        sin: from_units(h.sin),
        cos: from_units(h.cos),
    }
}

// Document 01's sine and cosine, which is the sine a quarter turn on, over the entries of a table; of a far angle both are NaN. Over the sine table they are
// those of `sin_cos` (`sin-over-table`, `cos-over-table`). Accuracy: heuristic, the floats nearest to straight lines between the table's entries.
pub fn sin_cos_in(table: &[u32; 2049], a: f32) -> SinCos
    ensures value { (result.sin ≡ sin_over (entry table.now) a) × (result.cos ≡ cos_over (entry table.now) a) }
{
    if float32::abs(a) < FAR {
        // Nearly every angle of a slice is in the first quarter. There no sign, no quarter and no field has to be told apart.
        let bits = f32::to_bits(a);
        if (bits >= ONE_UNIT) & (bits < QUARTER_TURN_BITS) {
            return first_quarter_sin_cos(table, first_quarter_units(bits));
        }
        let d = float_bits::integer_decode(a);
        return units_sin_cos(table, d.negative, angle_units(a));
    }
    SinCos {
        sin: 0.0 / 0.0,
        cos: 0.0 / 0.0,
    }
}

// The table of sines, made once and lent to all that asks for sines.
#[derive(Drop)]
pub struct Sines {
    table: [u32; 2049],
}

impl Model for Sines {
    ghost Value = { List ℕ };

    ghost view = { λ s. s.table };

    ghost invariant = { λ s. s.table ≡ sine_table };

    ghost inverse = { λ t. record { table = t } };
}

impl Sines {
    // The table. Naming it copies it, so a query does it once. Accuracy: exact.
    pub fn new() -> Sines
        ensures value { result ≡ sine_table }
    {
        Sines {
            table: sine_table::table(),
        }
    }

    // Its entries. Accuracy: exact.
    pub fn entries(&self) -> &[u32; 2049]
        ensures value { result.now ≡ sine_table }
    {
        &self.table
    }

    // Document 01's sine and cosine. Accuracy: heuristic, likewise.
    pub fn sin_cos(&self, a: f32) -> SinCos
        ensures value { (result.sin ≡ sin a) × (result.cos ≡ cos a) }
    {
        sin_cos_in(&self.table, a)
    }
}

// Document 01's sine and cosine. Accuracy: heuristic, likewise.
pub fn sin_cos(a: f32) -> SinCos
    ensures value { (result.sin ≡ sin a) × (result.cos ≡ cos a) }
{
    Sines::new().sin_cos(a)
}

// The sine. Accuracy: heuristic, likewise.
pub fn sin(a: f32) -> f32
    ensures value { result ≡ sin a }
{
    sin_cos(a).sin
}

// The cosine. Accuracy: heuristic, likewise.
pub fn cos(a: f32) -> f32
    ensures value { result ≡ cos a }
{
    sin_cos(a).cos
}

// The sines and the cosines of two angles. Accuracy: heuristic, likewise.
pub fn sin_cos_pair(x: f32, y: f32) -> SinCosPair
    ensures value { (result.sin_x ≡ sin x) × (result.cos_x ≡ cos x) × (result.sin_y ≡ sin y) × (result.cos_y ≡ cos y) }
{
    let sines = Sines::new();
    let p = sines.sin_cos(x);
    let q = sines.sin_cos(y);
    SinCosPair {
        sin_x: p.sin,
        cos_x: p.cos,
        sin_y: q.sin,
        cos_y: q.cos,
    }
}
