// The arc cosine, by document 01's table of sines: the least angle whose cosine is not above a number, found by halving. Angles are in units of 2^-28, cosines
// in units of 2^-30, which are carried 2^30 more than they are.
#![tactic(auto)]

ghost use Rattle.std.specs.Prelude.{◌≡◌, true, ◌+◌, ◌*◌, ◌/◌, ◌^◌, ◌≤◌, ◌<◌};
ghost use Rattle.std.specs.Float.Ieee.{minus};
ghost use Rattle.sine_table.specs.Table.{quarter_turn};
ghost use Rattle.trig.specs.Units.{cos_units};
ghost use Rattle.arc_cosine.specs.Acos.{in_domain, least_angle, floor_units, acos};
ghost use Rattle.trig.specs.Biased.{biased};
ghost use Rattle.arc_cosine.specs.Search.{Bracket-Inside, Bracket-Carries, Bracket-halve, search_cosines, acos_cosines};

use trig::Sines;

const QUARTER_TURN: u64 = 421657428;

const HALF_TURN: u64 = 843314856;

// 1 in units of 2^-30.
const ONE: u64 = 1073741824;

// An arc cosine, and how many cosines were worked out for it.
#[derive(Clone, Copy)]
pub struct ArcCosine {
    pub angle: f32,
    pub cosines: u32,
}

// The least angle that passes, likewise, in units.
#[derive(Clone, Copy)]
struct LeastAngle {
    angle: u64,
    cosines: u32,
}

// The search for it: the angle lies above `low` and is at most `high`, unless `low` passes itself.
// The cosine of `low`, biased, is carried along.
#[derive(Clone, Copy)]
struct Bracket {
    low: u64,
    high: u64,
    cos_low: u64,
}

// The cosine of u, biased. Cosines are worked out here alone, and each raises the count that is lent for them.
fn counted_cos(sines: &Sines, u: u64, cosines: &mut u32) -> u64
    requires u_bound { u ≤ 2 * quarter_turn }
    requires cosines_bound { cosines.old < 31 }
    ensures value { result ≡ biased (cos_units u) }
    ensures counted { cosines.new ≡ cosines.old + 1 }
{
    *cosines = *cosines + 1;
    if u < QUARTER_TURN {
        return ONE + sine_table::quarter_sine_in(sines.entries(), QUARTER_TURN - u);
    }
    ONE - sine_table::quarter_sine_in(sines.entries(), u - QUARTER_TURN)
}

// The half of a bracket in which the least angle lies, by the cosine in the middle.
fn halve(sines: &Sines, w: u64, b: Bracket, cosines: &mut u32) -> Bracket
    requires inside { Bracket-Inside b }
    requires carried { Bracket-Carries b }
    requires cosines_bound { cosines.old < 31 }
    ensures value { result ≡ Bracket-halve w b }
    ensures carried { Bracket-Carries result }
    ensures counted { cosines.new ≡ cosines.old + 1 }
{
    let middle = (b.low + b.high) / 2;
    let cosine = counted_cos(sines, middle, cosines);
    if cosine > w {
        return Bracket {
            low: middle,
            high: b.high,
            cos_low: cosine,
        };
    }
    Bracket {
        low: b.low,
        high: middle,
        cos_low: b.cos_low,
    }
}

// The least angle in 0 to a half turn whose cosine is at most w, both biased.
fn least_angle(sines: &Sines, w: u64) -> LeastAngle
    ensures angle { result.angle ≡ least_angle (minus w (2 ^ 30)) }
    ensures cosines { result.cosines ≡ search_cosines w }
{
    let mut cosines = 0;
    // The cosine of a half turn, -1, is at most w whatever w is.
    let mut b = Bracket {
        low: 0,
        high: HALF_TURN,
        cos_low: counted_cos(sines, 0, &mut cosines),
    };
    while (b.cos_low > w) & (b.high - b.low > 1) {
        let half = halve(sines, w, b, &mut cosines);
        b = half;
    }
    if b.cos_low > w {
        return LeastAngle {
            angle: b.low + 1,
            cosines,
        };
    }
    LeastAngle {
        angle: b.low,
        cosines,
    }
}

// m × 2^j / 2^149 rounded down, as in `trig`, where it stands for angles.
fn shifted(m: u64, j: u64) -> u64
    requires fact_1 { m < 2 ^ 54 }
    requires fact_2 { j ≤ 149 }
    ensures value { result ≡ m * 2 ^ j / 2 ^ 149 }
{
    if j < 95 {
        return 0;
    }
    m >> (149 - j)
}

// c × 2^30 rounded down, biased.
fn biased_floor(c: f32) -> u64
    requires { in_domain c ≡ true }
    ensures value { minus result (2 ^ 30) ≡ floor_units c }
{
    let d = float_bits::integer_decode(c);
    let n = d.significand << 30;
    if d.negative & (n > 0) {
        return ONE - 1 - shifted(n - 1, d.exponent);
    }
    ONE + shifted(n, d.exponent)
}

// Document 01's arc cosine; outside -1 to 1 NaN. With it how many cosines were worked out: at most 31, outside -1 to 1 none. Accuracy: heuristic, the float
// nearest to the least angle whose cosine by the table is not above c.
pub fn acos_counted(c: f32) -> ArcCosine
    ensures value { (result.angle ≡ acos c) × (result.cosines ≡ acos_cosines c) }
    ensures most { result.cosines ≤ 31 }
{
    if (-1.0 <= c) & (c <= 1.0) {
        let sines = Sines::new();
        let least = least_angle(&sines, biased_floor(c));
        return ArcCosine {
            angle: float_bits::from_fixed(least.angle, 28),
            cosines: least.cosines,
        };
    }
    ArcCosine {
        angle: 0.0 / 0.0,
        cosines: 0,
    }
}

// The arc cosine: the angle of `acos_counted`, for which as many cosines are worked out. Accuracy: heuristic, likewise.
pub fn acos(c: f32) -> f32
    ensures value { result ≡ acos c }
    ensures most { acos_cosines c ≤ 31 }
{
    acos_counted(c).angle
}
