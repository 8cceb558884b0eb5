// The square root of a float, rounded to nearest, ties to even: estimated in floats, found in whole numbers.
#![tactic(auto)]

ghost use Rattle.std.specs.Prelude.{◌≡◌, not, ◌^◌, ◌≤◌, ◌<◌, T};
ghost use Rattle.std.specs.Float.{binary32};
ghost use Rattle.std.specs.Float.Ieee.{is_nan};
ghost use Rattle.square_root.specs.SquareRoot.{isqrt, sqrt};
ghost use Rattle.square_root.specs.means.Steps.{NearestWhole, Widened, SqrtBits};

// The weight of the exponent's field in a float's bits, which is also a significand's leading digit.
const FIELD: u64 = 0x80_0000;

// Half of the bits of 1, lowered so that an estimate starts within 3.5% of the root.
const START: u32 = 0x1fbb_5000;

// The weight of both terms of an estimate's first mean.
const NEARLY_HALF: f32 = 0.49988;

// The whole part of √n by Heron's rule, from 2^24 down: x is too large as long as y, the mean of x and n / x, is smaller.
fn isqrt(n: u64) -> u64
    requires fact_1 { 0 < n }
    requires fact_2 { n < 2 ^ 48 }
    ensures { result ≡ isqrt n }
{
    let mut x: u64 = 0x100_0000;
    let mut y = (x + n / x) / 2;
    while y < x {
        x = y;
        y = (x + n / x) / 2;
    }
    x
}

// The whole number nearest to √n, by Heron's rule. There is no tie: (q + ½)² is no whole number.
fn heron_root(n: u64) -> u64
    requires fact_1 { 0 < n }
    requires fact_2 { n < 2 ^ 48 }
    ensures { NearestWhole n result }
{
    let q = isqrt(n);
    if n <= q * q + q {
        return q;
    }
    q + 1
}

// An estimate of √n, or its neighbour where that is nearer. Nothing is promised about it but that its square fits.
fn corrected(n: u64, estimate: u64) -> u64
    requires fact_1 { 0 < n }
    requires fact_2 { n < 2 ^ 48 }
    requires fact_3 { estimate < 2 ^ 32 }
    ensures { result < 2 ^ 32 }
{
    let square = estimate * estimate;
    if n > square + estimate {
        return estimate + 1;
    }
    if n + estimate <= square {
        return estimate - 1;
    }
    estimate
}

// The whole number nearest to √n, from an estimate that is corrected and then checked: one that is more than one off costs time and nothing else.
fn nearest_root(n: u64, estimate: u64) -> u64
    requires fact_1 { 0 < n }
    requires fact_2 { n < 2 ^ 48 }
    requires fact_3 { estimate < 2 ^ 32 }
    ensures { NearestWhole n result }
{
    let r = corrected(n, estimate);
    let square = r * r;
    if (square < n + r) & (n <= square + r) {
        return r;
    }
    heron_root(n)
}

// How far to shift a significand for 47 or 48 digits, whichever leaves an even exponent to halve.
fn widening_shift(significand: u64, exponent: u64) -> u64
    requires fact_1 { 0 < significand }
    requires fact_2 { significand < 2 ^ 24 }
    requires fact_3 { exponent ≤ 253 }
    ensures { Widened significand exponent result }
{
    // A normal float's significand has 24 digits, which need no count.
    if significand >= FIELD {
        return 23 + exponent % 2;
    }
    let zeros = u64::leading_zeros(significand) as u64;
    zeros + (zeros + exponent) % 2 - 17
}

// The bits of the square root of significand × 2^exponent units of 2^-149, from those of an estimate.
fn sqrt_bits(significand: u64, exponent: u64, estimate: u32) -> u64
    requires fact_1 { 0 < significand }
    requires fact_2 { significand < 2 ^ 24 }
    requires fact_3 { exponent ≤ 253 }
    ensures { SqrtBits significand exponent result }
{
    let shift = widening_shift(significand, exponent);
    // The root's leading digit adds one to the exponent's field, and a carry to 2^24 adds two.
    let field = (149 + exponent - shift) / 2 * FIELD;
    // What the estimate's bits add to the field, modulo 2^32: an estimate may be anything.
    let near = (estimate as u64 + 0x1_0000_0000 - field) % 0x1_0000_0000;
    field + nearest_root(significand << shift, near)
}

// √x by Heron's rule in floats. For x from 2^-125 on it is the root or next to it, which no proof asks for.
fn estimate(x: f32) -> f32
    requires { T (not (is_nan x)) }
{
    // Within 0.0005 of 1, where the squared lengths of unit quaternions are, the mean of 1 and x is near enough.
    let off = x - 1.0;
    if off * off < 0.00000025 {
        return 0.5 + 0.5 * x;
    }
    // Half of the bits have half of the exponent, and a straight line in place of the significand's root.
    let start = f32::from_bits(f32::to_bits(x) % 0x8000_0000 / 2 + START);
    // The mean is never below the root: a little less than the mean is nearer at worst.
    let mean = NEARLY_HALF * start + NEARLY_HALF * x / start;
    0.5 * mean + 0.5 * x / mean
}

// The bits of the estimate, 0 for a NaN.
fn estimate_bits(x: f32) -> u32
    requires { T (not (is_nan x)) }
{
    let root = estimate(x);
    if root != root {
        return 0;
    }
    f32::to_bits(root)
}

// The square root, NaN below zero. Accuracy: correctly rounded, ties to even.
pub fn sqrt(x: f32) -> f32
    ensures value { result ≡ sqrt binary32 x }
{
    if x > 0.0 {
        let infinity = f32::from_bits(0x7f80_0000);
        if x < infinity {
            let d = float_bits::integer_decode(x);
            return f32::from_bits(sqrt_bits(d.significand, d.exponent, estimate_bits(x)) as u32);
        }
        return infinity;
    }
    // Either zero is its own root.
    if x == 0.0 {
        return x;
    }
    0.0 / 0.0
}
