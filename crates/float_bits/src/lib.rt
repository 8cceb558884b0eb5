// A float as whole numbers, and a whole number as the nearest float. Each is stated for all arguments.
#![tactic(auto)]

ghost use Rattle.std.specs.Prelude.{◌≡◌, false, ◌%◌, ◌^◌, pos};
ghost use Rattle.std.specs.Float.{binary32};
ghost use Rattle.std.specs.Float.Ieee.{round, of_int};
ghost use Rattle.std.specs.Float.Ieee.Nearest.{closest};
ghost use Rattle.float_bits.specs.Decode.{integer_decode};

// The weight of the sign in a float's bits.
const SIGN: u32 = 0x8000_0000;

// The weight of the exponent's field, which is also a significand's leading digit.
const FIELD: u32 = 0x80_0000;

// The field of an infinity: all ones.
const INFINITE: u32 = 255;

// A finite float is its sign times significand × 2^exponent units of 2^-149.
#[derive(Clone, Copy)]
pub struct Decoded {
    pub negative: bool,
    pub significand: u64,
    pub exponent: u64,
}

// The parts of a float, read from its bits; those of an infinity have its sign and zeros, those of a NaN are zeros. Accuracy: exact.
pub fn integer_decode(x: f32) -> Decoded
    ensures value { result ≡ integer_decode x }
{
    if x != x {
        return Decoded {
            negative: false,
            significand: 0,
            exponent: 0,
        };
    }
    let bits = f32::to_bits(x);
    let negative = bits >= SIGN;
    let field = bits % SIGN / FIELD;
    let digits = bits % FIELD;
    if field == INFINITE {
        return Decoded {
            negative,
            significand: 0,
            exponent: 0,
        };
    }
    // A field of 0 has no leading digit, and counts as a field of 1.
    if field == 0 {
        return Decoded {
            negative,
            significand: digits as u64,
            exponent: 0,
        };
    }
    Decoded {
        negative,
        significand: (FIELD + digits) as u64,
        exponent: (field - 1) as u64,
    }
}

// w / 2^40 to the nearest whole number, ties to even: a w of 64 digits keeps its 24 leading ones.
fn leading_24_digits(w: u64) -> u64
    ensures value { result ≡ closest w (2 ^ 40) }
{
    let q = w / 0x100_0000_0000;
    // The rest carries from above a half on, and at a half where q is odd. A branch here would be mispredicted for half of all numbers.
    q + (w % 0x100_0000_0000 + 0x7f_ffff_ffff + q % 2) / 0x100_0000_0000
}

// n / 2^d, d taken modulo 64 as a shift's count is. Accuracy: correctly rounded, ties to even.
pub fn from_fixed(n: u64, d: u32) -> f32
    ensures value { result ≡ round binary32 false n (2 ^ (d % 64)) }
{
    if n == 0 {
        return 0.0;
    }
    let zeros = u64::leading_zeros(n);
    // n × 2^zeros has 64 digits. The 24 that stay count 2^(40 - zeros - d), which is 2^(189 - zeros - d) units of 2^-149.
    // Their leading digit adds one to the exponent's field, and a carry to 2^24 adds two.
    let exponent = 189 - zeros - d % 64;
    f32::from_bits(exponent * FIELD + leading_24_digits(n << zeros) as u32)
}

// A whole number. Accuracy: correctly rounded, ties to even.
pub fn from_u64(n: u64) -> f32
    ensures value { result ≡ of_int binary32 (pos n) }
{
    from_fixed(n, 0)
}
