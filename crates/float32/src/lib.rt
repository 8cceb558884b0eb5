// Numbers that 32-bit floats have no operator for: absolute value, least and greatest of two, linear interpolation, clamp,
// one of two by a test, and whether a float is finite. Each is stated for all arguments, NaN and infinities included.
#![tactic(auto)]

ghost use Rattle.std.specs.Prelude.{◌≡◌, cond};
ghost use Rattle.std.specs.Float.Ieee.Scale.{finite};
ghost use Rattle.float32.specs.Abs.{abs};
ghost use Rattle.float32.specs.MinMax.{min_num, max_num};
ghost use Rattle.float32.specs.Lerp.{lerp};
ghost use Rattle.float32.specs.Clamp.{clamp};

// x where the test holds, and y otherwise. Accuracy: exact.
pub fn select(test: bool, x: f32, y: f32) -> f32
    ensures value { result ≡ cond test x y }
{
    if test { x } else { y }
}

// The absolute value. Accuracy: exact.
pub fn abs(x: f32) -> f32
    ensures value { result ≡ abs x }
{
    // The sign is the top bit. A NaN has no bits that a contract could name.
    if x == x {
        return f32::from_bits(f32::to_bits(x) % 0x8000_0000);
    }
    x
}

// The least of two: the first unless the other is strictly below it; a NaN gives the other. Accuracy: exact.
pub fn min(x: f32, y: f32) -> f32
    ensures value { result ≡ min_num x y }
{
    if x != x {
        return y;
    }
    if y < x { y } else { x }
}

// The greatest of two: the first unless the other is strictly above it; a NaN gives the other. Accuracy: exact.
pub fn max(x: f32, y: f32) -> f32
    ensures value { result ≡ max_num x y }
{
    if x != x {
        return y;
    }
    if x < y { y } else { x }
}

// (1 - t) a + t b. Accuracy: each of the four operations is correctly rounded.
pub fn lerp(t: f32, a: f32, b: f32) -> f32
    ensures value { result ≡ lerp t a b }
{
    (1.0 - t) * a + t * b
}

// a where v is below a, b where v is above b, and v otherwise. Accuracy: exact.
pub fn clamp(v: f32, a: f32, b: f32) -> f32
    ensures value { result ≡ clamp v a b }
{
    if v < a {
        return a;
    }
    if v > b { b } else { v }
}

// Whether x is neither NaN nor an infinity. Accuracy: exact.
pub fn is_finite(x: f32) -> bool
    ensures value { result ≡ finite x }
{
    let infinity = f32::from_bits(0x7f80_0000);
    if x < infinity {
        return -infinity < x;
    }
    false
}
