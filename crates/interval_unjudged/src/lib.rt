// Operations of document 01's cover on intervals, of which none is judged. Least and greatest are taken by a comparison alone, which is right where no NaN is
// compared: where the operands of a product are finite, it is the product of `interval`. One test of what comes out may then stand for judging every interval
// on the way.
#![tactic(auto)]

ghost use Rattle.std.specs.Prelude.{◌≡◌};
ghost use Rattle.interval.specs.Enclosure.{Interval-add_enclosure, Interval-sub_enclosure, Interval-sqrt_enclosure};
ghost use Rattle.interval_unjudged.specs.means.Ordered.{lesser, greater, Interval-of_four_ordered};
ghost use Rattle.interval_unjudged.specs.means.Ordered.{Interval-mul_ordered, Interval-div_ordered, Interval-ends_sum};

use interval::Interval;

// The sum. Accuracy: encloses.
pub fn add_enclosure(x: Interval, y: Interval) -> Interval
    ensures value { result ≡ Interval-add_enclosure x y }
{
    Interval {
        low: x.low + y.low,
        high: x.high + y.high,
    }
}

// The difference. Accuracy: encloses.
pub fn sub_enclosure(x: Interval, y: Interval) -> Interval
    ensures value { result ≡ Interval-sub_enclosure x y }
{
    Interval {
        low: x.low - y.high,
        high: x.high - y.low,
    }
}

fn lesser(x: f32, y: f32) -> f32
    ensures value { result ≡ lesser x y }
{
    if y < x { y } else { x }
}

fn greater(x: f32, y: f32) -> f32
    ensures value { result ≡ greater x y }
{
    if x < y { y } else { x }
}

// From the least to the greatest of four.
fn of_four_ordered(a: f32, b: f32, c: f32, d: f32) -> Interval
    ensures value { result ≡ Interval-of_four_ordered a b c d }
{
    Interval {
        low: lesser(lesser(a, b), lesser(c, d)),
        high: greater(greater(a, b), greater(c, d)),
    }
}

// The product. Accuracy: encloses, for finite ends.
pub fn mul_ordered(x: Interval, y: Interval) -> Interval
    ensures value { result ≡ Interval-mul_ordered x y }
{
    of_four_ordered(
        x.low * y.low,
        x.high * y.low,
        x.low * y.high,
        x.high * y.high,
    )
}

// The quotient. Accuracy: encloses, for finite ends and a positive divisor.
pub fn div_ordered(x: Interval, y: Interval) -> Interval
    ensures value { result ≡ Interval-div_ordered x y }
{
    of_four_ordered(
        x.low / y.low,
        x.high / y.low,
        x.low / y.high,
        x.high / y.high,
    )
}

// The square root. Accuracy: encloses, for positive ends.
pub fn sqrt_enclosure(x: Interval) -> Interval
    ensures value { result ≡ Interval-sqrt_enclosure x }
{
    Interval {
        low: square_root::sqrt(x.low),
        high: square_root::sqrt(x.high),
    }
}

// The sum of both ends: where it is finite, they are. Accuracy: correctly rounded.
pub fn ends_sum(x: Interval) -> f32
    ensures value { result ≡ Interval-ends_sum x }
{
    x.low + x.high
}
