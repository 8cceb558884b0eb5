// Four intervals side by side, of four neighbouring slices of dt: an operation on each of them. None is judged.
// Ends are kept together and every place is a constant, so that the compiler takes four floats in one instruction.
#![tactic(auto)]

ghost use Rattle.std.specs.Prelude.{◌≡◌};
ghost use Rattle.std.specs.Float.{binary32};
ghost use Rattle.square_root.specs.SquareRoot.{sqrt};
ghost use Rattle.interval.specs.float32.Operators.{◌⊕◌, ◌⊖◌, ◌⊗◌, ◌⊘◌, one};
ghost use Rattle.interval.specs.Interval.{Interval-point};
ghost use Rattle.interval.specs.Enclosure.{Interval-add_enclosure, Interval-sub_enclosure, Interval-sqrt_enclosure};
ghost use Rattle.interval_unjudged.specs.means.Ordered.{lesser, greater, Interval-mul_ordered, Interval-div_ordered};
ghost use Rattle.lanes.specs.means.Lanes.{Lane, at, four, zip4, least_of, greatest_of, scaled, Interval-doubled, Interval-join, Interval-widened};
ghost use Rattle.lanes.specs.means.Lanes.{Lanes-lane, Lanes-of, Lanes-map, Lanes-zip, Lanes-span, Lanes-chosen, Lanes-joined};

use interval::Interval;

// The low ends and the high ends of four intervals.
#[derive(Clone, Copy)]
pub struct Lanes {
    pub low: [f32; 4],
    pub high: [f32; 4],
}

// The lesser of two by one comparison. Accuracy: exact.
fn lesser(x: f32, y: f32) -> f32
    ensures value { result ≡ lesser x y }
{
    if y < x { y } else { x }
}

// The greater of two by one comparison. Accuracy: exact.
fn greater(x: f32, y: f32) -> f32
    ensures value { result ≡ greater x y }
{
    if x < y { y } else { x }
}

// One number in all four places. Accuracy: exact.
fn all(x: f32) -> [f32; 4]
    ensures value { result ≡ four (λ (k : Lane). x) }
{
    [x, x, x, x]
}

// Four products. Accuracy: each is correctly rounded.
fn mul4(x: [f32; 4], y: [f32; 4]) -> [f32; 4]
    ensures value { result ≡ zip4 ◌⊗◌ x y }
{
    [x[0] * y[0], x[1] * y[1], x[2] * y[2], x[3] * y[3]]
}

// Four sums. Accuracy: each is correctly rounded.
fn add4(x: [f32; 4], y: [f32; 4]) -> [f32; 4]
    ensures value { result ≡ zip4 ◌⊕◌ x y }
{
    [x[0] + y[0], x[1] + y[1], x[2] + y[2], x[3] + y[3]]
}

// Four differences. Accuracy: each is correctly rounded.
fn sub4(x: [f32; 4], y: [f32; 4]) -> [f32; 4]
    ensures value { result ≡ zip4 ◌⊖◌ x y }
{
    [x[0] - y[0], x[1] - y[1], x[2] - y[2], x[3] - y[3]]
}

// The lesser, place by place. Accuracy: exact.
fn lesser4(x: [f32; 4], y: [f32; 4]) -> [f32; 4]
    ensures value { result ≡ zip4 lesser x y }
{
    [
        lesser(x[0], y[0]),
        lesser(x[1], y[1]),
        lesser(x[2], y[2]),
        lesser(x[3], y[3]),
    ]
}

// The greater, place by place. Accuracy: exact.
fn greater4(x: [f32; 4], y: [f32; 4]) -> [f32; 4]
    ensures value { result ≡ zip4 greater x y }
{
    [
        greater(x[0], y[0]),
        greater(x[1], y[1]),
        greater(x[2], y[2]),
        greater(x[3], y[3]),
    ]
}

// The sum. Accuracy: encloses.
pub fn add(a: Lanes, b: Lanes) -> Lanes
    ensures value { result ≡ Lanes-zip Interval-add_enclosure a b }
{
    let al = a.low;
    let ah = a.high;
    let bl = b.low;
    let bh = b.high;
    let low = add4(al, bl);
    let high = add4(ah, bh);
    Lanes { low, high }
}

// The difference. Accuracy: encloses.
pub fn sub(a: Lanes, b: Lanes) -> Lanes
    ensures value { result ≡ Lanes-zip Interval-sub_enclosure a b }
{
    let al = a.low;
    let ah = a.high;
    let bl = b.low;
    let bh = b.high;
    let low = sub4(al, bh);
    let high = sub4(ah, bl);
    Lanes { low, high }
}

// The product. Accuracy: encloses, for finite ends.
pub fn mul(a: Lanes, b: Lanes) -> Lanes
    ensures value { result ≡ Lanes-zip Interval-mul_ordered a b }
{
    let al = a.low;
    let ah = a.high;
    let bl = b.low;
    let bh = b.high;
    let p = mul4(al, bl);
    let q = mul4(ah, bl);
    let s = mul4(al, bh);
    let t = mul4(ah, bh);
    let low = lesser4(lesser4(p, q), lesser4(s, t));
    let high = greater4(greater4(p, q), greater4(s, t));
    Lanes { low, high }
}

// From the lesser to the greater. Accuracy: exact.
fn span(x: [f32; 4], y: [f32; 4]) -> Lanes
    ensures value { result ≡ Lanes-span x y }
{
    let low = lesser4(x, y);
    let high = greater4(x, y);
    Lanes { low, high }
}

// A number times an interval: from the lesser to the greater of the products by its two ends. Accuracy: encloses, for finite ends.
pub fn times(x: f32, a: Lanes) -> Lanes
    ensures value { result ≡ Lanes-map (Interval-mul_ordered (Interval-point x)) a }
{
    let al = a.low;
    let ah = a.high;
    let by = all(x);
    let l = mul4(by, al);
    let h = mul4(by, ah);
    span(l, h)
}

// An interval times a number, likewise. Accuracy: encloses, for finite ends.
pub fn scaled(a: Lanes, x: f32) -> Lanes
    ensures value { result ≡ Lanes-map (scaled x) a }
{
    let al = a.low;
    let ah = a.high;
    let by = all(x);
    let l = mul4(al, by);
    let h = mul4(ah, by);
    span(l, h)
}

// Twice an interval, by both ends as they stand. Accuracy: encloses, for ends in order.
pub fn twice(a: Lanes) -> Lanes
    ensures value { result ≡ Lanes-map Interval-doubled a }
{
    let al = a.low;
    let ah = a.high;
    let by = all(2.0);
    let low = mul4(by, al);
    let high = mul4(by, ah);
    Lanes { low, high }
}

// One less an interval. Accuracy: encloses.
pub fn one_minus(a: Lanes) -> Lanes
    ensures value { result ≡ Lanes-map (Interval-sub_enclosure (Interval-point one)) a }
{
    let al = a.low;
    let ah = a.high;
    let one = all(1.0);
    let low = sub4(one, ah);
    let high = sub4(one, al);
    Lanes { low, high }
}

// The union, where no end is a NaN. Accuracy: exact.
pub fn join(a: Lanes, b: Lanes) -> Lanes
    ensures value { result ≡ Lanes-zip Interval-join a b }
{
    let al = a.low;
    let ah = a.high;
    let bl = b.low;
    let bh = b.high;
    let low = lesser4(al, bl);
    let high = greater4(ah, bh);
    Lanes { low, high }
}

// Four quotients. Accuracy: each is correctly rounded.
fn div4(x: [f32; 4], y: [f32; 4]) -> [f32; 4]
    ensures value { result ≡ zip4 ◌⊘◌ x y }
{
    [x[0] / y[0], x[1] / y[1], x[2] / y[2], x[3] / y[3]]
}

// The quotient. Accuracy: encloses, for finite ends and a positive divisor.
pub fn div(a: Lanes, b: Lanes) -> Lanes
    ensures value { result ≡ Lanes-zip Interval-div_ordered a b }
{
    let al = a.low;
    let ah = a.high;
    let bl = b.low;
    let bh = b.high;
    let p = div4(al, bl);
    let q = div4(ah, bl);
    let s = div4(al, bh);
    let t = div4(ah, bh);
    let low = lesser4(lesser4(p, q), lesser4(s, t));
    let high = greater4(greater4(p, q), greater4(s, t));
    Lanes { low, high }
}

// Four square roots. Accuracy: each is correctly rounded.
fn sqrt4(x: [f32; 4]) -> [f32; 4]
    ensures value { result ≡ four (λ (k : Lane). sqrt binary32 (at k x)) }
{
    [
        square_root::sqrt(x[0]),
        square_root::sqrt(x[1]),
        square_root::sqrt(x[2]),
        square_root::sqrt(x[3]),
    ]
}

// The square root. Accuracy: encloses, for positive ends.
pub fn sqrt(a: Lanes) -> Lanes
    ensures value { result ≡ Lanes-map Interval-sqrt_enclosure a }
{
    let l = a.low;
    let h = a.high;
    let low = sqrt4(l);
    let high = sqrt4(h);
    Lanes { low, high }
}

// The least of four, in pairs. Accuracy: exact.
fn least(x: [f32; 4]) -> f32
    ensures value { result ≡ least_of x }
{
    lesser(lesser(x[0], x[1]), lesser(x[2], x[3]))
}

// The greatest of four, in pairs. Accuracy: exact.
fn greatest(x: [f32; 4]) -> f32
    ensures value { result ≡ greatest_of x }
{
    greater(greater(x[0], x[1]), greater(x[2], x[3]))
}

// The union of the four, where no end is a NaN. Accuracy: exact.
pub fn joined(a: Lanes) -> Interval
    ensures value { result ≡ Lanes-joined a }
{
    let l = a.low;
    let h = a.high;
    let low = least(l);
    let high = greatest(h);
    Interval { low, high }
}

// One interval in all four lanes. Accuracy: exact.
pub fn repeated(x: Interval) -> Lanes
    ensures value { result ≡ Lanes-of (λ (k : Lane). x) }
{
    let low = all(x.low);
    let high = all(x.high);
    Lanes { low, high }
}

// Each interval with its low end lowered and its high end raised by a number of its own. Accuracy: each end is correctly rounded.
pub fn widened(a: Lanes, pad: [f32; 4]) -> Lanes
    ensures value { result ≡ Lanes-of (λ (k : Lane). Interval-widened (at k pad) (Lanes-lane k a)) }
{
    let al = a.low;
    let ah = a.high;
    let low = sub4(al, pad);
    let high = add4(ah, pad);
    Lanes { low, high }
}

// The first, or else the second. Accuracy: exact.
pub fn chosen(first: bool, a: Lanes, b: Lanes) -> Lanes
    ensures value { result ≡ Lanes-chosen first a b }
{
    if first { a } else { b }
}
