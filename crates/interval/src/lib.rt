// Closed intervals of 32-bit floats. `Interval` has pbrt's own operations, with which the zero search bounds a function's range, and those of document 01's
// cover, which judge an interval as it is formed.
#![tactic(auto)]

ghost use Rattle.std.specs.Prelude.{◌≡◌, Ok};
ghost use Rattle.refusal.specs.Number.{refusal_number, numbered};
ghost use Rattle.refusal.specs.Outcome.{and_then};
ghost use Rattle.trig.specs.SinCos.{sin, cos};
ghost use Rattle.trig.specs.Range.{lies};
ghost use Rattle.interval.specs.Interval.{Interval-new, Interval-point, Interval-hull, Interval-midpoint, Interval-of_four, Interval-add, Interval-sub};
ghost use Rattle.interval.specs.Interval.{Interval-mul, Interval-straddles, Interval-sin_between, Interval-sin, Interval-cos_between, Interval-cos};
ghost use Rattle.interval.specs.Judged.{Judged-outcome};
ghost use Rattle.interval.specs.Enclosure.{not_positive, Judged-judge, Judged-add_enclosure, Judged-sub_enclosure, Judged-mul_enclosure};
ghost use Rattle.interval.specs.Enclosure.{Judged-div_enclosure, Judged-sqrt_enclosure, Judged-sin_enclosure, Judged-cos_enclosure};
ghost use Rattle.interval.specs.means.EndAngle.{EndAngle-from_sin_cos, EndAngle-new, EndAngle-sin_range, EndAngle-cos_range};

use float32::select;
use refusal::Refusal;
use std::ops::{Add, Mul, Sub};
use trig::SinCos;

// pbrt's std::f32::consts::PI.
const PI: f32 = 3.14159274;

// Places of the quarters, in document 01's units of 2^-28.
const QUARTER_TURN: u64 = 421657428;

const HALF_TURN: u64 = 843314856;

const THREE_QUARTERS: u64 = 1264972284;

const FULL_TURN: u64 = 1686629712;

// A low and a high end.
#[derive(Clone, Copy)]
pub struct Interval {
    pub low: f32,
    pub high: f32,
}

// The sine and the cosine of an interval.
#[derive(Clone, Copy)]
pub struct IntervalSinCos {
    pub sin: Interval,
    pub cos: Interval,
}

// An end of an interval of angles: the angle, its u held at 2^52, which is beyond every quarter, its sine and its cosine.
#[derive(Clone, Copy)]
pub struct EndAngle {
    pub angle: f32,
    pub units: u64,
    pub sin: f32,
    pub cos: f32,
}

impl Interval {
    // From the least to the greatest of two. Accuracy: exact.
    pub fn new(v0: f32, v1: f32) -> Self
        ensures value { result ≡ Interval-new v0 v1 }
    {
        Self {
            low: float32::min(v0, v1),
            high: float32::max(v0, v1),
        }
    }

    // The smallest interval that contains both. Accuracy: exact.
    pub fn hull(self, i: Interval) -> Self
        ensures value { result ≡ Interval-hull self i }
    {
        Self {
            low: float32::min(self.low, i.low),
            high: float32::max(self.high, i.high),
        }
    }

    // Where an interval is cut in two: half of the sum of its ends. Accuracy: each operation is correctly rounded.
    pub fn midpoint(self) -> f32
        ensures value { result ≡ Interval-midpoint self }
    {
        (self.low + self.high) * 0.5
    }

    // From the least to the greatest of four.
    fn of_four(a: f32, b: f32, c: f32, d: f32) -> Self
        ensures value { result ≡ Interval-of_four a b c d }
    {
        Interval::new(a, b).hull(Interval::new(c, d))
    }

    // Whether x lies strictly inside.
    fn straddles(self, x: f32) -> bool
        ensures value { result ≡ Interval-straddles self x }
    {
        (self.low < x) & (x < self.high)
    }

    // pbrt's sine, by a and b, the sines of the ends. Accuracy: heuristic.
    pub fn sin_between(self, a: f32, b: f32) -> Self
        ensures value { result ≡ Interval-sin_between self a b }
    {
        let low = select(a > b, b, a);
        let high = select(a > b, a, b);
        Interval::new(
            select(self.straddles(3.0 / 2.0 * PI), -1.0, low),
            select(self.straddles(PI / 2.0), 1.0, high),
        )
    }

    // pbrt's cosine, by a and b, the cosines of the ends. Accuracy: heuristic.
    pub fn cos_between(self, a: f32, b: f32) -> Self
        ensures value { result ≡ Interval-cos_between self a b }
    {
        let low = select(a > b, b, a);
        let high = select(a > b, a, b);
        Interval::new(select(self.straddles(PI), -1.0, low), high)
    }

    // pbrt's sine and cosine of an interval of angles from 0 to a full turn; its assertions of that range are not carried over. Accuracy: heuristic.
    pub fn sin_cos(self) -> IntervalSinCos
        ensures value { (result.sin ≡ Interval-sin self) × (result.cos ≡ Interval-cos self) }
    {
        let ends = trig::sin_cos_pair(self.low, self.high);
        let sin = self.sin_between(ends.sin_x, ends.sin_y);
        let cos = self.cos_between(ends.cos_x, ends.cos_y);
        IntervalSinCos { sin, cos }
    }

    // pbrt's sine, likewise. Accuracy: heuristic.
    pub fn sin(self) -> Self
        ensures value { result ≡ Interval-sin self }
    {
        self.sin_cos().sin
    }

    // pbrt's cosine, likewise. Accuracy: heuristic.
    pub fn cos(self) -> Self
        ensures value { result ≡ Interval-cos self }
    {
        self.sin_cos().cos
    }
}

// The interval of one number, as pbrt's. Accuracy: exact.
impl From<f32> for Interval {
    ghost from_gives = { λ f r. r ≡ Interval-point f };

    fn from(f: f32) -> Interval {
        Interval { low: f, high: f }
    }
}

// pbrt's sum; as of all its operations, nothing is judged. Accuracy: heuristic.
impl Add for Interval {
    type Output = Interval;

    ghost add_gives = { λ x y r. r ≡ Interval-add x y };

    fn add(self, i: Interval) -> Interval {
        Interval::new(self.low + i.low, self.high + i.high)
    }
}

// pbrt's difference. Accuracy: heuristic.
impl Sub for Interval {
    type Output = Interval;

    ghost sub_gives = { λ x y r. r ≡ Interval-sub x y };

    fn sub(self, i: Interval) -> Interval {
        Interval::new(self.low - i.high, self.high - i.low)
    }
}

// pbrt's product. Accuracy: heuristic.
impl Mul for Interval {
    type Output = Interval;

    ghost mul_gives = { λ x y r. r ≡ Interval-mul x y };

    fn mul(self, i: Interval) -> Interval {
        let four = Interval::of_four(
            self.low * i.low,
            self.high * i.low,
            self.low * i.high,
            self.high * i.high,
        );
        Interval::new(four.low, four.high)
    }
}

// Whether the place w lies from u to v.
fn lies(w: u64, u: u64, v: u64) -> bool
    ensures value { result ≡ lies w u v }
{
    ((u <= w) | (v <= w)) & ((w <= u) | (w <= v))
}

impl EndAngle {
    // Of an angle whose sine and cosine are at hand. Accuracy: exact.
    pub fn from_sin_cos(a: f32, at: SinCos) -> Self
        ensures value { result ≡ EndAngle-from_sin_cos a at }
    {
        Self {
            angle: a,
            units: trig::angle_units(a),
            sin: at.sin,
            cos: at.cos,
        }
    }

    // An angle as an end of an interval, with its units, its sine and its cosine. Accuracy: exact; sine and cosine are document 01's.
    pub fn new(a: f32) -> Self
        ensures value { result ≡ EndAngle-new a }
    {
        EndAngle::from_sin_cos(a, trig::sin_cos(a))
    }

    // The sine from an end to another. Accuracy: encloses, for angles from 0 to a full turn.
    pub fn sin_range(self, to: EndAngle) -> Interval
        ensures value { result ≡ EndAngle-sin_range self to }
    {
        Interval {
            low: select(
                lies(THREE_QUARTERS, self.units, to.units),
                -1.0,
                float32::min(self.sin, to.sin),
            ),
            high: select(
                lies(QUARTER_TURN, self.units, to.units),
                1.0,
                float32::max(self.sin, to.sin),
            ),
        }
    }

    // The cosine from an end to another. Accuracy: encloses, for angles from 0 to a full turn.
    pub fn cos_range(self, to: EndAngle) -> Interval
        ensures value { result ≡ EndAngle-cos_range self to }
    {
        Interval {
            low: select(
                lies(HALF_TURN, self.units, to.units),
                -1.0,
                float32::min(self.cos, to.cos),
            ),
            high: select(
                lies(0, self.units, to.units) | lies(FULL_TURN, self.units, to.units),
                1.0,
                float32::max(self.cos, to.cos),
            ),
        }
    }
}

// The operations of the cover.
impl Interval {
    // An interval as it is formed: refused with 5 where an end is not finite. Accuracy: exact.
    pub fn judge(self) -> Result<Interval, Refusal>
        ensures value { numbered result ≡ Judged-outcome (Judged-judge 0 self) }
    {
        if float32::is_finite(self.low) & float32::is_finite(self.high) {
            Ok(self)
        } else {
            Err(Refusal::NotFinite)
        }
    }

    // Refused with 10 where the low end is zero or below.
    fn judge_positive(self) -> Result<(), Refusal>
        ensures value { refusal_number result ≡ not_positive self }
    {
        if self.low <= 0.0 {
            Err(Refusal::SquaredLength)
        } else {
            Ok(())
        }
    }

    // The sum. Accuracy: encloses.
    pub fn add_enclosure(self, y: Interval) -> Result<Interval, Refusal>
        ensures value { numbered result ≡ Judged-outcome (Judged-add_enclosure 0 self y) }
    {
        let sum = Interval {
            low: self.low + y.low,
            high: self.high + y.high,
        };
        sum.judge()
    }

    // The difference. Accuracy: encloses.
    pub fn sub_enclosure(self, y: Interval) -> Result<Interval, Refusal>
        ensures value { numbered result ≡ Judged-outcome (Judged-sub_enclosure 0 self y) }
    {
        let difference = Interval {
            low: self.low - y.high,
            high: self.high - y.low,
        };
        difference.judge()
    }

    // The product. Accuracy: encloses.
    pub fn mul_enclosure(self, y: Interval) -> Result<Interval, Refusal>
        ensures value { numbered result ≡ Judged-outcome (Judged-mul_enclosure 0 self y) }
    {
        let four = Interval::of_four(
            self.low * y.low,
            self.high * y.low,
            self.low * y.high,
            self.high * y.high,
        );
        four.judge()
    }

    // The quotient; refused with 10 where the divisor's low end is zero or below. Accuracy: encloses.
    pub fn div_enclosure(self, y: Interval) -> Result<Interval, Refusal>
        ensures value { numbered result ≡ Judged-outcome (Judged-div_enclosure 0 self y) }
    {
        y.judge_positive()?;
        let four = Interval::of_four(
            self.low / y.low,
            self.high / y.low,
            self.low / y.high,
            self.high / y.high,
        );
        four.judge()
    }

    // The square root; refused with 10 where the low end is zero or below. Accuracy: encloses.
    pub fn sqrt_enclosure(self) -> Result<Interval, Refusal>
        ensures value { numbered result ≡ Judged-outcome (Judged-sqrt_enclosure 0 self) }
    {
        self.judge_positive()?;
        let roots = Interval {
            low: square_root::sqrt(self.low),
            high: square_root::sqrt(self.high),
        };
        roots.judge()
    }

    // The cosine, judged first, and the sine. Accuracy: encloses, for angles from 0 to a full turn.
    pub fn sin_cos_enclosure(self) -> Result<IntervalSinCos, Refusal>
        ensures value { numbered result ≡ and_then (Judged-outcome (Judged-cos_enclosure 0 self))
            (λ cos. and_then (Judged-outcome (Judged-sin_enclosure 0 self)) (λ sin. Ok (record { sin = sin; cos = cos }))) }
    {
        let ends = trig::sin_cos_pair(self.low, self.high);
        let from = EndAngle::from_sin_cos(
            self.low,
            SinCos {
                sin: ends.sin_x,
                cos: ends.cos_x,
            },
        );
        let to = EndAngle::from_sin_cos(
            self.high,
            SinCos {
                sin: ends.sin_y,
                cos: ends.cos_y,
            },
        );
        let cos = from.cos_range(to).judge()?;
        let sin = from.sin_range(to).judge()?;
        Ok(IntervalSinCos { sin, cos })
    }
}
