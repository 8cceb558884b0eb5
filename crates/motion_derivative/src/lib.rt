// The derivative of a coordinate's motion, whose zeros pbrt's motion box needs: its bounds over an interval, its value and its slope.
#![tactic(auto)]

ghost use Rattle.std.specs.Prelude.{◌≡◌};
ghost use Rattle.interval.specs.Interval.{Interval-sin, Interval-cos};
ghost use Rattle.motion_derivative.specs.Derivative.{affine, MotionDerivative-angles, MotionDerivative-range_at, MotionDerivative-excludes_zero_at};
ghost use Rattle.motion_derivative.specs.Derivative.{MotionDerivative-excludes_zero, MotionDerivative-value_at, MotionDerivative-slope_at};

use interval::{Interval, IntervalSinCos};
use trig::SinCos;

// c1 + (c2 + c3 t) cos(2 theta t) + (c4 + c5 t) sin(2 theta t)
#[derive(Clone, Copy)]
pub struct MotionDerivative {
    pub c1: f32,
    pub c2: f32,
    pub c3: f32,
    pub c4: f32,
    pub c5: f32,
    pub theta: f32,
}

// a + b i
fn affine(a: f32, b: f32, i: Interval) -> Interval
    ensures value { result ≡ affine a b i }
{
    Interval::from(a) + Interval::from(b) * i
}

impl MotionDerivative {
    // pbrt's bounds of the values over an interval, whose angles' sine and cosine are given.
    fn range_at(self, i: Interval, angle: IntervalSinCos) -> Interval
        ensures value { result ≡ MotionDerivative-range_at self i angle.sin angle.cos }
    {
        let cosines = affine(self.c2, self.c3, i) * angle.cos;
        let sines = affine(self.c4, self.c5, i) * angle.sin;
        Interval::from(self.c1) + cosines + sines
    }

    // The sine and the cosine of an interval's angles.
    fn sin_cos(self, i: Interval) -> IntervalSinCos
        ensures value { (result.sin ≡ Interval-sin (MotionDerivative-angles self i)) × (result.cos ≡ Interval-cos (MotionDerivative-angles self i)) }
    {
        (Interval::from(2.0 * self.theta) * i).sin_cos()
    }

    // Whether the bounds have no zero inside, or are one number, where the sine and the cosine of the interval's angles are known. Accuracy: heuristic.
    pub fn excludes_zero_at(self, i: Interval, angle: IntervalSinCos) -> bool
        ensures value { result ≡ MotionDerivative-excludes_zero_at self i angle.sin angle.cos }
    {
        let range = self.range_at(i, angle);
        (range.low > 0.0) | (range.high < 0.0) | (range.low == range.high)
    }

    // The same, where they are not. Accuracy: heuristic.
    pub fn excludes_zero(self, i: Interval) -> bool
        ensures value { result ≡ MotionDerivative-excludes_zero self i }
    {
        self.excludes_zero_at(i, self.sin_cos(i))
    }

    // The value at t, by the sine and the cosine of its angle. Accuracy: each operation is correctly rounded.
    pub fn value_at(self, t: f32, angle: SinCos) -> f32
        ensures value { result ≡ MotionDerivative-value_at self t angle.sin angle.cos }
    {
        self.c1 + (self.c2 + self.c3 * t) * angle.cos + (self.c4 + self.c5 * t) * angle.sin
    }

    // The slope at t, likewise. Accuracy: each operation is correctly rounded.
    pub fn slope_at(self, t: f32, angle: SinCos) -> f32
        ensures value { result ≡ MotionDerivative-slope_at self t angle.sin angle.cos }
    {
        (self.c3 + 2.0 * (self.c4 + self.c5 * t) * self.theta) * angle.cos
            + (self.c5 - 2.0 * (self.c2 + self.c3 * t) * self.theta) * angle.sin
    }
}
