// Newton's method on the derivative of a coordinate's motion, four steps as pbrt's zero search takes them, over a table of sines that is lent.
#![tactic(auto)]

ghost use Rattle.std.specs.Prelude.{◌≡◌};
ghost use Rattle.trig.specs.sine_table.QuarterSine.{entry};
ghost use Rattle.newton_method.specs.means.NewtonOver.{SinCosOver, asked_angle, newton_over};

use motion_derivative::MotionDerivative;
use trig::SinCos;

const NEWTON_STEPS: u32 = 4;

// The sine and the cosine of y, where those of x are known: equal angles have the same.
fn sin_cos_beside(table: &[u32; 2049], x: f32, angle: SinCos, y: f32) -> SinCos
    requires { SinCosOver (entry table.now) angle x }
    ensures value { SinCosOver (entry table.now) result (asked_angle x y) }
{
    if x == y {
        return angle;
    }
    trig::sin_cos_in(table, y)
}

// Newton's steps from `start`, which stop where the value or the slope is zero, over the entries of a table; over the sine table they are pbrt's
// (`newton-over-table`). Accuracy: heuristic.
pub fn newton(table: &[u32; 2049], f: MotionDerivative, start: f32) -> f32
    ensures value { result ≡ newton_over (entry table.now) f 4 start }
{
    let mut t = start;
    for _ in 0..NEWTON_STEPS {
        let x = 2.0 * f.theta * t;
        let angle = trig::sin_cos_in(table, x);
        let value = f.value_at(t, angle);
        let beside = sin_cos_beside(table, x, angle, 2.0 * t * f.theta);
        let slope = f.slope_at(t, beside);
        if (value == 0.0) | (slope == 0.0) {
            return t;
        }
        t = t - value / slope;
    }
    t
}
