// The zero search of pbrt's motion box: where the derivative of a coordinate's motion may vanish, from 0 to 1. It makes the table of sines once and lends it
// to all that asks for a sine.
#![tactic(auto)]

ghost use Rattle.std.specs.Prelude.{◌≡◌, ◌≤◌};
ghost use Rattle.interval.specs.Interval.{Interval-new};
ghost use Rattle.motion_derivative.specs.Derivative.{MotionDerivative-excludes_zero};
ghost use Rattle.zero_search.specs.Search.{find_zeros, unit_search, Search-judged, interval_find_zeros};
ghost use Rattle.zero_search.specs.means.EndAngles.{AngleAt, AnglesAt};

use interval::{Interval, IntervalSinCos};
use motion_derivative::MotionDerivative;
use trig::{SinCos, Sines};
use zero_list::Zeros;

// How often the interval from 0 to 1 is halved.
const DEPTH: u32 = 8;

// What a search finds, and how many intervals it examines: each once, also one that the range test leaves out. An answer with a refusal counts none.
#[derive(Clone, Copy)]
pub struct Search {
    pub zeros: Zeros,
    pub examined: u32,
}

// The sine and the cosine of the angles at the ends of an interval; both halves share those at its midpoint.
#[derive(Clone, Copy)]
struct EndAngles {
    low: SinCos,
    high: SinCos,
}

fn end_at(sines: &Sines, f: MotionDerivative, t: f32) -> SinCos
    ensures value { AngleAt f t result }
{
    sines.sin_cos(2.0 * f.theta * t)
}

// The angles at the ends of `Interval::new(i.low, i.high)`: those at i's own ends where they are in order, as they are unless rounding makes them equal.
fn end_angles(sines: &Sines, f: MotionDerivative, i: Interval, ends: EndAngles) -> EndAngles
    requires { AnglesAt f i ends }
    ensures value { AnglesAt f (Interval-new i.low i.high) result }
{
    if i.low < i.high {
        return ends;
    }
    let i = Interval::new(i.low, i.high);
    let low = end_at(sines, f, i.low);
    let high = end_at(sines, f, i.high);
    EndAngles { low, high }
}

// The range test of an interval, from what is known at its ends; without it where the angles there are not in order.
fn excludes_zero(f: MotionDerivative, i: Interval, ends: EndAngles) -> bool
    requires { AnglesAt f i ends }
    ensures value { result ≡ MotionDerivative-excludes_zero f i }
{
    let c = Interval {
        low: 2.0 * f.theta * i.low,
        high: 2.0 * f.theta * i.high,
    };
    if c.low < c.high {
        let sin = c.sin_between(ends.low.sin, ends.high.sin);
        let cos = c.cos_between(ends.low.cos, ends.high.cos);
        return f.excludes_zero_at(i, IntervalSinCos { sin, cos });
    }
    f.excludes_zero(i)
}

// The zeros of f in an interval, after those found before; the interval is halved as often as depth says. With them how many intervals were examined.
fn find_zeros(
    sines: &Sines,
    f: MotionDerivative,
    i: Interval,
    ends: EndAngles,
    depth: u32,
    found: Zeros,
) -> Search
    requires { AnglesAt f i ends × (depth ≤ 8) }
    ensures value { result ≡ find_zeros depth f i found }
{
    if excludes_zero(f, i, ends) {
        return Search {
            zeros: found,
            examined: 1,
        };
    }
    let mid = i.midpoint();
    if depth == 0 {
        let zeros = found.accept(i, newton_method::newton(sines.entries(), f, mid));
        return Search { zeros, examined: 1 };
    }
    let middle = end_at(sines, f, mid);
    let low = ends.low;
    let below = Interval {
        low: i.low,
        high: mid,
    };
    let below_angles = end_angles(sines, f, below, EndAngles { low, high: middle });
    let lower = find_zeros(
        sines,
        f,
        Interval::new(below.low, below.high),
        below_angles,
        depth - 1,
        found,
    );
    let zeros = lower.zeros;
    if zeros.refusal != 0 {
        let examined = 1 + lower.examined;
        return Search { zeros, examined };
    }
    let high = ends.high;
    let above = Interval {
        low: mid,
        high: i.high,
    };
    let above_angles = end_angles(sines, f, above, EndAngles { low: middle, high });
    let upper = find_zeros(
        sines,
        f,
        Interval::new(above.low, above.high),
        above_angles,
        depth - 1,
        zeros,
    );
    let zeros = upper.zeros;
    let upper_examined = upper.examined;
    let examined = 1 + lower.examined + upper_examined;
    Search { zeros, examined }
}

// The search from 0 to 1.
fn unit_search(f: MotionDerivative) -> Search
    ensures value { result ≡ unit_search f }
{
    let sines = Sines::new();
    let i = Interval::new(0.0, 1.0);
    let low = end_at(&sines, f, i.low);
    let high = end_at(&sines, f, i.high);
    let ends = EndAngles { low, high };
    find_zeros(&sines, f, i, ends, DEPTH, Zeros::empty(0))
}

// A search's answer: 9 carries neither zeros nor a count. Accuracy: exact.
fn judged(found: Search) -> Search
    ensures value { result ≡ Search-judged found }
{
    let zeros = found.zeros;
    if zeros.refusal == 0 {
        return found;
    }
    let zeros = Zeros::empty(9);
    Search { zeros, examined: 0 }
}

// pbrt's `interval_find_zeros` from the interval 0 to 1 at depth 8, with how many intervals it examined, at most 511;
// refused with 9, and then without a count, where a ninth zero would be stored. Accuracy: heuristic.
pub fn interval_find_zeros(c1: f32, c2: f32, c3: f32, c4: f32, c5: f32, theta: f32) -> Search
    ensures value { result ≡ interval_find_zeros c1 c2 c3 c4 c5 theta }
{
    let f = MotionDerivative {
        c1,
        c2,
        c3,
        c4,
        c5,
        theta,
    };
    judged(unit_search(f))
}
