// The pad of a move over an interval of dt, and a box grown by it: document 02's 'Pads for the spray'.
#![tactic(auto)]

ghost use Rattle.std.specs.Prelude.{◌≡◌};
ghost use Rattle.interval.specs.refusal.Number.{numbered};
ghost use Rattle.interval.specs.Judged.{Judged-outcome, Judged-from};
ghost use Rattle.transform.specs.declared.BoundsAnswer.TheVariants.{Bounds};
ghost use Rattle.motion_pad.specs.Pad.{Pad-enclose, Pad-stored, Pad-start};
ghost use Rattle.motion_pad.specs.Grow.{Bounds3f-grow, BoundsAnswer-grow};
ghost use Rattle.motion_pad.specs.means.Unjudged.{Pad-unjudged};

use bounds3::{Bounds3f, Point3f};
use interval::Interval;
use refusal::Refusal;
use transform::BoundsAnswer;

// A pose's own pad, with equal ends. Accuracy: exact.
pub fn stored_pad(pad: f32) -> Interval
    ensures value { record { interval = result; refusal = 0 } ≡ Pad-stored pad }
{
    Interval {
        low: pad,
        high: pad,
    }
}

// The pad of a move's start box: the start's own, or the larger of the two where the poses are equal. Accuracy: exact.
pub fn start_pad(animated: bool, pad0: f32, pad1: f32) -> f32
    ensures value { result ≡ Pad-start animated pad0 pad1 }
{
    if animated {
        return pad0;
    }
    float32::max(pad0, pad1)
}

fn pad_unjudged(pad0: f32, pad1: f32, dt: Interval) -> Interval
    ensures value { result ≡ Pad-unjudged pad0 pad1 dt }
{
    let one = Interval {
        low: 1.0,
        high: 1.0,
    };
    let a = Interval {
        low: pad0,
        high: pad0,
    };
    let b = Interval {
        low: pad1,
        high: pad1,
    };
    let s = interval_unjudged::sub_enclosure(one, dt);
    let p = interval_unjudged::mul_ordered(s, a);
    let q = interval_unjudged::mul_ordered(dt, b);
    interval_unjudged::add_enclosure(p, q)
}

fn pad_judged(pad0: f32, pad1: f32, dt: Interval) -> Result<Interval, Refusal>
    ensures value { numbered result ≡ Judged-outcome (Pad-enclose pad0 pad1 dt) }
{
    let one = Interval {
        low: 1.0,
        high: 1.0,
    };
    let a = Interval {
        low: pad0,
        high: pad0,
    };
    let b = Interval {
        low: pad1,
        high: pad1,
    };
    let s = one.sub_enclosure(dt)?;
    let p = s.mul_enclosure(a)?;
    let q = dt.mul_enclosure(b)?;
    p.add_enclosure(q)
}

// The pad between two poses over an interval of dt: pbrt's `lerp` of their pads; refused with 5 where an end isn't finite. Judging is left out where a sum over
// all ends is finite, which gives the same. Accuracy: encloses.
pub fn pad_enclosure(pad0: f32, pad1: f32, dt: Interval) -> Result<Interval, Refusal>
    ensures value { numbered result ≡ Judged-outcome (Pad-enclose pad0 pad1 dt) }
{
    let one = Interval {
        low: 1.0,
        high: 1.0,
    };
    let s = interval_unjudged::sub_enclosure(one, dt);
    let interval = pad_unjudged(pad0, pad1, dt);
    let ends = interval_unjudged::ends_sum(dt)
        + interval_unjudged::ends_sum(s)
        + interval_unjudged::ends_sum(interval);
    if float32::is_finite(ends) {
        Ok(interval)
    } else {
        pad_judged(pad0, pad1, dt)
    }
}

// A box grown by a pad on every face. Accuracy: each face is correctly rounded.
fn grown(pad: f32, b: Bounds3f) -> Bounds3f
    ensures value { result ≡ Bounds3f-grow pad b }
{
    let l = b.p_min;
    let h = b.p_max;
    let p_min = Point3f {
        x: l.x - pad,
        y: l.y - pad,
        z: l.z - pad,
    };
    let p_max = Point3f {
        x: h.x + pad,
        y: h.y + pad,
        z: h.z + pad,
    };
    Bounds3f { p_min, p_max }
}

fn grow_box(pad: Interval, b: Bounds3f) -> BoundsAnswer
    ensures value { result ≡ BoundsAnswer-grow (record { interval = pad; refusal = 0 }) (Bounds b) }
{
    let faces = grown(pad.high, b);
    if faces.is_finite() {
        BoundsAnswer::Bounds(faces)
    } else {
        BoundsAnswer::Refused(5)
    }
}

// An answer's box grown by the high end of a pad interval; refused with the answer's number, the pad's, or 5 where a face isn't finite. Accuracy: each face is
// correctly rounded.
pub fn grow(pad: Result<Interval, Refusal>, answer: BoundsAnswer) -> BoundsAnswer
    ensures value { result ≡ BoundsAnswer-grow (Judged-from (numbered pad)) answer }
{
    match answer {
        BoundsAnswer::Bounds(b) => match pad {
            Ok(high) => grow_box(high, b),
            Err(refusal) => BoundsAnswer::Refused(refusal.number()),
        },
        BoundsAnswer::Refused(n) => BoundsAnswer::Refused(n),
    }
}
