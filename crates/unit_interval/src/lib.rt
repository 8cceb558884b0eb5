// The parameter dt of a motion, which runs from 0 to 1. Its slices are definitions and laws alone: see specs/ and proofs/.
#![tactic(auto)]

ghost use Rattle.std.specs.Prelude.{◌≡◌};
ghost use Rattle.unit_interval.specs.Unit.{dt};

// How far time has gone from start to end. Accuracy: each operation is correctly rounded.
pub fn dt(start: f32, end: f32, time: f32) -> f32
    ensures value { result ≡ dt start end time }
{
    (time - start) / (end - start)
}
