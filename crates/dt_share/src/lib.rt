// The share of a move's dt that a window of times has. Its pieces are definitions and laws alone: see specs/ and proofs/.
#![tactic(auto)]

ghost use Rattle.std.specs.Prelude.{◌≡◌};
ghost use Rattle.dt_share.specs.Share.{limited, share};

use interval::Interval;

// A number held between 0 and 1. Accuracy: exact.
fn limited(x: f32) -> f32
    ensures value { result ≡ limited x }
{
    float32::clamp(x, 0.0, 1.0)
}

// The interval of dt that the times from earlier to later have of a move from start to end. Accuracy: each operation is correctly rounded.
pub fn share(start: f32, end: f32, earlier: f32, later: f32) -> Interval
    ensures value { result ≡ share start end earlier later }
{
    Interval {
        low: limited(unit_interval::dt(start, end, earlier)),
        high: limited(unit_interval::dt(start, end, later)),
    }
}
