// The zeros that pbrt's motion box finds, in eight places.
#![tactic(auto)]

ghost use Rattle.std.specs.Prelude.{◌≡◌};
ghost use Rattle.zero_list.specs.Zeros.{Zeros-empty, Zeros-store, Zeros-accept};

use interval::Interval;

// How far outside its interval a zero is still taken.
const TOLERANCE: f32 = 0.001;

// The zeros found, in the order of their intervals, in the first `count` places; unused places are +0. The refusal is 9 where a ninth zero would be stored, and
// then there are no zeros.
#[derive(Clone, Copy)]
pub struct Zeros {
    pub zeros: [f32; 8],
    pub count: usize,
    pub refusal: u8,
}

impl Zeros {
    // No zeros, with a refusal or, where it is 0, without. Accuracy: exact.
    pub fn empty(refusal: u8) -> Zeros
        ensures value { result ≡ Zeros-empty refusal }
    {
        Zeros {
            zeros: [0.0; 8],
            count: 0,
            refusal,
        }
    }

    // One more zero; 9 where there are eight. Accuracy: exact.
    pub fn store(self, t: f32) -> Zeros
        ensures value { result ≡ Zeros-store self t }
    {
        let n = self.count;
        if n < 8 {
            let mut zeros = self.zeros;
            zeros[n] = t;
            return Zeros {
                zeros,
                count: n + 1,
                refusal: 0,
            };
        }
        Zeros::empty(9)
    }

    // Stores what Newton's steps found, unless it lies too far outside the interval. Accuracy: heuristic.
    pub fn accept(self, i: Interval, t: f32) -> Zeros
        ensures value { result ≡ Zeros-accept self i t }
    {
        if (t >= i.low - TOLERANCE) & (t < i.high + TOLERANCE) {
            return self.store(t);
        }
        self
    }
}
