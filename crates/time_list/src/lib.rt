// What a query asks of a list of times, its point and the lent answers: 6 for a NaN time or a coordinate that isn't finite,
// then 13 for a list that falls or answers that aren't exactly three places per time.
#![tactic(auto)]

ghost use Rattle.std.specs.Prelude.{◌≡◌};
ghost use Rattle.motion_chain.specs.Times.{times_are_numbers, never_falls, list_refusal};

use bounds3::Point3f;

fn are_numbers(times: &[f32]) -> bool
    ensures value { result ≡ times_are_numbers times.now }
{
    times.iter().all(|t| !t.is_nan())
}

fn never_falls(times: &[f32]) -> bool
    ensures value { result ≡ never_falls times.now }
{
    for i in 1..times.len() {
        if !(times[i - 1] <= times[i]) {
            return false;
        }
    }
    true
}

// The number of a list of times with its point and the places of its answers: 6 or 13, and 0 for none. Accuracy: exact.
pub fn refusal(times: &[f32], p: Point3f, places: usize) -> u8
    ensures value { result ≡ list_refusal times.now p places }
{
    if !are_numbers(times) | !p.is_finite() {
        return 6;
    }
    if !never_falls(times) | (places != 3 * times.len()) {
        return 13;
    }
    0
}
