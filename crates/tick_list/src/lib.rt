// What a query about two chains asks of its ticks: 2 to 64 of them, rising strictly, and 21 otherwise.
#![tactic(auto)]

ghost use Rattle.std.specs.Prelude.{◌≡◌};
ghost use Rattle.tick_list.specs.Ticks.{Ticks-rise, Ticks-refusal};

const MIN_TICKS: usize = 2;

const MAX_TICKS: usize = 64;

fn rise(ticks: &[f32]) -> bool
    ensures value { result ≡ Ticks-rise ticks.now }
{
    for i in 1..ticks.len() {
        if !(ticks[i - 1] < ticks[i]) {
            return false;
        }
    }
    true
}

// 21 for too few or too many ticks and for ticks that don't rise strictly, NaN among them, 0 otherwise. Accuracy: exact.
pub fn refusal(ticks: &[f32]) -> u8
    ensures value { result ≡ Ticks-refusal ticks.now }
{
    let n = ticks.len();
    if (n < MIN_TICKS) | (n > MAX_TICKS) {
        return 21;
    }
    if !rise(ticks) {
        return 21;
    }
    0
}
