// Values among the floats of a question, from a place on: a point, a row, a box, a pose, or many of them. Where there are too few floats, each is +0.
#![tactic(auto)]

ghost use Rattle.std.specs.Prelude.{◌≡◌, ◌*◌, length};
ghost use Rattle.question_values.specs.Places.{values_left, values_at, groups_from, between};

// Puts as many floats as `out` has places, from `at` on, and leaves it as it is where there are fewer. Accuracy: exact.
pub fn put_values(values: &[f32], at: usize, out: &mut [f32])
    ensures left { out.new ≡ values_left values.now at out.old }
{
    if values.len() < out.len() {
        return;
    }
    if values.len() - out.len() < at {
        return;
    }
    out.copy_from_slice(&values[at..at + out.len()]);
}

// As many floats as the array has places, from a place on. Accuracy: exact.
pub fn values_at<const N: usize>(values: &[f32], at: usize) -> [f32; N]
    ensures value { result ≡ values_at N values.now at }
{
    let mut out = [0.0f32; N];
    put_values(values, at, &mut out);
    out
}

// As many groups of floats, one after the other, as there are places for. Accuracy: exact.
pub fn put_groups<const N: usize>(values: &[f32], groups: &mut [[f32; N]])
    ensures left { groups.new ≡ groups_from N (length groups.old) 0 values.now }
{
    for (i, group) in groups.iter_mut().enumerate() {
        *group = nth_group(values, i);
    }
}

fn nth_group<const N: usize>(values: &[f32], i: usize) -> [f32; N]
    ensures { result ≡ values_at N values.now (N * i) }
{
    match N.checked_mul(i) {
        Some(at) => values_at(values, at),
        None => [0.0; N],
    }
}

// The floats from `from` up to `to`, none where these are no places. Accuracy: exact.
pub fn part(values: &[f32], from: usize, to: usize) -> &[f32]
    ensures value { result.now ≡ between values.now from to }
{
    if values.len() < to {
        return &values[..0];
    }
    if to < from {
        return &values[..0];
    }
    &values[from..to]
}
