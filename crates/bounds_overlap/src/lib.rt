// Whether two boxes meet.
#![tactic(auto)]

ghost use Rattle.std.specs.Prelude.{◌≡◌};
ghost use Rattle.bounds_overlap.specs.Meets.{ranges_meet, Bounds3f-meets};

use bounds3::Bounds3f;

// Whether the numbers from low to high and those from `from` to `to` meet.
fn ranges_meet(low: f32, high: f32, from: f32, to: f32) -> bool
    ensures value { result ≡ ranges_meet low high from to }
{
    (low <= to) & (from <= high)
}

// Whether two boxes meet, touching included, on all three axes. Accuracy: exact.
pub fn meets(a: Bounds3f, b: Bounds3f) -> bool
    ensures value { result ≡ Bounds3f-meets a b }
{
    let l = a.p_min;
    let h = a.p_max;
    let m = b.p_min;
    let i = b.p_max;
    ranges_meet(l.x, h.x, m.x, i.x)
        & ranges_meet(l.y, h.y, m.y, i.y)
        & ranges_meet(l.z, h.z, m.z, i.z)
}
