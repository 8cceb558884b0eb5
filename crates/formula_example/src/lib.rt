// A formula from end to end: one text, its float code and its interval code, and the promise that the second encloses the first.
#![tactic(auto)]

ghost use Rattle.std.specs.Prelude.{◌≡◌, IfOk};
ghost use Rattle.interval.specs.refusal.Number.{numbered};
ghost use Rattle.formula_example.specs.Normalize.{Vector2-normalize, JudgedVector2-outcome, Vector2-normalize_enclosure, EnclosesNormalized};

use interval::Interval;
use refusal::Refusal;

#[derive(Clone, Copy)]
pub struct Vector2 {
    pub x: f32,
    pub y: f32,
}

#[derive(Clone, Copy)]
pub struct IntervalVector2 {
    pub x: Interval,
    pub y: Interval,
}

// The vector of length one in the direction of v. Accuracy: each operation is correctly rounded.
pub fn normalize(v: Vector2) -> Vector2
    ensures value { result ≡ Vector2-normalize v }
{
    let n = square_root::sqrt(v.x * v.x + v.y * v.y);
    Vector2 {
        x: v.x / n,
        y: v.y / n,
    }
}

// The same in intervals; refused with 5 where an end isn't finite, and with 10 where the low end of the squared length is zero or below. Accuracy: encloses.
pub fn normalize_enclosure(v: IntervalVector2) -> Result<IntervalVector2, Refusal>
    ensures value { numbered result ≡ JudgedVector2-outcome (Vector2-normalize_enclosure 0 v) }
    ensures encloses { IfOk result (λ value. EnclosesNormalized v (record { value = value; refusal = 0 })) }
{
    let xx = v.x.mul_enclosure(v.x)?;
    let yy = v.y.mul_enclosure(v.y)?;
    let d = xx.add_enclosure(yy)?;
    let n = d.sqrt_enclosure()?;
    let x = v.x.div_enclosure(n)?;
    let y = v.y.div_enclosure(n)?;
    Ok(IntervalVector2 { x, y })
}
