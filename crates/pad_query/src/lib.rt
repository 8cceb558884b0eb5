// The pad query: how far beyond the boom the spray of a kept move wets the ground at a time.
#![tactic(auto)]

ghost use Rattle.std.specs.Prelude.{◌≡◌};
ghost use Rattle.float32.specs.MinMax.{max_num};
ghost use Rattle.motion_rows.specs.Rows.{AnimatedTransform-from_rows};
ghost use Rattle.motion_rows.specs.motion_point.PadAt.{AnimatedTransform-pad_at};
ghost use Rattle.refusal.specs.Number.{numbered};
ghost use Rattle.pad_query.specs.PadQuery.{PadAnswer-judged, Rows-pad, PadAnswer-refusal, PadAnswer-left};

use refusal::Refusal;

fn larger(a: f32, b: f32) -> f32
    ensures value { result ≡ max_num a b }
{
    float32::max(a, b)
}

// Reads the rows that it needs and no others.
fn pad_at(rows: &[[f32; 4]; 45], time: f32) -> f32
    ensures value { result ≡ AnimatedTransform-pad_at (AnimatedTransform-from_rows rows.now) time }
{
    let start = rows[16];
    let end = rows[17];
    let constants = rows[43];
    let pads = rows[44];
    if !(constants[0] == 1.0) {
        return larger(pads[0], pads[1]);
    }
    if time <= start[3] {
        return pads[0];
    }
    if time >= end[3] {
        return pads[1];
    }
    float32::lerp(unit_interval::dt(start[3], end[3], time), pads[0], pads[1])
}

fn judged(pad: f32) -> Result<f32, Refusal>
    ensures value { numbered result ≡ PadAnswer-judged pad }
{
    if float32::is_finite(pad) {
        Ok(pad)
    } else {
        Err(Refusal::NotFinite)
    }
}

// The pad of a kept move at a time: between its times lerp of the two pads, before and after them that pose's own, and the larger throughout where the poses
// are equal. Refused for a NaN time, 6, and where the pad isn't finite, 5. Accuracy: each operation is correctly rounded.
pub fn pad(rows: &[[f32; 4]; 45], time: f32) -> Result<f32, Refusal>
    ensures value { numbered result ≡ Rows-pad rows.now time }
{
    if time != time {
        return Err(Refusal::Query);
    }
    judged(pad_at(rows, time))
}

// Puts a pad into `out`, or after a refusal nothing, and gives the refusal's number, 0 for none. Accuracy: exact.
pub fn put_pad(answer: Result<f32, Refusal>, out: &mut [f32; 1]) -> u8
    ensures refusal { result ≡ PadAnswer-refusal (numbered answer) }
    ensures left { out.new ≡ PadAnswer-left (numbered answer) out.old }
{
    match answer {
        Ok(pad) => {
            *out = [pad];
            0
        }
        Err(refusal) => refusal.number(),
    }
}
