// Whether two answered boxes meet, or the first refusal of the two.
#![tactic(auto)]

ghost use Rattle.std.specs.Prelude.{◌≡◌};
ghost use Rattle.transform.specs.Answer.{BoundsAnswer-refusal, BoundsAnswer-bounds};
ghost use Rattle.bounds_meeting.specs.Meeting.{Meeting-of};

use bounds3::{Bounds3f, Point3f};
use refusal::first_refusal;
use transform::BoundsAnswer;

// Whether two boxes meet, and the first refusal of the two, 0 for none, after which they don't.
#[derive(Clone, Copy)]
pub struct Meeting {
    pub meets: bool,
    pub refusal: u8,
}

// The number of an answer, 0 where it is a box.
fn number(a: BoundsAnswer) -> u8
    ensures value { result ≡ BoundsAnswer-refusal a }
{
    match a {
        BoundsAnswer::Bounds(b) => 0,
        BoundsAnswer::Refused(n) => n,
    }
}

// The box of an answer, +0 throughout where it is refused.
fn corners(a: BoundsAnswer) -> Bounds3f
    ensures value { result ≡ BoundsAnswer-bounds a }
{
    match a {
        BoundsAnswer::Bounds(b) => b,
        BoundsAnswer::Refused(n) => Bounds3f::from_point(Point3f {
            x: 0.0,
            y: 0.0,
            z: 0.0,
        }),
    }
}

// Whether two answered boxes meet, touching included; the first refusal of the two stands, and after it they don't. Accuracy: exact.
pub fn meet(r: BoundsAnswer, s: BoundsAnswer) -> Meeting
    ensures value { result ≡ Meeting-of r s }
{
    let refusal = first_refusal(number(r), number(s));
    if refusal != 0 {
        return Meeting {
            meets: false,
            refusal,
        };
    }
    Meeting {
        meets: bounds_overlap::meets(corners(r), corners(s)),
        refusal: 0,
    }
}
