// Why something is refused, and the documents' numbers. A refusal that is still a number, 0 for none, has the first of two.
#![tactic(auto)]

ghost use Rattle.std.specs.Prelude.{◌≡◌};
ghost use Rattle.refusal.specs.First.{first_refusal};
ghost use Rattle.refusal.specs.Number.{Refusal-number};

// made by tools/numbers --write
#[derive(Clone, Copy, PartialEq, Eq)]
pub enum Refusal {
    // A matrix entry, a time or a pad of a pose isn't finite.
    PoseNotFinite = 1,
    // A bottom row of a pose's matrix isn't 0 0 0 1.
    BottomRow = 2,
    // The end time is below the start time, or their difference isn't finite.
    Times = 3,
    // A pose, or a scale on the way, flattens space: it has no inverse.
    ZeroPivot = 4,
    // Numbers leave the range of floats on the way.
    NotFinite = 5,
    // The time asked for is NaN, or a coordinate isn't finite.
    Query = 6,
    // A least corner of a box is above its greatest corner on some axis.
    Corners = 7,
    // The depth is above 12.
    Depth = 8,
    // A motion box's search finds more than eight zeros on an axis.
    NinthZero = 9,
    // A cover's slices are too wide for the rotation in them.
    SquaredLength = 10,
    // A file departs from its layout.
    File = 11,
    // A chain has fewer than 2 poses or more than 32, or its times don't rise strictly.
    Chain = 12,
    // A list of times falls, or the answers lent for it aren't three places a time.
    TimeList = 13,
    // A set has no box or more than 16, a box is cut into no parts or more than 16, or a list of rows has none or more than 256.
    Set = 14,
    // A buffer is too short for the text of a move file.
    Room = 15,
    // A pad is below zero.
    Pad = 16,
    // A pose of a rigid move or chain scales or shears.
    NotRigid = 17,
    // A pose of a rigid move or chain mirrors: its determinant isn't above zero.
    Determinant = 18,
    // A place is beyond the last pose.
    Place = 19,
    // Two chains to be joined differ in a bit of the pose that they share, a zero's sign too, or in their kind.
    Mismatch = 20,
    // A tick is NaN, there are fewer than 2 or more than 64, or they don't rise strictly.
    Ticks = 21,
    // A day has no boom or more than 8, or a run length outside 1 to 1,000 ticks.
    Day = 22,
}
// end of what tools/numbers makes

impl Refusal {
    // Its number, as the documents and C have it.
    pub fn number(self) -> u8
        ensures value { result ≡ Refusal-number self }
    {
        self as u8
    }
}

// The first of two refusals, 0 being none. Accuracy: exact.
pub fn first_refusal(a: u8, b: u8) -> u8
    ensures value { result ≡ first_refusal a b }
{
    if a == 0 { b } else { a }
}
