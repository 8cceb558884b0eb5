// Windows of times, and which moves and poses of a chain a window asks for, by their times.
#![tactic(auto)]

ghost use Rattle.std.specs.Prelude.{◌≡◌};
ghost use Rattle.window_times.specs.Window.{Window-refusal, Window-overlaps, Window-asks_first, Window-asks_end, Window-belongs};

// The times from one tick to a later one, both included.
#[derive(Clone, Copy)]
pub struct Window {
    pub earlier: f32,
    pub later: f32,
}

// 21 for ticks that don't rise, NaN among them, 0 otherwise. Accuracy: exact.
pub fn refusal(w: Window) -> u8
    ensures value { result ≡ Window-refusal w }
{
    if w.earlier < w.later { 0 } else { 21 }
}

// Whether a move from start to end starts before the later tick and ends after the earlier one. Accuracy: exact.
pub fn overlaps(w: Window, start: f32, end: f32) -> bool
    ensures value { result ≡ Window-overlaps w start end }
{
    (start < w.later) & (w.earlier < end)
}

// Whether a window asks for a chain's first pose, at this time. Accuracy: exact.
pub fn asks_first(w: Window, time: f32) -> bool
    ensures value { result ≡ Window-asks_first w time }
{
    ((w.earlier <= time) & (time <= w.later)) | (w.earlier < time)
}

// Whether a window asks for the pose at the end of a move, at this time, of the last move or another. Accuracy: exact.
pub fn asks_end(w: Window, last: bool, time: f32) -> bool
    ensures value { result ≡ Window-asks_end w last time }
{
    ((w.earlier <= time) & (time <= w.later)) | (last & (time < w.later))
}

// Whether a time of a window belongs to a move from start to end, of the first or the last move or another. Accuracy: exact.
pub fn belongs(w: Window, first: bool, last: bool, start: f32, end: f32) -> bool
    ensures value { result ≡ Window-belongs w first last start end }
{
    (first | (start < w.later)) & (last | (w.earlier <= end))
}
