// The windows between neighbouring ticks in which the covers of two kept chains meet, listed in lent places.
#![tactic(auto)]

ghost use Rattle.std.specs.Prelude.{◌≤◌, ◌<◌, ◌≡◌, length, take};
ghost use Rattle.bounds_meeting.specs.Meeting.{Meeting-of};
ghost use Rattle.tick_list.specs.Ticks.{max_ticks};
ghost use Rattle.window_cover.specs.Kept.{Moves-window_cover};
ghost use Rattle.window_meetings.specs.Windows.{windows_of, windows_refusal, WindowsAnswer-refusal};
ghost use Rattle.window_meetings.specs.Windows.{WindowsAnswer-windows, windows_from, place_count, WindowsAnswer-left};
ghost use Rattle.window_pairs.specs.means.Found.{window_at, Found-none, Found-add, Found-Is};
ghost use Rattle.window_pairs.specs.Kept.{Moves-windows, KeptWindows, KeptWindowsApart, KeptWindowsFiner};

use bounds_meeting::Meeting;
use bounds3::Bounds3f;
use window_times::Window;

// How many windows are listed, and a refusal's number, 0 for none.
#[repr(C)]
#[derive(Clone, Copy)]
pub struct Windows {
    pub count: usize,
    pub refusal: u8,
}

// The windows found so far in the first places, 0 in the others; their count, and the number of a refusal.
#[derive(Clone, Copy)]
struct Found {
    places: [u32; 63],
    count: usize,
    refusal: u8,
}

// No windows, with a refusal or, where it is 0, without.
fn none(refusal: u8) -> Found
    ensures value { result ≡ Found-none refusal }
{
    Found {
        places: [0; 63],
        count: 0,
        refusal,
    }
}

// One more window, where its covers meet. Accuracy: exact.
fn add(found: Found, meets: bool, k: u32) -> Found
    requires { found.count < place_count }
    ensures value { result ≡ Found-add found meets k }
{
    if !meets {
        return found;
    }
    let n = found.count;
    let mut places = found.places;
    places[n] = k;
    Found {
        places,
        count: n + 1,
        refusal: 0,
    }
}

// Whether the two covers of the window whose later tick has the place i meet. Accuracy: exact.
fn meeting_at(
    moves: &[[[f32; 4]; 45]],
    others: &[[[f32; 4]; 45]],
    b: Bounds3f,
    other: Bounds3f,
    depth: u32,
    ticks: &[f32],
    i: usize,
) -> Meeting
    requires le_i { 1 ≤ i }
    requires i_in_bounds { i < length ticks.now }
    ensures value { result ≡ Meeting-of (Moves-window_cover moves.now b depth (window_at ticks.now i))
        (Moves-window_cover others.now other depth (window_at ticks.now i)) }
{
    let w = Window {
        earlier: ticks[i - 1],
        later: ticks[i],
    };
    let first = window_cover::cover(moves, b, depth, w);
    let second = window_cover::cover(others, other, depth, w);
    bounds_meeting::meet(first, second)
}

// The windows in which the two covers meet, in rising order, up to the first refusal. Accuracy: exact.
fn find(
    moves: &[[[f32; 4]; 45]],
    others: &[[[f32; 4]; 45]],
    b: Bounds3f,
    other: Bounds3f,
    depth: u32,
    ticks: &[f32],
) -> Found
    requires { length ticks.now ≤ max_ticks }
    ensures found { Found-Is (windows_from (Moves-window_cover moves.now b depth)
        (Moves-window_cover others.now other depth) 0 (windows_of ticks.now)) result }
{
    let mut found = none(0);
    for i in 1..ticks.len() {
        let m = meeting_at(moves, others, b, other, depth, ticks, i);
        let refusal = m.refusal;
        if refusal != 0 {
            return none(refusal);
        }
        let next = add(found, m.meets, i as u32 - 1);
        found = next;
    }
    found
}

// 21 of the ticks, 6 and 7 of the first box, 6 and 7 of the second, 8 of the depth, 0 for none. Accuracy: exact.
fn refusal(b: Bounds3f, other: Bounds3f, depth: u32, ticks: &[f32]) -> u8
    ensures value { result ≡ windows_refusal b other depth ticks.now }
{
    let order = tick_list::refusal(ticks);
    if order != 0 {
        return order;
    }
    let first = bounds_query::refusal(b);
    if first != 0 {
        return first;
    }
    bounds_query::cover_refusal(other, depth)
}

// Puts the windows, counted from 0, in which the covers of the two chains meet into the first places, 0 into the others, and gives how many there are. Refused
// with 21 of the ticks, 6 and 7 of the first box, 6 and 7 of the second, 8, then 5 or 10, the earlier window first, then the first chain, and with 12 where a
// chain has no moves; a refusal leaves the places as they came. In any other window no point of one box and no point of the other coincide. Accuracy: encloses.
pub fn list_windows(
    moves: &[[[f32; 4]; 45]],
    others: &[[[f32; 4]; 45]],
    b: Bounds3f,
    other: Bounds3f,
    depth: u32,
    ticks: &[f32],
    places: &mut [u32; 63],
) -> Windows
    ensures refusal { result.refusal
        ≡ WindowsAnswer-refusal (Moves-windows moves.now others.now b other depth ticks.now) }
    ensures count { result.count ≡ length
        (WindowsAnswer-windows (Moves-windows moves.now others.now b other depth ticks.now)) }
    ensures left { places.new
        ≡ WindowsAnswer-left (Moves-windows moves.now others.now b other depth ticks.now) places.old }
    ensures kept { KeptWindows moves.now others.now b other depth ticks.now
        result.refusal result.count places.old places.new }
    ensures apart { result.refusal ≡ 0
        → KeptWindowsApart moves.now others.now b other ticks.now (take result.count places.new) }
    ensures finer { result.refusal ≡ 0
        → KeptWindowsFiner moves.now others.now b other depth ticks.now (take result.count places.new) }
{
    if moves.len() == 0 {
        return Windows {
            count: 0,
            refusal: 12,
        };
    }
    if others.len() == 0 {
        return Windows {
            count: 0,
            refusal: 12,
        };
    }
    let n = refusal(b, other, depth, ticks);
    if n != 0 {
        return Windows {
            count: 0,
            refusal: n,
        };
    }
    let found = find(moves, others, b, other, depth, ticks);
    let met = found.refusal;
    if met != 0 {
        return Windows {
            count: 0,
            refusal: met,
        };
    }
    let met_in = found.places;
    *places = met_in;
    Windows {
        count: found.count,
        refusal: 0,
    }
}
