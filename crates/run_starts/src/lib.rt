// The starting ticks of a day of booms, worked out from one stop to the next: between two stops no boom that waits can start.
#![tactic(auto)]

ghost use Rattle.std.specs.Prelude.{ℕ, ◌≤◌, ◌<◌, ◌≡◌, eqb, ltb, get_or};
ghost use Rattle.run_schedule.specs.Day.{some_below, first_box_refusal, day_refusal};
ghost use Rattle.run_schedule.specs.Theorem.{DayKeeps};
ghost use Rattle.run_starts.specs.Booms.{Booms-of_lists, starts_left};
ghost use Rattle.run_starts.specs.means.Ends.{bad_length_at, GoodLengths, DayEnds, runs_and_meets, end_taken, Ticks, last_tick, sooner_stop, NextStop, StartsOf};

const MAX_BOOMS: usize = 8;

const MAX_TICKS: u32 = 1000;

const LAST_TICK: u32 = 8000;

// Whether a run length is not from 1 to 1,000.
fn has_bad_length(lengths: &[u32; 8], count: usize) -> bool
    requires { count ≤ 8 }
    ensures value { result ≡ some_below count (bad_length_at lengths.now) }
{
    for n in &lengths[..count] {
        if (*n == 0) | (MAX_TICKS < *n) {
            return true;
        }
    }
    false
}

// 6 or 7 of the first box that is refused, 0 for none.
fn boxes_refusal(boxes: &[[f32; 6]; 8], lengths: &[u32; 8], count: usize) -> u8
    requires { count ≤ 8 }
    ensures value { result ≡ first_box_refusal (Booms-of_lists count boxes.now lengths.now) }
{
    for corners in &boxes[..count] {
        let number = bounds_query::refusal(lent_arrays::bounds(corners));
        if number != 0 {
            return number;
        }
    }
    0
}

// The number of a list of booms: 22 for none, more than 8 or a run length that is not from 1 to 1,000, then 6 or 7 of the first box that is refused, 0 for
// none. Accuracy: exact.
pub fn refusal(boxes: &[[f32; 6]; 8], lengths: &[u32; 8], count: usize) -> u8
    ensures value { result ≡ day_refusal (Booms-of_lists count boxes.now lengths.now) }
{
    if (count == 0) | (MAX_BOOMS < count) {
        return 22;
    }
    if has_bad_length(lengths, count) {
        return 22;
    }
    boxes_refusal(boxes, lengths, count)
}

// Whether a run with this end goes on in tick t: one that is over stops first, and a boom that waits, whose end is 0, does not run.
fn is_running(t: u32, end: u32) -> bool
    ensures value { result ≡ ltb t end }
{
    t < end
}

// Whether the boom at j runs in tick t and its box meets that at i.
fn runs_and_meets(boxes: &[[f32; 6]; 8], ends: [u32; 8], t: u32, i: usize, j: usize) -> bool
    requires i_bound { i < 8 }
    requires j_bound { j < 8 }
    ensures value { result ≡ runs_and_meets boxes.now ends t i j }
{
    if is_running(t, ends[j]) {
        return bounds_overlap::meets(
            lent_arrays::bounds(&boxes[i]),
            lent_arrays::bounds(&boxes[j]),
        );
    }
    false
}

// Whether the box at i meets that of a boom which runs in tick t.
fn meets_running(boxes: &[[f32; 6]; 8], count: usize, ends: [u32; 8], t: u32, i: usize) -> bool
    requires count_bound { count ≤ 8 }
    requires i_bound { i < 8 }
    ensures value { result ≡ some_below count (runs_and_meets boxes.now ends t i) }
{
    for j in 0..count {
        if runs_and_meets(boxes, ends, t, i, j) {
            return true;
        }
    }
    false
}

// The end of the run at i, which was `end`, once it was taken in tick t: a boom that waits is started if its box meets no running boom's.
fn end_taken(
    boxes: &[[f32; 6]; 8],
    lengths: &[u32; 8],
    count: usize,
    t: u32,
    end: u32,
    ends: [u32; 8],
    i: usize,
) -> u32
    requires count_bound { count ≤ 8 }
    requires i_lt_count { i < count }
    requires good_lengths { GoodLengths count lengths.now }
    requires t_le_last_tick { t ≤ last_tick }
    ensures value { result ≡ end_taken boxes.now lengths.now count t end ends i }
{
    if end != 0 {
        return end;
    }
    if meets_running(boxes, count, ends, t, i) {
        return 0;
    }
    t + lengths[i]
}

// Takes the waiting booms in list order in tick t; one that is started is running when the next is taken.
fn start_waiting(
    boxes: &[[f32; 6]; 8],
    lengths: &[u32; 8],
    count: usize,
    t: u32,
    ends: [u32; 8],
) -> [u32; 8]
    requires count_bound { count ≤ 8 }
    requires good_lengths { GoodLengths count lengths.now }
    requires t_le_last_tick { t ≤ last_tick }
    ensures value { Ticks (Booms-of_lists count boxes.now lengths.now) t ends result }
{
    let mut now = ends;
    for i in 0..count {
        now[i] = end_taken(boxes, lengths, count, t, ends[i], now, i);
    }
    now
}

// Whether a boom waits.
fn waits(count: usize, ends: [u32; 8]) -> bool
    requires { count ≤ 8 }
    ensures value { result ≡ some_below count (λ i. eqb (get_or ends i 0) 0) }
{
    for end in &ends[..count] {
        if *end == 0 {
            return true;
        }
    }
    false
}

// The end of a run, where it comes after tick t and before the next stop so far, else that stop.
fn sooner(t: u32, end: u32, next: u32) -> u32
    ensures value { result ≡ sooner_stop t end next }
{
    if (t < end) & (end < next) {
        return end;
    }
    next
}

// The first stop after tick t.
fn next_stop(count: usize, ends: [u32; 8], t: u32) -> u32
    requires { count ≤ 8 }
    ensures value { NextStop count ends t result }
{
    let mut next = LAST_TICK;
    for end in &ends[..count] {
        next = sooner(t, *end, next);
    }
    next
}

// When the run of each boom is over.
fn ends(boxes: &[[f32; 6]; 8], lengths: &[u32; 8], count: usize) -> [u32; 8]
    requires count_bound { count ≤ 8 }
    requires good_lengths { GoodLengths count lengths.now }
    ensures value { DayEnds (Booms-of_lists count boxes.now lengths.now) result }
{
    let mut ends = [0u32; 8];
    let mut t = 0;
    while waits(count, ends) {
        let started = start_waiting(boxes, lengths, count, t, ends);
        ends = started;
        t = next_stop(count, ends, t);
    }
    ends
}

// The starting tick of each boom from the end of its run.
fn starts_of(lengths: &[u32; 8], count: usize, ends: [u32; 8]) -> [u32; 8]
    requires count_bound { count ≤ 8 }
    requires by_index { (i : ℕ) → i < count → get_or lengths.now i 0 ≤ get_or ends i 0 }
    ensures value { StartsOf count lengths.now ends result }
{
    let mut starts = [0u32; 8];
    for i in 0..count {
        starts[i] = ends[i] - lengths[i];
    }
    starts
}

// Puts the starting tick of each of `count` booms into `starts`, in list order, and 0 into the unused places; each boom is a box and a run length in ticks.
// Gives the number of a refusal, 22, 6 or 7, which leaves `starts` as it was, 0 for none. Accuracy: exact.
pub fn start_ticks(
    boxes: &[[f32; 6]; 8],
    lengths: &[u32; 8],
    count: usize,
    starts: &mut [u32; 8],
) -> u8
    ensures refusal { result ≡ day_refusal (Booms-of_lists count boxes.now lengths.now) }
    ensures left { starts.new ≡ starts_left (Booms-of_lists count boxes.now lengths.now) starts.old }
    ensures day { result ≡ 0 → DayKeeps (Booms-of_lists count boxes.now lengths.now) starts.new }
{
    let number = refusal(boxes, lengths, count);
    if number != 0 {
        return number;
    }
    *starts = starts_of(lengths, count, ends(boxes, lengths, count));
    0
}
