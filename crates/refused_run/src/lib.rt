// Document 02's "The shortest refused stretch": of a chain that is refused, the shortest run of neighbouring poses that is still refused with that number, the
// leftmost among equals. Every refused chain has such a run of one pose or of two, so no longer one is built; the definition tries all.
#![tactic(auto)]

ghost use Rattle.std.specs.Prelude.{◌<◌, ◌≡◌, length};
ghost use Rattle.chain_number.specs.chain_poses.Poses.{Poses-of_lists};
ghost use Rattle.refused_run.specs.Run.{run_number, run_places, leftmost_place, shortest_run};
ghost use Rattle.refused_run.specs.means.Tried.{first_of};
ghost use Rattle.refused_run.specs.Theorem.{ShortestRefused};

// A run's first place and its length, and 0; or 0, 0 and the number of a refusal.
#[repr(C)]
#[derive(Clone, Copy)]
pub struct Run {
    pub place: usize,
    pub length: usize,
    pub refusal: u8,
}

// The number of a run in the chain's kind: one pose is judged as a move from it to itself, any other run as a chain.
fn run_number(rigid: bool, run: &[[f32; 18]]) -> u8
    ensures value { result ≡ run_number rigid (Poses-of_lists run.now) }
{
    if run.len() == 1 {
        return chain_number::move_number(rigid, &run[0], &run[0]);
    }
    chain_number::number(rigid, run)
}

// How many runs of `count` poses there are among n.
fn run_places(n: usize, count: usize) -> usize
    requires { 0 < count }
    ensures value { result ≡ run_places n count }
{
    if n < count { 0 } else { n - count + 1 }
}

// The first place, from left to right, of a run of `count` poses with the number; how many such runs there are where none has it.
fn leftmost_place(rigid: bool, number: u8, count: usize, poses: &[[f32; 18]]) -> usize
    requires { 0 < count }
    ensures value { result ≡ leftmost_place rigid (Poses-of_lists poses.now) number count }
{
    let places = run_places(poses.len(), count);
    for place in 0..places {
        if run_number(rigid, &poses[place..place + count]) == number {
            return place;
        }
    }
    places
}

// The leftmost run of `short` poses with the number; where there is none, that of `long` poses.
fn first_of(rigid: bool, number: u8, short: usize, long: usize, poses: &[[f32; 18]]) -> Run
    requires short_nonzero { 0 < short }
    requires long_nonzero { 0 < long }
    ensures value { result ≡ first_of rigid (Poses-of_lists poses.now) number short long }
{
    let place = leftmost_place(rigid, number, short, poses);
    if place < run_places(poses.len(), short) {
        return Run {
            place,
            length: short,
            refusal: 0,
        };
    }
    let other = leftmost_place(rigid, number, long, poses);
    Run {
        place: other,
        length: long,
        refusal: 0,
    }
}

// The shortest run of neighbouring poses that is refused with the number of their chain, the leftmost among equals: its first place, from 0, and its length.
// Place and length are 0 where the chain is accepted; refused with 12 where the chain is. Accuracy: exact.
pub fn shortest_run(rigid: bool, poses: &[[f32; 18]]) -> Run
    ensures value { result ≡ shortest_run rigid (Poses-of_lists poses.now) }
    ensures shortest { ShortestRefused rigid (Poses-of_lists poses.now) result }
{
    let number = chain_number::number(rigid, poses);
    if number == 0 {
        return Run {
            place: 0,
            length: 0,
            refusal: 0,
        };
    }
    if number == 12 {
        return Run {
            place: 0,
            length: 0,
            refusal: 12,
        };
    }
    first_of(rigid, number, 1, 2, poses)
}
