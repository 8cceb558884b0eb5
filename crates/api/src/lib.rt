// The library that Rust and C link: a move is built once, kept by its caller as 45 rows of four floats, and asked many times; a chain is kept as the rows of
// its moves, one block for each; no moves and more than 31 are no chain. Each function returns the number of a refusal, 0 for none, those over move files beside a length or a count. Where nothing is
// refused it writes what it is lent for its answer; after a refusal that is as it was. Any floats may be handed in,
// and any rows may be asked, but the guarantee is for rows that building has written.
#![tactic(auto)]

ghost use Rattle.std.specs.Prelude.{◌-◌, ◌≡◌, [], ◌∷◌, map, length, take};
ghost use Rattle.file_reader.specs.bounds3.List.{Point3f-of_list, Bounds3f-of_list};
ghost use Rattle.lent_arrays.specs.transform.Answer.{PointAnswer-refusal, BoundsAnswer-refusal};
ghost use Rattle.motion_rows.specs.motion_point.TransformPoint.{AnimatedTransform-transform_point};
ghost use Rattle.motion_bounds.specs.Answer.{MotionBoundsAnswer-refusal};
ghost use Rattle.lent_arrays.specs.Arrays.{Pose-of_list, PointAnswer-left, TransformAnswer-left, BoundsAnswer-left};
ghost use Rattle.file_reader.specs.matrix4x4.Rows.{Rows};
ghost use Rattle.interpolate_kept.specs.interpolation.Interpolate.{AnimatedTransform-interpolate};
ghost use Rattle.motion_rows.specs.Rows.{AnimatedTransform-to_rows, AnimatedTransformAnswer-left, transform_at};
ghost use Rattle.motion_rows.specs.Holds.{Rows-Holds};
ghost use Rattle.pad_query.specs.PadQuery.{AnimatedTransform-pad, Rows-pad, PadAnswer-refusal, PadAnswer-left};
ghost use Rattle.chain_rows.specs.motion_chain.Chain.{Chain, built, ChainAnswer-refusal, Chain-new, Chain-transform_point};
ghost use Rattle.chain_rows.specs.motion_chain.Times.{PointsAnswer-refusal, PointsAnswer-left, Chain-transform_points};
ghost use Rattle.refused_run.specs.chain_poses.Poses.{Poses-of_lists};
ghost use Rattle.chain_rows.specs.Kept.{Chain-to_rows, Chain-pad, Moves-pad};
ghost use Rattle.moves_asked.specs.Asked.{Moves-asked};
ghost use Rattle.chain_rows.specs.Theorem.{Moves-Holds, KeptChainContainsMotion};
ghost use Rattle.chain_rows.specs.Finer.{KeptChainFiner};
ghost use Rattle.interpolate_kept.specs.Kept.{Rows-interpolate, Chain-interpolate, Moves-interpolate};
ghost use Rattle.interpolate_kept.specs.Theorem.{MovesPoints};
ghost use Rattle.chain_held.specs.Held.{Moves-held, Moves-pose_refusal, Moves-pose_left};
ghost use Rattle.chain_held.specs.Theorem.{HeldAsSet, PoseAsSet};
ghost use Rattle.chain_trial.specs.changed_chain.Trial.{Chain-try};
ghost use Rattle.chain_trial.specs.Theorem.{TrialContainsMotion};
ghost use Rattle.chain_build.specs.Build.{ChainAnswer-left};
ghost use Rattle.chain_join.specs.Rows.{Moves-join_refusal, Moves-join_left};
ghost use Rattle.chain_join.specs.Theorem.{Joined};
ghost use Rattle.cut_parts.specs.cut_laws.Cut.{cut_refusal, Bounds3f-cut};
ghost use Rattle.cut_parts.specs.cut_laws.Theorem.{PartsWithin, PartsCover};
ghost use Rattle.reach_kept.specs.Kept.{Moves-reach_refusal, Moves-reach_left, KeptReachDry, KeptReachDryAlways, KeptReachFiner, KeptReachCovered};
ghost use Rattle.reached_rows.specs.Rows.{rows_refusal, reached_rows, rows_left};
ghost use Rattle.reached_rows.specs.Theorem.{RowsApart, KeptRowsApart};
ghost use Rattle.refused_run.specs.Run.{shortest_run};
ghost use Rattle.refused_run.specs.Theorem.{ShortestRefused};
ghost use Rattle.chain_covers.specs.box_set.Set.{SetAnswer-refusal};
ghost use Rattle.chain_covers.specs.Kept.{Moves-covers, SetAnswer-covers_left, SetAnswer-union_left};
ghost use Rattle.chain_covers.specs.Theorem.{KeptSetContainsMotion};
ghost use Rattle.chain_covers.specs.Finer.{KeptSetFiner};
ghost use Rattle.file_reader.specs.motion_file.Layout.{MoveFile-read, MoveFile-poses};
ghost use Rattle.file_reader.specs.motion_file.Front.{front as poses_front};
ghost use Rattle.chain_text.specs.Write.{TextAnswer-refusal, TextAnswer-length, TextAnswer-left};
ghost use Rattle.chain_text.specs.Theorem.{WrittenBack};
ghost use Rattle.run_starts.specs.run_schedule.Day.{day_refusal};
ghost use Rattle.run_starts.specs.run_schedule.Theorem.{DayKeeps};
ghost use Rattle.run_starts.specs.Booms.{Booms-of_lists, starts_left};
ghost use Rattle.api.specs.Files.{MoveFile-bounds_left, Moves-written};
ghost use Rattle.window_pairs.specs.window_meetings.Windows.{WindowsAnswer-refusal, WindowsAnswer-windows, WindowsAnswer-left};
ghost use Rattle.window_pairs.specs.Kept.{KeptWindows, KeptWindowsApart, KeptWindowsFiner};
ghost use Rattle.window_cover.specs.Kept.{KeptWindowContainsMotion, KeptWindowFiner};
ghost use Rattle.api.specs.Chains.{layout_number, version_number, Moves-point, Moves-points};
ghost use Rattle.api.specs.Chains.{Moves-cover_of, Moves-try_of, Moves-window_cover_of, Moves-windows_of};
ghost use Rattle.api.specs.Answers.{Rows-new, Rows-point, Rows-bound_point_motion, Rows-motion_bounds, Rows-cover};
ghost use Rattle.api.specs.Examined.{MotionBoundsAnswer-left, MotionBoundsAnswer-examined_left};
ghost use Rattle.api.specs.Kept.{KeptCoverContainsMotion, KeptCoverFiner, KeptCover, KeptWindowCover};

use animated_transform::AnimatedTransform;
pub use chain_held::ChainHeld;
pub use chain_text::Written;
use motion_bounds::MotionBoundsAnswer;
pub use reached_rows::Reached;
pub use refused_run::Run;
pub use window_pairs::Windows;
pub use window_times::Window;

// Puts a motion box and its counts into two lent arrays, or after a refusal nothing, and gives the refusal's number, 0 for none.
fn put_motion_bounds(
    answer: MotionBoundsAnswer,
    bounds: &mut [f32; 6],
    examined: &mut [u32; 3],
) -> u8
    ensures refusal { result ≡ MotionBoundsAnswer-refusal answer }
    ensures left { bounds.new ≡ MotionBoundsAnswer-left answer bounds.old }
    ensures examined { examined.new ≡ MotionBoundsAnswer-examined_left answer examined.old }
{
    match answer {
        MotionBoundsAnswer::Bounds(b, e) => {
            *bounds = lent_arrays::bounds_values(b);
            *examined = [e.x, e.y, e.z];
            0
        }
        MotionBoundsAnswer::Refused(n) => n,
    }
}

// Builds a move from two poses, each 18 floats: a time, a matrix row by row and a pad; a rigid one has the identity for its scale. Refused with 1 to 5 or
// 16, and a rigid one with 17 or 18.
// Accuracy: each operation but the arc cosine is correctly rounded.
pub fn jellyplain_build(
    rigid: bool,
    start: &[f32; 18],
    end: &[f32; 18],
    motion: &mut [[f32; 4]; 45],
) -> u8
    ensures refusal { result ≡ (Rows-new rigid start.now end.now).refusal }
    ensures left { motion.new ≡ AnimatedTransformAnswer-left (Rows-new rigid start.now end.now) motion.old }
    ensures holds { result ≡ 0 → Rows-Holds motion.new (Rows-new rigid start.now end.now).value }
{
    motion_rows::put_motion(
        AnimatedTransform::new(rigid, lent_arrays::pose(start), lent_arrays::pose(end)),
        motion,
    )
}

// Where a point stands at a time. Refused with 5 or 6. Accuracy: each operation but sine and cosine is correctly rounded.
pub fn jellyplain_point(
    motion: &[[f32; 4]; 45],
    time: f32,
    p: &[f32; 3],
    moved: &mut [f32; 3],
) -> u8
    ensures refusal { result ≡ PointAnswer-refusal (Rows-point motion.now time p.now) }
    ensures left { moved.new ≡ PointAnswer-left (Rows-point motion.now time p.now) moved.old }
    ensures built { (m : AnimatedTransform) → motion.now ≡ AnimatedTransform-to_rows m
        → Rows-point motion.now time p.now ≡ AnimatedTransform-transform_point m time (Point3f-of_list p.now) }
{
    lent_arrays::put_point(
        motion_rows::transform_point(motion, time, lent_arrays::point(p)),
        moved,
    )
}

// The pad at a time: between the times of a move lerp of its two pads, before and after them that pose's own, and the larger throughout where the poses are
// equal. Refused with 5 or 6. Accuracy: each operation is correctly rounded.
pub fn jellyplain_pad(motion: &[[f32; 4]; 45], time: f32, pad: &mut [f32; 1]) -> u8
    ensures refusal { result ≡ PadAnswer-refusal (Rows-pad motion.now time) }
    ensures left { pad.new ≡ PadAnswer-left (Rows-pad motion.now time) pad.old }
    ensures built { (m : AnimatedTransform) → motion.now ≡ AnimatedTransform-to_rows m
        → Rows-pad motion.now time ≡ AnimatedTransform-pad m time }
{
    pad_query::put_pad(pad_query::pad(motion, time), pad)
}

// The transform at a time: the rows of its matrix, and then those of its inverse. Refused with 4, 5 or 6.
// Accuracy: each operation but sine and cosine is correctly rounded.
pub fn jellyplain_interpolate(
    motion: &[[f32; 4]; 45],
    time: f32,
    transform: &mut [[f32; 4]; 8],
) -> u8
    ensures refusal { result ≡ (Rows-interpolate motion.now time).refusal }
    ensures left { transform.new ≡ TransformAnswer-left (Rows-interpolate motion.now time) transform.old }
    ensures built { (m : AnimatedTransform) → motion.now ≡ AnimatedTransform-to_rows m
        → Rows-interpolate motion.now time ≡ AnimatedTransform-interpolate m time }
{
    lent_arrays::put_transform(interpolate_kept::interpolate(motion, time), transform)
}

// pbrt's motion box of a point: no cover; how many intervals its search examined on x, y and z, each at most 511. Refused with 5, 6 or 9. Accuracy: heuristic.
pub fn jellyplain_bound_point_motion(
    motion: &[[f32; 4]; 45],
    p: &[f32; 3],
    bounds: &mut [f32; 6],
    examined: &mut [u32; 3],
) -> u8
    ensures refusal { result ≡ MotionBoundsAnswer-refusal (Rows-bound_point_motion motion.now p.now) }
    ensures left { bounds.new ≡ MotionBoundsAnswer-left (Rows-bound_point_motion motion.now p.now) bounds.old }
    ensures examined { examined.new
        ≡ MotionBoundsAnswer-examined_left (Rows-bound_point_motion motion.now p.now) examined.old }
{
    put_motion_bounds(
        motion_bounds::bound_point_motion(motion_rows::from_rows(motion), lent_arrays::point(p)),
        bounds,
        examined,
    )
}

// pbrt's motion box of the box b: no cover; how many intervals were examined on x, y and z, over its eight corners.
// Refused with 5, 6, 7 or 9. Accuracy: heuristic.
pub fn jellyplain_motion_bounds(
    motion: &[[f32; 4]; 45],
    b: &[f32; 6],
    bounds: &mut [f32; 6],
    examined: &mut [u32; 3],
) -> u8
    ensures refusal { result ≡ MotionBoundsAnswer-refusal (Rows-motion_bounds motion.now b.now) }
    ensures left { bounds.new ≡ MotionBoundsAnswer-left (Rows-motion_bounds motion.now b.now) bounds.old }
    ensures examined { examined.new
        ≡ MotionBoundsAnswer-examined_left (Rows-motion_bounds motion.now b.now) examined.old }
{
    put_motion_bounds(
        motion_bounds::motion_bounds(motion_rows::from_rows(motion), lent_arrays::bounds(b)),
        bounds,
        examined,
    )
}

// A box that holds the box b at every time, from 2^depth slices; where 0 is returned it stands in `bounds`. Refused with 5, 6, 7, 8 or 10.
// Accuracy: encloses.
pub fn jellyplain_cover(
    motion: &[[f32; 4]; 45],
    b: &[f32; 6],
    depth: u32,
    bounds: &mut [f32; 6],
) -> u8
    ensures refusal { result ≡ BoundsAnswer-refusal (Rows-cover motion.now b.now depth) }
    ensures left { bounds.new ≡ BoundsAnswer-left (Rows-cover motion.now b.now depth) bounds.old }
    ensures contains_motion { result ≡ 0 → KeptCoverContainsMotion motion.now b.now bounds.new }
    ensures finer { result ≡ 0 → KeptCoverFiner motion.now b.now depth bounds.new }
{
    lent_arrays::put_bounds(
        cover_query::cover(
            motion_rows::from_rows(motion),
            lent_arrays::bounds(b),
            depth,
        ),
        bounds,
    )
}

// The number of the layout in which poses, moves and chains cross: 18 floats, 45 rows with the move's kind, up to 31 blocks.
// It changes where one of them does, so that a caller built against another layout is told. Accuracy: exact.
pub fn jellyplain_layout() -> u32
    ensures value { result ≡ layout_number }
{
    3
}

// The library's version, 10000 * major + 100 * minor + patch: now 2.0.0. A caller tells by it which functions there are. Accuracy: exact.
pub fn jellyplain_version() -> u32
    ensures value { result ≡ version_number }
{
    20000
}

// Builds a chain from 2 to 32 poses; the rows of its moves, one fewer than poses, then stand in the front blocks; a rigid one's moves are rigid.
// Refused with 1, 2, 16, 12 or 3, a rigid one then with 17 or 18, pose by pose, then with 4 or 5.
// Accuracy: each operation but the arc cosine is correctly rounded.
pub fn jellyplain_build_moves(
    rigid: bool,
    poses: &[[f32; 18]],
    moves: &mut [[[f32; 4]; 45]; 31],
) -> u8
    ensures refusal { result ≡ ChainAnswer-refusal (Chain-new rigid (Poses-of_lists poses.now)) }
    ensures left { moves.new ≡ ChainAnswer-left (Chain-new rigid (Poses-of_lists poses.now)) moves.old }
    ensures holds { (c : Chain) → Chain-new rigid (Poses-of_lists poses.now) ≡ built c
        → Moves-Holds (take (length poses.now - 1) moves.new) c }
{
    chain_build::build(rigid, poses, moves)
}

// Makes one chain of two, with the pose that they share once; the rows of the first's moves and then of the second's stand in the front blocks.
// Refused with 12 where either is no chain, then with 20 where the last pose of the first and the first of the second differ in a bit, or the
// chains in their kind, then with 12 for more than 32 poses or times that don't rise strictly, as in blocks of a move by itself. Accuracy: exact.
pub fn jellyplain_moves_join(
    first: &[[[f32; 4]; 45]],
    second: &[[[f32; 4]; 45]],
    moves: &mut [[[f32; 4]; 45]; 31],
) -> u8
    ensures refusal { result ≡ Moves-join_refusal (Moves-asked first.now) (Moves-asked second.now) }
    ensures left { moves.new ≡ Moves-join_left (Moves-asked first.now) (Moves-asked second.now) moves.old }
    ensures kept { (c d : Chain) → Moves-Holds (Moves-asked first.now) c → Moves-Holds (Moves-asked second.now) d
        → Joined (Moves-asked first.now) (Moves-asked second.now) moves.old moves.new result c d }
{
    chain_join::join(moves_asked::asked(first), moves_asked::asked(second), moves)
}

// The shortest run of neighbouring poses that is refused with the number of their chain, the leftmost among equals: its first place,
// from 0, and its length, 1 or 2; 0 and 0 where the chain is accepted. Refused with 12 where the chain is. Accuracy: exact.
pub fn jellyplain_refused_run(rigid: bool, poses: &[[f32; 18]]) -> Run
    ensures value { result ≡ shortest_run rigid (Poses-of_lists poses.now) }
    ensures shortest { ShortestRefused rigid (Poses-of_lists poses.now) result }
{
    refused_run::shortest_run(rigid, poses)
}

// Where a point stands at a time of a chain. Refused with 5 or 6, and with 12 where they are no chain.
// Accuracy: each operation but sine and cosine is correctly rounded.
pub fn jellyplain_moves_point(
    moves: &[[[f32; 4]; 45]],
    time: f32,
    p: &[f32; 3],
    moved: &mut [f32; 3],
) -> u8
    ensures refusal { result ≡ PointAnswer-refusal (Moves-point (Moves-asked moves.now) time p.now) }
    ensures left { moved.new ≡ PointAnswer-left (Moves-point (Moves-asked moves.now) time p.now) moved.old }
    ensures kept { (c : Chain) → Moves-asked moves.now ≡ Chain-to_rows c
        → Moves-point (Moves-asked moves.now) time p.now ≡ Chain-transform_point c time (Point3f-of_list p.now) }
    ensures lone { (block : Rows) → Moves-asked moves.now ≡ block ∷ []
        → Moves-point (Moves-asked moves.now) time p.now ≡ Rows-point block time p.now }
{
    lent_arrays::put_point(
        chain_rows::transform_point(moves_asked::asked(moves), time, lent_arrays::point(p)),
        moved,
    )
}

// The pad at a time of a chain, that of the move to which the time belongs. Refused with 5 or 6, and with 12 where they are no chain.
// Accuracy: each operation is correctly rounded.
pub fn jellyplain_moves_pad(moves: &[[[f32; 4]; 45]], time: f32, pad: &mut [f32; 1]) -> u8
    ensures refusal { result ≡ PadAnswer-refusal (Moves-pad (Moves-asked moves.now) time) }
    ensures left { pad.new ≡ PadAnswer-left (Moves-pad (Moves-asked moves.now) time) pad.old }
    ensures kept { (c : Chain) → Moves-asked moves.now ≡ Chain-to_rows c → Moves-pad (Moves-asked moves.now) time ≡ Chain-pad c time }
{
    pad_query::put_pad(chain_rows::pad(moves_asked::asked(moves), time), pad)
}

// The transform at a time of a chain, that of the move to which the time belongs: the rows of its matrix, and then those of its inverse. Where it is answered,
// it moves a point as the point query does. Refused with 4, 5 or 6, and with 12 where they are no chain.
// Accuracy: each operation but sine and cosine is correctly rounded.
pub fn jellyplain_moves_interpolate(
    moves: &[[[f32; 4]; 45]],
    time: f32,
    transform: &mut [[f32; 4]; 8],
) -> u8
    ensures refusal { result ≡ (Moves-interpolate (Moves-asked moves.now) time).refusal }
    ensures left { transform.new ≡ TransformAnswer-left (Moves-interpolate (Moves-asked moves.now) time) transform.old }
    ensures kept { (c : Chain) → Moves-asked moves.now ≡ Chain-to_rows c → Moves-interpolate (Moves-asked moves.now) time ≡ Chain-interpolate c time }
    ensures moves_points { result ≡ 0 → MovesPoints (Moves-asked moves.now) time (transform_at transform.new 0) }
{
    lent_arrays::put_transform(
        interpolate_kept::interpolate_chain(moves_asked::asked(moves), time),
        transform,
    )
}

// How many poses a chain has, the times of its first and its last, and its kind. Refused with 12 where they are no chain. Accuracy: exact.
pub fn jellyplain_moves_held(moves: &[[[f32; 4]; 45]]) -> ChainHeld
    ensures value { result ≡ Moves-held (Moves-asked moves.now) }
    ensures as_set { HeldAsSet (Moves-asked moves.now) result }
{
    chain_held::held(moves_asked::asked(moves))
}

// The pose of a chain at a place, counted from 0, as it was set: 18 floats. Refused with 12 where they are no chain, then with 19 for a place beyond the last
// pose. Accuracy: exact.
pub fn jellyplain_moves_pose(moves: &[[[f32; 4]; 45]], place: usize, pose: &mut [f32; 18]) -> u8
    ensures refusal { result ≡ Moves-pose_refusal (Moves-asked moves.now) place }
    ensures left { pose.new ≡ Moves-pose_left (Moves-asked moves.now) place pose.old }
    ensures as_set { result ≡ 0 → PoseAsSet (Moves-asked moves.now) place pose.new }
{
    chain_held::pose(moves_asked::asked(moves), place, pose)
}

// Where a point stands at each time of a list that never falls, three places a time. Refused with 6, 13 or 5, and with 12 where they are no chain.
// Accuracy: each operation but sine and cosine is correctly rounded.
pub fn jellyplain_moves_points(
    moves: &[[[f32; 4]; 45]],
    times: &[f32],
    p: &[f32; 3],
    answers: &mut [f32],
) -> u8
    ensures refusal { result ≡ PointsAnswer-refusal
        (Moves-points (Moves-asked moves.now) times.now p.now (length answers.old)) }
    ensures left { answers.new
        ≡ PointsAnswer-left (Moves-points (Moves-asked moves.now) times.now p.now (length answers.old)) answers.old }
    ensures kept { (c : Chain) → Moves-asked moves.now ≡ Chain-to_rows c → Moves-points (Moves-asked moves.now) times.now p.now
        (length answers.old) ≡ Chain-transform_points c times.now (Point3f-of_list p.now) (length answers.old) }
{
    chain_times::transform_points(
        moves_asked::asked(moves),
        times,
        lent_arrays::point(p),
        answers,
    )
}

// A box that holds the box b at every time of a chain, from 2^depth slices of each move; where 0 is returned it stands in `bounds`. Refused with 5, 6, 7, 8 or
// 10, and with 12 where they are no chain. Accuracy: encloses.
pub fn jellyplain_moves_cover(
    moves: &[[[f32; 4]; 45]],
    b: &[f32; 6],
    depth: u32,
    bounds: &mut [f32; 6],
) -> u8
    ensures refusal { result ≡ BoundsAnswer-refusal (Moves-cover_of (Moves-asked moves.now) b.now depth) }
    ensures left { bounds.new ≡ BoundsAnswer-left (Moves-cover_of (Moves-asked moves.now) b.now depth) bounds.old }
    ensures kept { KeptCover (Moves-asked moves.now) b.now depth result bounds.old bounds.new }
    ensures contains_motion { result ≡ 0 → KeptChainContainsMotion (Moves-asked moves.now)
        (Bounds3f-of_list b.now) (Bounds3f-of_list bounds.new) }
    ensures finer { result ≡ 0 → KeptChainFiner (Moves-asked moves.now) (Bounds3f-of_list b.now) depth (Bounds3f-of_list bounds.new) }
{
    lent_arrays::put_bounds(
        chain_cover::cover(moves_asked::asked(moves), lent_arrays::bounds(b), depth),
        bounds,
    )
}

// The cover of a chain if the pose at a place were this one, 18 floats, as changing a copy and asking that gives it; where 0 is returned it stands in `bounds`.
// Places count from 0. Refused with 19 for a place beyond the last pose, then as the changed chain is: 1, 2, 16, 12, 3,
// of a rigid one 17 and 18, then 4 or 5; then with 6, 7 or 8, then with 5 or 10.
// The chain is as it was. Accuracy: encloses.
pub fn jellyplain_moves_try(
    moves: &[[[f32; 4]; 45]],
    place: usize,
    pose: &[f32; 18],
    b: &[f32; 6],
    depth: u32,
    bounds: &mut [f32; 6],
) -> u8
    ensures refusal { result ≡ BoundsAnswer-refusal (Moves-try_of moves.now place pose.now b.now depth) }
    ensures left { bounds.new
        ≡ BoundsAnswer-left (Moves-try_of moves.now place pose.now b.now depth) bounds.old }
    ensures kept { (c : Chain) → Moves-Holds moves.now c → Moves-try_of moves.now place pose.now b.now depth
        ≡ Chain-try c place (Pose-of_list pose.now) (Bounds3f-of_list b.now) depth }
    ensures contains_motion { result ≡ 0 → TrialContainsMotion moves.now place
        (Pose-of_list pose.now) (Bounds3f-of_list b.now) (Bounds3f-of_list bounds.new) }
{
    lent_arrays::put_bounds(
        chain_trial::try_pose(moves, place, pose, lent_arrays::bounds(b), depth),
        bounds,
    )
}

// Boxes that hold 1 to 16 boxes at every time of a chain, each in a place of its own, and their union; unused places are +0. Refused with 14,
// then with 5, 6, 7, 8 or 10 of the first refused box in order, and with 12 where they are no chain. Accuracy: encloses.
pub fn jellyplain_moves_covers(
    moves: &[[[f32; 4]; 45]],
    boxes: &[[f32; 6]],
    depth: u32,
    covers: &mut [[f32; 6]; 16],
    union: &mut [f32; 6],
) -> u8
    ensures refusal { result ≡ SetAnswer-refusal (Moves-covers (Moves-asked moves.now) boxes.now depth) }
    ensures covers { covers.new ≡ SetAnswer-covers_left (Moves-covers (Moves-asked moves.now) boxes.now depth) covers.old }
    ensures union { union.new ≡ SetAnswer-union_left (Moves-covers (Moves-asked moves.now) boxes.now depth) union.old }
    ensures contains_motion { result ≡ 0 → KeptSetContainsMotion (Moves-asked moves.now) boxes.now covers.new union.new }
    ensures finer { result ≡ 0 → KeptSetFiner (Moves-asked moves.now) boxes.now depth covers.new union.new }
{
    chain_covers::covers(moves_asked::asked(moves), boxes, depth, covers, union)
}

// How many poses a move file holds, and 0; or 0 and the number of a refusal.
#[repr(C)]
#[derive(Clone, Copy)]
pub struct FileRead {
    pub count: usize,
    pub refusal: u8,
}

// The poses that a move file's bytes hold, in the front places, and its box. Refused with 11 where the bytes depart from the layout; poses and box then stay.
// Whether the poses are a chain's, and the box a query's, is asked where they are handed in. Accuracy: exact; every pattern of a NaN gives NaN.
pub fn jellyplain_read_file(
    bytes: &[u8],
    poses: &mut [[f32; 18]; 559],
    bounds: &mut [f32; 6],
) -> FileRead
    ensures count { result.count ≡ (MoveFile-read bytes.now).count }
    ensures refusal { result.refusal ≡ (MoveFile-read bytes.now).refusal }
    ensures poses { poses.new ≡ poses_front (MoveFile-poses bytes.now) poses.old }
    ensures bounds { bounds.new ≡ MoveFile-bounds_left (MoveFile-read bytes.now) bounds.old }
{
    let file = file_reader::read(bytes, poses);
    let refusal = file.refusal;
    let count = file.count;
    if refusal == 0 {
        let b = file.bounds;
        *bounds = b;
    }
    FileRead { count, refusal }
}

// The poses of a chain and the box b as a move file, in the front bytes; those behind it stay. Gives the length of the text. Refused with 6 or 7,
// then with 15 where the bytes are too few, and with 12 where they are no chain; all bytes then stay. Accuracy: exact.
pub fn jellyplain_write_file(moves: &[[[f32; 4]; 45]], b: &[f32; 6], out: &mut [u8]) -> Written
    ensures refusal { result.refusal ≡ TextAnswer-refusal (Moves-written (Moves-asked moves.now) b.now (length out.old)) }
    ensures length { result.length ≡ TextAnswer-length (Moves-written (Moves-asked moves.now) b.now (length out.old)) }
    ensures left { out.new
        ≡ TextAnswer-left (Moves-written (Moves-asked moves.now) b.now (length out.old)) out.old }
    ensures written_back { result.refusal ≡ 0
        → WrittenBack (Moves-asked moves.now) (Bounds3f-of_list b.now) (take result.length out.new) }
{
    chain_text::write(moves_asked::asked(moves), lent_arrays::bounds(b), out)
}

// A box that holds the box b at every time of a window of a chain, from one tick to a later one, both included.
// Refused with 21, then 6, 7 or 8, then 5 or 10, and with 12 where they are no chain. Accuracy: encloses.
pub fn jellyplain_moves_window_cover(
    moves: &[[[f32; 4]; 45]],
    b: &[f32; 6],
    depth: u32,
    earlier: f32,
    later: f32,
    bounds: &mut [f32; 6],
) -> u8
    ensures refusal { result ≡ BoundsAnswer-refusal (Moves-window_cover_of (Moves-asked moves.now) b.now depth earlier later) }
    ensures left { bounds.new
        ≡ BoundsAnswer-left (Moves-window_cover_of (Moves-asked moves.now) b.now depth earlier later) bounds.old }
    ensures kept { KeptWindowCover (Moves-asked moves.now) b.now depth (record { earlier = earlier; later = later })
        result bounds.old bounds.new }
    ensures contains_motion { result ≡ 0 → KeptWindowContainsMotion (Moves-asked moves.now) (Bounds3f-of_list b.now)
        (record { earlier = earlier; later = later }) (Bounds3f-of_list bounds.new) }
    ensures finer { result ≡ 0 → KeptWindowFiner (Moves-asked moves.now) (Bounds3f-of_list b.now) depth
        (record { earlier = earlier; later = later }) (Bounds3f-of_list bounds.new) }
{
    let w = Window { earlier, later };
    lent_arrays::put_bounds(
        window_cover::cover(moves_asked::asked(moves), lent_arrays::bounds(b), depth, w),
        bounds,
    )
}

// Puts the windows between neighbouring ticks, counted from 0, in which the covers of two chains meet into the first places, 0 into the others, and gives
// how many there are. Refused with 21 of the ticks, 6 and 7 of each box, 8, then 5 or 10, and with 12 where either is no chain. Accuracy: encloses.
pub fn jellyplain_moves_windows(
    moves: &[[[f32; 4]; 45]],
    others: &[[[f32; 4]; 45]],
    b: &[f32; 6],
    other: &[f32; 6],
    depth: u32,
    ticks: &[f32],
    places: &mut [u32; 63],
) -> Windows
    ensures refusal { result.refusal ≡ WindowsAnswer-refusal
        (Moves-windows_of (Moves-asked moves.now) (Moves-asked others.now) b.now other.now depth ticks.now) }
    ensures count { result.count ≡ length (WindowsAnswer-windows
        (Moves-windows_of (Moves-asked moves.now) (Moves-asked others.now) b.now other.now depth ticks.now)) }
    ensures left { places.new ≡ WindowsAnswer-left
        (Moves-windows_of (Moves-asked moves.now) (Moves-asked others.now) b.now other.now depth ticks.now) places.old }
    ensures kept { KeptWindows (Moves-asked moves.now) (Moves-asked others.now) (Bounds3f-of_list b.now) (Bounds3f-of_list other.now)
        depth ticks.now result.refusal result.count places.old places.new }
    ensures apart { result.refusal ≡ 0 → KeptWindowsApart (Moves-asked moves.now) (Moves-asked others.now) (Bounds3f-of_list b.now)
        (Bounds3f-of_list other.now) ticks.now (take result.count places.new) }
    ensures finer { result.refusal ≡ 0 → KeptWindowsFiner (Moves-asked moves.now) (Moves-asked others.now) (Bounds3f-of_list b.now)
        (Bounds3f-of_list other.now) depth ticks.now (take result.count places.new) }
{
    window_pairs::list_windows(
        moves_asked::asked(moves),
        moves_asked::asked(others),
        lent_arrays::bounds(b),
        lent_arrays::bounds(other),
        depth,
        ticks,
        places,
    )
}

// The starting tick of each of 1 to 8 booms in list order, a box and a run length of 1 to 1,000 ticks each;
// unused places are 0. No two that run have boxes that meet, and each starts no later than the sum of the
// others' run lengths. Refused with 22, then with 6 or 7 of the first refused box in order. Accuracy: exact.
pub fn jellyplain_day(
    boxes: &[[f32; 6]; 8],
    lengths: &[u32; 8],
    count: usize,
    starts: &mut [u32; 8],
) -> u8
    ensures refusal { result ≡ day_refusal (Booms-of_lists count boxes.now lengths.now) }
    ensures left { starts.new ≡ starts_left (Booms-of_lists count boxes.now lengths.now) starts.old }
    ensures day { result ≡ 0 → DayKeeps (Booms-of_lists count boxes.now lengths.now) starts.new }
{
    run_starts::start_ticks(boxes, lengths, count, starts)
}

// Puts the places, counted from 0, of the rows that a cover meets, touching included, into the first places, 0 into the others, and gives how many there are.
// Each of 1 to 256 rows is a box. A row that is not named holds no padded point of a boom whose cover this is. Refused with 14 for no rows or more than 256,
// then with 6 or 7 of the cover, then with 6 or 7 of the first refused row in order. Accuracy: exact.
pub fn jellyplain_reached_rows(
    cover: &[f32; 6],
    rows: &[[f32; 6]],
    places: &mut [u32; 256],
) -> Reached
    ensures refusal { result.refusal ≡ rows_refusal (Bounds3f-of_list cover.now) (map Bounds3f-of_list rows.now) }
    ensures count { result.count ≡ length (reached_rows (Bounds3f-of_list cover.now) (map Bounds3f-of_list rows.now)) }
    ensures left { places.new
        ≡ rows_left (Bounds3f-of_list cover.now) (map Bounds3f-of_list rows.now) places.old }
    ensures apart { result.refusal ≡ 0
        → RowsApart (Bounds3f-of_list cover.now) (map Bounds3f-of_list rows.now) (take result.count places.new) }
    ensures kept_apart { result.refusal ≡ 0
        → KeptRowsApart (Bounds3f-of_list cover.now) (map Bounds3f-of_list rows.now) (take result.count places.new) }
{
    reached_rows::list_rows(lent_arrays::bounds(cover), rows, places)
}

// Puts the n parts of a box, 1 to 16, along its longest axis into the first places; those behind them stay as they came. Each part lies in the box, and every point
// of the box is inside one. Refused with 14 for no parts or more than 16, then with 6 and 7 of the box. Accuracy: each operation is correctly rounded.
pub fn jellyplain_cut(b: &[f32; 6], n: u32, parts: &mut [[f32; 6]; 16]) -> u8
    ensures refusal { result ≡ cut_refusal (Bounds3f-of_list b.now) n }
    ensures left { parts.new ≡ Bounds3f-cut (Bounds3f-of_list b.now) n parts.old }
    ensures parts_within { result ≡ 0 → PartsWithin (Bounds3f-of_list b.now) n parts.new }
    ensures parts_cover { result ≡ 0 → PartsCover (Bounds3f-of_list b.now) n parts.new }
{
    cut_parts::cut(lent_arrays::bounds(b), n, parts)
}

// Puts one mask a row into the first places: bit w is 1 exactly when the row is named in window w between neighbouring ticks, counted from 0, that is where one of
// the boxes whose union is the window's cover, for one of 1 to 16 boxes, meets it, touching included. Places behind the rows' stay as they came. In a window in
// which a row isn't named no padded point of the boom is in it. Refused with 12 for no chain, 14 for no boxes or more than 16, 14 for no rows or more than 256, 21
// of the ticks, 6 and 7 of the boxes, 6 and 7 of the rows, 8, then window by window and box by box with the number of that window's cover. Accuracy: encloses.
pub fn jellyplain_moves_reach(
    moves: &[[[f32; 4]; 45]],
    boxes: &[[f32; 6]],
    depth: u32,
    ticks: &[f32],
    rows: &[[f32; 6]],
    masks: &mut [u64; 256],
) -> u8
    ensures refusal { result ≡ Moves-reach_refusal (Moves-asked moves.now) (map Bounds3f-of_list boxes.now) depth
        ticks.now (map Bounds3f-of_list rows.now) }
    ensures left { masks.new ≡ Moves-reach_left (Moves-asked moves.now) (map Bounds3f-of_list boxes.now) depth
        ticks.now (map Bounds3f-of_list rows.now) masks.old }
    ensures dry { result ≡ 0 → KeptReachDry (Moves-asked moves.now) (map Bounds3f-of_list boxes.now)
        ticks.now (map Bounds3f-of_list rows.now) masks.new }
    ensures dry_always { result ≡ 0 → KeptReachDryAlways (Moves-asked moves.now) (map Bounds3f-of_list boxes.now)
        ticks.now (map Bounds3f-of_list rows.now) masks.new }
    ensures finer { result ≡ 0 → KeptReachFiner (Moves-asked moves.now) (map Bounds3f-of_list boxes.now) depth
        ticks.now (map Bounds3f-of_list rows.now) masks.new }
    ensures covered { result ≡ 0 → KeptReachCovered (Moves-asked moves.now) (map Bounds3f-of_list boxes.now) depth
        ticks.now (map Bounds3f-of_list rows.now) masks.new }
{
    reach_kept::reach(moves_asked::asked(moves), boxes, depth, ticks, rows, masks)
}
