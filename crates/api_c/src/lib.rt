// What C links, in the library jellyplain: each function of `api` under its own name, with the same clauses.
#![tactic(auto)]

ghost use Rattle.std.specs.Prelude.{◌-◌, ◌≡◌, [], ◌∷◌, map, length, take};
ghost use Rattle.api.specs.Words.{AnimatedTransform, Point3f-of_list, Bounds3f-of_list, PointAnswer-refusal, BoundsAnswer-refusal, AnimatedTransform-transform_point, MotionBoundsAnswer-refusal, Pose-of_list, PointAnswer-left, TransformAnswer-left, BoundsAnswer-left, Rows, AnimatedTransform-interpolate, AnimatedTransform-to_rows, AnimatedTransformAnswer-left, transform_at, Rows-Holds, AnimatedTransform-pad, Rows-pad, PadAnswer-refusal, PadAnswer-left, Chain, built, ChainAnswer-refusal, Chain-new, Chain-transform_point, PointsAnswer-refusal, PointsAnswer-left, Chain-transform_points, Poses-of_lists, Chain-to_rows, Chain-pad, Moves-pad, Moves-asked, Moves-Holds, KeptChainContainsMotion, KeptChainFiner, Rows-interpolate, Chain-interpolate, Moves-interpolate, MovesPoints, Moves-held, Moves-pose_refusal, Moves-pose_left, HeldAsSet, PoseAsSet, Chain-try, TrialContainsMotion, ChainAnswer-left, Moves-join_refusal, Moves-join_left, Joined, cut_refusal, Bounds3f-cut, PartsWithin, PartsCover, Moves-reach_refusal, Moves-reach_left, KeptReachDry, KeptReachDryAlways, KeptReachFiner, KeptReachCovered, rows_refusal, reached_rows, rows_left, RowsApart, KeptRowsApart, shortest_run, ShortestRefused, SetAnswer-refusal, Moves-covers, SetAnswer-covers_left, SetAnswer-union_left, KeptSetContainsMotion, KeptSetFiner, MoveFile-read, MoveFile-poses, poses_front, TextAnswer-refusal, TextAnswer-length, TextAnswer-left, WrittenBack, day_refusal, DayKeeps, Booms-of_lists, starts_left, MoveFile-bounds_left, Moves-written, WindowsAnswer-refusal, WindowsAnswer-windows, WindowsAnswer-left, KeptWindows, KeptWindowsApart, KeptWindowsFiner, KeptWindowContainsMotion, KeptWindowFiner, layout_number, version_number, Moves-point, Moves-points, Moves-cover_of, Moves-try_of, Moves-window_cover_of, Moves-windows_of, Rows-new, Rows-point, Rows-bound_point_motion, Rows-motion_bounds, Rows-cover, MotionBoundsAnswer-left, MotionBoundsAnswer-examined_left, KeptCoverContainsMotion, KeptCoverFiner, KeptCover, KeptWindowCover};

use api::{ChainHeld, FileRead, Reached, Run, Windows, Written};

// `api::jellyplain_build`, for C.
#[unsafe(no_mangle)]
pub extern "C" fn jellyplain_build(
    rigid: bool,
    start: &[f32; 18],
    end: &[f32; 18],
    motion: &mut [[f32; 4]; 45],
) -> u8
    ensures refusal { result ≡ (Rows-new rigid start.now end.now).refusal }
    ensures left { motion.new ≡ AnimatedTransformAnswer-left (Rows-new rigid start.now end.now) motion.old }
    ensures holds { result ≡ 0 → Rows-Holds motion.new (Rows-new rigid start.now end.now).value }
{
    api::jellyplain_build(rigid, start, end, motion)
}

// `api::jellyplain_point`, for C.
#[unsafe(no_mangle)]
pub extern "C" fn jellyplain_point(
    motion: &[[f32; 4]; 45],
    time: f32,
    p: &[f32; 3],
    moved: &mut [f32; 3],
) -> u8
    ensures refusal { result ≡ PointAnswer-refusal (Rows-point motion.now time p.now) }
    ensures left { moved.new ≡ PointAnswer-left (Rows-point motion.now time p.now) moved.old }
    ensures built { (m : AnimatedTransform) → motion.now ≡ AnimatedTransform-to_rows m
        → Rows-point motion.now time p.now ≡ AnimatedTransform-transform_point m time (Point3f-of_list p.now) }
{
    api::jellyplain_point(motion, time, p, moved)
}

// `api::jellyplain_pad`, for C.
#[unsafe(no_mangle)]
pub extern "C" fn jellyplain_pad(motion: &[[f32; 4]; 45], time: f32, pad: &mut [f32; 1]) -> u8
    ensures refusal { result ≡ PadAnswer-refusal (Rows-pad motion.now time) }
    ensures left { pad.new ≡ PadAnswer-left (Rows-pad motion.now time) pad.old }
    ensures built { (m : AnimatedTransform) → motion.now ≡ AnimatedTransform-to_rows m
        → Rows-pad motion.now time ≡ AnimatedTransform-pad m time }
{
    api::jellyplain_pad(motion, time, pad)
}

// `api::jellyplain_interpolate`, for C.
#[unsafe(no_mangle)]
pub extern "C" fn jellyplain_interpolate(
    motion: &[[f32; 4]; 45],
    time: f32,
    transform: &mut [[f32; 4]; 8],
) -> u8
    ensures refusal { result ≡ (Rows-interpolate motion.now time).refusal }
    ensures left { transform.new ≡ TransformAnswer-left (Rows-interpolate motion.now time) transform.old }
    ensures built { (m : AnimatedTransform) → motion.now ≡ AnimatedTransform-to_rows m
        → Rows-interpolate motion.now time ≡ AnimatedTransform-interpolate m time }
{
    api::jellyplain_interpolate(motion, time, transform)
}

// `api::jellyplain_bound_point_motion`, for C.
#[unsafe(no_mangle)]
pub extern "C" fn jellyplain_bound_point_motion(
    motion: &[[f32; 4]; 45],
    p: &[f32; 3],
    bounds: &mut [f32; 6],
    examined: &mut [u32; 3],
) -> u8
    ensures refusal { result ≡ MotionBoundsAnswer-refusal (Rows-bound_point_motion motion.now p.now) }
    ensures left { bounds.new ≡ MotionBoundsAnswer-left (Rows-bound_point_motion motion.now p.now) bounds.old }
    ensures examined { examined.new
        ≡ MotionBoundsAnswer-examined_left (Rows-bound_point_motion motion.now p.now) examined.old }
{
    api::jellyplain_bound_point_motion(motion, p, bounds, examined)
}

// `api::jellyplain_motion_bounds`, for C.
#[unsafe(no_mangle)]
pub extern "C" fn jellyplain_motion_bounds(
    motion: &[[f32; 4]; 45],
    b: &[f32; 6],
    bounds: &mut [f32; 6],
    examined: &mut [u32; 3],
) -> u8
    ensures refusal { result ≡ MotionBoundsAnswer-refusal (Rows-motion_bounds motion.now b.now) }
    ensures left { bounds.new ≡ MotionBoundsAnswer-left (Rows-motion_bounds motion.now b.now) bounds.old }
    ensures examined { examined.new
        ≡ MotionBoundsAnswer-examined_left (Rows-motion_bounds motion.now b.now) examined.old }
{
    api::jellyplain_motion_bounds(motion, b, bounds, examined)
}

// `api::jellyplain_cover`, for C.
#[unsafe(no_mangle)]
pub extern "C" fn jellyplain_cover(
    motion: &[[f32; 4]; 45],
    b: &[f32; 6],
    depth: u32,
    bounds: &mut [f32; 6],
) -> u8
    ensures refusal { result ≡ BoundsAnswer-refusal (Rows-cover motion.now b.now depth) }
    ensures left { bounds.new ≡ BoundsAnswer-left (Rows-cover motion.now b.now depth) bounds.old }
    ensures contains_motion { result ≡ 0 → KeptCoverContainsMotion motion.now b.now bounds.new }
    ensures finer { result ≡ 0 → KeptCoverFiner motion.now b.now depth bounds.new }
{
    api::jellyplain_cover(motion, b, depth, bounds)
}

// `api::jellyplain_layout`, for C.
#[unsafe(no_mangle)]
pub extern "C" fn jellyplain_layout() -> u32
    ensures value { result ≡ layout_number }
{
    api::jellyplain_layout()
}

// `api::jellyplain_version`, for C.
#[unsafe(no_mangle)]
pub extern "C" fn jellyplain_version() -> u32
    ensures value { result ≡ version_number }
{
    api::jellyplain_version()
}

// `api::jellyplain_build_moves`, for C.
#[unsafe(no_mangle)]
pub extern "C" fn jellyplain_build_moves(
    rigid: bool,
    poses: &[[f32; 18]],
    moves: &mut [[[f32; 4]; 45]; 31],
) -> u8
    ensures refusal { result ≡ ChainAnswer-refusal (Chain-new rigid (Poses-of_lists poses.now)) }
    ensures left { moves.new ≡ ChainAnswer-left (Chain-new rigid (Poses-of_lists poses.now)) moves.old }
    ensures holds { (c : Chain) → Chain-new rigid (Poses-of_lists poses.now) ≡ built c
        → Moves-Holds (take (length poses.now - 1) moves.new) c }
{
    api::jellyplain_build_moves(rigid, poses, moves)
}

// `api::jellyplain_moves_join`, for C.
#[unsafe(no_mangle)]
pub extern "C" fn jellyplain_moves_join(
    first: &[[[f32; 4]; 45]],
    second: &[[[f32; 4]; 45]],
    moves: &mut [[[f32; 4]; 45]; 31],
) -> u8
    ensures refusal { result ≡ Moves-join_refusal (Moves-asked first.now) (Moves-asked second.now) }
    ensures left { moves.new ≡ Moves-join_left (Moves-asked first.now) (Moves-asked second.now) moves.old }
    ensures kept { (c d : Chain) → Moves-Holds (Moves-asked first.now) c → Moves-Holds (Moves-asked second.now) d
        → Joined (Moves-asked first.now) (Moves-asked second.now) moves.old moves.new result c d }
{
    api::jellyplain_moves_join(first, second, moves)
}

// `api::jellyplain_refused_run`, for C.
#[unsafe(no_mangle)]
pub extern "C" fn jellyplain_refused_run(rigid: bool, poses: &[[f32; 18]]) -> Run
    ensures value { result ≡ shortest_run rigid (Poses-of_lists poses.now) }
    ensures shortest { ShortestRefused rigid (Poses-of_lists poses.now) result }
{
    api::jellyplain_refused_run(rigid, poses)
}

// `api::jellyplain_moves_point`, for C.
#[unsafe(no_mangle)]
pub extern "C" fn jellyplain_moves_point(
    moves: &[[[f32; 4]; 45]],
    time: f32,
    p: &[f32; 3],
    moved: &mut [f32; 3],
) -> u8
    ensures refusal { result ≡ PointAnswer-refusal (Moves-point (Moves-asked moves.now) time p.now) }
    ensures left { moved.new ≡ PointAnswer-left (Moves-point (Moves-asked moves.now) time p.now) moved.old }
    ensures kept { (c : Chain) → Moves-asked moves.now ≡ Chain-to_rows c
        → Moves-point (Moves-asked moves.now) time p.now ≡ Chain-transform_point c time (Point3f-of_list p.now) }
    ensures lone { (block : Rows) → Moves-asked moves.now ≡ block ∷ []
        → Moves-point (Moves-asked moves.now) time p.now ≡ Rows-point block time p.now }
{
    api::jellyplain_moves_point(moves, time, p, moved)
}

// `api::jellyplain_moves_pad`, for C.
#[unsafe(no_mangle)]
pub extern "C" fn jellyplain_moves_pad(
    moves: &[[[f32; 4]; 45]],
    time: f32,
    pad: &mut [f32; 1],
) -> u8
    ensures refusal { result ≡ PadAnswer-refusal (Moves-pad (Moves-asked moves.now) time) }
    ensures left { pad.new ≡ PadAnswer-left (Moves-pad (Moves-asked moves.now) time) pad.old }
    ensures kept { (c : Chain) → Moves-asked moves.now ≡ Chain-to_rows c → Moves-pad (Moves-asked moves.now) time ≡ Chain-pad c time }
{
    api::jellyplain_moves_pad(moves, time, pad)
}

// `api::jellyplain_moves_interpolate`, for C.
#[unsafe(no_mangle)]
pub extern "C" fn jellyplain_moves_interpolate(
    moves: &[[[f32; 4]; 45]],
    time: f32,
    transform: &mut [[f32; 4]; 8],
) -> u8
    ensures refusal { result ≡ (Moves-interpolate (Moves-asked moves.now) time).refusal }
    ensures left { transform.new ≡ TransformAnswer-left (Moves-interpolate (Moves-asked moves.now) time) transform.old }
    ensures kept { (c : Chain) → Moves-asked moves.now ≡ Chain-to_rows c → Moves-interpolate (Moves-asked moves.now) time ≡ Chain-interpolate c time }
    ensures moves_points { result ≡ 0 → MovesPoints (Moves-asked moves.now) time (transform_at transform.new 0) }
{
    api::jellyplain_moves_interpolate(moves, time, transform)
}

// `api::jellyplain_moves_held`, for C.
#[unsafe(no_mangle)]
pub extern "C" fn jellyplain_moves_held(moves: &[[[f32; 4]; 45]]) -> ChainHeld
    ensures value { result ≡ Moves-held (Moves-asked moves.now) }
    ensures as_set { HeldAsSet (Moves-asked moves.now) result }
{
    api::jellyplain_moves_held(moves)
}

// `api::jellyplain_moves_pose`, for C.
#[unsafe(no_mangle)]
pub extern "C" fn jellyplain_moves_pose(
    moves: &[[[f32; 4]; 45]],
    place: usize,
    pose: &mut [f32; 18],
) -> u8
    ensures refusal { result ≡ Moves-pose_refusal (Moves-asked moves.now) place }
    ensures left { pose.new ≡ Moves-pose_left (Moves-asked moves.now) place pose.old }
    ensures as_set { result ≡ 0 → PoseAsSet (Moves-asked moves.now) place pose.new }
{
    api::jellyplain_moves_pose(moves, place, pose)
}

// `api::jellyplain_moves_points`, for C.
#[unsafe(no_mangle)]
pub extern "C" fn jellyplain_moves_points(
    moves: &[[[f32; 4]; 45]],
    times: &[f32],
    p: &[f32; 3],
    answers: &mut [f32],
) -> u8
    ensures refusal { result ≡ PointsAnswer-refusal
        (Moves-points (Moves-asked moves.now) times.now p.now (length answers.old)) }
    ensures left { answers.new
        ≡ PointsAnswer-left (Moves-points (Moves-asked moves.now) times.now p.now (length answers.old)) answers.old }
    ensures kept { (c : Chain) → Moves-asked moves.now ≡ Chain-to_rows c → Moves-points (Moves-asked moves.now) times.now p.now
        (length answers.old) ≡ Chain-transform_points c times.now (Point3f-of_list p.now) (length answers.old) }
{
    api::jellyplain_moves_points(moves, times, p, answers)
}

// `api::jellyplain_moves_cover`, for C.
#[unsafe(no_mangle)]
pub extern "C" fn jellyplain_moves_cover(
    moves: &[[[f32; 4]; 45]],
    b: &[f32; 6],
    depth: u32,
    bounds: &mut [f32; 6],
) -> u8
    ensures refusal { result ≡ BoundsAnswer-refusal (Moves-cover_of (Moves-asked moves.now) b.now depth) }
    ensures left { bounds.new ≡ BoundsAnswer-left (Moves-cover_of (Moves-asked moves.now) b.now depth) bounds.old }
    ensures kept { KeptCover (Moves-asked moves.now) b.now depth result bounds.old bounds.new }
    ensures contains_motion { result ≡ 0 → KeptChainContainsMotion (Moves-asked moves.now)
        (Bounds3f-of_list b.now) (Bounds3f-of_list bounds.new) }
    ensures finer { result ≡ 0 → KeptChainFiner (Moves-asked moves.now) (Bounds3f-of_list b.now) depth (Bounds3f-of_list bounds.new) }
{
    api::jellyplain_moves_cover(moves, b, depth, bounds)
}

// `api::jellyplain_moves_try`, for C.
#[unsafe(no_mangle)]
pub extern "C" fn jellyplain_moves_try(
    moves: &[[[f32; 4]; 45]],
    place: usize,
    pose: &[f32; 18],
    b: &[f32; 6],
    depth: u32,
    bounds: &mut [f32; 6],
) -> u8
    ensures refusal { result ≡ BoundsAnswer-refusal (Moves-try_of moves.now place pose.now b.now depth) }
    ensures left { bounds.new
        ≡ BoundsAnswer-left (Moves-try_of moves.now place pose.now b.now depth) bounds.old }
    ensures kept { (c : Chain) → Moves-Holds moves.now c → Moves-try_of moves.now place pose.now b.now depth
        ≡ Chain-try c place (Pose-of_list pose.now) (Bounds3f-of_list b.now) depth }
    ensures contains_motion { result ≡ 0 → TrialContainsMotion moves.now place
        (Pose-of_list pose.now) (Bounds3f-of_list b.now) (Bounds3f-of_list bounds.new) }
{
    api::jellyplain_moves_try(moves, place, pose, b, depth, bounds)
}

// `api::jellyplain_moves_covers`, for C.
#[unsafe(no_mangle)]
pub extern "C" fn jellyplain_moves_covers(
    moves: &[[[f32; 4]; 45]],
    boxes: &[[f32; 6]],
    depth: u32,
    covers: &mut [[f32; 6]; 16],
    union: &mut [f32; 6],
) -> u8
    ensures refusal { result ≡ SetAnswer-refusal (Moves-covers (Moves-asked moves.now) boxes.now depth) }
    ensures covers { covers.new ≡ SetAnswer-covers_left (Moves-covers (Moves-asked moves.now) boxes.now depth) covers.old }
    ensures union { union.new ≡ SetAnswer-union_left (Moves-covers (Moves-asked moves.now) boxes.now depth) union.old }
    ensures contains_motion { result ≡ 0 → KeptSetContainsMotion (Moves-asked moves.now) boxes.now covers.new union.new }
    ensures finer { result ≡ 0 → KeptSetFiner (Moves-asked moves.now) boxes.now depth covers.new union.new }
{
    api::jellyplain_moves_covers(moves, boxes, depth, covers, union)
}

// `api::jellyplain_read_file`, for C.
#[unsafe(no_mangle)]
pub extern "C" fn jellyplain_read_file(
    bytes: &[u8],
    poses: &mut [[f32; 18]; 559],
    bounds: &mut [f32; 6],
) -> FileRead
    ensures count { result.count ≡ (MoveFile-read bytes.now).count }
    ensures refusal { result.refusal ≡ (MoveFile-read bytes.now).refusal }
    ensures poses { poses.new ≡ poses_front (MoveFile-poses bytes.now) poses.old }
    ensures bounds { bounds.new ≡ MoveFile-bounds_left (MoveFile-read bytes.now) bounds.old }
{
    api::jellyplain_read_file(bytes, poses, bounds)
}

// `api::jellyplain_write_file`, for C.
#[unsafe(no_mangle)]
pub extern "C" fn jellyplain_write_file(
    moves: &[[[f32; 4]; 45]],
    b: &[f32; 6],
    out: &mut [u8],
) -> Written
    ensures refusal { result.refusal ≡ TextAnswer-refusal (Moves-written (Moves-asked moves.now) b.now (length out.old)) }
    ensures length { result.length ≡ TextAnswer-length (Moves-written (Moves-asked moves.now) b.now (length out.old)) }
    ensures left { out.new
        ≡ TextAnswer-left (Moves-written (Moves-asked moves.now) b.now (length out.old)) out.old }
    ensures written_back { result.refusal ≡ 0
        → WrittenBack (Moves-asked moves.now) (Bounds3f-of_list b.now) (take result.length out.new) }
{
    api::jellyplain_write_file(moves, b, out)
}

// `api::jellyplain_moves_window_cover`, for C.
#[unsafe(no_mangle)]
pub extern "C" fn jellyplain_moves_window_cover(
    moves: &[[[f32; 4]; 45]],
    b: &[f32; 6],
    depth: u32,
    earlier: f32,
    later: f32,
    bounds: &mut [f32; 6],
) -> u8
    ensures refusal { result ≡ BoundsAnswer-refusal (Moves-window_cover_of (Moves-asked moves.now) b.now depth earlier later) }
    ensures left { bounds.new
        ≡ BoundsAnswer-left (Moves-window_cover_of (Moves-asked moves.now) b.now depth earlier later) bounds.old }
    ensures kept { KeptWindowCover (Moves-asked moves.now) b.now depth (record { earlier = earlier; later = later })
        result bounds.old bounds.new }
    ensures contains_motion { result ≡ 0 → KeptWindowContainsMotion (Moves-asked moves.now) (Bounds3f-of_list b.now)
        (record { earlier = earlier; later = later }) (Bounds3f-of_list bounds.new) }
    ensures finer { result ≡ 0 → KeptWindowFiner (Moves-asked moves.now) (Bounds3f-of_list b.now) depth
        (record { earlier = earlier; later = later }) (Bounds3f-of_list bounds.new) }
{
    api::jellyplain_moves_window_cover(moves, b, depth, earlier, later, bounds)
}

// `api::jellyplain_moves_windows`, for C.
#[unsafe(no_mangle)]
pub extern "C" fn jellyplain_moves_windows(
    moves: &[[[f32; 4]; 45]],
    others: &[[[f32; 4]; 45]],
    b: &[f32; 6],
    other: &[f32; 6],
    depth: u32,
    ticks: &[f32],
    places: &mut [u32; 63],
) -> Windows
    ensures refusal { result.refusal ≡ WindowsAnswer-refusal
        (Moves-windows_of (Moves-asked moves.now) (Moves-asked others.now) b.now other.now depth ticks.now) }
    ensures count { result.count ≡ length (WindowsAnswer-windows
        (Moves-windows_of (Moves-asked moves.now) (Moves-asked others.now) b.now other.now depth ticks.now)) }
    ensures left { places.new ≡ WindowsAnswer-left
        (Moves-windows_of (Moves-asked moves.now) (Moves-asked others.now) b.now other.now depth ticks.now) places.old }
    ensures kept { KeptWindows (Moves-asked moves.now) (Moves-asked others.now) (Bounds3f-of_list b.now) (Bounds3f-of_list other.now)
        depth ticks.now result.refusal result.count places.old places.new }
    ensures apart { result.refusal ≡ 0 → KeptWindowsApart (Moves-asked moves.now) (Moves-asked others.now) (Bounds3f-of_list b.now)
        (Bounds3f-of_list other.now) ticks.now (take result.count places.new) }
    ensures finer { result.refusal ≡ 0 → KeptWindowsFiner (Moves-asked moves.now) (Moves-asked others.now) (Bounds3f-of_list b.now)
        (Bounds3f-of_list other.now) depth ticks.now (take result.count places.new) }
{
    api::jellyplain_moves_windows(moves, others, b, other, depth, ticks, places)
}

// `api::jellyplain_day`, for C.
#[unsafe(no_mangle)]
pub extern "C" fn jellyplain_day(
    boxes: &[[f32; 6]; 8],
    lengths: &[u32; 8],
    count: usize,
    starts: &mut [u32; 8],
) -> u8
    ensures refusal { result ≡ day_refusal (Booms-of_lists count boxes.now lengths.now) }
    ensures left { starts.new ≡ starts_left (Booms-of_lists count boxes.now lengths.now) starts.old }
    ensures day { result ≡ 0 → DayKeeps (Booms-of_lists count boxes.now lengths.now) starts.new }
{
    api::jellyplain_day(boxes, lengths, count, starts)
}

// `api::jellyplain_reached_rows`, for C.
#[unsafe(no_mangle)]
pub extern "C" fn jellyplain_reached_rows(
    cover: &[f32; 6],
    rows: &[[f32; 6]],
    places: &mut [u32; 256],
) -> Reached
    ensures refusal { result.refusal ≡ rows_refusal (Bounds3f-of_list cover.now) (map Bounds3f-of_list rows.now) }
    ensures count { result.count ≡ length (reached_rows (Bounds3f-of_list cover.now) (map Bounds3f-of_list rows.now)) }
    ensures left { places.new
        ≡ rows_left (Bounds3f-of_list cover.now) (map Bounds3f-of_list rows.now) places.old }
    ensures apart { result.refusal ≡ 0
        → RowsApart (Bounds3f-of_list cover.now) (map Bounds3f-of_list rows.now) (take result.count places.new) }
    ensures kept_apart { result.refusal ≡ 0
        → KeptRowsApart (Bounds3f-of_list cover.now) (map Bounds3f-of_list rows.now) (take result.count places.new) }
{
    api::jellyplain_reached_rows(cover, rows, places)
}

// `api::jellyplain_cut`, for C.
#[unsafe(no_mangle)]
pub extern "C" fn jellyplain_cut(b: &[f32; 6], n: u32, parts: &mut [[f32; 6]; 16]) -> u8
    ensures refusal { result ≡ cut_refusal (Bounds3f-of_list b.now) n }
    ensures left { parts.new ≡ Bounds3f-cut (Bounds3f-of_list b.now) n parts.old }
    ensures parts_within { result ≡ 0 → PartsWithin (Bounds3f-of_list b.now) n parts.new }
    ensures parts_cover { result ≡ 0 → PartsCover (Bounds3f-of_list b.now) n parts.new }
{
    api::jellyplain_cut(b, n, parts)
}

// `api::jellyplain_moves_reach`, for C.
#[unsafe(no_mangle)]
pub extern "C" fn jellyplain_moves_reach(
    moves: &[[[f32; 4]; 45]],
    boxes: &[[f32; 6]],
    depth: u32,
    ticks: &[f32],
    rows: &[[f32; 6]],
    masks: &mut [u64; 256],
) -> u8
    ensures refusal { result ≡ Moves-reach_refusal (Moves-asked moves.now) (map Bounds3f-of_list boxes.now) depth
        ticks.now (map Bounds3f-of_list rows.now) }
    ensures left { masks.new ≡ Moves-reach_left (Moves-asked moves.now) (map Bounds3f-of_list boxes.now) depth
        ticks.now (map Bounds3f-of_list rows.now) masks.old }
    ensures dry { result ≡ 0 → KeptReachDry (Moves-asked moves.now) (map Bounds3f-of_list boxes.now)
        ticks.now (map Bounds3f-of_list rows.now) masks.new }
    ensures dry_always { result ≡ 0 → KeptReachDryAlways (Moves-asked moves.now) (map Bounds3f-of_list boxes.now)
        ticks.now (map Bounds3f-of_list rows.now) masks.new }
    ensures finer { result ≡ 0 → KeptReachFiner (Moves-asked moves.now) (map Bounds3f-of_list boxes.now) depth
        ticks.now (map Bounds3f-of_list rows.now) masks.new }
    ensures covered { result ≡ 0 → KeptReachCovered (Moves-asked moves.now) (map Bounds3f-of_list boxes.now) depth
        ticks.now (map Bounds3f-of_list rows.now) masks.new }
{
    api::jellyplain_moves_reach(moves, boxes, depth, ticks, rows, masks)
}
