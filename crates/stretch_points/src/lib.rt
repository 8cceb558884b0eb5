// A stretch of times asked of its own move, which is kept as 45 rows: one pass for the first refusal,
// and one that puts the points into the stretch's part of the answers. Each names the table of sines and what does not depend on the time once.
#![tactic(auto)]

ghost use Rattle.std.specs.Prelude.{◌+◌, ◌*◌, ◌<◌, ◌≡◌, length};
ghost use Rattle.std.proofs.lemmas.List.Edits.{sets};
ghost use Rattle.bounds3.specs.List.{Point3f-list};
ghost use Rattle.pose_steps.specs.Pose.{Pose-slerp};
ghost use Rattle.pose_slerp.specs.means.Unjudged.{Perpendicular-of};
ghost use Rattle.refusal.specs.Number.{numbered};
ghost use Rattle.transform.specs.Answer.{PointAnswer-point};
ghost use Rattle.motion_rows.specs.TransformPoint.{Rows-transform_point};
ghost use Rattle.motion_chain.specs.Times.{places_per_time, PointsAnswer-refusal};
ghost use Rattle.stretch_points.specs.means.Stretch.{Stretch-of};
ghost use Rattle.stretch_points.specs.Points.{Rows-transform_points, floats_at, Rows-points_put};

use bounds3::Point3f;
use matrix4x4::Matrix4x4;
use pose_steps::PoseConstants;
use quaternion::{Quaternion, SLERP_THRESHOLD};
use refusal::Refusal;
use trig::Sines;

// What the times of a stretch have in common: the constants of its move and its scales, and the quaternion that slerp turns the first one to.
#[derive(Clone, Copy)]
struct Stretch {
    a: PoseConstants,
    perp: Quaternion,
    s0: Matrix4x4,
    s1: Matrix4x4,
}

fn stretch_of(motion: &[[f32; 4]; 45]) -> Stretch
    ensures value { result ≡ Stretch-of motion.now }
{
    let a = motion_rows::constants_from_rows(motion);
    let perpendicular = pose_slerp::perpendicular_to(a.r0, a.r1, a.cos_theta);
    let perp = perpendicular.q;
    let s0 = motion_rows::start_scale(motion);
    let s1 = motion_rows::end_scale(motion);
    Stretch { a, perp, s0, s1 }
}

// `pose_slerp::slerp`, with the table of sines and the perpendicular quaternion at hand.
fn slerp(sines: &Sines, a: PoseConstants, perp: Quaternion, t: f32) -> Quaternion
    requires { perp ≡ (Perpendicular-of a.r0 a.r1 a.cos_theta).q }
    ensures value { result ≡ Pose-slerp a t }
{
    if a.cos_theta > SLERP_THRESHOLD {
        return pose_slerp::slerp_near(a.r0, a.r1, t);
    }
    let angle = sines.sin_cos(a.theta * t);
    pose_slerp::turned(a.r0, perp, angle.sin, angle.cos)
}

// `motion_rows::transform_point`, with what a stretch has in common at hand.
fn point_at(
    sines: &Sines,
    motion: &[[f32; 4]; 45],
    stretch: Stretch,
    time: f32,
    p: Point3f,
) -> Result<Point3f, Refusal>
    requires { stretch ≡ Stretch-of motion.now }
    ensures value { numbered result ≡ Rows-transform_point motion.now time p }
{
    let start = motion[16];
    let end = motion[17];
    let constants = motion[43];
    if (time != time)
        | !p.is_finite()
        | !(constants[0] == 1.0)
        | (time <= start[3])
        | (time >= end[3])
    {
        return motion_rows::transform_point(motion, time, p);
    }
    let t = (time - start[3]) / (end[3] - start[3]);
    let a = stretch.a;
    let s0 = stretch.s0;
    let s1 = stretch.s1;
    pose::composed_point(a, slerp(sines, a, stretch.perp, t), s0, s1, t, p)
}

// The number of the first time at which a kept move refuses a point; 0 for none. Accuracy: exact.
pub fn first_refusal(motion: &[[f32; 4]; 45], times: &[f32], p: Point3f) -> u8
    ensures value { result ≡ PointsAnswer-refusal (Rows-transform_points motion.now times.now p) }
{
    if times.len() == 0 {
        return 0;
    }
    let sines = Sines::new();
    let stretch = stretch_of(motion);
    for time in times {
        match point_at(&sines, motion, stretch, *time, p) {
            Ok(_) => {}
            Err(refusal) => {
                return refusal.number();
            }
        }
    }
    0
}

// The answered point, or the origin.
fn point_of(answer: Result<Point3f, Refusal>) -> Point3f
    ensures value { result ≡ PointAnswer-point (numbered answer) }
{
    match answer {
        Ok(q) => q,
        Err(_) => Point3f {
            x: 0.0,
            y: 0.0,
            z: 0.0,
        },
    }
}

fn put_three(out: &mut [f32], n: usize, q: Point3f)
    requires { n + 2 < length out.old }
    ensures left { out.new ≡ sets out.old n (Point3f-list q) }
{
    out[n] = q.x;
    out[n + 1] = q.y;
    out[n + 2] = q.z;
}

fn fill_stretch(motion: &[[f32; 4]; 45], times: &[f32], p: Point3f, answers: &mut [f32])
    requires { length answers.old ≡ places_per_time * length times.now }
    ensures left { answers.new ≡ floats_at (λ t. Rows-transform_point motion.now t p) times.now }
{
    if times.len() == 0 {
        return;
    }
    let sines = Sines::new();
    let stretch = stretch_of(motion);
    for (i, time) in times.iter().enumerate() {
        let q = point_of(point_at(&sines, motion, stretch, *time, p));
        put_three(answers, 3 * i, q);
    }
}

// Where a point stands at each time of a kept move, put into answers of three places a time, the origin where a time is refused.
// Other answers stay as they came.
// Accuracy: each operation but sine and cosine is correctly rounded.
pub fn put_points(motion: &[[f32; 4]; 45], times: &[f32], p: Point3f, answers: &mut [f32])
    ensures left { answers.new ≡ Rows-points_put motion.now times.now p answers.old }
{
    if answers.len() == 3 * times.len() {
        fill_stretch(motion, times, p, answers);
    }
}
