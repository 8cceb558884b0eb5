// A move between its two poses: what the steps of pbrt's `interpolate` and `transform_point` take and give, in floats and in intervals.
// The steps themselves are formulas (specs/Stages.antt), and their code stands in crates of its own.
#![tactic(auto)]

use interval::Interval;
use matrix4x4::Matrix4x4;
use quaternion::Quaternion;
use vector3::Vector3f;

// Translation and rotation of the two poses. cos_theta is the dot product of the rotations and theta the angle between them.
// A rigid move has the identity in the place of its scale.
#[derive(Clone, Copy)]
pub struct PoseConstants {
    pub t0: Vector3f,
    pub t1: Vector3f,
    pub r0: Quaternion,
    pub r1: Quaternion,
    pub cos_theta: f32,
    pub theta: f32,
    pub rigid: bool,
}

// A matrix beside the number of a refusal, 0 for none: after a refusal every entry is +0.
#[derive(Clone, Copy)]
pub struct PoseAnswer {
    pub m: Matrix4x4,
    pub refusal: u8,
}

// Intervals in the place of floats. A matrix is the three rows above 0, 0, 0, 1.
#[derive(Clone, Copy)]
pub struct IntervalVector {
    pub x: Interval,
    pub y: Interval,
    pub z: Interval,
}

#[derive(Clone, Copy)]
pub struct IntervalQuaternion {
    pub x: Interval,
    pub y: Interval,
    pub z: Interval,
    pub w: Interval,
}

#[derive(Clone, Copy)]
pub struct IntervalRow {
    pub c0: Interval,
    pub c1: Interval,
    pub c2: Interval,
    pub c3: Interval,
}

#[derive(Clone, Copy)]
pub struct IntervalMatrix {
    pub r0: IntervalRow,
    pub r1: IntervalRow,
    pub r2: IntervalRow,
}
