// The coefficient set: pbrt's c1 to c5 on each axis, the derivative of a moved point by time.
#![tactic(auto)]

ghost use Rattle.std.specs.Prelude.{◌≡◌};
ghost use Rattle.coefficients.specs.Coefficients.{Coefficients-new, Coefficients-zero};
ghost use Rattle.coefficients.specs.IsFinite.{Coefficients-is_finite};

use axis_derivative::{Derivative, DerivativeTerm, X, Y, Z};
use quaternion::Quaternion;
use vector3::Vector3f;

// The coefficient set.
#[derive(Clone, Copy)]
pub struct Coefficients {
    pub x: Derivative,
    pub y: Derivative,
    pub z: Derivative,
}

impl Coefficients {
    // pbrt's c1 to c5 from the translations, the start's rotation, the quaternion perpendicular to it towards the end's, the angle between the two, and the
    // scale matrices. Accuracy: each operation is correctly rounded.
    pub fn new(
        t0: Vector3f,
        t1: Vector3f,
        q0: Quaternion,
        qperp: Quaternion,
        theta: f32,
        s0: [[f32; 4]; 4],
        s1: [[f32; 4]; 4],
    ) -> Coefficients
        ensures value { result ≡ Coefficients-new t0 t1 q0 qperp theta s0 s1 }
    {
        let a = matrix4x4::transpose(s0);
        let b = matrix4x4::transpose(s1);
        let x = axis_derivative::along::<X>(-t0.x + t1.x, q0, qperp, theta, a, b);
        let y = axis_derivative::along::<Y>(-t0.y + t1.y, q0, qperp, theta, a, b);
        let z = axis_derivative::along::<Z>(-t0.z + t1.z, q0, qperp, theta, a, b);
        Coefficients { x, y, z }
    }

    // The coefficient set of a move without rotation: every number is +0. Accuracy: exact.
    pub fn zero() -> Coefficients
        ensures value { result ≡ Coefficients-zero }
    {
        let k = DerivativeTerm {
            kc: 0.0,
            kx: 0.0,
            ky: 0.0,
            kz: 0.0,
        };
        let d = Derivative {
            c1: k,
            c2: k,
            c3: k,
            c4: k,
            c5: k,
        };
        Coefficients { x: d, y: d, z: d }
    }

    // Whether the derivatives along all three axes are finite. Accuracy: exact.
    pub fn is_finite(self) -> bool
        ensures value { result ≡ Coefficients-is_finite self }
    {
        self.x.is_finite() & self.y.is_finite() & self.z.is_finite()
    }
}
