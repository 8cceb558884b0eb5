// The derivative of a moved point by time along one axis: a sum of five terms, pbrt's c1 to c5, each an affine function of the point.
// The formulas are those of derivative_x, derivative_y and derivative_z, at the three columns of the two scale matrices.
#![tactic(auto)]

ghost use Rattle.std.specs.Prelude.{◌≡◌};
ghost use Rattle.matrix4x4.specs.Rows.{row};
ghost use Rattle.derivative_x.specs.Terms.{c1x, c2x, c3x, c4x, c5x};
ghost use Rattle.derivative_y.specs.Terms.{c1y, c2y, c3y, c4y, c5y};
ghost use Rattle.derivative_z.specs.Terms.{c1z, c2z, c3z, c4z, c5z};
ghost use Rattle.axis_derivative.specs.AxisDerivative.{AxisTerms, column_terms, from_columns, derivative_over};
ghost use Rattle.axis_derivative.specs.IsFinite.{DerivativeTerm-is_finite, Derivative-is_finite};

use derivative_x::{c1x, c2x, c3x, c4x, c5x};
use derivative_y::{c1y, c2y, c3y, c4y, c5y};
use derivative_z::{c1z, c2z, c3z, c4z, c5z};
use quaternion::Quaternion;

// The five coefficients of an axis at one column of the scale matrices.
#[derive(Clone, Copy)]
pub struct ColumnTerms {
    pub c1: f32,
    pub c2: f32,
    pub c3: f32,
    pub c4: f32,
    pub c5: f32,
}

// kc + kx * x + ky * y + kz * z at a point (x, y, z).
#[derive(Clone, Copy)]
pub struct DerivativeTerm {
    pub kc: f32,
    pub kx: f32,
    pub ky: f32,
    pub kz: f32,
}

// The derivative along axis i: pbrt's c1[i] to c5[i].
#[derive(Clone, Copy)]
pub struct Derivative {
    pub c1: DerivativeTerm,
    pub c2: DerivativeTerm,
    pub c3: DerivativeTerm,
    pub c4: DerivativeTerm,
    pub c5: DerivativeTerm,
}

// An axis, by pbrt's five formulas along it.
pub trait Axis {
    ghost terms: { AxisTerms };

    // The formulas at one column of the scale matrices. Accuracy: each operation is correctly rounded.
    fn column(
        q0: Quaternion,
        qperp: Quaternion,
        theta: f32,
        a: [f32; 4],
        b: [f32; 4],
    ) -> ColumnTerms
        ensures value { result ≡ terms q0 qperp theta a b };
}

pub struct X;

pub struct Y;

pub struct Z;

impl Axis for X {
    ghost terms = { column_terms c1x c2x c3x c4x c5x };

    fn column(
        q0: Quaternion,
        qperp: Quaternion,
        theta: f32,
        a: [f32; 4],
        b: [f32; 4],
    ) -> ColumnTerms {
        let x = q0.v.x;
        let y = q0.v.y;
        let z = q0.v.z;
        let w = q0.w;
        let px = qperp.v.x;
        let py = qperp.v.y;
        let pz = qperp.v.z;
        let pw = qperp.w;
        let [a0, a1, a2, _] = a;
        let [b0, b1, b2, _] = b;
        ColumnTerms {
            c1: c1x(x, y, z, w, px, py, pz, pw, theta, a0, a1, a2, b0, b1, b2),
            c2: c2x(x, y, z, w, px, py, pz, pw, theta, a0, a1, a2, b0, b1, b2),
            c3: c3x(x, y, z, w, px, py, pz, pw, theta, a0, a1, a2, b0, b1, b2),
            c4: c4x(x, y, z, w, px, py, pz, pw, theta, a0, a1, a2, b0, b1, b2),
            c5: c5x(x, y, z, w, px, py, pz, pw, theta, a0, a1, a2, b0, b1, b2),
        }
    }
}

impl Axis for Y {
    ghost terms = { column_terms c1y c2y c3y c4y c5y };

    fn column(
        q0: Quaternion,
        qperp: Quaternion,
        theta: f32,
        a: [f32; 4],
        b: [f32; 4],
    ) -> ColumnTerms {
        let x = q0.v.x;
        let y = q0.v.y;
        let z = q0.v.z;
        let w = q0.w;
        let px = qperp.v.x;
        let py = qperp.v.y;
        let pz = qperp.v.z;
        let pw = qperp.w;
        let [a0, a1, a2, _] = a;
        let [b0, b1, b2, _] = b;
        ColumnTerms {
            c1: c1y(x, y, z, w, px, py, pz, pw, theta, a0, a1, a2, b0, b1, b2),
            c2: c2y(x, y, z, w, px, py, pz, pw, theta, a0, a1, a2, b0, b1, b2),
            c3: c3y(x, y, z, w, px, py, pz, pw, theta, a0, a1, a2, b0, b1, b2),
            c4: c4y(x, y, z, w, px, py, pz, pw, theta, a0, a1, a2, b0, b1, b2),
            c5: c5y(x, y, z, w, px, py, pz, pw, theta, a0, a1, a2, b0, b1, b2),
        }
    }
}

impl Axis for Z {
    ghost terms = { column_terms c1z c2z c3z c4z c5z };

    fn column(
        q0: Quaternion,
        qperp: Quaternion,
        theta: f32,
        a: [f32; 4],
        b: [f32; 4],
    ) -> ColumnTerms {
        let x = q0.v.x;
        let y = q0.v.y;
        let z = q0.v.z;
        let w = q0.w;
        let px = qperp.v.x;
        let py = qperp.v.y;
        let pz = qperp.v.z;
        let pw = qperp.w;
        let [a0, a1, a2, _] = a;
        let [b0, b1, b2, _] = b;
        ColumnTerms {
            c1: c1z(x, y, z, w, px, py, pz, pw, theta, a0, a1, a2, b0, b1, b2),
            c2: c2z(x, y, z, w, px, py, pz, pw, theta, a0, a1, a2, b0, b1, b2),
            c3: c3z(x, y, z, w, px, py, pz, pw, theta, a0, a1, a2, b0, b1, b2),
            c4: c4z(x, y, z, w, px, py, pz, pw, theta, a0, a1, a2, b0, b1, b2),
            c5: c5z(x, y, z, w, px, py, pz, pw, theta, a0, a1, a2, b0, b1, b2),
        }
    }
}

fn from_columns(kc: f32, x: ColumnTerms, y: ColumnTerms, z: ColumnTerms) -> Derivative
    ensures value { result ≡ from_columns kc x y z }
{
    let c1 = DerivativeTerm {
        kc,
        kx: x.c1,
        ky: y.c1,
        kz: z.c1,
    };
    let c2 = DerivativeTerm {
        kc: 0.0,
        kx: x.c2,
        ky: y.c2,
        kz: z.c2,
    };
    let c3 = DerivativeTerm {
        kc: 0.0,
        kx: x.c3,
        ky: y.c3,
        kz: z.c3,
    };
    let c4 = DerivativeTerm {
        kc: 0.0,
        kx: x.c4,
        ky: y.c4,
        kz: z.c4,
    };
    let c5 = DerivativeTerm {
        kc: 0.0,
        kx: x.c5,
        ky: y.c5,
        kz: z.c5,
    };
    Derivative { c1, c2, c3, c4, c5 }
}

// The derivative along an axis, pbrt's c1[i] to c5[i]: kc is the constant of c1, and the scale matrices are given transposed, so that their columns are rows.
// Accuracy: each operation is correctly rounded.
pub fn along<A: Axis>(
    kc: f32,
    q0: Quaternion,
    qperp: Quaternion,
    theta: f32,
    a: [[f32; 4]; 4],
    b: [[f32; 4]; 4],
) -> Derivative
    ensures value { result ≡ derivative_over A.terms q0 qperp theta (row a) (row b) kc }
{
    let [a0, a1, a2, _] = a;
    let [b0, b1, b2, _] = b;
    let x = A::column(q0, qperp, theta, a0, b0);
    let y = A::column(q0, qperp, theta, a1, b1);
    let z = A::column(q0, qperp, theta, a2, b2);
    from_columns(kc, x, y, z)
}

impl DerivativeTerm {
    // Whether none of the four coefficients is a NaN or an infinity. Accuracy: exact.
    pub fn is_finite(self) -> bool
        ensures value { result ≡ DerivativeTerm-is_finite self }
    {
        float32::is_finite(self.kc)
            & float32::is_finite(self.kx)
            & float32::is_finite(self.ky)
            & float32::is_finite(self.kz)
    }
}

impl Derivative {
    // Whether all five terms are finite. Accuracy: exact.
    pub fn is_finite(self) -> bool
        ensures value { result ≡ Derivative-is_finite self }
    {
        self.c1.is_finite()
            & self.c2.is_finite()
            & self.c3.is_finite()
            & self.c4.is_finite()
            & self.c5.is_finite()
    }
}
