// The coefficients of the derivative of the motion along x, over one column of the two scale matrices: 000's c1 to c5, in its order of operations.
#![tactic(auto)]

ghost use Rattle.std.specs.Prelude.{◌≡◌};
ghost use Rattle.derivative_x.specs.Terms.{c1x, c2x, c3x, c4x, c5x};

// pbrt's c1 along x at one column of the scale matrices: the derivative's constant term. Accuracy: each operation is correctly rounded.
pub fn c1x(
    q0x: f32,
    q0y: f32,
    q0z: f32,
    q0w: f32,
    qperpx: f32,
    qperpy: f32,
    qperpz: f32,
    qperpw: f32,
    theta: f32,
    s00: f32,
    s01: f32,
    s02: f32,
    s10: f32,
    s11: f32,
    s12: f32,
) -> f32
    ensures value { result ≡ c1x q0x q0y q0z q0w qperpx qperpy qperpz qperpw theta s00 s01 s02 s10 s11 s12 }
{
    (-1.0 + q0y * q0y + q0z * q0z + qperpy * qperpy + qperpz * qperpz) * s00 + q0w * q0z * s01
        - qperpx * qperpy * s01
        + qperpw * qperpz * s01
        - q0w * q0y * s02
        - qperpw * qperpy * s02
        - qperpx * qperpz * s02
        + s10
        - q0y * q0y * s10
        - q0z * q0z * s10
        - qperpy * qperpy * s10
        - qperpz * qperpz * s10
        - q0w * q0z * s11
        + qperpx * qperpy * s11
        - qperpw * qperpz * s11
        + q0w * q0y * s12
        + qperpw * qperpy * s12
        + qperpx * qperpz * s12
        + q0x * (-(q0y * s01) - q0z * s02 + q0y * s11 + q0z * s12)
}

// pbrt's c2, likewise: the factor of cos(2 theta t) in the derivative. Accuracy: each operation is correctly rounded.
pub fn c2x(
    q0x: f32,
    q0y: f32,
    q0z: f32,
    q0w: f32,
    qperpx: f32,
    qperpy: f32,
    qperpz: f32,
    qperpw: f32,
    theta: f32,
    s00: f32,
    s01: f32,
    s02: f32,
    s10: f32,
    s11: f32,
    s12: f32,
) -> f32
    ensures value { result ≡ c2x q0x q0y q0z q0w qperpx qperpy qperpz qperpw theta s00 s01 s02 s10 s11 s12 }
{
    -(qperpy * qperpy * s00) - qperpz * qperpz * s00 + qperpx * qperpy * s01 - qperpw * qperpz * s01
        + qperpw * qperpy * s02
        + qperpx * qperpz * s02
        + q0y * q0y * (s00 - s10)
        + q0z * q0z * (s00 - s10)
        + qperpy * qperpy * s10
        + qperpz * qperpz * s10
        - qperpx * qperpy * s11
        + qperpw * qperpz * s11
        - qperpw * qperpy * s12
        - qperpx * qperpz * s12
        + 2.0 * q0x * qperpy * s01 * theta
        - 2.0 * q0w * qperpz * s01 * theta
        + 2.0 * q0w * qperpy * s02 * theta
        + 2.0 * q0x * qperpz * s02 * theta
        + q0y
            * (q0x * (-s01 + s11)
                + q0w * (-s02 + s12)
                + 2.0 * (-2.0 * qperpy * s00 + qperpx * s01 + qperpw * s02) * theta)
        + q0z
            * (q0w * (s01 - s11) + q0x * (-s02 + s12)
                - 2.0 * (2.0 * qperpz * s00 + qperpw * s01 - qperpx * s02) * theta)
}

// pbrt's c3, likewise: the factor of t cos(2 theta t) in the derivative. Accuracy: each operation is correctly rounded.
pub fn c3x(
    q0x: f32,
    q0y: f32,
    q0z: f32,
    q0w: f32,
    qperpx: f32,
    qperpy: f32,
    qperpz: f32,
    qperpw: f32,
    theta: f32,
    s00: f32,
    s01: f32,
    s02: f32,
    s10: f32,
    s11: f32,
    s12: f32,
) -> f32
    ensures value { result ≡ c3x q0x q0y q0z q0w qperpx qperpy qperpz qperpw theta s00 s01 s02 s10 s11 s12 }
{
    -2.0 * (q0x * qperpy * s01 - q0w * qperpz * s01 + q0w * qperpy * s02 + q0x * qperpz * s02
        - q0x * qperpy * s11
        + q0w * qperpz * s11
        - q0w * qperpy * s12
        - q0x * qperpz * s12
        + q0y
            * (-2.0 * qperpy * s00 + qperpx * s01 + qperpw * s02 + 2.0 * qperpy * s10
                - qperpx * s11
                - qperpw * s12)
        + q0z
            * (-2.0 * qperpz * s00 - qperpw * s01 + qperpx * s02 + 2.0 * qperpz * s10 + qperpw * s11
                - qperpx * s12))
        * theta
}

// pbrt's c4, likewise: the factor of sin(2 theta t) in the derivative. Accuracy: each operation is correctly rounded.
pub fn c4x(
    q0x: f32,
    q0y: f32,
    q0z: f32,
    q0w: f32,
    qperpx: f32,
    qperpy: f32,
    qperpz: f32,
    qperpw: f32,
    theta: f32,
    s00: f32,
    s01: f32,
    s02: f32,
    s10: f32,
    s11: f32,
    s12: f32,
) -> f32
    ensures value { result ≡ c4x q0x q0y q0z q0w qperpx qperpy qperpz qperpw theta s00 s01 s02 s10 s11 s12 }
{
    -(q0x * qperpy * s01) + q0w * qperpz * s01 - q0w * qperpy * s02 - q0x * qperpz * s02
        + q0x * qperpy * s11
        - q0w * qperpz * s11
        + q0w * qperpy * s12
        + q0x * qperpz * s12
        + 2.0 * q0y * q0y * s00 * theta
        + 2.0 * q0z * q0z * s00 * theta
        - 2.0 * qperpy * qperpy * s00 * theta
        - 2.0 * qperpz * qperpz * s00 * theta
        + 2.0 * qperpx * qperpy * s01 * theta
        - 2.0 * qperpw * qperpz * s01 * theta
        + 2.0 * qperpw * qperpy * s02 * theta
        + 2.0 * qperpx * qperpz * s02 * theta
        + q0y
            * (-(qperpx * s01) - qperpw * s02
                + 2.0 * qperpy * (s00 - s10)
                + qperpx * s11
                + qperpw * s12
                - 2.0 * q0x * s01 * theta
                - 2.0 * q0w * s02 * theta)
        + q0z
            * (2.0 * qperpz * s00 + qperpw * s01 - qperpx * s02 - 2.0 * qperpz * s10 - qperpw * s11
                + qperpx * s12
                + 2.0 * q0w * s01 * theta
                - 2.0 * q0x * s02 * theta)
}

// pbrt's c5, likewise: the factor of t sin(2 theta t) in the derivative. Accuracy: each operation is correctly rounded.
pub fn c5x(
    q0x: f32,
    q0y: f32,
    q0z: f32,
    q0w: f32,
    qperpx: f32,
    qperpy: f32,
    qperpz: f32,
    qperpw: f32,
    theta: f32,
    s00: f32,
    s01: f32,
    s02: f32,
    s10: f32,
    s11: f32,
    s12: f32,
) -> f32
    ensures value { result ≡ c5x q0x q0y q0z q0w qperpx qperpy qperpz qperpw theta s00 s01 s02 s10 s11 s12 }
{
    2.0 * (qperpy * qperpy * s00 + qperpz * qperpz * s00 - qperpx * qperpy * s01
        + qperpw * qperpz * s01
        - qperpw * qperpy * s02
        - qperpx * qperpz * s02
        - qperpy * qperpy * s10
        - qperpz * qperpz * s10
        + q0y * q0y * (-s00 + s10)
        + q0z * q0z * (-s00 + s10)
        + qperpx * qperpy * s11
        - qperpw * qperpz * s11
        + q0y * (q0x * (s01 - s11) + q0w * (s02 - s12))
        + qperpw * qperpy * s12
        + qperpx * qperpz * s12
        + q0z * (-(q0w * s01) + q0x * s02 + q0w * s11 - q0x * s12))
        * theta
}
