// The coefficients of the derivative of the motion along y, over one column of the two scale matrices: 000's c1 to c5, in its order of operations.
#![tactic(auto)]

ghost use Rattle.std.specs.Prelude.{◌≡◌};
ghost use Rattle.derivative_y.specs.Terms.{c1y, c2y, c3y, c4y, c5y};

// pbrt's c1 along y at one column of the scale matrices: the derivative's constant term. Accuracy: each operation is correctly rounded.
pub fn c1y(
    q0x: f32,
    q0y: f32,
    q0z: f32,
    q0w: f32,
    qperpx: f32,
    qperpy: f32,
    qperpz: f32,
    qperpw: f32,
    theta: f32,
    s00: f32,
    s01: f32,
    s02: f32,
    s10: f32,
    s11: f32,
    s12: f32,
) -> f32
    ensures value { result ≡ c1y q0x q0y q0z q0w qperpx qperpy qperpz qperpw theta s00 s01 s02 s10 s11 s12 }
{
    -(qperpx * qperpy * s00) - qperpw * qperpz * s00 - s01
        + q0z * q0z * s01
        + qperpx * qperpx * s01
        + qperpz * qperpz * s01
        - q0y * q0z * s02
        + qperpw * qperpx * s02
        - qperpy * qperpz * s02
        + qperpx * qperpy * s10
        + qperpw * qperpz * s10
        + q0w * q0z * (-s00 + s10)
        + q0x * q0x * (s01 - s11)
        + s11
        - q0z * q0z * s11
        - qperpx * qperpx * s11
        - qperpz * qperpz * s11
        + q0x * (q0y * (-s00 + s10) + q0w * (s02 - s12))
        + q0y * q0z * s12
        - qperpw * qperpx * s12
        + qperpy * qperpz * s12
}

// pbrt's c2, likewise: the factor of cos(2 theta t) in the derivative. Accuracy: each operation is correctly rounded.
pub fn c2y(
    q0x: f32,
    q0y: f32,
    q0z: f32,
    q0w: f32,
    qperpx: f32,
    qperpy: f32,
    qperpz: f32,
    qperpw: f32,
    theta: f32,
    s00: f32,
    s01: f32,
    s02: f32,
    s10: f32,
    s11: f32,
    s12: f32,
) -> f32
    ensures value { result ≡ c2y q0x q0y q0z q0w qperpx qperpy qperpz qperpw theta s00 s01 s02 s10 s11 s12 }
{
    qperpx * qperpy * s00 + qperpw * qperpz * s00 + q0z * q0z * s01
        - qperpx * qperpx * s01
        - qperpz * qperpz * s01
        - q0y * q0z * s02
        - qperpw * qperpx * s02
        + qperpy * qperpz * s02
        - qperpx * qperpy * s10
        - qperpw * qperpz * s10
        + q0x * q0x * (s01 - s11)
        - q0z * q0z * s11
        + qperpx * qperpx * s11
        + qperpz * qperpz * s11
        + q0y * q0z * s12
        + qperpw * qperpx * s12
        - qperpy * qperpz * s12
        + 2.0 * q0z * qperpw * s00 * theta
        + 2.0 * q0y * qperpx * s00 * theta
        - 4.0 * q0z * qperpz * s01 * theta
        + 2.0 * q0z * qperpy * s02 * theta
        + 2.0 * q0y * qperpz * s02 * theta
        + q0x
            * (q0w * s02 + q0y * (-s00 + s10) - q0w * s12 + 2.0 * qperpy * s00 * theta
                - 4.0 * qperpx * s01 * theta
                - 2.0 * qperpw * s02 * theta)
        + q0w * (-(q0z * s00) + q0z * s10 + 2.0 * qperpz * s00 * theta - 2.0 * qperpx * s02 * theta)
}

// pbrt's c3, likewise: the factor of t cos(2 theta t) in the derivative. Accuracy: each operation is correctly rounded.
pub fn c3y(
    q0x: f32,
    q0y: f32,
    q0z: f32,
    q0w: f32,
    qperpx: f32,
    qperpy: f32,
    qperpz: f32,
    qperpw: f32,
    theta: f32,
    s00: f32,
    s01: f32,
    s02: f32,
    s10: f32,
    s11: f32,
    s12: f32,
) -> f32
    ensures value { result ≡ c3y q0x q0y q0z q0w qperpx qperpy qperpz qperpw theta s00 s01 s02 s10 s11 s12 }
{
    2.0 * (-(q0x * qperpy * s00) - q0w * qperpz * s00
        + 2.0 * q0x * qperpx * s01
        + q0x * qperpw * s02
        + q0w * qperpx * s02
        + q0x * qperpy * s10
        + q0w * qperpz * s10
        - 2.0 * q0x * qperpx * s11
        - q0x * qperpw * s12
        - q0w * qperpx * s12
        + q0z
            * (2.0 * qperpz * s01 - qperpy * s02 + qperpw * (-s00 + s10) - 2.0 * qperpz * s11
                + qperpy * s12)
        + q0y * (-(qperpx * s00) - qperpz * s02 + qperpx * s10 + qperpz * s12))
        * theta
}

// pbrt's c4, likewise: the factor of sin(2 theta t) in the derivative. Accuracy: each operation is correctly rounded.
pub fn c4y(
    q0x: f32,
    q0y: f32,
    q0z: f32,
    q0w: f32,
    qperpx: f32,
    qperpy: f32,
    qperpz: f32,
    qperpw: f32,
    theta: f32,
    s00: f32,
    s01: f32,
    s02: f32,
    s10: f32,
    s11: f32,
    s12: f32,
) -> f32
    ensures value { result ≡ c4y q0x q0y q0z q0w qperpx qperpy qperpz qperpw theta s00 s01 s02 s10 s11 s12 }
{
    -(q0x * qperpy * s00) - q0w * qperpz * s00
        + 2.0 * q0x * qperpx * s01
        + q0x * qperpw * s02
        + q0w * qperpx * s02
        + q0x * qperpy * s10
        + q0w * qperpz * s10
        - 2.0 * q0x * qperpx * s11
        - q0x * qperpw * s12
        - q0w * qperpx * s12
        + 2.0 * qperpx * qperpy * s00 * theta
        + 2.0 * qperpw * qperpz * s00 * theta
        + 2.0 * q0x * q0x * s01 * theta
        + 2.0 * q0z * q0z * s01 * theta
        - 2.0 * qperpx * qperpx * s01 * theta
        - 2.0 * qperpz * qperpz * s01 * theta
        + 2.0 * q0w * q0x * s02 * theta
        - 2.0 * qperpw * qperpx * s02 * theta
        + 2.0 * qperpy * qperpz * s02 * theta
        + q0y
            * (-(qperpx * s00) - qperpz * s02 + qperpx * s10 + qperpz * s12
                - 2.0 * q0x * s00 * theta)
        + q0z
            * (2.0 * qperpz * s01 - qperpy * s02 + qperpw * (-s00 + s10) - 2.0 * qperpz * s11
                + qperpy * s12
                - 2.0 * q0w * s00 * theta
                - 2.0 * q0y * s02 * theta)
}

// pbrt's c5, likewise: the factor of t sin(2 theta t) in the derivative. Accuracy: each operation is correctly rounded.
pub fn c5y(
    q0x: f32,
    q0y: f32,
    q0z: f32,
    q0w: f32,
    qperpx: f32,
    qperpy: f32,
    qperpz: f32,
    qperpw: f32,
    theta: f32,
    s00: f32,
    s01: f32,
    s02: f32,
    s10: f32,
    s11: f32,
    s12: f32,
) -> f32
    ensures value { result ≡ c5y q0x q0y q0z q0w qperpx qperpy qperpz qperpw theta s00 s01 s02 s10 s11 s12 }
{
    -2.0 * (qperpx * qperpy * s00 + qperpw * qperpz * s00 + q0z * q0z * s01
        - qperpx * qperpx * s01
        - qperpz * qperpz * s01
        - q0y * q0z * s02
        - qperpw * qperpx * s02
        + qperpy * qperpz * s02
        - qperpx * qperpy * s10
        - qperpw * qperpz * s10
        + q0w * q0z * (-s00 + s10)
        + q0x * q0x * (s01 - s11)
        - q0z * q0z * s11
        + qperpx * qperpx * s11
        + qperpz * qperpz * s11
        + q0x * (q0y * (-s00 + s10) + q0w * (s02 - s12))
        + q0y * q0z * s12
        + qperpw * qperpx * s12
        - qperpy * qperpz * s12)
        * theta
}
