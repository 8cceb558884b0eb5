// The coefficients of the derivative of the motion along z, over one column of the two scale matrices: 000's c1 to c5, in its order of operations.
#![tactic(auto)]

ghost use Rattle.std.specs.Prelude.{◌≡◌};
ghost use Rattle.derivative_z.specs.Terms.{c1z, c2z, c3z, c4z, c5z};

// pbrt's c1 along z at one column of the scale matrices: the derivative's constant term. Accuracy: each operation is correctly rounded.
pub fn c1z(
    q0x: f32,
    q0y: f32,
    q0z: f32,
    q0w: f32,
    qperpx: f32,
    qperpy: f32,
    qperpz: f32,
    qperpw: f32,
    theta: f32,
    s00: f32,
    s01: f32,
    s02: f32,
    s10: f32,
    s11: f32,
    s12: f32,
) -> f32
    ensures value { result ≡ c1z q0x q0y q0z q0w qperpx qperpy qperpz qperpw theta s00 s01 s02 s10 s11 s12 }
{
    qperpw * qperpy * s00
        - qperpx * qperpz * s00
        - q0y * q0z * s01
        - qperpw * qperpx * s01
        - qperpy * qperpz * s01
        - s02
        + q0y * q0y * s02
        + qperpx * qperpx * s02
        + qperpy * qperpy * s02
        - qperpw * qperpy * s10
        + qperpx * qperpz * s10
        + q0x * q0z * (-s00 + s10)
        + q0y * q0z * s11
        + qperpw * qperpx * s11
        + qperpy * qperpz * s11
        + q0w * (q0y * (s00 - s10) + q0x * (-s01 + s11))
        + q0x * q0x * (s02 - s12)
        + s12
        - q0y * q0y * s12
        - qperpx * qperpx * s12
        - qperpy * qperpy * s12
}

// pbrt's c2, likewise: the factor of cos(2 theta t) in the derivative. Accuracy: each operation is correctly rounded.
pub fn c2z(
    q0x: f32,
    q0y: f32,
    q0z: f32,
    q0w: f32,
    qperpx: f32,
    qperpy: f32,
    qperpz: f32,
    qperpw: f32,
    theta: f32,
    s00: f32,
    s01: f32,
    s02: f32,
    s10: f32,
    s11: f32,
    s12: f32,
) -> f32
    ensures value { result ≡ c2z q0x q0y q0z q0w qperpx qperpy qperpz qperpw theta s00 s01 s02 s10 s11 s12 }
{
    q0w * q0y * s00 - q0x * q0z * s00 - qperpw * qperpy * s00 + qperpx * qperpz * s00
        - q0w * q0x * s01
        - q0y * q0z * s01
        + qperpw * qperpx * s01
        + qperpy * qperpz * s01
        + q0x * q0x * s02
        + q0y * q0y * s02
        - qperpx * qperpx * s02
        - qperpy * qperpy * s02
        - q0w * q0y * s10
        + q0x * q0z * s10
        + qperpw * qperpy * s10
        - qperpx * qperpz * s10
        + q0w * q0x * s11
        + q0y * q0z * s11
        - qperpw * qperpx * s11
        - qperpy * qperpz * s11
        - q0x * q0x * s12
        - q0y * q0y * s12
        + qperpx * qperpx * s12
        + qperpy * qperpy * s12
        - 2.0 * q0y * qperpw * s00 * theta
        + 2.0 * q0z * qperpx * s00 * theta
        - 2.0 * q0w * qperpy * s00 * theta
        + 2.0 * q0x * qperpz * s00 * theta
        + 2.0 * q0x * qperpw * s01 * theta
        + 2.0 * q0w * qperpx * s01 * theta
        + 2.0 * q0z * qperpy * s01 * theta
        + 2.0 * q0y * qperpz * s01 * theta
        - 4.0 * q0x * qperpx * s02 * theta
        - 4.0 * q0y * qperpy * s02 * theta
}

// pbrt's c3, likewise: the factor of t cos(2 theta t) in the derivative. Accuracy: each operation is correctly rounded.
pub fn c3z(
    q0x: f32,
    q0y: f32,
    q0z: f32,
    q0w: f32,
    qperpx: f32,
    qperpy: f32,
    qperpz: f32,
    qperpw: f32,
    theta: f32,
    s00: f32,
    s01: f32,
    s02: f32,
    s10: f32,
    s11: f32,
    s12: f32,
) -> f32
    ensures value { result ≡ c3z q0x q0y q0z q0w qperpx qperpy qperpz qperpw theta s00 s01 s02 s10 s11 s12 }
{
    -2.0 * (-(q0w * qperpy * s00) + q0x * qperpz * s00 + q0x * qperpw * s01 + q0w * qperpx * s01
        - 2.0 * q0x * qperpx * s02
        + q0w * qperpy * s10
        - q0x * qperpz * s10
        - q0x * qperpw * s11
        - q0w * qperpx * s11
        + q0z * (qperpx * s00 + qperpy * s01 - qperpx * s10 - qperpy * s11)
        + 2.0 * q0x * qperpx * s12
        + q0y
            * (qperpz * s01 - 2.0 * qperpy * s02 + qperpw * (-s00 + s10) - qperpz * s11
                + 2.0 * qperpy * s12))
        * theta
}

// pbrt's c4, likewise: the factor of sin(2 theta t) in the derivative. Accuracy: each operation is correctly rounded.
pub fn c4z(
    q0x: f32,
    q0y: f32,
    q0z: f32,
    q0w: f32,
    qperpx: f32,
    qperpy: f32,
    qperpz: f32,
    qperpw: f32,
    theta: f32,
    s00: f32,
    s01: f32,
    s02: f32,
    s10: f32,
    s11: f32,
    s12: f32,
) -> f32
    ensures value { result ≡ c4z q0x q0y q0z q0w qperpx qperpy qperpz qperpw theta s00 s01 s02 s10 s11 s12 }
{
    q0w * qperpy * s00 - q0x * qperpz * s00 - q0x * qperpw * s01 - q0w * qperpx * s01
        + 2.0 * q0x * qperpx * s02
        - q0w * qperpy * s10
        + q0x * qperpz * s10
        + q0x * qperpw * s11
        + q0w * qperpx * s11
        - 2.0 * q0x * qperpx * s12
        - 2.0 * qperpw * qperpy * s00 * theta
        + 2.0 * qperpx * qperpz * s00 * theta
        - 2.0 * q0w * q0x * s01 * theta
        + 2.0 * qperpw * qperpx * s01 * theta
        + 2.0 * qperpy * qperpz * s01 * theta
        + 2.0 * q0x * q0x * s02 * theta
        + 2.0 * q0y * q0y * s02 * theta
        - 2.0 * qperpx * qperpx * s02 * theta
        - 2.0 * qperpy * qperpy * s02 * theta
        + q0z
            * (-(qperpx * s00) - qperpy * s01 + qperpx * s10 + qperpy * s11
                - 2.0 * q0x * s00 * theta)
        + q0y
            * (-(qperpz * s01) + 2.0 * qperpy * s02 + qperpw * (s00 - s10) + qperpz * s11
                - 2.0 * qperpy * s12
                + 2.0 * q0w * s00 * theta
                - 2.0 * q0z * s01 * theta)
}

// pbrt's c5, likewise: the factor of t sin(2 theta t) in the derivative. Accuracy: each operation is correctly rounded.
pub fn c5z(
    q0x: f32,
    q0y: f32,
    q0z: f32,
    q0w: f32,
    qperpx: f32,
    qperpy: f32,
    qperpz: f32,
    qperpw: f32,
    theta: f32,
    s00: f32,
    s01: f32,
    s02: f32,
    s10: f32,
    s11: f32,
    s12: f32,
) -> f32
    ensures value { result ≡ c5z q0x q0y q0z q0w qperpx qperpy qperpz qperpw theta s00 s01 s02 s10 s11 s12 }
{
    2.0 * (qperpw * qperpy * s00 - qperpx * qperpz * s00 + q0y * q0z * s01
        - qperpw * qperpx * s01
        - qperpy * qperpz * s01
        - q0y * q0y * s02
        + qperpx * qperpx * s02
        + qperpy * qperpy * s02
        + q0x * q0z * (s00 - s10)
        - qperpw * qperpy * s10
        + qperpx * qperpz * s10
        + q0w * (q0y * (-s00 + s10) + q0x * (s01 - s11))
        - q0y * q0z * s11
        + qperpw * qperpx * s11
        + qperpy * qperpz * s11
        + q0y * q0y * s12
        - qperpx * qperpx * s12
        - qperpy * qperpy * s12
        + q0x * q0x * (-s02 + s12))
        * theta
}
