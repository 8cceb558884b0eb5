// Whether two poses agree in every bit: their floats, one after the other.
#![tactic(auto)]

ghost use Rattle.std.specs.Prelude.{◌≡◌, true};
ghost use Rattle.lent_arrays.specs.Arrays.{Pose-of_list};
ghost use Rattle.pose_bits.specs.Bits.{Float-same_bits, Pose-same_bits};

// Two floats of the same bits are one float.
fn same_bits(x: f32, y: f32) -> bool
    ensures value { result ≡ Float-same_bits x y }
    ensures same { result ≡ true → x ≡ y }
{
    let a = hexadecimal::bits_of_float(x);
    let b = hexadecimal::bits_of_float(y);
    a == b
}

// Whether two poses of 18 floats agree in every bit, and are then one pose. Accuracy: exact.
pub fn same_pose(a: &[f32; 18], b: &[f32; 18]) -> bool
    ensures value { result ≡ Pose-same_bits (Pose-of_list a.now) (Pose-of_list b.now) }
    ensures same { result ≡ true → Pose-of_list a.now ≡ Pose-of_list b.now }
{
    for (x, y) in a.iter().zip(b) {
        if !same_bits(*x, *y) {
            return false;
        }
    }
    true
}
