// A root against a constant with no root taken: the number under the root is compared with another
// constant. Where there is no root, each answer is no.
ghost use Rattle.std.specs.Prelude.{◌≡◌};
ghost use Rattle.std.specs.Float.{binary32};
ghost use Rattle.std.specs.Float.Ieee.{le, lt};
ghost use Rattle.rounding.specs.Root.{sqrt_of};
ghost use Rattle.rounding.specs.Hypot.{hypot_of};
ghost use Rattle.rounding.specs.Thresholds.{micro, milli, tenth};

use crate::hypot::squares;

// Is the root of x below 1e-6? 9.99999888e-13 is the first number whose root is not.
pub fn root_below_micro(x: f32) -> bool
    ensures { result ≡ lt (sqrt_of binary32 x) micro }
{
    if x >= 9.99999888e-13 {
        return false;
    }
    x >= 0.0
}

// Is the root of x above 0.1?
pub fn root_above_tenth(x: f32) -> bool
    ensures { result ≡ lt tenth (sqrt_of binary32 x) }
{
    x >= 0.0100000016
}

// Is the length of (a, b) above 1e-3?
pub fn hypot_above_milli(a: f32, b: f32) -> bool
    ensures { result ≡ lt milli (hypot_of a b) }
{
    squares(a, b) >= 1.0000002114102354e-6
}

// Is it at most 1e-3?
pub fn hypot_at_most_milli(a: f32, b: f32) -> bool
    ensures { result ≡ le (hypot_of a b) milli }
{
    let n = squares(a, b);
    if n >= 1.0000002114102354e-6 {
        return false;
    }
    n >= 0.0
}
