// A float made a whole number of the machine: the fraction is cut off, and what is out of range goes to
// the nearest end of it, as Rust's `as`. A NaN gives 0.
ghost use Rattle.std.specs.Prelude.{◌≡◌};
ghost use Rattle.std.specs.Float.Ieee.{to_unsigned, to_signed};

use crate::binary::Binary;

// `x as usize` of Rust.
pub fn count<T: Binary>(x: T) -> u64
    ensures { result ≡ to_unsigned 64 (T.float x) }
{
    x.to_u64()
}

// `x as i64` of Rust.
pub fn int64(x: f64) -> i64
    ensures { result ≡ to_signed 63 x }
{
    std::num::saturating_f64_to_i64(x)
}
