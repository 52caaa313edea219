// The smaller and the larger of two floats, a float brought between two bounds, its size, and whether
// it is finite.
ghost use Rattle.std.specs.Prelude.{◌≡◌};
ghost use Rattle.std.specs.Float.Ieee.Scale.{finite};
ghost use Rattle.rounding.specs.Extremes.{min_of, max_of, clamp_of, abs_of};

use crate::binary::{Binary, size};

pub fn min<T: Binary>(x: T, y: T) -> T
    ensures { T.float result ≡ min_of (T.float x) (T.float y) }
{
    if y < x || x != x { y } else { x }
}

pub fn max<T: Binary>(x: T, y: T) -> T
    ensures { T.float result ≡ max_of (T.float x) (T.float y) }
{
    if x < y || x != x { y } else { x }
}

pub fn clamp<T: Binary>(x: T, lo: T, hi: T) -> T
    ensures { T.float result ≡ clamp_of (T.float x) (T.float lo) (T.float hi) }
{
    let y = if x < lo { lo } else { x };
    if hi < y { hi } else { y }
}

pub fn abs<T: Binary>(x: T) -> T
    ensures { T.float result ≡ abs_of (T.float x) }
{
    if x != x {
        return x;
    }
    T::of_bits(size(x))
}

pub fn is_finite<T: Binary>(x: T) -> bool
    ensures { result ≡ finite (T.float x) }
{
    x.is_number()
}
