// Floats to whole numbers of their format, by the bits.
ghost use Rattle.std.specs.Prelude.{◌≡◌, ◌*◌, ◌<◌, ◌≤◌, Bool, if◌then◌else◌, nat_le};
ghost use Rattle.std.specs.Float.Ieee.{ones, hid};
ghost use Rattle.rounding.specs.Steps.{addend_of, limit_of, Wholes};
ghost use Rattle.rounding.specs.Whole.{ways, whole_of, floor_of, ceil_of, round_of};

use crate::binary::{Binary, size};

// Where a size that is not whole goes.
#[derive(Clone, Copy, Debug, PartialEq, Eq)]
pub enum Way {
    TowardZero,
    // To the nearest whole number, and a half away from zero.
    HalfAway,
    AwayFromZero,
}

// What is added to a number before its digits below `unit` are cut off.
fn step(way: Way, unit: u64) -> u64
    requires { 2 ≤ unit }
    ensures { result ≡ addend_of way unit }
{
    match way {
        Way::TowardZero => 0,
        Way::HalfAway => unit / 2,
        Way::AwayFromZero => unit - 1,
    }
}

// From which bits on a number below one goes to one.
fn limit(way: Way, half: u64, one: u64) -> u64
    ensures { result ≡ limit_of way half one }
{
    match way {
        Way::TowardZero => one,
        Way::HalfAway => half,
        Way::AwayFromZero => 1,
    }
}

// The bits of the whole number that the number with the bits b goes to, both without their signs.
fn whole_bits<T: Binary>(b: u64, way: Way) -> u64
    requires { b < ones T.format * hid T.format }
    ensures { (s : Bool) → Wholes T.format s way b result }
{
    let (p, e) = (T::DIGITS, T::EMAX);
    let lead: u64 = 1 << (p - 1);
    let field = b >> (p - 1);
    if field >= e + p - 1 {
        return b;
    }
    if field < e {
        if b < limit(way, (e - 1) * lead, e * lead) {
            return 0;
        }
        return e * lead;
    }
    let unit: u64 = 1 << (e + p - 1 - field);
    let t = b + step(way, unit);
    t - (t & (unit - 1))
}

// The way of a number by its sign, masked out of its bits.
fn way_by(sign: u64, plus: Way, minus: Way) -> Way
    ensures { result ≡ (if nat_le 1 sign then minus else plus) }
{
    if sign == 0 { plus } else { minus }
}

// A float to a whole number: `plus` is the way of those above zero, and `minus` of those below.
fn whole<T: Binary>(x: T, plus: Way, minus: Way) -> T
    ensures { T.float result ≡ whole_of T.format (ways plus minus) (T.float x) }
{
    if x != x {
        return x;
    }
    let size = size(x);
    if size >= T::INFINITY {
        return x;
    }
    let sign = x.bits() & T::SIGN;
    T::of_bits(sign + whole_bits::<T>(size, way_by(sign, plus, minus)))
}

pub fn floor<T: Binary>(x: T) -> T
    ensures { T.float result ≡ floor_of T.format (T.float x) }
{
    whole(x, Way::TowardZero, Way::AwayFromZero)
}

pub fn ceil<T: Binary>(x: T) -> T
    ensures { T.float result ≡ ceil_of T.format (T.float x) }
{
    whole(x, Way::AwayFromZero, Way::TowardZero)
}

pub fn round<T: Binary>(x: T) -> T
    ensures { T.float result ≡ round_of T.format (T.float x) }
{
    whole(x, Way::HalfAway, Way::HalfAway)
}
