// The two float types as one: a value is a number of the type's format, with its bits.
ghost use Rattle.std.specs.Prelude.{◌≡◌, ℕ, ◌*◌, ◌%◌, true, refl, from_bits, to_bits, Float};
ghost use Rattle.std.specs.Float.{Format, binary32, binary64};
ghost use Rattle.std.specs.Float.Ieee.{top, fits, to_unsigned};
ghost use Rattle.std.specs.Float.Ieee.Scale.{finite};
ghost use Rattle.rounding.specs.Binary.{LaidOut, ComparedAs};

use crate::bits::{bits32, bits64, from_bits32};

pub trait Binary: Copy + PartialOrd {
    ghost format: { Format };

    // The number that a value is.
    ghost float: { Self → Float };

    // How many digits a number has, the leading one counted.
    const DIGITS: u64;

    // The exponent of the largest numbers.
    const EMAX: u64;

    // The bit of the sign.
    const SIGN: u64;

    // The bits of the infinity above zero.
    const INFINITY: u64;

    ghost DIGITS: { ℕ };

    ghost EMAX: { ℕ };

    ghost SIGN: { ℕ };

    ghost INFINITY: { ℕ };

    // The bits of the value. A NaN's are those of the NaN with no sign and no payload.
    fn bits(self) -> u64
        ensures value { result ≡ to_bits format (float self) }
        ensures held { fits format (float self) ≡ true };

    // The value with these bits; what is past the type's width is dropped. Every NaN pattern gives a NaN.
    fn of_bits(bits: u64) -> Self
        ensures { float result ≡ from_bits format (bits % (2 * top format)) };

    // `self as u64` of Rust: the fraction is cut off, and what is out of range goes to the nearest end
    // of it. A NaN gives 0.
    fn to_u64(self) -> u64
        ensures { result ≡ to_unsigned 64 (float self) };

    // Is it neither an infinity nor a NaN?
    fn is_number(self) -> bool
        ensures { result ≡ finite (float self) };

    ghost laid_out: { LaidOut format DIGITS EMAX SIGN INFINITY };

    ghost compared: { ComparedAs float Self.eq Self.partial_cmp };
}

impl Binary for f32 {
    ghost format = { binary32 };

    ghost float = { λ x. x };

    const DIGITS: u64 = 24;

    const EMAX: u64 = 127;

    const SIGN: u64 = 0x8000_0000;

    const INFINITY: u64 = 0x7f80_0000;

    ghost DIGITS = { 24 };

    ghost EMAX = { 127 };

    ghost SIGN = { 0x8000_0000 };

    ghost INFINITY = { 0x7f80_0000 };

    #[inline(always)]
    fn bits(self) -> u64 {
        bits32(self) as u64
    }

    #[inline(always)]
    fn of_bits(bits: u64) -> f32 {
        from_bits32((bits & 0xffff_ffff) as u32)
    }

    #[inline(always)]
    fn to_u64(self) -> u64 {
        std::num::saturating_f32_to_u64(self)
    }

    // By two comparisons, which the compiler makes of several numbers at a time; by the library's test a mesh's verdict
    // takes a tenth longer.
    #[inline(always)]
    fn is_number(self) -> bool {
        self < f32::INFINITY && self > f32::NEG_INFINITY
    }

    ghost laid_out = { record { digits_is = refl; largest_is = refl; sign_is = refl; infinity_is = refl } };

    ghost compared = { record { equal = λ x y. refl; order = λ x y. refl } };
}

impl Binary for f64 {
    ghost format = { binary64 };

    ghost float = { λ x. x };

    const DIGITS: u64 = 53;

    const EMAX: u64 = 1023;

    const SIGN: u64 = 0x8000_0000_0000_0000;

    const INFINITY: u64 = 0x7ff0_0000_0000_0000;

    ghost DIGITS = { 53 };

    ghost EMAX = { 1023 };

    ghost SIGN = { 0x8000_0000_0000_0000 };

    ghost INFINITY = { 0x7ff0_0000_0000_0000 };

    #[inline(always)]
    fn bits(self) -> u64 {
        bits64(self)
    }

    #[inline(always)]
    fn of_bits(bits: u64) -> f64 {
        std::num::f64_from_bits_with_nan(bits)
    }

    #[inline(always)]
    fn to_u64(self) -> u64 {
        std::num::saturating_f64_to_u64(self)
    }

    #[inline(always)]
    fn is_number(self) -> bool {
        self < f64::INFINITY && self > f64::NEG_INFINITY
    }

    ghost laid_out = { record { digits_is = refl; largest_is = refl; sign_is = refl; infinity_is = refl } };

    ghost compared = { record { equal = λ x y. refl; order = λ x y. refl } };
}

// The bits of x without its sign.
#[inline(always)]
pub(crate) fn size<T: Binary>(x: T) -> u64
    ensures value { result ≡ to_bits T.format (T.float x) % top T.format }
    ensures held { fits T.format (T.float x) ≡ true }
{
    x.bits() & (T::SIGN - 1)
}
