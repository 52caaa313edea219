// Words to floats and back. The logic knows one NaN, so a payload is not carried through a float:
// lists that must keep it hold words.
ghost use Rattle.std.specs.Prelude.{◌≡◌, ◌+◌, ◌*◌, ◌^◌, from_bits, to_bits};
ghost use Rattle.std.specs.Float.{binary32, binary64};
ghost use Rattle.rounding.specs.Stored.{stored_of};

// The single with the bits `word`. Every NaN pattern gives a NaN.
pub fn from_bits32(word: u32) -> f32
    ensures { result ≡ from_bits binary32 word }
{
    std::num::f32_from_bits_with_nan(word)
}

// The double with the bits `high` and `low`, 32 each.
pub fn from_bits64(low: u32, high: u32) -> f64
    ensures { result ≡ from_bits binary64 (high * 2 ^ 32 + low) }
{
    std::num::f64_from_bits_with_nan((high as u64) * 0x1_0000_0000 + (low as u64))
}

// The bits of x, a NaN's as 7fc00000.
pub fn bits32(x: f32) -> u32
    ensures { result ≡ to_bits binary32 x }
{
    std::num::f32_to_bits_with_nan(x)
}

// The bits of x, a NaN's as 7ff8000000000000.
pub fn bits64(x: f64) -> u64
    ensures { result ≡ to_bits binary64 x }
{
    std::num::f64_to_bits_with_nan(x)
}

// The bits of x as the index and the printed text store them: a NaN's as 7fc00000, any zero's as 0.
pub fn stored_word(x: f32) -> u32
    ensures { result ≡ stored_of x }
{
    if x == 0.0 { 0 } else { bits32(x) }
}
