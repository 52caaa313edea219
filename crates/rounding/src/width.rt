// A single to a double, which holds every single, and a double to the nearest single, by the bits.
ghost use Rattle.std.specs.Prelude.{◌≡◌, ◌+◌, ◌-◌, ◌^◌, ◌<◌, ◌≤◌, Bool};
ghost use Rattle.std.specs.Float.{binary32};
ghost use Rattle.std.specs.Float.Ieee.Nearest.{closest};
ghost use Rattle.rounding.specs.Width.{narrow_of};
ghost use Rattle.rounding.specs.Steps.{Narrows, Widens};

// q / 2^s to the nearest whole number, a tie to the even one.
fn nearest_even(q: u64, s: u64) -> u64
    requires q_bound { q < 2 ^ 53 }
    requires s_least { 1 ≤ s }
    requires s_most { s ≤ 63 }
    ensures { result ≡ closest q (2 ^ s) }
{
    let odd = (q >> s) & 1;
    (q + ((1u64 << (s - 1)) - 1) + odd) >> s
}

// The bits of the `f32` nearest to the `f64` with the bits b, both without their signs. An `f64` below
// 2^-1022, which has no leading digit of its own, is far below half of the smallest `f32`.
fn narrow_bits(b: u64) -> u64
    requires { b < 0x7ff0_0000_0000_0000 }
    ensures { (s : Bool) → Narrows s b result }
{
    let field = b >> 52;
    let q = 0x10_0000_0000_0000 + (b & 0xf_ffff_ffff_ffff);
    if field >= 897 {
        let t = ((field - 897) << 23) + nearest_even(q, 29);
        if t > 0x7f80_0000 {
            return 0x7f80_0000;
        }
        return t;
    }
    if field >= 863 {
        return nearest_even(q, 926 - field);
    }
    0
}

// The `f32` nearest to x, a tie to the even one. A NaN gives a NaN.
pub fn narrow(x: f64) -> f32
    ensures { result ≡ narrow_of binary32 x }
{
    if x != x {
        return 0.0 / 0.0;
    }
    let b = f64::to_bits(x);
    let size = b & 0x7fff_ffff_ffff_ffff;
    let sign = (b >> 63) << 31;
    if size == 0x7ff0_0000_0000_0000 {
        return f32::from_bits((sign + 0x7f80_0000) as u32);
    }
    f32::from_bits((sign + narrow_bits(size)) as u32)
}

// The bits of the double equal to the single with the bits b, both without their signs. A single
// below 2^-126 has no leading digit of its own: its digits move up until they have one.
fn widen_bits(b: u64) -> u64
    requires { b < 0x7f80_0000 }
    ensures { Widens b result }
{
    if b >> 23 != 0 {
        return (b << 29) + (896 << 52);
    }
    if b == 0 {
        return 0;
    }
    let z = (u64::leading_zeros(b) as u64) - 11;
    ((925 - z) << 52) + (b << z)
}

// x as a double: the same number. A NaN gives a NaN.
pub fn widen(x: f32) -> f64
    ensures { result ≡ x }
{
    if x != x {
        return 0.0 / 0.0;
    }
    let b = f32::to_bits(x);
    let size = b & 0x7fff_ffff;
    let sign = ((b >> 31) as u64) << 63;
    if size == 0x7f80_0000 {
        return f64::from_bits(sign + 0x7ff0_0000_0000_0000);
    }
    f64::from_bits(sign + widen_bits(size as u64))
}
