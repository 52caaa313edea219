// The rounding layer for programs in other languages: each exported function is a thin call of the
// function of that name. The forms over arrays are there to measure the root without the cost of a
// call for each number.
#![tactic(auto)]

ghost use Rattle.std.specs.Prelude.{◌≡◌, min, length};
ghost use Rattle.std.specs.Float.{binary32, binary64};
ghost use Rattle.std.specs.Float.Ieee.{to_unsigned, to_signed};
ghost use Rattle.rounding.specs.Root.{sqrt_of};
ghost use Rattle.rounding.specs.Whole.{floor_of, ceil_of, round_of};
ghost use Rattle.rounding.specs.Width.{narrow_of};
ghost use Rattle.rounding.specs.Hypot.{hypot_of};
ghost use Rattle.roundingc.specs.Arrays.{mapped, rooted};

use rounding::count::{count, int64};
use rounding::hypot::hypot;
use rounding::root::{sqrt32, sqrt64};
use rounding::whole::{ceil, floor, round};
use rounding::width::{narrow, widen};

#[unsafe(no_mangle)]
pub extern "C" fn rs_sqrt32(x: f32) -> f32
    ensures { result ≡ sqrt_of binary32 x }
{
    sqrt32(x)
}

#[unsafe(no_mangle)]
pub extern "C" fn rs_sqrt64(x: f64) -> f64
    ensures { result ≡ sqrt_of binary64 x }
{
    sqrt64(x)
}

#[unsafe(no_mangle)]
pub extern "C" fn rs_floor32(x: f32) -> f32
    ensures { result ≡ floor_of binary32 x }
{
    floor(x)
}

#[unsafe(no_mangle)]
pub extern "C" fn rs_ceil32(x: f32) -> f32
    ensures { result ≡ ceil_of binary32 x }
{
    ceil(x)
}

#[unsafe(no_mangle)]
pub extern "C" fn rs_round32(x: f32) -> f32
    ensures { result ≡ round_of binary32 x }
{
    round(x)
}

#[unsafe(no_mangle)]
pub extern "C" fn rs_floor64(x: f64) -> f64
    ensures { result ≡ floor_of binary64 x }
{
    floor(x)
}

#[unsafe(no_mangle)]
pub extern "C" fn rs_ceil64(x: f64) -> f64
    ensures { result ≡ ceil_of binary64 x }
{
    ceil(x)
}

#[unsafe(no_mangle)]
pub extern "C" fn rs_round64(x: f64) -> f64
    ensures { result ≡ round_of binary64 x }
{
    round(x)
}

#[unsafe(no_mangle)]
pub extern "C" fn rs_narrow(x: f64) -> f32
    ensures { result ≡ narrow_of binary32 x }
{
    narrow(x)
}

#[unsafe(no_mangle)]
pub extern "C" fn rs_widen(x: f32) -> f64
    ensures { result ≡ x }
{
    widen(x)
}

#[unsafe(no_mangle)]
pub extern "C" fn rs_count32(x: f32) -> u64
    ensures { result ≡ to_unsigned 64 x }
{
    count(x)
}

#[unsafe(no_mangle)]
pub extern "C" fn rs_count64(x: f64) -> u64
    ensures { result ≡ to_unsigned 64 x }
{
    count(x)
}

#[unsafe(no_mangle)]
pub extern "C" fn rs_int64(x: f64) -> i64
    ensures { result ≡ to_signed 63 x }
{
    int64(x)
}

#[unsafe(no_mangle)]
pub extern "C" fn rs_hypot(a: f32, b: f32) -> f32
    ensures { result ≡ hypot_of a b }
{
    hypot(a, b)
}

// A number that has a root.
trait Root: Copy {
    // The root of a value.
    ghost root: { Self → Self };

    fn root(self) -> Self
        ensures { result ≡ root self };
}

impl Root for f32 {
    ghost root = { sqrt_of binary32 };

    fn root(self) -> f32 {
        sqrt32(self)
    }
}

impl Root for f64 {
    ghost root = { sqrt_of binary64 };

    fn root(self) -> f64 {
        sqrt64(self)
    }
}

// Writes the roots of `xs` to the start of `out`, as many as both have room for, and answers how many.
#[tactic(auto, using(crate::proofs::Roots::start_none, crate::proofs::Roots::start_turn))]
fn sqrt_all<T: Root>(xs: &[T], out: &mut [T]) -> usize
    ensures value { result ≡ min (length xs.now) (length out.old) }
    ensures out_after { out.new ≡ mapped T.root result xs.now out.old }
{
    let n = xs.len().min(out.len());
    for (i, y) in out[..n].iter_mut().enumerate() {
        *y = xs[i].root();
    }
    n
}

// `sqrt_all` of singles.
#[unsafe(no_mangle)]
pub extern "C" fn rs_sqrt32_all(xs: &[f32], out: &mut [f32]) -> usize
    ensures value { result ≡ min (length xs.now) (length out.old) }
    ensures out_after { out.new ≡ rooted binary32 result xs.now out.old }
{
    sqrt_all(xs, out)
}

// `sqrt_all` of doubles.
#[unsafe(no_mangle)]
pub extern "C" fn rs_sqrt64_all(xs: &[f64], out: &mut [f64]) -> usize
    ensures value { result ≡ min (length xs.now) (length out.old) }
    ensures out_after { out.new ≡ rooted binary64 result xs.now out.old }
{
    sqrt_all(xs, out)
}
