// The length of the vector (a, b), as document 01 defines it: widen, square and add in double, root in
// double, narrow.
ghost use Rattle.std.specs.Prelude.{◌≡◌};
ghost use Rattle.rounding.specs.Hypot.{hypot_of, squares_of};

use crate::root::sqrt64;
use crate::width::{narrow, widen};

// a * a + b * b in double. Both squares are exact there, and only the sum rounds.
#[tactic(auto, unfolding(crate::specs::Hypot::squares_of))]
pub fn squares(a: f32, b: f32) -> f64
    ensures { result ≡ squares_of a b }
{
    let x = widen(a);
    let y = widen(b);
    x * x + y * y
}

#[tactic(auto, unfolding(crate::specs::Hypot::hypot_of))]
pub fn hypot(a: f32, b: f32) -> f32
    ensures { result ≡ hypot_of a b }
{
    narrow(sqrt64(squares(a, b)))
}
