// The operations of the rounding layer over words. An operation's number is its place in the oracle's
// list, and 100 and on are checks that the oracle has no operation for.
ghost use Rattle.std.specs.Prelude.{◌≡◌, ◌↔◌, IsSome};
ghost use Rattle.stored.specs.Cases.{IsRead};
ghost use Rattle.stored.specs.Ops.{may_panic};

use crate::answer::Answer;
use crate::lent::Case;
use crate::op::UnknownOp;
use rounding::binary::Binary;
use rounding::bits::stored_word;
use rounding::compare::{
    hypot_above_milli, hypot_at_most_milli, root_above_tenth, root_below_micro,
};
use rounding::count::{count, int64};
use rounding::extremes::{abs, clamp, is_finite, max, min};
use rounding::hypot::{hypot, squares};
use rounding::root::{sqrt32, sqrt64};
use rounding::whole::{ceil, floor, round};
use rounding::width::{narrow, widen};
use std::fmt;

#[derive(Clone, Copy)]
pub enum RoundingOp {
    Sqrt32,
    Floor32,
    Ceil32,
    Round32,
    Sqrt64,
    Floor64,
    Ceil64,
    Round64,
    Narrow,
    Widen,
    Min32,
    Max32,
    Min64,
    Max64,
    Clamp32,
    Clamp64,
    Count32,
    Count64,
    Int64,
    Hypot,
    Bits32,
    Bits64,
    Stored,
    Abs32,
    Abs64,
    IsFinite32,
    IsFinite64,
    RootBelowMicro,
    RootAboveTenth,
    Squares,
    HypotAboveMilli,
    HypotAtMostMilli,
}

impl TryFrom<u32> for RoundingOp {
    type Error = UnknownOp;

    fn try_from(number: u32) -> Result<Self, UnknownOp> {
        Ok(match number {
            0 => RoundingOp::Sqrt32,
            1 => RoundingOp::Floor32,
            2 => RoundingOp::Ceil32,
            3 => RoundingOp::Round32,
            4 => RoundingOp::Sqrt64,
            5 => RoundingOp::Floor64,
            6 => RoundingOp::Ceil64,
            7 => RoundingOp::Round64,
            8 => RoundingOp::Narrow,
            9 => RoundingOp::Widen,
            10 => RoundingOp::Min32,
            11 => RoundingOp::Max32,
            12 => RoundingOp::Min64,
            13 => RoundingOp::Max64,
            14 => RoundingOp::Clamp32,
            15 => RoundingOp::Clamp64,
            16 => RoundingOp::Count32,
            17 => RoundingOp::Count64,
            18 => RoundingOp::Int64,
            19 => RoundingOp::Hypot,
            100 => RoundingOp::Bits32,
            101 => RoundingOp::Bits64,
            102 => RoundingOp::Stored,
            103 => RoundingOp::Abs32,
            104 => RoundingOp::Abs64,
            105 => RoundingOp::IsFinite32,
            106 => RoundingOp::IsFinite64,
            107 => RoundingOp::RootBelowMicro,
            108 => RoundingOp::RootAboveTenth,
            109 => RoundingOp::Squares,
            110 => RoundingOp::HypotAboveMilli,
            111 => RoundingOp::HypotAtMostMilli,
            _ => return Err(UnknownOp(number)),
        })
    }
}

impl fmt::Display for RoundingOp {
    fn fmt<W: fmt::Write>(&self, f: &mut fmt::Formatter<W>) -> fmt::Result {
        f.write_str(match self {
            RoundingOp::Sqrt32 => "sqrt32",
            RoundingOp::Floor32 => "floor32",
            RoundingOp::Ceil32 => "ceil32",
            RoundingOp::Round32 => "round32",
            RoundingOp::Sqrt64 => "sqrt64",
            RoundingOp::Floor64 => "floor64",
            RoundingOp::Ceil64 => "ceil64",
            RoundingOp::Round64 => "round64",
            RoundingOp::Narrow => "narrow",
            RoundingOp::Widen => "widen",
            RoundingOp::Min32 => "min32",
            RoundingOp::Max32 => "max32",
            RoundingOp::Min64 => "min64",
            RoundingOp::Max64 => "max64",
            RoundingOp::Clamp32 => "clamp32",
            RoundingOp::Clamp64 => "clamp64",
            RoundingOp::Count32 => "count32",
            RoundingOp::Count64 => "count64",
            RoundingOp::Int64 => "int64",
            RoundingOp::Hypot => "hypot",
            RoundingOp::Bits32 => "bits32",
            RoundingOp::Bits64 => "bits64",
            RoundingOp::Stored => "stored",
            RoundingOp::Abs32 => "abs32",
            RoundingOp::Abs64 => "abs64",
            RoundingOp::IsFinite32 => "is_finite32",
            RoundingOp::IsFinite64 => "is_finite64",
            RoundingOp::RootBelowMicro => "root_below_micro",
            RoundingOp::RootAboveTenth => "root_above_tenth",
            RoundingOp::Squares => "squares",
            RoundingOp::HypotAboveMilli => "hypot_above_milli",
            RoundingOp::HypotAtMostMilli => "hypot_at_most_milli",
        })
    }
}

// Zeros of unlike sign: Rust leaves open which of them is the smaller.
fn unlike_zeros(x: u64, y: u64, sign: u64) -> bool {
    (x == 0 || x == sign) && (y == 0 || y == sign) && x != y
}

// `pick`, the smaller or the larger, of two numbers, and 0 where Rust leaves it open.
fn extreme<T: Binary + Default, F: Fn(T, T) -> T>(pick: F, x: T, y: T) -> T
    requires { F.IsAlwaysCallable pick }
{
    if unlike_zeros(x.bits(), y.bits(), T::SIGN) {
        return T::default();
    }
    pick(x, y)
}

// The number brought between two bounds, or none where Rust panics.
fn clamped<T: Binary>(x: T, lo: T, hi: T) -> Option<T> {
    (lo <= hi).then(|| clamp(x, lo, hi))
}

impl RoundingOp {
    // Does the operation answer 0 first where Rust panics?
    pub fn may_panic(self) -> bool
        ensures { result ≡ may_panic self }
    {
        matches!(self, RoundingOp::Clamp32 | RoundingOp::Clamp64)
    }

    // Works the operation on a case. There is no answer where that has not as many words as the operation takes.
    pub fn work(self, case: &mut Case, answer: &mut Answer) -> Option<()>
        ensures { IsSome result ↔ IsRead case.new }
    {
        match self {
            RoundingOp::Sqrt32 => answer.single(sqrt32(case.single())),
            RoundingOp::Floor32 => answer.single(floor(case.single())),
            RoundingOp::Ceil32 => answer.single(ceil(case.single())),
            RoundingOp::Round32 => answer.single(round(case.single())),
            RoundingOp::Sqrt64 => answer.double(sqrt64(case.double())),
            RoundingOp::Floor64 => answer.double(floor(case.double())),
            RoundingOp::Ceil64 => answer.double(ceil(case.double())),
            RoundingOp::Round64 => answer.double(round(case.double())),
            RoundingOp::Narrow => answer.single(narrow(case.double())),
            RoundingOp::Widen => answer.double(widen(case.single())),
            RoundingOp::Min32 => answer.single(extreme(min, case.single(), case.single())),
            RoundingOp::Max32 => answer.single(extreme(max, case.single(), case.single())),
            RoundingOp::Min64 => answer.double(extreme(min, case.double(), case.double())),
            RoundingOp::Max64 => answer.double(extreme(max, case.double(), case.double())),
            RoundingOp::Clamp32 => {
                let x = clamped(case.single(), case.single(), case.single());
                answer.test(x.is_some());
                answer.single(x.unwrap_or(0.0));
            }
            RoundingOp::Clamp64 => {
                let x = clamped(case.double(), case.double(), case.double());
                answer.test(x.is_some());
                answer.double(x.unwrap_or(0.0));
            }
            RoundingOp::Count32 => answer.wide(count(case.single())),
            RoundingOp::Count64 => answer.wide(count(case.double())),
            RoundingOp::Int64 => answer.wide(int64(case.double()).cast_unsigned()),
            RoundingOp::Hypot => answer.single(hypot(case.single(), case.single())),
            RoundingOp::Bits32 => answer.single(case.single()),
            RoundingOp::Bits64 => answer.double(case.double()),
            RoundingOp::Stored => answer.word(stored_word(case.single())),
            RoundingOp::Abs32 => answer.single(abs(case.single())),
            RoundingOp::Abs64 => answer.double(abs(case.double())),
            RoundingOp::IsFinite32 => answer.test(is_finite(case.single())),
            RoundingOp::IsFinite64 => answer.test(is_finite(case.double())),
            RoundingOp::RootBelowMicro => answer.test(root_below_micro(case.single())),
            RoundingOp::RootAboveTenth => answer.test(root_above_tenth(case.single())),
            RoundingOp::Squares => answer.double(squares(case.single(), case.single())),
            RoundingOp::HypotAboveMilli => {
                answer.test(hypot_above_milli(case.single(), case.single()));
            }
            RoundingOp::HypotAtMostMilli => {
                answer.test(hypot_at_most_milli(case.single(), case.single()));
            }
        }
        case.is_read().then_some(())
    }
}
