// The operations of the vector layer over words. An operation's number is its place in the oracle's
// list, and 200 and on are checks that the oracle has no operation for.
ghost use Rattle.std.specs.Prelude.{◌↔◌, IsSome};
ghost use Rattle.stored.specs.Cases.{IsRead};

use crate::answer::Answer;
use crate::lent::Case;
use crate::op::UnknownOp;
use std::fmt;
use vector::geometry::{horizontal, left_normal};

#[derive(Clone, Copy)]
pub enum VectorOp {
    Length,
    Distance,
    Dot,
    Cross,
    NormalizeOr,
    RotateAbout,
    LeftNormal,
    VectorAdd,
    VectorSub,
    VectorMul,
    VectorNeg,
    PointSub,
    PointAdd,
    PointSubVector,
    Horizontal,
    VectorIsFinite,
    NormalizeOrZero,
    LengthSquared,
    LengthBelowMicro,
    PointIsFinite,
}

impl TryFrom<u32> for VectorOp {
    type Error = UnknownOp;

    fn try_from(number: u32) -> Result<Self, UnknownOp> {
        Ok(match number {
            20 => VectorOp::Length,
            21 => VectorOp::Distance,
            22 => VectorOp::Dot,
            23 => VectorOp::Cross,
            24 => VectorOp::NormalizeOr,
            25 => VectorOp::RotateAbout,
            26 => VectorOp::LeftNormal,
            200 => VectorOp::VectorAdd,
            201 => VectorOp::VectorSub,
            202 => VectorOp::VectorMul,
            203 => VectorOp::VectorNeg,
            204 => VectorOp::PointSub,
            205 => VectorOp::PointAdd,
            206 => VectorOp::PointSubVector,
            207 => VectorOp::Horizontal,
            208 => VectorOp::VectorIsFinite,
            209 => VectorOp::NormalizeOrZero,
            210 => VectorOp::LengthSquared,
            211 => VectorOp::LengthBelowMicro,
            212 => VectorOp::PointIsFinite,
            _ => return Err(UnknownOp(number)),
        })
    }
}

impl fmt::Display for VectorOp {
    fn fmt<W: fmt::Write>(&self, f: &mut fmt::Formatter<W>) -> fmt::Result {
        f.write_str(match self {
            VectorOp::Length => "length",
            VectorOp::Distance => "distance",
            VectorOp::Dot => "dot",
            VectorOp::Cross => "cross",
            VectorOp::NormalizeOr => "normalize_or",
            VectorOp::RotateAbout => "rotate_about",
            VectorOp::LeftNormal => "left_normal",
            VectorOp::VectorAdd => "vector_add",
            VectorOp::VectorSub => "vector_sub",
            VectorOp::VectorMul => "vector_mul",
            VectorOp::VectorNeg => "vector_neg",
            VectorOp::PointSub => "point_sub",
            VectorOp::PointAdd => "point_add",
            VectorOp::PointSubVector => "point_sub_vector",
            VectorOp::Horizontal => "horizontal",
            VectorOp::VectorIsFinite => "vector_is_finite",
            VectorOp::NormalizeOrZero => "normalize_or_zero",
            VectorOp::LengthSquared => "length_squared",
            VectorOp::LengthBelowMicro => "length_below_micro",
            VectorOp::PointIsFinite => "point_is_finite",
        })
    }
}

impl VectorOp {
    // Works the operation on a case. There is no answer where that has not as many words as the operation takes.
    pub fn work(self, case: &mut Case, answer: &mut Answer) -> Option<()>
        ensures { IsSome result ↔ IsRead case.new }
    {
        match self {
            VectorOp::Length => answer.single(case.vector().length()),
            VectorOp::Distance => answer.single(case.point().distance_to(case.point())),
            VectorOp::Dot => answer.single(case.vector().dot(case.vector())),
            VectorOp::Cross => answer.vector(case.vector().cross(case.vector())),
            VectorOp::NormalizeOr => answer.vector(case.vector().normalize_or(case.vector())),
            VectorOp::RotateAbout => answer.vector(
                case.vector()
                    .rotate_about(case.vector(), case.single(), case.single()),
            ),
            VectorOp::LeftNormal => answer.vector(left_normal(case.vector())),
            VectorOp::VectorAdd => answer.vector(case.vector() + case.vector()),
            VectorOp::VectorSub => answer.vector(case.vector() - case.vector()),
            VectorOp::VectorMul => answer.vector(case.vector() * case.single()),
            VectorOp::VectorNeg => answer.vector(-case.vector()),
            VectorOp::PointSub => answer.vector(case.point() - case.point()),
            VectorOp::PointAdd => answer.point(case.point() + case.vector()),
            VectorOp::PointSubVector => answer.point(case.point() - case.vector()),
            VectorOp::Horizontal => answer.vector(horizontal(case.vector())),
            VectorOp::VectorIsFinite => answer.test(case.vector().is_finite()),
            VectorOp::NormalizeOrZero => answer.vector(case.vector().normalize_or_zero()),
            VectorOp::LengthSquared => answer.single(case.vector().length_squared()),
            VectorOp::LengthBelowMicro => answer.test(case.vector().length_below_micro()),
            VectorOp::PointIsFinite => answer.test(case.point().is_finite()),
        }
        case.is_read().then_some(())
    }
}
