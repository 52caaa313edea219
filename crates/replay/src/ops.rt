// The operations of all layers.
use crate::{
    file_ops, grid_ops, join_ops, junction_ops, lookup_ops, mesh_ops, outline_ops, verdict_ops,
};
use shape::elevation::{height, height_at};
use std::fmt;
use stored::answer::Answer;
use stored::lent::Case;
use stored::op::UnknownOp;
use stored::rounding_ops::RoundingOp;
use stored::vector_ops::VectorOp;

// The operations of the layers from the shapes on, by their places in the oracle's list. Of a call on lent
// lists the case gives these, and the room in each output. The answer is 0 and what the call answers, or a
// refusal's number and place; and then the lent memory whole. The planted one is the case whose stored answer
// is wrong on purpose.
#[derive(Clone, Copy)]
pub enum UpperOp {
    NoArea,
    Patch,
    Slopes,
    ElevationHeight,
    ElevationHeightAt,
    SignedArea,
    Ring,
    EarClip,
    JunctionMesh,
    SurfaceMesh,
    Validate,
    HeightAt,
    Sampler,
    Indexed,
    LookupWords,
    Probes,
    Tops,
    TopsWords,
    Planted,
    Sentence,
    ReadSentence,
    Held,
    File,
    Join,
}

impl TryFrom<u32> for UpperOp {
    type Error = UnknownOp;

    fn try_from(number: u32) -> Result<Self, UnknownOp> {
        Ok(match number {
            27 => UpperOp::NoArea,
            28 => UpperOp::Patch,
            29 => UpperOp::Slopes,
            30 => UpperOp::ElevationHeight,
            31 => UpperOp::ElevationHeightAt,
            32 => UpperOp::SignedArea,
            33 => UpperOp::Ring,
            34 => UpperOp::EarClip,
            35 => UpperOp::JunctionMesh,
            36 => UpperOp::SurfaceMesh,
            37 => UpperOp::Validate,
            38 => UpperOp::HeightAt,
            39 => UpperOp::Sampler,
            40 => UpperOp::Indexed,
            41 => UpperOp::LookupWords,
            42 => UpperOp::Probes,
            43 => UpperOp::Tops,
            44 => UpperOp::TopsWords,
            45 => UpperOp::Planted,
            46 => UpperOp::Sentence,
            47 => UpperOp::ReadSentence,
            48 => UpperOp::Held,
            49 => UpperOp::File,
            50 => UpperOp::Join,
            _ => return Err(UnknownOp(number)),
        })
    }
}

impl fmt::Display for UpperOp {
    fn fmt<W: fmt::Write>(&self, f: &mut fmt::Formatter<W>) -> fmt::Result {
        f.write_str(match self {
            UpperOp::NoArea => "no_area",
            UpperOp::Patch => "patch",
            UpperOp::Slopes => "slopes",
            UpperOp::ElevationHeight => "elevation_height",
            UpperOp::ElevationHeightAt => "elevation_height_at",
            UpperOp::SignedArea => "signed_area",
            UpperOp::Ring => "ring",
            UpperOp::EarClip => "ear_clip",
            UpperOp::JunctionMesh => "junction_mesh",
            UpperOp::SurfaceMesh => "surface_mesh",
            UpperOp::Validate => "validate",
            UpperOp::HeightAt => "height_at",
            UpperOp::Sampler => "sampler",
            UpperOp::Indexed => "indexed",
            UpperOp::LookupWords => "lookup_words",
            UpperOp::Probes => "probes",
            UpperOp::Tops => "tops",
            UpperOp::TopsWords => "tops_words",
            UpperOp::Planted => "planted",
            UpperOp::Sentence => "sentence",
            UpperOp::ReadSentence => "read_sentence",
            UpperOp::Held => "held",
            UpperOp::File => "file",
            UpperOp::Join => "join",
        })
    }
}

impl UpperOp {
    // Works the operation on the case. There is no answer where there is no room for the case.
    pub(crate) fn work(self, case: &mut Case, answer: &mut Answer) -> Option<()> {
        match self {
            UpperOp::NoArea => mesh_ops::no_area_case(case, answer),
            UpperOp::Patch => grid_ops::patch_case(case, answer),
            UpperOp::Slopes => grid_ops::slopes_case(case, answer),
            UpperOp::ElevationHeight => grid_ops::height_case(height, case, answer),
            UpperOp::ElevationHeightAt => grid_ops::height_case(height_at, case, answer),
            // The oracle has it, and no layer here.
            UpperOp::SignedArea => None,
            UpperOp::Ring => outline_ops::ring_case(case, answer),
            UpperOp::EarClip => junction_ops::ear_case(case, answer),
            UpperOp::JunctionMesh => junction_ops::junction_case(case, answer),
            UpperOp::SurfaceMesh => mesh_ops::surface_case(case, answer),
            UpperOp::Validate => verdict_ops::validate_case(case, answer),
            UpperOp::HeightAt => lookup_ops::plain_case(case, answer),
            UpperOp::Sampler => lookup_ops::build_case(case, answer),
            UpperOp::Indexed => lookup_ops::indexed_case(lookup_ops::singly, case, answer),
            UpperOp::LookupWords => lookup_ops::words_case(lookup_ops::singly, case, answer),
            UpperOp::Probes => file_ops::probe_case(case, answer),
            UpperOp::Tops => lookup_ops::indexed_case(lookup_ops::at_once, case, answer),
            UpperOp::TopsWords | UpperOp::Planted => {
                lookup_ops::words_case(lookup_ops::at_once, case, answer)
            }
            UpperOp::Sentence => verdict_ops::sentence_case(case, answer),
            UpperOp::ReadSentence => verdict_ops::read_case(case, answer),
            UpperOp::Held => file_ops::held_case(case, answer),
            UpperOp::File => file_ops::file_case(case, answer),
            UpperOp::Join => join_ops::join_case(case, answer),
        }
    }
}

// An operation of any layer.
#[derive(Clone, Copy)]
pub enum Op {
    Rounding(RoundingOp),
    Vector(VectorOp),
    Upper(UpperOp),
    // The same for cases at its limits, by a number that is 300 higher.
    AtLimits(UpperOp),
}

impl TryFrom<u32> for Op {
    type Error = UnknownOp;

    fn try_from(number: u32) -> Result<Self, UnknownOp> {
        if let Some(number) = number.checked_sub(300) {
            return UpperOp::try_from(number).map(Op::AtLimits);
        }
        RoundingOp::try_from(number)
            .map(Op::Rounding)
            .or_else(|_| VectorOp::try_from(number).map(Op::Vector))
            .or_else(|_| UpperOp::try_from(number).map(Op::Upper))
    }
}

impl fmt::Display for Op {
    fn fmt<W: fmt::Write>(&self, f: &mut fmt::Formatter<W>) -> fmt::Result {
        match self {
            Op::Rounding(op) => write!(f, "{op}"),
            Op::Vector(op) => write!(f, "{op}"),
            Op::Upper(op) => write!(f, "{op}"),
            // The case that is wrong on purpose is at no limit.
            Op::AtLimits(UpperOp::Planted) => f.write_str("unknown operation"),
            Op::AtLimits(op) => write!(f, "{op} at its limits"),
        }
    }
}

impl Op {
    // Does the operation answer 0 first where Rust panics?
    pub(crate) fn may_panic(self) -> bool {
        match self {
            Op::Rounding(op) => op.may_panic(),
            _ => false,
        }
    }

    // The words of the answer to a case, put to the start of `made`. There is none to a case that has no words, or
    // not as many as the operation takes, or that there is no room for. The case is the first n words of `memory`;
    // an operation from the shapes on that asks for more reads on there.
    pub(crate) fn answer<'m>(
        self,
        memory: &[u32],
        n: usize,
        made: &'m mut [u32],
    ) -> Option<&'m [u32]> {
        if n == 0 {
            return None;
        }
        let given = match self {
            Op::Rounding(_) | Op::Vector(_) => memory.get(..n)?,
            Op::Upper(_) | Op::AtLimits(_) => memory,
        };
        let mut case = Case::new(given);
        let mut answer = Answer::new(made);
        match self {
            Op::Rounding(op) => op.work(&mut case, &mut answer)?,
            Op::Vector(op) => op.work(&mut case, &mut answer)?,
            Op::Upper(op) | Op::AtLimits(op) => op.work(&mut case, &mut answer)?,
        }
        answer.made()
    }
}
