// Lent memory: whether a mesh has room in it, and what is put into it.
#![tactic(auto, unfolding(crate::specs::Refusal::found, crate::specs::Refusal::refuse, crate::specs::Refusal::number_of, crate::specs::Refusal::place_of, crate::specs::Refusal::or_else, crate::specs::MeshMemory::result_limits, crate::specs::MeshMemory::result_short, crate::specs::MeshMemory::room_fault))]

ghost use Rattle.std.specs.Prelude.{◌≡◌, ◌+◌, ◌<◌, ◌≤◌, ◌++◌, min, length, take, drop};
ghost use Rattle.shape.specs.Memory.{Put};
ghost use Rattle.shape.specs.Refusal.{found};
ghost use Rattle.shape.specs.MeshMemory.{result_limits, result_short, room_fault};

use crate::lists::{MAX_INDICES, MAX_SPANS, MAX_VERTICES, SPAN_WORDS};
use crate::refusal::{Refusal, refuse_if};

// How long the lists of a mesh are, in their elements.
#[derive(Clone, Copy)]
pub struct Lengths {
    pub vertices: usize,
    pub normals: usize,
    pub indices: usize,
    pub spans: usize,
}

impl Lengths {
    // Which list would be past its limit, if any would: of a result, or of a mesh that is lent.
    pub fn limits(self) -> Result<(), Refusal>
        ensures { found result ≡ result_limits self }
    {
        refuse_if(
            3 * MAX_VERTICES < self.vertices,
            Refusal::Oversize(MAX_VERTICES),
        )?;
        refuse_if(
            3 * MAX_VERTICES < self.normals,
            Refusal::Oversize(MAX_VERTICES),
        )?;
        refuse_if(MAX_INDICES < self.indices, Refusal::Oversize(MAX_INDICES))?;
        refuse_if(
            SPAN_WORDS * MAX_SPANS < self.spans,
            Refusal::Oversize(MAX_SPANS),
        )
    }
}

// Outputs too short for it.
fn result_short(made: Lengths, lent: Lengths) -> Result<(), Refusal>
    ensures { found result ≡ result_short made lent }
{
    refuse_if(
        lent.vertices < made.vertices,
        Refusal::ShortOutput(made.vertices),
    )?;
    refuse_if(
        lent.normals < made.normals,
        Refusal::ShortOutput(made.normals),
    )?;
    refuse_if(
        lent.indices < made.indices,
        Refusal::ShortOutput(made.indices),
    )?;
    refuse_if(lent.spans < made.spans, Refusal::ShortOutput(made.spans))
}

// Why a mesh is not written into lent lists, if it is not. Every call that makes a mesh asks this.
pub fn room_fault(made: Lengths, lent: Lengths) -> Result<(), Refusal>
    ensures { found result ≡ room_fault made lent }
{
    made.limits()?;
    result_short(made, lent)
}

// The elements to the front of the memory, as many as there is room for, and how many. One by one: the library's
// `copy_from_slice` would have an archive for C ask for `memmove`.
pub fn copy<T: Copy>(xs: &[T], out: &mut [T]) -> usize
    ensures value { result ≡ min (length xs.now) (length out.old) }
    ensures out_after { out.new ≡ take result xs.now ++ drop result out.old }
{
    let n = xs.len().min(out.len());
    for i in 0..n {
        out[i] = xs[i];
    }
    n
}

// The elements of an array into the memory, from `at` on, and where they end.
pub(crate) fn put<T: Copy, const N: usize>(out: &mut [T], at: usize, xs: [T; N]) -> usize
    requires { at + N ≤ length out.old }
    ensures { Put out.old out.new at xs result }
{
    let next = at + N;
    out[at..next].copy_from_slice(&xs);
    next
}
