// The indexed lookup: the highest of the point's candidates, with the lane that its triangle belongs to.
#![tactic(auto, using(crate::proofs::Answers::turned_back, crate::proofs::Answers::nothing), unfolding(shape::specs::Refusal::found, shape::specs::Refusal::refuse, shape::specs::Refusal::number_of, shape::specs::Refusal::place_of, shape::specs::Refusal::or_else, shape::specs::Lists::longer, crate::specs::Sampler::read_sampled, crate::specs::Sampler::sample_of, crate::specs::Sixteen::Small, crate::specs::Sixteen::best_of, crate::specs::Steps::Started, crate::specs::Opened::Opens))]

ghost use Rattle.std.specs.Prelude.{◌≡◌, Ok};
ghost use Rattle.shape.specs.Refusal.{fine, taken, found};
ghost use Rattle.shape.specs.Lists.{lists_of};
ghost use Rattle.lookup.specs.Sampler.{top_fault, read_sampled, sample_of, top_of};
ghost use Rattle.lookup.specs.Mesh.{triangles};
ghost use Rattle.lookup.specs.Sixteen.{Small, best_of, PeakWeighed};

use crate::consult::{Index, MAX_WORDS};
use crate::lane::Spans;
use crate::mesh::{WeighedTriangle, highest, normal_by};
use shape::lists::{Mesh, part};
use shape::refusal::{Refusal, refuse_if};
use vector::coords::Vector;

// What the indexed lookup tells of the triangle besides document 01's three values: its lane's id, if the spans
// name one.
#[derive(Clone, Copy)]
pub struct Detail {
    pub lane: Option<usize>,
}

// What the indexed lookup finds: height, normal, triangle and the rest.
#[derive(Clone, Copy)]
pub struct Sampled {
    pub height: f32,
    pub normal: Vector,
    pub triangle: usize,
    pub detail: Detail,
}

// Why the five lists are turned back, if they are: the index's limit comes after the mesh's and before
// what is ragged.
#[tactic(auto, unfolding(crate::specs::Sampler::top_fault, shape::specs::Refusal::or_else, shape::specs::Lists::longer, shape::specs::Refusal::found, shape::specs::Refusal::refuse, shape::specs::Refusal::number_of, shape::specs::Refusal::place_of))]
pub(crate) fn top_fault(mesh: Mesh, index: &[u32]) -> Result<(), Refusal>
    ensures { found result ≡ top_fault (lists_of mesh.entry) index.now }
{
    mesh.limits()?;
    refuse_if(MAX_WORDS < index.len(), Refusal::Oversize(MAX_WORDS))?;
    mesh.ragged(0)
}

// A mesh and an index of it that are not turned back, where the index has cells to consult: points may be asked.
#[derive(Clone, Copy)]
pub(crate) struct Sampler<'a> {
    pub mesh: Mesh<'a>,
    pub index: Index<'a>,
    ghost in_order: { top_fault (lists_of mesh) index.words.now ≡ fine },
    ghost counted: { index.count ≡ triangles mesh.indices.now },
}

impl<'a> Sampler<'a> {
    // The spans, which are in order.
    fn spans(self) -> Spans<'a>
        ensures { result.words.now ≡ self.entry.mesh.spans.now }
    {
        Spans {
            words: self.mesh.spans,
        }
    }

    // The answer that the peak gives: its height, normal, number and lane.
    fn answer(self, x: f32, y: f32, peak: Option<(f32, WeighedTriangle)>) -> Option<Sampled>
        requires small { Small (best_of peak) }
        requires peak_weighed { PeakWeighed self.mesh.vertices.now self.mesh.indices.now x y peak }
        ensures { read_sampled (Ok result) ≡ taken (sample_of (lists_of self.entry.mesh) x y (best_of peak)) }
    {
        let (height, top) = peak?;
        let triangle = top.triangle;
        Some(Sampled {
            height,
            normal: normal_by(self.mesh, triangle, x, y, top.weights),
            triangle,
            detail: Detail {
                lane: self.spans().lane(triangle),
            },
        })
    }

    // The answer at (x, y): the highest of the point's candidates, of the lowest number among equals, with its
    // height, normal, number and lane.
    pub(crate) fn sample(self, x: f32, y: f32) -> Result<Option<Sampled>, Refusal>
        ensures { read_sampled result ≡ top_of (lists_of self.entry.mesh) self.entry.index.words.now x y }
    {
        let Some(run) = self.index.locate(x, y)? else {
            return Ok(None);
        };
        let entries = part(self.index.words, run.start, run.end);
        let hit = highest(self.mesh, entries, x, y);
        self.index.check_run(run, hit.whole)?;
        Ok(self.answer(x, y, hit.peak))
    }
}

// The highest of the point's candidates, of the lowest number among equals: its height, normal, number
// and lane; none where no candidate covers the point.
pub fn top(mesh: Mesh, index: &[u32], x: f32, y: f32) -> Result<Option<Sampled>, Refusal>
    ensures { read_sampled result ≡ top_of (lists_of mesh.entry) index.now x y }
{
    top_fault(mesh, index)?;
    match Index::open(index, mesh.triangles())? {
        Some(index) => Sampler { mesh, index }.sample(x, y),
        None => Ok(None),
    }
}
