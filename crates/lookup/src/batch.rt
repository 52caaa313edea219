// The indexed lookup at many points in one call: the lists and the index's first words are looked through
// once, and each point's answer is written as a record.
#![tactic(auto, unfolding(shape::specs::Refusal::found, shape::specs::Refusal::refuse, shape::specs::Refusal::number_of, shape::specs::Refusal::place_of, shape::specs::Refusal::told, shape::specs::Refusal::leaves, shape::specs::Refusal::judge, shape::specs::Gather::gather, shape::specs::Lists::uneven, crate::specs::Sampler::read_sampled, crate::specs::Record::RecordFits, crate::specs::Batch::count_answer))]

ghost use Rattle.std.specs.Prelude.{◌≡◌, ◌+◌, ◌*◌, ◌/◌, ◌<◌, ◌≤◌, ◌++◌, length, drop};
ghost use Rattle.shape.specs.Refusal.{told, leaves};
ghost use Rattle.shape.specs.Lists.{lists_of};
ghost use Rattle.lookup.specs.Batch.{record_words, records_of, tops_of};

use crate::consult::Index;
use crate::record::{RECORD_WORDS, record, words_fit};
use crate::sampler::{Sampler, top_fault};
use shape::lists::Mesh;
use shape::refusal::{Refusal, refuse_if};

// The records of all points, at the front.
fn put_points(sampler: Sampler, points: &[f32], answers: &mut [u32])
    requires { record_words * (length points.now / 2) ≤ length answers.old }
    ensures { let s = sampler.entry in let rs = records_of (lists_of s.mesh) s.index.words.now points.now in
        answers.new ≡ rs ++ drop (length rs) answers.old }
{
    words_fit(sampler.mesh.spans);
    for (k, point) in points.chunks_exact(2).enumerate() {
        let answer = sampler.sample(point[0], point[1]);
        let at = RECORD_WORDS * k;
        answers[at..at + RECORD_WORDS].copy_from_slice(&record(answer));
    }
}

// The answers at many points, a record each: point by point that of `top`. The lists and the index's first
// words are looked through once for all points, and what is wrong with them turns the whole call back. Where
// there are no cells no point has a height.
#[tactic(auto, unfolding(crate::specs::Batch::tops_of, shape::specs::Lists::uneven, shape::specs::Refusal::told, shape::specs::Refusal::leaves, shape::specs::Refusal::judge, shape::specs::Refusal::found, shape::specs::Refusal::refuse, shape::specs::Refusal::number_of, shape::specs::Refusal::place_of))]
pub fn tops(
    mesh: Mesh,
    index: &[u32],
    points: &[f32],
    answers: &mut [u32],
) -> Result<usize, Refusal>
    ensures result_value { told result ≡ tops_of (lists_of mesh.entry) index.now points.now (length answers.old) }
    ensures answers_after { let m = lists_of mesh.entry in
        answers.new ≡ leaves (tops_of m index.now points.now (length answers.old)) (records_of m index.now points.now) answers.old }
{
    top_fault(mesh, index)?;
    refuse_if(points.len() % 2 != 0, Refusal::Ragged(5))?;
    let opened = Index::open(index, mesh.triangles())?;
    let n = points.len() / 2;
    let wanted = RECORD_WORDS * n;
    refuse_if(answers.len() < wanted, Refusal::ShortOutput(wanted))?;
    match opened {
        Some(index) => put_points(Sampler { mesh, index }, points, answers),
        None => answers[..wanted].fill(0),
    }
    Ok(n)
}
