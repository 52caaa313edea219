// The record of a point's answer: found 1, height, normal, triangle, whether there is a lane, its
// id; none: zeros; refused: 2, number, place. And the two lookups at one point, answered by it.
#![tactic(auto, using(crate::proofs::Laws::Batch::word_is), unfolding(shape::specs::Refusal::found, shape::specs::Refusal::refuse, shape::specs::Refusal::number_of, shape::specs::Refusal::place_of, shape::specs::Refusal::told, shape::specs::Refusal::leaves, shape::specs::Refusal::judge, crate::specs::Batch::record_of, crate::specs::Batch::lane_there, crate::specs::Batch::lane_id, crate::specs::Batch::word_for, crate::specs::Sampler::read_sampled, crate::specs::Plain::read_answer, crate::specs::Record::RecordFits, crate::specs::Record::plain_sample))]

ghost use Rattle.std.specs.Prelude.{◌≡◌, ℕ, ◌^◌, ◌<◌, length, slice_index, None};
ghost use Rattle.shape.specs.Lists.{lists_of};
ghost use Rattle.shape.specs.Refusal.{taken, told, leaves};
ghost use Rattle.lookup.specs.Plain.{answer_of, read_answer};
ghost use Rattle.lookup.specs.Sampler.{Sample, read_sampled, top_of};
ghost use Rattle.lookup.specs.Batch.{word_for, record_of};
ghost use Rattle.lookup.specs.Record.{plain_sample, record_answer, RecordFits};

use crate::mesh::{Found, height_at};
use crate::sampler::{Detail, Sampled, top};
use rounding::bits::bits32;
use shape::lists::Mesh;
use shape::refusal::{Refusal, refuse_if};

// A number as a word; past the greatest word, that word. No answer has such a number.
pub fn word(n: usize) -> u32
    ensures { result ≡ word_for n }
{
    u32::try_from(n).unwrap_or(u32::MAX)
}

// How many words a record has: `record_words` of the definitions.
pub const RECORD_WORDS: usize = 8;

// Says of a list of words that a struct lends what its type says: each fits 32 bits. Does nothing.
pub(crate) fn words_fit(_words: &[u32])
    ensures { (i : ℕ) → slice_index _words.now i < 2 ^ 32 }
{}

// The record of a point's answer.
pub(crate) fn record(s: Result<Option<Sampled>, Refusal>) -> [u32; RECORD_WORDS]
    requires { RecordFits (read_sampled s) }
    ensures { result ≡ record_of (read_sampled s) }
{
    match s {
        Ok(Some(found)) => [
            1,
            bits32(found.height),
            bits32(found.normal.x),
            bits32(found.normal.y),
            bits32(found.normal.z),
            word(found.triangle),
            found.detail.lane.is_some() as u32,
            word(found.detail.lane.unwrap_or(0)),
        ],
        Ok(None) => [0; RECORD_WORDS],
        Err(r) => [2, r.number(), word(r.place()), 0, 0, 0, 0, 0],
    }
}

// The record of an answer at the front: 1 where it has a height, 0 where it has none. One that is refused writes
// nothing.
#[tactic(auto, unfolding(crate::specs::Record::record_answer, crate::specs::Record::RecordFits, crate::specs::Sampler::read_sampled, shape::specs::Refusal::told, shape::specs::Refusal::leaves, shape::specs::Refusal::judge, shape::specs::Refusal::found, shape::specs::Refusal::refuse, shape::specs::Refusal::number_of, shape::specs::Refusal::place_of))]
fn answer_by(words: &mut [u32], s: Result<Option<Sampled>, Refusal>) -> Result<usize, Refusal>
    requires { (a : Sample) → read_sampled s ≡ taken a → RecordFits (taken a) }
    ensures result_value { told result ≡ record_answer (read_sampled s) (length words.old) }
    ensures words_after { words.new ≡ leaves (record_answer (read_sampled s) (length words.old)) (record_of (read_sampled s)) words.old }
{
    let found = s?;
    refuse_if(
        words.len() < RECORD_WORDS,
        Refusal::ShortOutput(RECORD_WORDS),
    )?;
    words[..RECORD_WORDS].copy_from_slice(&record(s));
    Ok(found.is_some() as usize)
}

// What the plain lookup finds has no lane.
impl From<Found> for Sampled {
    ghost from_gives = { λ f s. (s.height ≡ f.height) × (s.normal ≡ f.normal) × (s.triangle ≡ f.triangle) × (s.detail.lane ≡ None) };

    fn from(f: Found) -> Sampled {
        Sampled {
            height: f.height,
            normal: f.normal,
            triangle: f.triangle,
            detail: Detail { lane: None },
        }
    }
}

// The plain lookup's answer with no lane.
fn without_lane(a: Result<Option<Found>, Refusal>) -> Result<Option<Sampled>, Refusal>
    ensures { read_sampled result ≡ plain_sample (read_answer a) }
{
    Ok(a?.map(Sampled::from))
}

// The plain lookup, its answer written as a record at the front of what is lent: 1 where there is a height, 0
// where there is none. It names no lane.
pub fn height_record(mesh: Mesh, x: f32, y: f32, words: &mut [u32]) -> Result<usize, Refusal>
    ensures result_value { told result ≡ record_answer (plain_sample (answer_of (lists_of mesh.entry) x y)) (length words.old) }
    ensures words_after { let s = plain_sample (answer_of (lists_of mesh.entry) x y) in words.new ≡ leaves (record_answer s (length words.old)) (record_of s) words.old }
{
    answer_by(words, without_lane(height_at(mesh, x, y)))
}

// The indexed lookup, alike.
pub fn top_record(
    mesh: Mesh,
    index: &[u32],
    x: f32,
    y: f32,
    words: &mut [u32],
) -> Result<usize, Refusal>
    ensures result_value { told result ≡ record_answer (top_of (lists_of mesh.entry) index.now x y) (length words.old) }
    ensures words_after { let s = top_of (lists_of mesh.entry) index.now x y in words.new ≡ leaves (record_answer s (length words.old)) (record_of s) words.old }
{
    words_fit(mesh.spans);
    answer_by(words, top(mesh, index, x, y))
}
