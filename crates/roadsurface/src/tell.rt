// How an answer is told across the border: a code is returned, and what else there is to tell goes into the
// numbers that are lent for it.
#![tactic(auto, unfolding(shape::specs::Refusal::told, shape::specs::Refusal::number_of, shape::specs::Refusal::place_of, shape::specs::Verdict::read_verdict, shape::specs::Verdict::verdict_of, lookup::specs::Batch::word_for, crate::specs::Answers::code_for, crate::specs::Answers::code_of, crate::specs::Answers::left_in, crate::specs::Answers::found_in, crate::specs::Answers::height_put, crate::specs::Answers::kind_of, crate::specs::Answers::place_put, crate::specs::Answers::index_put, crate::specs::Answers::vertices_put))]

ghost use Rattle.std.specs.Prelude.{◌≡◌};
ghost use Rattle.shape.specs.Refusal.{number_of, place_of, told};
ghost use Rattle.shape.specs.Verdict.{read_verdict};
ghost use Rattle.lookup.specs.Batch.{word_for};
ghost use Rattle.roadsurface.specs.Answers.{code_for, code_of, left_in, bit_of, found_in, height_put, kind_of, place_put, index_put, vertices_put};

use lookup::record::word;
use shape::junction_areas::Outline;
use shape::mesh::MeshCounts;
use shape::refusal::Refusal;
use shape::validate::MeshError;

// The code of a refusal.
fn code(r: Refusal) -> u64
    ensures { result ≡ code_for (number_of r) (place_of r) }
{
    r.number() as u64 * 0x1_0000_0000 + word(r.place()) as u64
}

// The code of a call that is taken, which made or found so many.
fn count(n: usize) -> u64
    ensures { result ≡ word_for n }
{
    word(n) as u64
}

// What is told where nothing but a count is.
pub(crate) fn tell_count(a: Result<usize, Refusal>) -> u64
    ensures { result ≡ code_of (λ n. n) (told a) }
{
    match a {
        Ok(n) => count(n),
        Err(r) => code(r),
    }
}

pub(crate) fn tell_elevation(a: Result<Option<f64>, Refusal>, height: &mut f64) -> u64
    ensures value { result ≡ code_of found_in (told a) }
    ensures height_after { height.new ≡ left_in height_put (told a) height.old }
{
    match a {
        Ok(Some(z)) => {
            *height = z;
            1
        }
        Ok(None) => 0,
        Err(r) => code(r),
    }
}

pub(crate) fn tell_outline(
    a: Result<Outline, Refusal>,
    dropped: &mut u32,
    gap: &mut f32,
    closed: &mut u32,
    turned: &mut u32,
) -> u64
    ensures value { result ≡ code_of (λ o. o.count) (told a) }
    ensures dropped_after { dropped.new ≡ left_in (λ o _. word_for o.dropped) (told a) dropped.old }
    ensures gap_after { gap.new ≡ left_in (λ o _. o.gap) (told a) gap.old }
    ensures closed_after { closed.new ≡ left_in (λ o _. bit_of o.closed) (told a) closed.old }
    ensures turned_after { turned.new ≡ left_in (λ o _. bit_of o.turned) (told a) turned.old }
{
    match a {
        Ok(o) => {
            *dropped = word(o.dropped);
            *gap = o.gap;
            *closed = o.closed as u32;
            *turned = o.turned as u32;
            count(o.count)
        }
        Err(r) => code(r),
    }
}

pub(crate) fn tell_mesh(
    a: Result<MeshCounts, Refusal>,
    normal_count: &mut u32,
    index_count: &mut u32,
    span_count: &mut u32,
) -> u64
    ensures value { result ≡ code_of (λ m. m.vertices) (told a) }
    ensures normal_count_after { normal_count.new ≡ left_in (λ m _. word_for m.normals) (told a) normal_count.old }
    ensures index_count_after { index_count.new ≡ left_in (λ m _. word_for m.indices) (told a) index_count.old }
    ensures span_count_after { span_count.new ≡ left_in (λ m _. word_for m.spans) (told a) span_count.old }
{
    match a {
        Ok(m) => {
            *normal_count = word(m.normals);
            *index_count = word(m.indices);
            *span_count = word(m.spans);
            count(m.vertices)
        }
        Err(r) => code(r),
    }
}

pub(crate) fn tell_verdict(
    a: Result<Result<(), MeshError>, Refusal>,
    place: &mut u32,
    index: &mut u32,
    vertex_count: &mut u32,
) -> u64
    ensures value { result ≡ code_of kind_of (read_verdict a) }
    ensures place_after { place.new ≡ left_in place_put (read_verdict a) place.old }
    ensures index_after { index.new ≡ left_in index_put (read_verdict a) index.old }
    ensures vertex_count_after { vertex_count.new ≡ left_in vertices_put (read_verdict a) vertex_count.old }
{
    match a {
        Ok(Ok(())) => 0,
        Ok(Err(MeshError::Empty)) => 1,
        Ok(Err(MeshError::NonFiniteVertex(v))) => {
            *place = word(v);
            2
        }
        Ok(Err(MeshError::IndexOutOfRange(t, i, n))) => {
            *place = word(t);
            *index = word(i);
            *vertex_count = word(n);
            3
        }
        Ok(Err(MeshError::DegenerateTriangle(t))) => {
            *place = word(t);
            4
        }
        Err(r) => code(r),
    }
}
