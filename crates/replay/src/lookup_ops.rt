// The operations of the lookup layer. A case gives the four lists of a mesh; then the points asked, or
// the room for an index, or the words of one and the points. The answer to each point has the same number
// of words. Where all points are asked in one call, the room for their records stands behind them, and the
// answer is that of a call that writes.
use crate::lists::MeshMemory;
use crate::refused::{put_count, put_refusal};
use lookup::batch::tops;
use lookup::grid::build;
use lookup::mesh::{Found, height_at};
use lookup::sampler::{Sampled, top};
use shape::lists::Mesh;
use shape::refusal::Refusal;
use stored::answer::Answer;
use stored::lent::{BLANK_WORD, Case};
use vector::coords::Vector;

// ---- one answer

// 0 and that a triangle is found: height, normal and number.
fn put_found(answer: &mut Answer, height: f32, normal: Vector, triangle: usize) {
    answer.word(0);
    answer.word(1);
    answer.single(height);
    answer.vector(normal);
    answer.number(triangle);
}

// An answer of seven words.
pub(crate) fn put_plain(answer: &mut Answer, found: Result<Option<Found>, Refusal>) {
    match found {
        Ok(Some(f)) => put_found(answer, f.height, f.normal, f.triangle),
        Ok(None) => answer.zeros(7),
        Err(r) => {
            put_refusal(answer, r);
            answer.zeros(5);
        }
    }
}

// An answer of nine words: the seven, and the lane, if there is one.
fn put_sample(answer: &mut Answer, sampled: Result<Option<Sampled>, Refusal>) {
    match sampled {
        Ok(Some(s)) => {
            put_found(answer, s.height, s.normal, s.triangle);
            answer.test(s.detail.lane.is_some());
            answer.number(s.detail.lane.unwrap_or(0));
        }
        Ok(None) => answer.zeros(9),
        Err(r) => {
            put_refusal(answer, r);
            answer.zeros(7);
        }
    }
}

// ---- what a case gives after the mesh

// The points asked of the mesh itself.
pub(crate) fn plain_case(case: &mut Case, answer: &mut Answer) -> Option<()> {
    let mut memory = MeshMemory::new();
    let mut points = [0.0f32; 256];
    let mesh = memory.mesh(case)?;
    let points = case.list(&mut points)?;
    answer.number(points.len() / 2);
    for p in points.chunks_exact(2) {
        put_plain(answer, height_at(mesh, p[0], p[1]));
    }
    Some(())
}

// The room for an index.
pub(crate) fn build_case(case: &mut Case, answer: &mut Answer) -> Option<()> {
    let mut memory = MeshMemory::new();
    let mut index = [BLANK_WORD; 16384];
    let mesh = memory.mesh(case)?;
    let index = &mut index[..case.room(16384)?];
    put_count(answer, build(mesh, index));
    answer.words(index);
    Some(())
}

// The points asked of an index one by one.
pub(crate) fn singly(
    _: &mut Case,
    mesh: Mesh,
    index: &[u32],
    points: &[f32],
    answer: &mut Answer,
) -> Option<()> {
    answer.number(points.len() / 2);
    for p in points.chunks_exact(2) {
        put_sample(answer, top(mesh, index, p[0], p[1]));
    }
    Some(())
}

// The points asked of an index in one call, where the case gives the room for their records next.
pub(crate) fn at_once(
    case: &mut Case,
    mesh: Mesh,
    index: &[u32],
    points: &[f32],
    answer: &mut Answer,
) -> Option<()> {
    let mut records = [BLANK_WORD; 1040];
    let records = &mut records[..case.room(1040)?];
    put_count(answer, tops(mesh, index, points, records));
    answer.words(records);
    Some(())
}

// The points are asked of the index that is built of the mesh; of no words where that is turned back.
pub(crate) fn indexed_case<F>(ask: F, case: &mut Case, answer: &mut Answer) -> Option<()>
where
    F: Fn(&mut Case, Mesh, &[u32], &[f32], &mut Answer) -> Option<()>,
    requires { F.IsAlwaysCallable ask }
{
    let mut memory = MeshMemory::new();
    let mut index = [BLANK_WORD; 16384];
    let mut points = [0.0f32; 256];
    let mesh = memory.mesh(case)?;
    let points = case.list(&mut points)?;
    let used = build(mesh, &mut index).unwrap_or(0).min(16384);
    ask(case, mesh, &index[..used], points, answer)
}

// The points are asked of the words that the case gives for an index.
pub(crate) fn words_case<F>(ask: F, case: &mut Case, answer: &mut Answer) -> Option<()>
where
    F: Fn(&mut Case, Mesh, &[u32], &[f32], &mut Answer) -> Option<()>,
    requires { F.IsAlwaysCallable ask }
{
    let mut memory = MeshMemory::new();
    let mut index = [0u32; 16384];
    let mut points = [0.0f32; 256];
    let mesh = memory.mesh(case)?;
    let index = case.list(&mut index)?;
    let points = case.list(&mut points)?;
    ask(case, mesh, index, points, answer)
}
