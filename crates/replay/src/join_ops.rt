// Two meshes as one, and the plain lookup on the whole.
use crate::lists::MeshMemory;
use crate::lookup_ops::put_plain;
use crate::mesh_ops::put_counts;
use crate::refused::put_refusal;
use joining::join::join;
use lookup::mesh::height_at;
use shape::lists::{Mesh, part};
use shape::mesh::MeshCounts;
use stored::answer::Answer;
use stored::lent::{BLANK, BLANK_WORD, Case};

// The part of the lent memory that a joining made.
fn made_of<'a>(m: Mesh<'a>, counts: MeshCounts) -> Mesh<'a> {
    Mesh {
        vertices: part(m.vertices, 0, counts.vertices.saturating_mul(3)),
        normals: part(m.normals, 0, counts.normals.saturating_mul(3)),
        indices: part(m.indices, 0, counts.indices),
        spans: part(m.spans, 0, counts.spans.saturating_mul(5)),
    }
}

// What the plain lookup gives at each point.
fn put_heights(answer: &mut Answer, whole: Mesh, points: &[f32]) {
    answer.number(points.len() / 2);
    for p in points.chunks_exact(2) {
        put_plain(answer, height_at(whole, p[0], p[1]));
    }
}

// The two parts, the room in each output, and the points that are asked of the whole. Apart from the other operations,
// since its memory is that of two meshes and would be on the stack for each of them.
#[inline(never)]
pub(crate) fn join_case(case: &mut Case, answer: &mut Answer) -> Option<()> {
    let mut first = MeshMemory::new();
    let mut second = MeshMemory::new();
    let mut vertices = [BLANK; 12300];
    let mut normals = [BLANK; 12300];
    let mut indices = [BLANK_WORD; 12300];
    let mut spans = [BLANK_WORD; 5200];
    let mut points = [0.0f32; 256];
    let a = first.mesh(case)?;
    let b = second.mesh(case)?;
    let vertices = &mut vertices[..case.room(12300)?];
    let normals = &mut normals[..case.room(12300)?];
    let indices = &mut indices[..case.room(12300)?];
    let spans = &mut spans[..case.room(5200)?];
    let points = case.list(&mut points)?;
    let made = join(a, b, vertices, normals, indices, spans);
    match made {
        Ok(counts) => put_counts(answer, counts),
        Err(r) => put_refusal(answer, r),
    }
    answer.singles(vertices);
    answer.singles(normals);
    answer.words(indices);
    answer.words(spans);
    let lent = Mesh {
        vertices,
        normals,
        indices,
        spans,
    };
    if let Ok(counts) = made {
        put_heights(answer, made_of(lent, counts), points);
    }
    Some(())
}
