// The operations on meshes.
use crate::refused::put_refusal;
use shape::mesh::{Lanes, MeshCounts, surface_mesh};
use shape::strip::no_area;
use stored::answer::Answer;
use stored::lent::{BLANK, BLANK_WORD, Case};

pub(crate) fn no_area_case(case: &mut Case, answer: &mut Answer) -> Option<()> {
    answer.test(no_area(case.point(), case.point(), case.point()));
    Some(())
}

// ---- surface_mesh

pub(crate) fn put_counts(answer: &mut Answer, made: MeshCounts) {
    answer.word(0);
    answer.number(made.vertices);
    answer.number(made.normals);
    answer.number(made.indices);
    answer.number(made.spans);
}

// The strips of lanes, where the case gives the room in each output next.
fn strips(case: &mut Case, lanes: Lanes, answer: &mut Answer) -> Option<()> {
    let mut vertices = [BLANK; 12300];
    let mut normals = [BLANK; 12300];
    let mut indices = [BLANK_WORD; 12300];
    let mut spans = [BLANK_WORD; 5200];
    let vertices = &mut vertices[..case.room(12300)?];
    let normals = &mut normals[..case.room(12300)?];
    let indices = &mut indices[..case.room(12300)?];
    let spans = &mut spans[..case.room(5200)?];
    match surface_mesh(lanes, vertices, normals, indices, spans) {
        Ok(made) => put_counts(answer, made),
        Err(r) => put_refusal(answer, r),
    }
    answer.singles(vertices);
    answer.singles(normals);
    answer.words(indices);
    answer.words(spans);
    Some(())
}

pub(crate) fn surface_case(case: &mut Case, answer: &mut Answer) -> Option<()> {
    let mut points = [0.0f32; 110600];
    let mut tangents = [0.0f32; 12300];
    let mut widths = [0.0f32; 4100];
    let mut banks = [0.0f32; 8200];
    let mut records = [0u32; 10260];
    let lanes = Lanes {
        points: case.list(&mut points)?,
        tangents: case.list(&mut tangents)?,
        widths: case.list(&mut widths)?,
        banks: case.list(&mut banks)?,
        records: case.list(&mut records)?,
    };
    strips(case, lanes, answer)
}
