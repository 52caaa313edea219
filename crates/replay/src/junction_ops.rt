// The operations on junction triangles.
use crate::grid_ops::grid;
use crate::refused::put_count;
use shape::ears::ear_clip;
use shape::elevation::{ElevationGrid, Heights};
use shape::junction::mesh;
use stored::answer::Answer;
use stored::lent::{BLANK, BLANK_WORD, Case};

// ---- ear_clip

pub(crate) fn ear_case(case: &mut Case, answer: &mut Answer) -> Option<()> {
    let mut points = [0.0f32; 3100];
    let mut ears = [BLANK_WORD; 3100];
    let points = case.list(&mut points)?;
    let ears = &mut ears[..case.room(3100)?];
    put_count(answer, ear_clip(points, ears));
    answer.words(ears);
    Some(())
}

// ---- junction_mesh

// The ground of a ring, where the case gives the room in each output next.
fn ground(
    case: &mut Case,
    ring: &[f32],
    grid: Option<ElevationGrid>,
    heights: Heights,
    answer: &mut Answer,
) -> Option<()> {
    let mut vertices = [BLANK; 12300];
    let mut normals = [BLANK; 12300];
    let mut indices = [BLANK_WORD; 4100];
    let vertices = &mut vertices[..case.room(12300)?];
    let normals = &mut normals[..case.room(12300)?];
    let indices = &mut indices[..case.room(4100)?];
    put_count(
        answer,
        mesh(ring, grid, heights, vertices, normals, indices),
    );
    answer.singles(vertices);
    answer.singles(normals);
    answer.words(indices);
    Some(())
}

// Whether there is a grid, its numbers, the ring and the lists of the heights.
pub(crate) fn junction_case(case: &mut Case, answer: &mut Answer) -> Option<()> {
    let mut ring = [0.0f32; 3100];
    let mut rows = [0u32; 6200];
    let mut left = [0.0f64; 2100];
    let mut right = [0.0f64; 2100];
    let there = case.number() > 0;
    let grid = grid(case);
    let ring = case.list(&mut ring)?;
    let heights = Heights {
        rows: case.list(&mut rows)?,
        left: case.list(&mut left)?,
        right: case.list(&mut right)?,
    };
    ground(case, ring, there.then_some(grid), heights, answer)
}
