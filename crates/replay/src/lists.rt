// The lists of a mesh that a case gives.
use shape::lists::Mesh;
use stored::lent::Case;

// Memory for the largest mesh, and a little more.
#[derive(Drop)]
pub struct MeshMemory {
    vertices: [f32; 196620],
    normals: [f32; 196620],
    indices: [u32; 196620],
    spans: [u32; 5130],
}

impl MeshMemory {
    pub(crate) fn new() -> MeshMemory {
        MeshMemory {
            vertices: [0.0; 196620],
            normals: [0.0; 196620],
            indices: [0; 196620],
            spans: [0; 5130],
        }
    }

    // The next four lists of a case as a mesh, if there is room for them.
    pub(crate) fn mesh<'m>(&'m mut self, case: &mut Case) -> Option<Mesh<'m>> {
        let MeshMemory {
            vertices,
            normals,
            indices,
            spans,
        } = self;
        Some(Mesh {
            vertices: case.list(vertices)?,
            normals: case.list(normals)?,
            indices: case.list(indices)?,
            spans: case.list(spans)?,
        })
    }
}
