// The ground of a junction as triangles: the ears of its boundary, each split to the spacing of the
// elevation grid.
ghost use Rattle.std.specs.Prelude.{◌≡◌, ℕ, ◌+◌, ◌-◌, ◌*◌, ◌/◌, ◌^◌, ◌<◌, ◌≤◌, [], length, None, Err, MatchResult};
ghost use Rattle.shape.specs.Memory.{Put};
ghost use Rattle.shape.specs.Refusal.{fine, found, told};
ghost use Rattle.shape.specs.Lists.{max_ring, mesh_lists};
ghost use Rattle.shape.specs.MeshMemory.{leaves_mesh};
ghost use Rattle.shape.specs.JunctionMesh.{
  longest_of,
  parts_of,
  ear_cut,
  lattice,
  face_of,
  corner_coords,
  face_normals,
  vertex_count,
  spacing_of,
  raised_to,
  raised_by,
  row_of,
  ear_mesh,
  ears_mesh,
  ground_of,
  ground_input,
  ground_lengths,
  ground_mesh,
  ground_result,
  ground_answer,
};

use crate::ears::{Picked, clip, count_up};
use crate::elevation::{ElevationGrid, GridFault, Heights, Survey, locate};
use crate::lists::MAX_RING;
use crate::memory::{Lengths, put, room_fault};
use crate::refusal::{Refusal, refuse_if};
use rounding::count::count;
use rounding::extremes::{clamp, max};
use rounding::whole::ceil;
use rounding::width::{narrow, widen};
use vector::coords::{Point, Vector};

// An ear's corners, and into how many parts each side is split.
#[derive(Clone, Copy)]
pub struct Ear {
    pub a: Point,
    pub b: Point,
    pub c: Point,
    pub n: u8,
}

// The grid of a junction, if it has one, with its lists, which are not faulty.
#[derive(Clone, Copy)]
struct Relief<'a> {
    grid: Option<ElevationGrid>,
    survey: Survey<'a>,
}

// ---- splitting

// The longest side of a triangle. A side that is NaN counts as none.
#[tactic(auto, unfolding(crate::specs::JunctionMesh::longest_of))]
fn longest(a: Point, b: Point, c: Point) -> f32
    ensures { result ≡ longest_of a b c }
{
    let ab = max(0.0, a.distance_to(b));
    let bc = max(ab, b.distance_to(c));
    max(bc, c.distance_to(a))
}

// Into how many parts each side is split, with points `step` apart.
#[tactic(auto, using(crate::proofs::Laws::JunctionMesh::parts_few), unfolding(crate::specs::JunctionMesh::parts_of))]
fn parts(a: Point, b: Point, c: Point, step: f64) -> u8
    ensures { (result ≡ parts_of step a b c) × (result ≤ 64) }
{
    let n = ceil(widen(longest(a, b, c)) / step);
    count(clamp(n, 1.0, 64.0)) as u8
}

// Ear k of a ring.
#[tactic(auto, unfolding(crate::specs::JunctionMesh::ear_cut))]
fn ear_at(ears: Picked, k: usize, step: f64) -> Ear
    requires { 3 * k + 2 < length ears.numbers.now }
    ensures { (result ≡ ear_cut step ears.entry.ring.now ears.entry.numbers.now k) × (result.n ≤ 64) }
{
    let a = ears.point(3 * k);
    let b = ears.point(3 * k + 1);
    let c = ears.point(3 * k + 2);
    let n = parts(a, b, c, step);
    Ear { a, b, c, n }
}

// Point (i, j) of an ear's lattice.
#[tactic(auto, unfolding(crate::specs::JunctionMesh::lattice))]
fn lattice_point(e: Ear, i: usize, j: usize) -> Point
    requires { (i ≤ e.n) × (j ≤ e.n) }
    ensures { result ≡ lattice e i j }
{
    let a = e.a;
    let b = e.b;
    let c = e.c;
    let n = e.n as f32;
    let u = i as f32 / n;
    let v = j as f32 / n;
    a + (b - a) * u + (c - a) * v
}

// ---- triangles

// The normal of a triangle, turned up.
#[tactic(auto, unfolding(crate::specs::JunctionMesh::face_of))]
fn face(a: Point, b: Point, c: Point) -> Vector
    ensures { result ≡ face_of a b c }
{
    let v = (b - a).cross(c - a).normalize_or(Vector::Z);
    if v.z < 0.0 { v * -1.0 } else { v }
}

// A triangle with its own vertices, and its normal at each.
#[tactic(auto, unfolding(crate::specs::JunctionMesh::corner_coords, crate::specs::JunctionMesh::face_normals))]
fn push(vertices: &mut [f32], normals: &mut [f32], at: usize, a: Point, b: Point, c: Point) -> usize
    requires { (at + 9 ≤ length vertices.old) × (at + 9 ≤ length normals.old) }
    ensures vertices_put { Put vertices.old vertices.new at (corner_coords a b c) result }
    ensures normals_put { Put normals.old normals.new at (face_normals a b c) result }
{
    put(vertices, at, [a.x, a.y, a.z, b.x, b.y, b.z, c.x, c.y, c.z]);
    let v = face(a, b, c);
    put(normals, at, [v.x, v.y, v.z, v.x, v.y, v.z, v.x, v.y, v.z])
}

// ---- sizes

// How many vertices the triangles of the ears have.
fn count_vertices(ears: Picked, step: f64) -> usize
    requires { length ears.numbers.now ≤ 3 * max_ring }
    ensures { (result ≡ vertex_count step ears.entry.ring.now ears.entry.numbers.now) × (result ≤ 12288 * max_ring) }
{
    let mut total: usize = 0;
    for k in 0..ears.numbers.len() / 3 {
        let n = ear_at(ears, k, step).n as usize;
        total += 3 * (n * n);
    }
    total
}

// The lengths of a mesh of so many vertices. Each triangle has its own, so that there are as many indices;
// a junction has no spans.
fn ground_lengths(many: usize) -> Lengths
    requires { many ≤ 12288 * max_ring }
    ensures { result ≡ ground_lengths many }
{
    Lengths {
        vertices: 3 * many,
        normals: 3 * many,
        indices: many,
        spans: 0,
    }
}

// ---- the grid

// A point at a height, if there is one.
#[tactic(auto, unfolding(crate::specs::JunctionMesh::raised_to))]
fn raised_to(p: Point, z: Option<f64>) -> Point
    ensures { result ≡ raised_to p z }
{
    z.map_or(p, |h| Point { z: narrow(h), ..p })
}

impl Relief<'_> {
    // How far apart the grid's points are: infinitely far where there is no grid.
    #[tactic(auto, unfolding(crate::specs::JunctionMesh::spacing_of))]
    fn spacing(self) -> f64
        ensures { result ≡ spacing_of self.entry.grid }
    {
        self.grid.map_or(f64::INFINITY, |grid| grid.spacing)
    }

    // Point (i, j) of an ear's lattice, at the grid's height where the grid reaches.
    #[tactic(auto, unfolding(crate::specs::JunctionMesh::lift_of))]
    fn lifted(self, e: Ear, i: usize, j: usize) -> Point
        requires { (i ≤ e.n) × (j ≤ e.n) }
        ensures { result ≡ raised_by self.entry (lattice e i j) }
    {
        let p = lattice_point(e, i, j);
        let Some(g) = self.grid else {
            return p;
        };
        let at = locate(g, widen(p.x), widen(p.y));
        raised_to(p, self.survey.height(g, at.s, at.t))
    }
}

// ---- the mesh

// Row i of an ear's triangles, from `from` on. Two points are carried on from each pair of triangles to
// the next; the last triangle of a row stands alone.
fn put_row(
    relief: Relief,
    e: Ear,
    i: usize,
    vertices: &mut [f32],
    normals: &mut [f32],
    from: usize,
) -> usize
    requires { let to = from + 18 * (e.n - i) in
        (i < e.n) × (to ≤ length vertices.old + 9) × (to ≤ length normals.old + 9) }
    ensures vertices_put { let lift = raised_by relief.entry in
        Put vertices.old vertices.new from (row_of corner_coords (λ (x y : ℕ). lift (lattice e x y)) e.n i) result }
    ensures normals_put { let lift = raised_by relief.entry in
        Put normals.old normals.new from (row_of face_normals (λ (x y : ℕ). lift (lattice e x y)) e.n i) result }
{
    let n = e.n as usize;
    let mut at = from;
    let mut p = relief.lifted(e, i, 0);
    let mut q = relief.lifted(e, i + 1, 0);
    for j in 1..n - i {
        let r = relief.lifted(e, i, j);
        let s = relief.lifted(e, i + 1, j);
        let next = push(vertices, normals, at, p, q, r);
        at = push(vertices, normals, next, q, s, r);
        p = r;
        q = s;
    }
    let r = relief.lifted(e, i, n - i);
    push(vertices, normals, at, p, q, r)
}

// The triangles of an ear, from `from` on.
fn put_split(
    relief: Relief,
    e: Ear,
    vertices: &mut [f32],
    normals: &mut [f32],
    from: usize,
) -> usize
    requires { (from + 9 * (e.n * e.n) ≤ length vertices.old) × (from + 9 * (e.n * e.n) ≤ length normals.old) }
    ensures vertices_put { Put vertices.old vertices.new from (ear_mesh corner_coords (raised_by relief.entry) e) result }
    ensures normals_put { Put normals.old normals.new from (ear_mesh face_normals (raised_by relief.entry) e) result }
{
    let mut at = from;
    for i in 0..e.n as usize {
        at = put_row(relief, e, i, vertices, normals, at);
    }
    at
}

// The triangles of all ears.
fn put_ears(relief: Relief, ears: Picked, vertices: &mut [f32], normals: &mut [f32]) -> usize
    requires { let many = vertex_count (spacing_of relief.grid) ears.ring.now ears.numbers.now in
        (3 * many ≤ length vertices.old) × (3 * many ≤ length normals.old) }
    ensures vertices_put { let r = relief.entry in
        let made = ears_mesh corner_coords (raised_by r) (spacing_of r.grid) ears.entry.ring.now ears.entry.numbers.now in
        Put vertices.old vertices.new 0 made result }
    ensures normals_put { let r = relief.entry in
        let made = ears_mesh face_normals (raised_by r) (spacing_of r.grid) ears.entry.ring.now ears.entry.numbers.now in
        Put normals.old normals.new 0 made result }
{
    let step = relief.spacing();
    let mut at: usize = 0;
    for k in 0..ears.numbers.len() / 3 {
        let e = ear_at(ears, k, step);
        at = put_split(relief, e, vertices, normals, at);
    }
    at
}

// The mesh, of lists that are not at fault.
fn mesh_checked(
    ring: &[f32],
    relief: Relief,
    vertices: &mut [f32],
    normals: &mut [f32],
    indices: &mut [u32],
) -> Result<usize, Refusal>
    requires { length ring.now ≤ 3 * max_ring }
    ensures result_value { let g = ground_of ring.now relief.entry.grid relief.entry.survey.heights in
        let before = mesh_lists vertices.old normals.old indices.old [] in
        told result ≡ ground_result g before }
    ensures mesh_after { let g = ground_of ring.now relief.entry.grid relief.entry.survey.heights in
        let before = mesh_lists vertices.old normals.old indices.old [] in
        let after = mesh_lists vertices.new normals.new indices.new [] in
        after ≡ leaves_mesh (ground_result g before) (ground_mesh g) before }
{
    let mut memory = [0u32; 3 * MAX_RING];
    let ears = clip(ring, &mut memory);
    let many = count_vertices(ears, relief.spacing());
    let lent = Lengths {
        vertices: vertices.len(),
        normals: normals.len(),
        indices: indices.len(),
        spans: 0,
    };
    room_fault(ground_lengths(many), lent)?;
    put_ears(relief, ears, vertices, normals);
    count_up(&mut indices[..many]);
    Ok(many)
}

// Why the lists are turned back, or the survey of the grid's. Its rows are list 1.
#[tactic(auto, using(crate::proofs::Surveys::says_long, crate::proofs::Surveys::says_ragged, crate::proofs::Surveys::says_widest), unfolding(crate::specs::Refusal::told, crate::specs::Refusal::found, crate::specs::Refusal::judge, crate::specs::Refusal::refuse, crate::specs::Refusal::or_else, crate::specs::Refusal::number_of, crate::specs::Refusal::place_of, crate::specs::JunctionMesh::ground_input, crate::specs::JunctionMesh::ground_limits, crate::specs::JunctionMesh::ground_ragged, crate::specs::ElevationSteps::refusal_of, crate::specs::Lists::longer, crate::specs::Lists::uneven))]
fn survey<'a>(ring: &[f32], heights: Heights<'a>) -> Result<Survey<'a>, Refusal>
    ensures { let told = ground_input (ground_of ring.now None heights.entry) in
        MatchResult result (λ s. (s.heights ≡ heights.entry) × (told ≡ fine)) (λ r. told ≡ found (Err r)) }
{
    refuse_if(3 * MAX_RING < ring.len(), Refusal::Oversize(MAX_RING))?;
    match heights.survey() {
        Ok(_) | Err(GridFault::Ragged) if ring.len() % 3 != 0 => Err(Refusal::Ragged(0)),
        Ok(survey) => Ok(survey),
        Err(fault) => Err(fault.refusal(1)),
    }
}

// The ground inside a boundary as triangles: vertices, normals and indices.
pub fn mesh(
    ring: &[f32],
    grid: Option<ElevationGrid>,
    heights: Heights,
    vertices: &mut [f32],
    normals: &mut [f32],
    indices: &mut [u32],
) -> Result<usize, Refusal>
    ensures result_value { let g = ground_of ring.now grid heights.entry in
        let before = mesh_lists vertices.old normals.old indices.old [] in
        told result ≡ ground_answer g before }
    ensures mesh_after { let g = ground_of ring.now grid heights.entry in
        let before = mesh_lists vertices.old normals.old indices.old [] in
        let after = mesh_lists vertices.new normals.new indices.new [] in
        after ≡ leaves_mesh (ground_answer g before) (ground_mesh g) before }
{
    let relief = Relief {
        grid,
        survey: survey(ring, heights)?,
    };
    mesh_checked(ring, relief, vertices, normals, indices)
}
