// Whether a mesh can back a physics collider (`Mesh::validate`).
#![tactic(auto, unfolding(crate::specs::Refusal::found, crate::specs::Refusal::judge, crate::specs::Refusal::number_of, crate::specs::Refusal::place_of, crate::specs::Verdict::unsound, crate::specs::Verdict::flat_or, crate::specs::Verdict::corner_of, crate::specs::Verdict::finding_of, crate::specs::Verdict::is_faulty, crate::specs::Verdict::faulty_at, crate::specs::Verdict::tell, crate::specs::Verdict::of_triangles, crate::specs::Verdict::validity_of, crate::specs::Verdict::verdict_of, crate::specs::Verdict::read_verdict))]

ghost use Rattle.std.specs.Prelude.{◌≡◌, ◌+◌, ◌*◌, ◌/◌, ◌<◌, true, length};
ghost use Rattle.shape.specs.Gather.{IsFirst};
ghost use Rattle.shape.specs.Refusal.{judge, taken};
ghost use Rattle.shape.specs.Lists.{point_at, lists_of, mesh_fault};
ghost use Rattle.shape.specs.Strip.{no_area};
ghost use Rattle.shape.specs.Verdict.{FiniteBelow, unsound, corner_of, finding_of, flat_or, triples_of, faulty_at, tell, of_triangles, validity_of, verdict_of, read_verdict};

use crate::lists::{Mesh, point_at, word_at};
use crate::refusal::Refusal;
use crate::strip::no_area;
use rounding::extremes::is_finite;

// What is wrong with a mesh, with the counts of the finding.
#[derive(Clone, Copy, PartialEq, Eq, Debug)]
pub enum MeshError {
    // No triangles at all.
    Empty,
    // The vertex that has a NaN or an infinity.
    NonFiniteVertex(usize),
    // The triangle, the index, and the number of vertices that it is past.
    IndexOutOfRange(usize, usize, usize),
    // The triangle that has no area.
    DegenerateTriangle(usize),
}

// What is wrong with one triangle: an index past the vertices, or no area.
#[derive(Clone, Copy)]
enum Flaw {
    Past(usize),
    Flat,
}

// Are all the numbers finite? There is no early exit, so that several are tested at a time.
#[tactic(auto, using(crate::proofs::Verdicts::finite_next))]
fn every_finite(xs: &[f32]) -> bool
    ensures { result ≡ true → FiniteBelow xs.now (length xs.now) }
{
    let mut ok = true;
    for x in xs {
        ok &= is_finite(*x);
    }
    ok
}

// The first vertex that is not finite.
#[tactic(auto, using(crate::proofs::Laws::Gather::any_next, crate::proofs::Laws::Gather::least_found, crate::proofs::Laws::Gather::least_past), unfolding(crate::specs::Gather::any, crate::specs::Verdict::unsound))]
fn search_unsound(mesh: Mesh) -> Option<usize>
    ensures { let vs = mesh.entry.vertices.now in IsFirst (unsound vs) (length vs / 3) result }
{
    for i in 0..mesh.points() {
        if !point_at(mesh.vertices, i).is_finite() {
            return Some(i);
        }
    }
    None
}

// The same. In most meshes all are finite, which takes no search to see.
#[tactic(auto, using(crate::proofs::Laws::Gather::least_none, crate::proofs::Verdicts::finite_sound))]
fn first_unsound(mesh: Mesh) -> Option<usize>
    ensures { let vs = mesh.entry.vertices.now in IsFirst (unsound vs) (length vs / 3) result }
{
    if every_finite(mesh.vertices) {
        return None;
    }
    search_unsound(mesh)
}

// What is wrong with triangle t, if anything is. The last may have fewer than three corners: a bad index of
// it counts before that.
fn examine(mesh: Mesh, t: usize) -> Result<(), Flaw>
    requires { 3 * t < length mesh.indices.now }
    ensures { result ≡ finding_of mesh.entry.vertices.now mesh.entry.indices.now t }
{
    let indices = mesh.indices;
    let n = mesh.points();
    let at = 3 * t;
    let a = corner(indices, at, n)?;
    let b = corner(indices, at + 1, n)?;
    let c = corner(indices, at + 2, n)?;
    flat_or_fine(mesh.vertices, a, b, c)
}

// The corner at a place of the indices, of n vertices: there may be no index, and it may be past them.
fn corner(indices: &[u32], at: usize, n: usize) -> Result<usize, Flaw>
    ensures { result ≡ corner_of indices.now at n }
{
    if indices.len() <= at {
        return Err(Flaw::Flat);
    }
    let i = word_at(indices, at);
    if n <= i {
        return Err(Flaw::Past(i));
    }
    Ok(i)
}

// A triangle of three vertices is flat if it repeats a corner or has no area.
fn flat_or_fine(vertices: &[f32], a: usize, b: usize, c: usize) -> Result<(), Flaw>
    ensures { result ≡ flat_or vertices.now a b c }
{
    if a == b || b == c || a == c || no_area_at(vertices, a, b, c) {
        return Err(Flaw::Flat);
    }
    Ok(())
}

// Has the triangle of three vertices no area?
fn no_area_at(vertices: &[f32], a: usize, b: usize, c: usize) -> bool
    ensures { result ≡ no_area (point_at vertices.now a) (point_at vertices.now b) (point_at vertices.now c) }
{
    no_area(
        point_at(vertices, a),
        point_at(vertices, b),
        point_at(vertices, c),
    )
}

// Is something wrong with triangle t, which has three indices?
fn whole_faulty(mesh: Mesh, t: usize) -> bool
    requires { 3 * t + 2 < length mesh.indices.now }
    ensures { result ≡ faulty_at mesh.entry.vertices.now mesh.entry.indices.now t }
{
    let n = mesh.points();
    let at = 3 * t;
    let a = mesh.indices[at] as usize;
    let b = mesh.indices[at + 1] as usize;
    let c = mesh.indices[at + 2] as usize;
    if n <= a {
        return true;
    }
    if n <= b {
        return true;
    }
    if n <= c {
        return true;
    }
    if a == b {
        return true;
    }
    if b == c {
        return true;
    }
    a == c || no_area_at(mesh.vertices, a, b, c)
}

// The first triangle with something wrong. A short last one has something wrong in any case.
// A function of its own, since behind the refusals the compiler would take its loop for one that is seldom reached.
#[inline(never)]
#[tactic(auto, using(crate::proofs::Laws::Gather::any_next, crate::proofs::Laws::Gather::least_found, crate::proofs::Verdicts::first_short), unfolding(crate::specs::Gather::any))]
fn first_faulty(mesh: Mesh) -> Option<usize>
    ensures { let is = mesh.entry.indices.now in IsFirst (faulty_at mesh.entry.vertices.now is) (triples_of is) result }
{
    let m = mesh.triangles();
    for t in 0..m {
        if whole_faulty(mesh, t) {
            return Some(t);
        }
    }
    let short = mesh.indices.len() % 3 != 0;
    short.then_some(m)
}

// What is wrong with triangle t, as the verdict on a mesh of n vertices.
fn error_of(t: usize, flaw: Flaw, n: usize) -> MeshError
    ensures { verdict_of (Err result) ≡ tell n t (Err flaw) }
{
    match flaw {
        Flaw::Past(i) => MeshError::IndexOutOfRange(t, i, n),
        Flaw::Flat => MeshError::DegenerateTriangle(t),
    }
}

// The verdict on sound lists that have indices and whose vertices are finite.
fn of_triangles(mesh: Mesh) -> Result<(), MeshError>
    ensures { verdict_of result ≡ of_triangles mesh.entry.vertices.now mesh.entry.indices.now }
{
    let Some(t) = first_faulty(mesh) else {
        return Ok(());
    };
    let n = mesh.points();
    examine(mesh, t).map_err(|flaw| error_of(t, flaw, n))
}

// The verdict on sound lists.
fn of_lists(mesh: Mesh) -> Result<(), MeshError>
    ensures { verdict_of result ≡ validity_of mesh.entry.vertices.now mesh.entry.indices.now }
{
    if mesh.indices.is_empty() {
        return Err(MeshError::Empty);
    }
    if let Some(v) = first_unsound(mesh) {
        return Err(MeshError::NonFiniteVertex(v));
    }
    of_triangles(mesh)
}

impl Mesh<'_> {
    // The verdict on a mesh in lent lists: what is wrong with it, the first finding in the order of document 01.
    pub fn validate(self) -> Result<Result<(), MeshError>, Refusal>
        ensures { let m = lists_of self.entry in read_verdict result ≡ judge (mesh_fault m) (taken (validity_of m.vertices m.indices)) }
    {
        self.check()?;
        Ok(of_lists(self))
    }
}
