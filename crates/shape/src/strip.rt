// The strip of one lane: the vertices and normals of its ribs, two triangles from each rib to the next, and
// its span.
ghost use Rattle.std.specs.Prelude.{◌≡◌, ℕ, ◌+◌, ◌*◌, ◌/◌, ◌^◌, ◌<◌, ◌≤◌, [], ◌∷◌, length};
ghost use Rattle.shape.specs.Memory.{Put};
ghost use Rattle.shape.specs.Lists.{max_lane_points, span_words};
ghost use Rattle.shape.specs.Strip.{lane_of, six_of, ups_of, no_area, triangle_of, segment_of, vertices_of, normals_of, indices_of};
ghost use Rattle.shape.specs.SurfaceMesh.{span_of};
ghost use Rattle.shape.specs.MeshSteps.{lengths_at, Grown, Room, Wrote};

use crate::lists::{MAX_LANE_POINTS, SPAN_WORDS};
use crate::memory::{Lengths, put};
use crate::rib::{Course, Lane, Rib, no_leg};
use crate::weld::weld;
use vector::coords::Point;

// Whether the triangle a b c has less area than 1e-6, in twice its square metres.
#[tactic(auto, unfolding(crate::specs::Strip::no_area))]
pub fn no_area(a: Point, b: Point, c: Point) -> bool
    ensures { result ≡ no_area a b c }
{
    (b - a).cross(c - a).length_below_micro()
}

// The two vertices of a rib, left edge first, and their normals.
#[tactic(auto, unfolding(crate::specs::Strip::six_of, crate::specs::Strip::ups_of))]
fn put_rib(vertices: &mut [f32], normals: &mut [f32], at: usize, r: Rib) -> usize
    requires { (at + 6 ≤ length vertices.old) × (at + 6 ≤ length normals.old) }
    ensures vertices_put { Put vertices.old vertices.new at (six_of r.left r.right) result }
    ensures normals_put { Put normals.old normals.new at (ups_of r.up) result }
{
    let a = r.left;
    let b = r.right;
    let v = r.up;
    put(vertices, at, [a.x, a.y, a.z, b.x, b.y, b.z]);
    put(normals, at, [v.x, v.y, v.z, v.x, v.y, v.z])
}

// A triangle into the memory, unless it is flat.
#[tactic(auto, unfolding(crate::specs::Strip::triangle_of))]
fn put_triangle(out: &mut [u32], at: usize, flat: bool, a: usize, b: usize, c: usize) -> usize
    requires { (at + length (triangle_of flat a b c) ≤ length out.old) × (a < 2 ^ 32) × (b < 2 ^ 32) × (c < 2 ^ 32) }
    ensures { Put out.old out.new at (triangle_of flat a b c) result }
{
    if flat {
        return at;
    }
    put(out, at, [a as u32, b as u32, c as u32])
}

// The two triangles between two ribs, the first of whose vertices is v, less any with no area.
#[tactic(auto, using(crate::proofs::Laws::Memory::put_then, crate::proofs::Laws::Memory::put_length, crate::proofs::Strips::segment_length), unfolding(crate::specs::Strip::segment_of))]
fn put_segment(out: &mut [u32], at: usize, v: usize, a: Rib, b: Rib) -> usize
    requires { (at + length (segment_of v a b) ≤ length out.old) × (v < 4294967290) }
    ensures { Put out.old out.new at (segment_of v a b) result }
{
    let q = put_triangle(out, at, no_area(a.left, a.right, b.right), v, v + 1, v + 3);
    put_triangle(out, q, no_area(a.left, b.right, b.left), v, v + 3, v + 2)
}

#[tactic(auto, unfolding(crate::specs::Strip::triangle_of))]
fn count_triangle(flat: bool) -> usize
    ensures { ((a b c : ℕ) → result ≡ length (triangle_of flat a b c)) × (result ≤ 3) }
{
    if flat { 0 } else { 3 }
}

#[tactic(auto, using(crate::proofs::Strips::segment_length))]
fn count_segment(a: Rib, b: Rib) -> usize
    ensures { ((v : ℕ) → result ≡ length (segment_of v a b)) × (result ≤ 6) }
{
    let first = count_triangle(no_area(a.left, a.right, b.right));
    first + count_triangle(no_area(a.left, b.right, b.left))
}

// How many indices a strip has, wherever its vertices start.
fn count_indices(course: Course) -> usize
    requires { length course.ks.now ≤ max_lane_points }
    ensures by_index { (v : ℕ) → result ≡ length (indices_of v (lane_of course.entry.lane) course.entry.ks.now) }
    ensures upper_bound { result ≤ 24576 }
{
    let mut q: usize = 0;
    let mut w = course.walk_at(0, no_leg());
    for i in 1..course.ks.len() {
        let next = course.walk_at(i, w.out);
        q += count_segment(w.rib, next.rib);
        w = next;
    }
    q
}

// Where the next lane goes: in vertices and in normals, in indices, in spans.
#[derive(Clone, Copy)]
pub(crate) struct At {
    pub floats: usize,
    pub index: usize,
    pub word: usize,
}

impl At {
    pub const START: At = At {
        floats: 0,
        index: 0,
        word: 0,
    };
}

// The lists of a mesh up to there: there are as many normals as vertices.
impl From<At> for Lengths {
    ghost from_gives = { λ at made. made ≡ lengths_at at };

    fn from(at: At) -> Self {
        Lengths {
            vertices: at.floats,
            normals: at.floats,
            indices: at.index,
            spans: at.word,
        }
    }
}

// The strip over the kept points, of which there are some, from `at` on. Each rib serves the segment
// before it and the segment after it.
fn put_ribs(
    course: Course,
    vertices: &mut [f32],
    normals: &mut [f32],
    indices: &mut [u32],
    at: At,
) -> At
    requires room { let n = length course.ks.now in
        (0 < n) × (at.floats + 6 * n ≤ length vertices.old) × (at.floats + 6 * n ≤ length normals.old)
        × (at.floats / 3 + 2 * n < 4294967290) }
    requires ks_in_bounds { at.index + length (indices_of (at.floats / 3) (lane_of course.lane) course.ks.now) ≤ length indices.old }
    ensures { let l = lane_of course.entry.lane in
        let k = course.entry.ks.now in
        (Put vertices.old vertices.new at.floats (vertices_of l k) result.floats)
        × (Put normals.old normals.new at.floats (normals_of l k) result.floats)
        × (Put indices.old indices.new at.index (indices_of (at.floats / 3) l k) result.index) }
{
    let v = at.floats / 3;
    let mut w = course.walk_at(0, no_leg());
    let mut q = at.floats;
    let mut j = at.index;
    for i in 1..course.ks.len() {
        let next = course.walk_at(i, w.out);
        q = put_rib(vertices, normals, q, w.rib);
        j = put_segment(indices, j, v + 2 * (i - 1), w.rib, next.rib);
        w = next;
    }
    At {
        floats: put_rib(vertices, normals, q, w.rib),
        index: j,
        word: at.word,
    }
}

#[tactic(auto, unfolding(crate::specs::SurfaceMesh::span_of))]
fn span_size(n: usize) -> usize
    ensures { ((id v w i j : ℕ) → result ≡ length (span_of n id v w i j)) × (result ≤ span_words) }
{
    if n == 0 { 0 } else { SPAN_WORDS }
}

fn put_span(out: &mut [u32], at: usize, id: usize, v: usize, w: usize, i: usize, j: usize) -> usize
    requires { (at + span_words ≤ length out.old) × (id < 2 ^ 32) × (v < 2 ^ 32) × (w < 2 ^ 32) × (i < 2 ^ 32) × (j < 2 ^ 32) }
    ensures { Put out.old out.new at (id ∷ v ∷ w ∷ i ∷ j ∷ []) result }
{
    put(out, at, [id as u32, v as u32, w as u32, i as u32, j as u32])
}

// The sizes with one more lane. `kept` is room to work in.
pub(crate) fn size_strip(lane: Lane, kept: &mut [u32; MAX_LANE_POINTS], at: At) -> At
    requires { (length lane.points.now / 3 ≤ max_lane_points) × (at.floats < 2 ^ 60) × (at.index < 2 ^ 60) × (at.word < 2 ^ 60) }
    ensures { Grown (lane_of lane.entry) at result }
{
    let course = weld(lane, kept);
    let n = course.ks.len();
    At {
        floats: at.floats + 6 * n,
        index: at.index + count_indices(course),
        word: at.word + span_size(n),
    }
}

// A lane's strip into the memory, from `at` on. `kept` is room to work in.
pub(crate) fn put_strip(
    lane: Lane,
    id: usize,
    kept: &mut [u32; MAX_LANE_POINTS],
    at: At,
    vertices: &mut [f32],
    normals: &mut [f32],
    indices: &mut [u32],
    spans: &mut [u32],
) -> At
    requires points_len_bound { (length lane.points.now / 3 ≤ max_lane_points) × (id < 2 ^ 32) }
    requires room { Room (lane_of lane) at vertices.old normals.old indices.old spans.old }
    ensures { let l = lane_of lane.entry in
        Wrote l id at result
        vertices.old vertices.new normals.old normals.new
        indices.old indices.new spans.old spans.new }
{
    let course = weld(lane, kept);
    if course.ks.is_empty() {
        return at;
    }
    let to = put_ribs(course, vertices, normals, indices, at);
    let word = put_span(
        spans,
        at.word,
        id,
        at.floats / 3,
        to.floats / 3,
        at.index,
        to.index,
    );
    At {
        floats: to.floats,
        index: to.index,
        word,
    }
}
