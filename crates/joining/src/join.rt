// Two meshes as one: the lists of the first part, then those of the second with its numbers moved up.
#![tactic(auto, unfolding(shape::specs::Refusal::found, shape::specs::Refusal::refuse, shape::specs::Refusal::number_of, shape::specs::Refusal::place_of, shape::specs::Refusal::or_else, shape::specs::Lists::uneven, crate::specs::Join::part_ragged, crate::specs::Join::odd_normals, crate::specs::Join::loose, crate::specs::Join::first_loose, crate::specs::Join::loose_fault, crate::specs::Join::parts_fault, crate::specs::Join::input_fault))]

ghost use Rattle.std.specs.Prelude.{MatchResult, ◌≡◌, ℕ, ◌+◌, ◌*◌, ◌/◌, ◌^◌, ◌<◌, ◌≤◌, ◌++◌, length, slice_index};
ghost use Rattle.shape.specs.Gather.{IsFirst};
ghost use Rattle.shape.specs.Memory.{Put};
ghost use Rattle.shape.specs.Refusal.{found, told, fine};
ghost use Rattle.shape.specs.Lists.{span_words, lists_of, mesh_lists};
ghost use Rattle.shape.specs.MeshMemory.{lengths_of, leaves_mesh};
ghost use Rattle.joining.specs.Join.{indices_up, span_up, spans_up, join_of, part_ragged, odd_normals, loose, loose_fault, parts_fault, input_fault, join_answer};
ghost use Rattle.joining.specs.JoinSteps.{Movable, SpanMovable};

use shape::lists::{Mesh, SPAN_WORDS};
use shape::memory::{Lengths, copy, room_fault};
use shape::mesh::MeshCounts;
use shape::refusal::{Refusal, refuse_if};

// ---- why two parts are turned back

// Which list of a part is ragged, if any is, where its lists stand in the call from `first` on. Its indices must
// come in threes, which no other call asks.
fn ragged(part: Mesh, first: u32) -> Result<(), Refusal>
    ensures { found result ≡ part_ragged first (lists_of part.entry) }
{
    let coordinates = part.vertices.len() % 3 == 0 && part.normals.len() % 3 == 0;
    refuse_if(
        coordinates && part.indices.len() % 3 != 0,
        Refusal::Ragged(first as usize + 2),
    )?;
    part.ragged(first)
}

// Do its normals and vertices differ in count?
fn odd_normals(part: Mesh) -> bool
    ensures { result ≡ odd_normals (lists_of part.entry) }
{
    part.normals.len() / 3 != part.points()
}

// A number that none is above: the greatest, or 0 of none. There is no early exit, so that several are looked at at
// a time.
fn greatest(xs: &[u32]) -> u32
    ensures { (k : ℕ) → k < length xs.now → slice_index xs.now k ≤ result }
{
    let mut most: u32 = 0;
    for x in xs {
        most = most.max(*x);
    }
    most
}

// The first index of a part that is past its vertices.
#[tactic(auto, using(shape::proofs::Laws::Gather::any_next, shape::proofs::Laws::Gather::least_found, shape::proofs::Laws::Gather::least_past), unfolding(shape::specs::Gather::any, crate::specs::Join::loose))]
fn search_loose(part: Mesh) -> Option<usize>
    ensures { let m = lists_of part.entry in IsFirst (loose m) (length m.indices) result }
{
    let n = part.points();
    for k in 0..part.indices.len() {
        if n <= part.indices[k] as usize {
            return Some(k);
        }
    }
    None
}

// The same. In most parts there is none, which takes no search to see.
fn first_loose(part: Mesh) -> Option<usize>
    ensures { let m = lists_of part.entry in IsFirst (loose m) (length m.indices) result }
{
    if (greatest(part.indices) as usize) < part.points() {
        return None;
    }
    search_loose(part)
}

// Is there one, where `before` indices stand before the part's?
fn loose_corner(part: Mesh, before: usize) -> Result<(), Refusal>
    requires { before < 2 ^ 60 }
    ensures { found result ≡ loose_fault before (lists_of part.entry) }
{
    match first_loose(part) {
        Some(k) => Err(Refusal::LooseCorner(before + k)),
        None => Ok(()),
    }
}

// What the two parts have at fault behind their limits.
fn parts_fault(first: Mesh, second: Mesh) -> Result<(), Refusal>
    requires { length first.indices.now ≤ 196608 }
    ensures { found result ≡ parts_fault (lists_of first.entry) (lists_of second.entry) }
{
    ragged(first, 0)?;
    ragged(second, 4)?;
    refuse_if(odd_normals(first), Refusal::OddNormals(0))?;
    refuse_if(odd_normals(second), Refusal::OddNormals(1))?;
    loose_corner(first, 0)?;
    loose_corner(second, first.indices.len())
}

// ---- two parts that are joined

// Two parts whose lists are not turned back.
#[derive(Clone, Copy)]
struct Parts<'a> {
    first: Mesh<'a>,
    second: Mesh<'a>,
    ghost sound: { input_fault (lists_of first) (lists_of second) ≡ fine },
}

// Two parts as ones that are checked, or why they are turned back.
fn check<'a>(first: Mesh<'a>, second: Mesh<'a>) -> Result<Parts<'a>, Refusal>
    ensures { MatchResult result (λ p. (p.first ≡ first.entry) × (p.second ≡ second.entry)) (λ r. found (Err r) ≡ input_fault (lists_of first.entry) (lists_of second.entry)) }
{
    first.limits()?;
    second.limits()?;
    parts_fault(first, second)?;
    Ok(Parts { first, second })
}

// One list after another, to the front of the memory.
fn put_both<T: Copy>(out: &mut [T], xs: &[T], ys: &[T])
    requires { length xs.now + length ys.now ≤ length out.old }
    ensures { Put out.old out.new 0 (xs.now ++ ys.now) (length xs.now + length ys.now) }
{
    let from = xs.len();
    let to = from + ys.len();
    copy(xs, &mut out[..from]);
    copy(ys, &mut out[from..to]);
}

// Numbers moved up, to the memory from `at` on.
fn put_moved(out: &mut [u32], at: usize, xs: &[u32], up: u32)
    requires room { at + length xs.now ≤ length out.old }
    requires fits { Movable up xs.now }
    ensures { Put out.old out.new at (indices_up up xs.now) (at + length xs.now) }
{
    for k in 0..xs.len() {
        out[at + k] = up + xs[k];
    }
}

// Spans whose runs of vertices are moved up by v and whose runs of indices by i, to the memory from `at` on.
fn put_spans(out: &mut [u32], at: usize, spans: &[u32], v: u32, i: u32)
    requires room { at + length spans.now ≤ length out.old }
    requires fits { (k : ℕ) → k < length spans.now / span_words → SpanMovable v i spans.now k }
    ensures { Put out.old out.new at (spans_up v i spans.now) (at + span_words * (length spans.now / span_words)) }
{
    for k in 0..spans.len() / SPAN_WORDS {
        let from = SPAN_WORDS * k;
        let span = [
            spans[from],
            v + spans[from + 1],
            v + spans[from + 2],
            i + spans[from + 3],
            i + spans[from + 4],
        ];
        let to = at + from;
        out[to..to + SPAN_WORDS].copy_from_slice(&span);
    }
}

impl Parts<'_> {
    // How long the lists of their whole are.
    fn lengths(self) -> Lengths
        ensures { result ≡ lengths_of (join_of (lists_of self.entry.first) (lists_of self.entry.second)) }
    {
        Lengths {
            vertices: self.first.vertices.len() + self.second.vertices.len(),
            normals: self.first.normals.len() + self.second.normals.len(),
            indices: self.first.indices.len() + self.second.indices.len(),
            spans: self.first.spans.len() + self.second.spans.len(),
        }
    }

    // Their indices into the memory.
    fn put_indices(self, out: &mut [u32])
        requires { length self.first.indices.now + length self.second.indices.now ≤ length out.old }
        ensures { let w = join_of (lists_of self.entry.first) (lists_of self.entry.second) in Put out.old out.new 0 w.indices (length w.indices) }
    {
        let from = self.first.indices.len();
        copy(self.first.indices, &mut out[..from]);
        put_moved(out, from, self.second.indices, self.first.points() as u32);
    }

    // Their spans into the memory.
    fn put_spans(self, out: &mut [u32])
        requires { length self.first.spans.now + length self.second.spans.now ≤ length out.old }
        ensures { let w = join_of (lists_of self.entry.first) (lists_of self.entry.second) in Put out.old out.new 0 w.spans (length w.spans) }
    {
        let from = self.first.spans.len();
        copy(self.first.spans, &mut out[..from]);
        let v = self.first.points() as u32;
        let i = self.first.indices.len() as u32;
        put_spans(out, from, self.second.spans, v, i);
    }
}

// ---- the call

// The two parts as one mesh, into the lent memory: vertices, normals, indices and spans of the first part, then
// those of the second, whose indices and runs of vertices move up by the first part's vertices, and whose runs of
// indices by its indices. Lanes keep their ids.
pub fn join(
    first: Mesh,
    second: Mesh,
    vertices: &mut [f32],
    normals: &mut [f32],
    indices: &mut [u32],
    spans: &mut [u32],
) -> Result<MeshCounts, Refusal>
    ensures result_value { let a = lists_of first.entry in
        let b = lists_of second.entry in
        let before = mesh_lists vertices.old normals.old indices.old spans.old in
        told result ≡ join_answer a b before }
    ensures mesh_after { let a = lists_of first.entry in
        let b = lists_of second.entry in
        let before = mesh_lists vertices.old normals.old indices.old spans.old in
        let after = mesh_lists vertices.new normals.new indices.new spans.new in
        after ≡ leaves_mesh (join_answer a b before) (join_of a b) before }
{
    let lent = Lengths {
        vertices: vertices.len(),
        normals: normals.len(),
        indices: indices.len(),
        spans: spans.len(),
    };
    let parts = check(first, second)?;
    let made = parts.lengths();
    room_fault(made, lent)?;
    put_both(vertices, parts.first.vertices, parts.second.vertices);
    put_both(normals, parts.first.normals, parts.second.normals);
    parts.put_indices(indices);
    parts.put_spans(spans);
    Ok(MeshCounts::from(made))
}
