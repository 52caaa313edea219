// The triangles of a ring in plan, by clipping its ears.
#![tactic(auto, using(crate::proofs::Laws::Gather::any_next, crate::proofs::Laws::Gather::any_none, crate::proofs::Laws::Gather::any_some, crate::proofs::Laws::Gather::least_at, crate::proofs::Laws::Gather::least_none, crate::proofs::Laws::Ears::before_first, crate::proofs::Laws::Ears::before_rest), unfolding(crate::specs::Refusal::found, crate::specs::Refusal::told, crate::specs::Refusal::refuse, crate::specs::Refusal::judge, crate::specs::Refusal::number_of, crate::specs::Refusal::place_of, crate::specs::Refusal::leaves, crate::specs::Gather::any, crate::specs::Lists::longer, crate::specs::Lists::uneven, crate::specs::Ears::cross, crate::specs::Ears::inside, crate::specs::Ears::turns_left, crate::specs::Ears::blocks, crate::specs::Ears::ear_of, crate::specs::Ears::is_ear, crate::specs::Ears::first_ear, crate::specs::Ears::ear_at, crate::specs::Ears::last_ear, crate::specs::Ears::up_to, crate::specs::Ears::ears_of, crate::specs::Ears::ring_fault, crate::specs::Ears::ears_answer))]

ghost use Rattle.std.specs.Prelude.{◌≡◌, ◌+◌, ◌-◌, ◌*◌, ◌/◌, ◌<◌, ◌≤◌, not, ◌&&◌, [], ◌∷◌, MatchOption, length, take, ◌==◌};
ghost use Rattle.shape.specs.Gather.{any};
ghost use Rattle.shape.specs.Memory.{Put};
ghost use Rattle.shape.specs.Lists.{max_ring, max_vertices, point_at};
ghost use Rattle.shape.specs.Refusal.{told, leaves};
ghost use Rattle.shape.specs.Ears.{before, after, at, cross, turns_left, inside, blocks, blocks_at, ear_of, first_ear, last_ear, without, cut_ears, up_to, ears_of, ears_answer};
ghost use Rattle.shape.specs.EarSteps.{Within, Cut};

use crate::lists::{MAX_RING, index_after, whole_point};
use crate::memory::{copy, put};
use crate::refusal::{Refusal, refuse_if};
use vector::coords::Point;

// Points of a ring, by their numbers in it: those that are left, or the corners of its ears.
#[derive(Clone, Copy)]
pub(crate) struct Picked<'a> {
    pub ring: &'a [f32],
    pub numbers: &'a [u32],
    ghost in_ring: { Within (length ring.now / 3) numbers.now },
}

// Three points of a ring, with the points that are left of it.
#[derive(Clone, Copy)]
struct Triangle<'a> {
    left: Picked<'a>,
    a: u32,
    b: u32,
    c: u32,
    ghost in_ring: { let n = length left.ring.now / 3 in (a < n) × (b < n) × (c < n) },
}

// ---- in plan

// Twice the area of the triangle o, a, b: above zero where it runs counter-clockwise.
fn cross_of(o: Point, a: Point, b: Point) -> f32
    ensures { result ≡ cross o a b }
{
    (a.x - o.x) * (b.y - o.y) - (a.y - o.y) * (b.x - o.x)
}

// Does p lie in the triangle a, b, c, or on its border? The side c a comes first: most points of a
// ring lie beyond the cut that takes an ear off.
fn is_inside(a: Point, b: Point, c: Point, p: Point) -> bool
    ensures { result ≡ inside a b c p }
{
    cross_of(c, a, p) >= 0.0 && cross_of(a, b, p) >= 0.0 && cross_of(b, c, p) >= 0.0
}

// ---- the points left, by their numbers in the ring

// The position before k on a closed ring of n: the last before the first.
fn index_before(k: usize, n: usize) -> usize
    requires { k < n }
    ensures { (result ≡ before n k) × (result < n) }
{
    if k == 0 { n - 1 } else { k - 1 }
}

impl Triangle<'_> {
    // Does it turn left?
    fn turns_left(self) -> bool
        ensures { let t = self.entry in result ≡ turns_left t.left.ring.now t.a t.b t.c }
    {
        let ring = self.left.ring;
        let p = whole_point(ring, self.a as usize);
        let q = whole_point(ring, self.b as usize);
        let r = whole_point(ring, self.c as usize);
        cross_of(p, q, r) > 0.0
    }

    // Is p none of its points?
    fn is_without(self, p: u32) -> bool
        ensures { let t = self.entry in result ≡ (not (p == t.a) && (not (p == t.b) && not (p == t.c))) }
    {
        p != self.a && p != self.b && p != self.c
    }

    // Does point p keep it from being an ear?
    fn is_blocked_by(self, p: u32) -> bool
        requires { p < length self.left.ring.now / 3 }
        ensures { let t = self.entry in result ≡ blocks t.left.ring.now t.a t.b t.c p }
    {
        let ring = self.left.ring;
        is_inside(
            whole_point(ring, self.a as usize),
            whole_point(ring, self.b as usize),
            whole_point(ring, self.c as usize),
            whole_point(ring, p as usize),
        ) && self.is_without(p)
    }

    // Does any point left?
    #[tactic(auto, using(crate::proofs::Laws::Gather::any_next, crate::proofs::Laws::Gather::any_some), unfolding(crate::specs::Gather::any))]
    fn is_blocked(self) -> bool
        ensures { let t = self.entry in
            let left = t.left.numbers.now in
            result ≡ any (blocks_at t.left.ring.now left t.a t.b t.c) (length left) }
    {
        for p in self.left.numbers {
            if self.is_blocked_by(*p) {
                return true;
            }
        }
        false
    }

    // Is it an ear?
    fn is_ear(self) -> bool
        ensures { let t = self.entry in result ≡ ear_of t.left.ring.now t.left.numbers.now t.a t.b t.c }
    {
        self.turns_left() && !self.is_blocked()
    }

    // The numbers of its points, from `at` on.
    fn put(self, ears: &mut [u32], at: usize) -> usize
        requires { at + 3 ≤ length ears.old }
        ensures { let t = self.entry in Put ears.old ears.new at (t.a ∷ t.b ∷ t.c ∷ []) result }
    {
        put(ears, at, [self.a, self.b, self.c])
    }
}

impl<'a> Picked<'a> {
    // The point at a position.
    pub(crate) fn point(self, k: usize) -> Point
        requires { k < length self.numbers.now }
        ensures { result ≡ point_at self.entry.ring.now (at self.entry.numbers.now k) }
    {
        whole_point(self.ring, self.numbers[k] as usize)
    }

    // The points at three positions.
    fn triangle(self, i: usize, j: usize, k: usize) -> Triangle<'a>
        requires { (i < length self.numbers.now) × (j < length self.numbers.now) × (k < length self.numbers.now) }
        ensures { let left = self.entry.numbers.now in
            (result.left ≡ self.entry) × (result.a ≡ at left i) × (result.b ≡ at left j) × (result.c ≡ at left k) }
    {
        Triangle {
            left: self,
            a: self.numbers[i],
            b: self.numbers[j],
            c: self.numbers[k],
        }
    }

    // A point with its neighbours.
    fn corner(self, k: usize) -> Triangle<'a>
        requires { k < length self.numbers.now }
        ensures { let left = self.entry.numbers.now in
            let n = length left in
            (result.left ≡ self.entry) × (result.a ≡ at left (before n k)) × (result.b ≡ at left k)
            × (result.c ≡ at left (after n k)) }
    {
        let n = self.numbers.len();
        self.triangle(index_before(k, n), k, index_after(k, n))
    }

    // The first position with an ear, if there is one.
    #[tactic(auto, using(crate::proofs::Laws::Gather::any_next, crate::proofs::Laws::Gather::least_found, crate::proofs::Laws::Gather::least_past), unfolding(crate::specs::Gather::any, crate::specs::Ears::first_ear, crate::specs::Ears::is_ear))]
    fn first_ear(self) -> Option<usize>
        ensures { let left = self.entry.numbers.now in
            let first = first_ear self.entry.ring.now left in
            MatchOption result (first ≡ length left) (λ k. (k ≡ first) × (k < length left)) }
    {
        for k in 0..self.numbers.len() {
            if self.corner(k).is_ear() {
                return Some(k);
            }
        }
        None
    }

    // The last three points, if they are three and turn left, from `at` on.
    fn put_last(self, ears: &mut [u32], at: usize) -> usize
        requires { at + length self.numbers.now ≤ length ears.old }
        ensures { Put ears.old ears.new at (last_ear self.entry.ring.now self.entry.numbers.now) result }
    {
        if self.numbers.len() == 3 {
            let last = self.triangle(0, 1, 2);
            if last.turns_left() {
                return last.put(ears, at);
            }
        }
        at
    }
}

// ---- clipping

// Each number of a list is its position.
#[tactic(auto, using(crate::proofs::Laws::Memory::put_turn), unfolding(crate::specs::Gather::gather, crate::specs::Ears::up_to))]
pub(crate) fn count_up(numbers: &mut [u32])
    requires { length numbers.old ≤ max_vertices }
    ensures { numbers.new ≡ up_to (length numbers.old) }
{
    for i in 0..numbers.len() {
        numbers[i] = i as u32;
    }
}

// Position k taken out: those behind it move down by one, and the last place is free.
fn remove(left: &mut [u32], k: usize)
    requires { k < length left.old }
    ensures { take (length left.old - 1) left.new ≡ without left.old k }
{
    for i in k..left.len() - 1 {
        left[i] = left[i + 1];
    }
}

// The first ear of the points left is put from `at` on, and its corner taken out.
fn cut_ear(ring: &[f32], left: &mut [u32], ears: &mut [u32], at: usize) -> Option<usize>
    requires room { at + 3 ≤ length ears.old }
    requires in_ring { Within (length ring.now / 3) left.old }
    ensures { let n = length left.old in
        MatchOption result ((first_ear ring.now left.old ≡ n) × (ears.new ≡ ears.old))
        (λ next. (at < next) × Cut ring.now n left.old left.new ears.old ears.new at next) }
{
    let picked = Picked {
        ring,
        numbers: left,
    };
    let k = picked.first_ear()?;
    let next = picked.corner(k).put(ears, at);
    remove(left, k);
    Some(next)
}

// The ears of the points left, at the front of `ears`.
fn cut_all(ring: &[f32], left: &mut [u32], ears: &mut [u32]) -> usize
    requires room { 3 * length left.old ≤ length ears.old }
    requires in_ring { Within (length ring.now / 3) left.old }
    ensures { Put ears.old ears.new 0 (cut_ears ring.now (length left.old - 3) left.old) result }
{
    let mut at = 0;
    for n in (4..left.len() + 1).rev() {
        let Some(next) = cut_ear(ring, &mut left[..n], ears, at) else {
            return at;
        };
        at = next;
    }
    let n = left.len().min(3);
    let last = Picked {
        ring,
        numbers: &left[..n],
    };
    last.put_last(ears, at)
}

// The ears of a ring, three numbers each, at the front of the memory `ears`.
pub(crate) fn clip<'a>(ring: &'a [f32], ears: &'a mut [u32]) -> Picked<'a>
    requires { (length ring.now ≤ 3 * max_ring) × (length ring.now ≤ length ears.old) }
    ensures { (result.ring.now ≡ ring.now) × (result.numbers.now ≡ ears_of ring.now) }
{
    let mut memory = [0u32; MAX_RING];
    let left = &mut memory[..ring.len() / 3];
    count_up(left);
    let n = cut_all(ring, left, ears);
    Picked {
        ring,
        numbers: &ears[..n],
    }
}

// The ears of a ring into `out`, three numbers each, and how many there are.
#[tactic(auto, using(crate::proofs::Laws::Ears::ears_few), unfolding(crate::specs::Refusal::found, crate::specs::Refusal::told, crate::specs::Refusal::refuse, crate::specs::Refusal::judge, crate::specs::Refusal::number_of, crate::specs::Refusal::place_of, crate::specs::Refusal::leaves, crate::specs::Lists::longer, crate::specs::Lists::uneven, crate::specs::Ears::ring_fault, crate::specs::Ears::ears_answer))]
pub fn ear_clip(ring: &[f32], out: &mut [u32]) -> Result<usize, Refusal>
    ensures result_value { told result ≡ ears_answer ring.now (length out.old) }
    ensures out_after { out.new ≡ leaves (ears_answer ring.now (length out.old)) (ears_of ring.now) out.old }
{
    refuse_if(3 * MAX_RING < ring.len(), Refusal::Oversize(MAX_RING))?;
    refuse_if(ring.len() % 3 != 0, Refusal::Ragged(0))?;
    let mut memory = [0u32; 3 * MAX_RING];
    let ears = clip(ring, &mut memory).numbers;
    let wanted = ears.len();
    refuse_if(out.len() < wanted, Refusal::ShortOutput(wanted))?;
    copy(ears, out);
    Ok(wanted / 3)
}
