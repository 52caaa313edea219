// The outline of a junction: its boundary segments joined to one ring of points.
ghost use Rattle.std.specs.Prelude.{None, is_none, unwrap_or, nat_eq, IsTrue, MatchOption, MatchResult, ◌≡◌, ℕ, ◌+◌, ◌-◌, ◌*◌, ◌/◌, ◌^◌, ◌<◌, ◌≤◌, true, false, List, length, Float};
ghost use Rattle.std.specs.Float.Ieee.{lt, le};
ghost use Rattle.rounding.specs.Extremes.{max_of};
ghost use Rattle.rounding.specs.Hypot.{hypot_of};
ghost use Rattle.rounding.specs.Numbers.{nought};
ghost use Rattle.rounding.specs.Thresholds.{milli};
ghost use Rattle.vector.specs.Single.{0f};
ghost use Rattle.vector.specs.declared.coords.Point.{Point};
ghost use Rattle.std.proofs.lemmas.List.Edits.{sets};
ghost use Rattle.shape.specs.Lists.{max_boundary_points, last_end};
ghost use Rattle.shape.specs.Refusal.{found, fine};
ghost use Rattle.shape.specs.Outline.{
  reach_of,
  nearness_of,
  place_from,
  point_from,
  first_of,
  final_of,
  solid,
  solids,
  segment_at,
  origin,
  is_new,
  added,
  extended,
  whole_line,
  dropped_of,
  turns_first,
  turns_later,
  turns_at,
  gap_at,
  closed_up,
  side_at,
  area_of,
  reversed,
  flat,
  outline_limits,
  outline_ragged,
  outline_fault,
  Outlines,
};
ghost use Rattle.shape.specs.OutlineSteps.{squares_between, rooted_of, Wide, Squares, Skips, Adds, Holds, points_of, tip_of};

use crate::lists::{MAX_BOUNDARY_POINTS, MAX_SEGMENTS, Records, index_after, point_at};
use crate::memory::put;
use crate::refusal::{Refusal, refuse_if};
use rounding::compare::{hypot_above_milli, hypot_at_most_milli};
use rounding::extremes::{max, min};
use rounding::hypot::{hypot, squares};
use rounding::root::sqrt64;
use rounding::width::narrow;
use vector::coords::Point;

// A boundary as it is lent: its segments, each the start and the end of a run of the points, and the
// points' coordinates in threes.
#[derive(Clone, Copy)]
pub struct Boundary<'a> {
    pub segments: &'a [u32],
    pub points: &'a [f32],
}

// A boundary whose lists are not turned back.
#[derive(Clone, Copy)]
struct Checked<'a> {
    segments: Records<'a, 2>,
    points: &'a [f32],
    ghost sound: { outline_fault segments.words.now points.now ≡ fine },
}

// A ring that was made: how many points it has, how many segments were empty, the greatest gap, whether
// that is at most 0.1, and whether the ring ran clockwise and was reversed.
#[derive(Clone, Copy)]
pub struct Outline {
    pub count: usize,
    pub dropped: usize,
    pub gap: f32,
    pub closed: bool,
    pub turned: bool,
}

// The ring so far: how many points it has, and the last of them if it has any.
#[derive(Clone, Copy)]
struct RingSoFar {
    count: usize,
    last: Option<Point>,
}

// The greatest gap so far, and a sum of squares whose root it is not below.
#[derive(Clone, Copy)]
struct Gap {
    root: f32,
    squares: f64,
    ghost least: { IsTrue (le nought squares) },
    ghost under: { IsTrue (le (rooted_of squares) root) },
}

// The ring so far, with how many segments it is made of and the greatest gap between them.
#[derive(Clone, Copy)]
struct Joined {
    ring: RingSoFar,
    segments: usize,
    gap: Gap,
    ghost begun: { is_none ring.last ≡ nat_eq segments 0 },
}

// The ring of no segments.
fn nothing_joined() -> Joined
    ensures { (result.ring ≡ record { count = 0; last = None }) × (result.segments ≡ 0) × (result.gap.root ≡ 0f) }
{
    Joined {
        ring: RingSoFar {
            count: 0,
            last: None,
        },
        segments: 0,
        gap: Gap {
            root: 0.0,
            squares: 0.0,
        },
    }
}

// How a segment is joined on: from its end or not, and the greatest gap with it.
#[derive(Clone, Copy)]
struct Turn {
    back: bool,
    gap: Gap,
}

// ---- distances in x and y

#[tactic(auto, unfolding(crate::specs::Outline::reach_of))]
fn reach(p: Point, q: Point) -> f32
    ensures { result ≡ reach_of p q }
{
    hypot(p.x - q.x, p.y - q.y)
}

// Is a difference at least 0.002, up or down?
fn is_wide(x: f32) -> bool
    ensures { result ≡ true → Wide x }
{
    x >= 0.002 || x <= -0.002
}

// One difference alone says that most points lie more than 1e-3 apart; a NaN beside it says no.
fn clearly_apart(x: f32, y: f32) -> bool
    ensures { result ≡ true → lt milli (hypot_of x y) ≡ true }
{
    if is_wide(x) {
        return y == y;
    }
    if is_wide(y) {
        return x == x;
    }
    false
}

// Is the distance above 1e-3? No root is taken for it, nor for the next.
#[tactic(auto, unfolding(crate::specs::Outline::reach_of))]
fn apart(p: Point, q: Point) -> bool
    ensures { result ≡ lt milli (reach_of p q) }
{
    let x = p.x - q.x;
    let y = p.y - q.y;
    clearly_apart(x, y) || hypot_above_milli(x, y)
}

// Is it at most 1e-3?
#[tactic(auto, unfolding(crate::specs::Outline::reach_of))]
fn meets(p: Point, q: Point) -> bool
    ensures { result ≡ le (reach_of p q) milli }
{
    hypot_at_most_milli(p.x - q.x, p.y - q.y)
}

// The sum of squares whose root is the distance.
#[tactic(auto, using(crate::proofs::Reaching::rooted_between, crate::proofs::Reaching::squares_least), unfolding(crate::specs::OutlineSteps::squares_between))]
fn squares_between(p: Point, q: Point) -> f64
    ensures value { result ≡ squares_between p q }
    ensures rooted { rooted_of result ≡ reach_of p q }
    ensures least { Squares result }
{
    squares(p.x - q.x, p.y - q.y)
}

#[tactic(auto, unfolding(crate::specs::OutlineSteps::rooted_of))]
fn root(s: f64) -> f32
    ensures { result ≡ rooted_of s }
{
    narrow(sqrt64(s))
}

// Is the root of a strictly below that of b? No root is taken where the squares already say no.
fn nearer(a: f64, b: f64) -> bool
    requires { Squares b }
    ensures { result ≡ lt (rooted_of a) (rooted_of b) }
{
    if b <= a {
        return false;
    }
    root(a) < root(b)
}

#[tactic(auto, using(crate::proofs::Reaching::covers_least, crate::proofs::Reaching::covers_under, crate::proofs::Reaching::covers_same))]
impl Gap {
    // With the root of s as one more. No root is taken where s is not above the squares.
    fn widened(self, s: f64) -> Gap
        requires { Squares s }
        ensures { result.root ≡ max_of self.root (rooted_of s) }
    {
        if s > self.squares {
            return Gap {
                root: max(self.root, root(s)),
                squares: s,
            };
        }
        self
    }
}

// The distance to the nearer of two places.
#[tactic(auto, unfolding(crate::specs::Outline::nearness_of))]
fn nearness(p: Point, a: Point, b: Point) -> f32
    ensures { result ≡ nearness_of p a b }
{
    min(min(f32::MAX, reach(p, a)), reach(p, b))
}

// ---- which way round

// Place i of n from the front, or from the back.
#[tactic(auto, unfolding(crate::specs::Outline::place_from))]
fn place(back: bool, n: usize, i: usize) -> usize
    requires { i < n }
    ensures { (result ≡ place_from back n i) × (result < n) }
{
    if back { n - (i + 1) } else { i }
}

fn first_point(s: &[f32]) -> Point
    ensures { result ≡ first_of s.now }
{
    point_at(s, 0)
}

fn final_point(s: &[f32]) -> Point
    ensures { result ≡ final_of s.now }
{
    point_at(s, (s.len() / 3).saturating_sub(1))
}

// Is the first segment s reversed, where t is the second?
#[tactic(auto, unfolding(crate::specs::Outline::turns_first))]
fn turns_first(s: &[f32], t: &[f32]) -> bool
    ensures { result ≡ turns_first s.now t.now }
{
    let a = first_point(t);
    let b = final_point(t);
    let start = nearness(first_point(s), a, b);
    let end = nearness(final_point(s), a, b);
    start < end
}

// A later segment s, where the ring ends at `end`. The gap to it is one of the two distances compared.
fn turn_later(end: Point, gap: Gap, s: &[f32]) -> Turn
    ensures { let back = turns_later end s.now in
        (result.back ≡ back)
        × (result.gap.root ≡ max_of gap.root (reach_of end (point_from back s.now 0))) }
{
    let far = squares_between(end, final_point(s));
    let near = squares_between(end, first_point(s));
    if nearer(far, near) {
        return Turn {
            back: true,
            gap: gap.widened(far),
        };
    }
    Turn {
        back: false,
        gap: gap.widened(near),
    }
}

// ---- the segments

impl<'a> Checked<'a> {
    // Segment k, unless it is empty.
    #[tactic(auto, using(crate::proofs::Joining::sound_lists, crate::proofs::Joining::last_end_within))]
    fn segment(self, k: usize) -> Option<&'a [f32]>
        requires { k < length self.segments.words.now / 2 }
        ensures given { MatchOption result (Skips self.entry.segments.words.now k) (λ s. Adds self.entry.segments.words.now self.entry.points.now k s.now) }
        ensures ends { last_end 2 0 self.entry.segments.words.now (k + 1) ≤ length self.entry.points.now / 3 }
    {
        let a = self.segments.whole_word(k, 0);
        let e = self.segments.whole_word(k, 1);
        if e <= a {
            return None;
        }
        Some(&self.points[3 * a..3 * e])
    }

    // The first segment from k on that is not empty, if there is one.
    fn next_solid(self, k: usize) -> Option<&'a [f32]>
        requires { k ≤ length self.segments.words.now / 2 }
        ensures { let ws = self.entry.segments.words.now in
            let i = length (solid ws k) in
            MatchOption result (solids ws ≡ i) (λ s. (i < solids ws) × (s.now ≡ segment_at ws self.entry.points.now i)) }
    {
        for i in k..self.segments.len() {
            if let Some(s) = self.segment(i) {
                return Some(s);
            }
        }
        None
    }

    // Is the first segment that is not empty, s with the number k, reversed? With no second it is not.
    #[tactic(auto, using(crate::proofs::Joining::turn_alone, crate::proofs::Joining::turn_followed))]
    fn first_turns(self, s: &[f32], k: usize) -> bool
        requires { let ws = self.segments.words.now in
            (k < length ws / 2) × (length (solid ws (k + 1)) ≡ 1) × (s.now ≡ segment_at ws self.points.now 0) }
        ensures { (end : Point) → result ≡ turns_at self.entry.segments.words.now self.entry.points.now 0 end }
    {
        match self.next_solid(k + 1) {
            Some(t) => turns_first(s, t),
            None => false,
        }
    }

    // How segment s, with the number k and not empty, is joined to the ring that j tells of.
    fn turn_at(self, s: &[f32], j: Joined, k: usize) -> Turn
        requires { let ws = self.segments.words.now in
            (k < length ws / 2) × (length (solid ws (k + 1)) ≡ j.segments + 1) × (s.now ≡ segment_at ws self.points.now j.segments) }
        ensures { let ws = self.entry.segments.words.now in
            let xs = self.entry.points.now in
            let end = unwrap_or j.ring.last origin in
            (result.back ≡ turns_at ws xs j.segments end) × (result.gap.root ≡ gap_at ws xs j.segments end j.gap.root) }
    {
        match j.ring.last {
            Some(end) => turn_later(end, j.gap, s),
            None => Turn {
                back: self.first_turns(s, k),
                gap: j.gap,
            },
        }
    }
}

// ---- joining

// Is a point the first of all, or more than 1e-3 from the last?
#[tactic(auto, using(crate::proofs::Joining::first_new, crate::proofs::Joining::later_new))]
fn is_new(last: Option<Point>, p: Point) -> bool
    ensures { (ring : List Point) → last ≡ tip_of ring → result ≡ is_new ring p }
{
    match last {
        Some(q) => apart(p, q),
        None => true,
    }
}

// A point, if it is new.
fn add_point(line: &mut [f32], h: RingSoFar, p: Point) -> RingSoFar
    requires { 3 * h.count + 3 ≤ length line.old }
    ensures holds { (blank : List Float) (ring : List Point) → Holds blank line.old ring h → Holds blank line.new (added ring p) result }
    ensures count { result.count ≤ h.count + 1 }
    ensures some { is_none result.last ≡ false }
{
    if is_new(h.last, p) {
        put(line, 3 * h.count, [p.x, p.y, p.z]);
        return RingSoFar {
            count: h.count + 1,
            last: Some(p),
        };
    }
    h
}

// The points of a segment, of which there are some, from its start or its end.
fn append(s: &[f32], back: bool, line: &mut [f32], from: RingSoFar) -> RingSoFar
    requires { (3 * (from.count + length s.now / 3) ≤ length line.old) × (3 ≤ length s.now) × (length s.now ≤ 3 * max_boundary_points) }
    ensures holds { let xs = s.now in
        (blank : List Float) (ring : List Point) →
        Holds blank line.old ring from →
        Holds blank line.new (extended ring back xs (length xs / 3)) result }
    ensures count { result.count ≤ from.count + length s.now / 3 }
    ensures some { is_none result.last ≡ false }
{
    let n = s.len() / 3;
    let mut h = from;
    for i in 0..n {
        let p = point_at(s, place(back, n, i));
        h = add_point(line, h, p);
    }
    h
}

impl Checked<'_> {
    ghost use Rattle.shape.specs.OutlineJoins.{Joins};

    // The ring with segment k joined on, unless the segment is empty.
    fn join_step(self, line: &mut [f32], j: Joined, k: usize) -> Joined
        requires { let ws = self.segments.words.now in
            (k < length ws / 2) × (length self.points.now ≤ length line.old) × (j.ring.count ≤ last_end 2 0 ws k)
            × (j.segments ≡ length (solid ws k)) }
        ensures { let ws = self.entry.segments.words.now in
            let xs = self.entry.points.now in
            ((blank : List Float) →
            Joins ws xs blank line.old k j →
            Joins ws xs blank line.new (k + 1) result)
            × (result.ring.count ≤ last_end 2 0 ws (k + 1)) }
    {
        let Some(s) = self.segment(k) else {
            return j;
        };
        let t = self.turn_at(s, j, k);
        Joined {
            ring: append(s, t.back, line, j.ring),
            segments: j.segments + 1,
            gap: t.gap,
        }
    }

    // All segments, one after another.
    fn join(self, line: &mut [f32]) -> Joined
        requires { length self.points.now ≤ length line.old }
        ensures { let ws = self.entry.segments.words.now in
            let xs = self.entry.points.now in
            Joins ws xs line.old line.new (length ws / 2) result × (3 * result.ring.count ≤ length xs) }
    {
        let mut j = nothing_joined();
        for k in 0..self.segments.len() {
            j = self.join_step(line, j, k);
        }
        j
    }
}

// ---- the ring as a whole

// How many points the ring has without its closing point.
#[tactic(auto, using(crate::proofs::Joining::one_less, crate::proofs::Joining::all_far, crate::proofs::Joining::all_few))]
fn open_count(ring: &[f32]) -> usize
    requires { length ring.now < 2 ^ 60 }
    ensures { (result ≡ length (closed_up (points_of ring.now))) × (result ≤ length ring.now / 3) }
{
    let n = ring.len() / 3;
    if 1 < n && meets(first_point(ring), final_point(ring)) {
        return n - 1;
    }
    n
}

// Side i of a ring of n: from point i to the next.
fn side_at(ring: &[f32], n: usize, i: usize) -> f32
    requires { (i < 2 ^ 60) × (n ≡ length ring.now / 3) }
    ensures { result ≡ side_at (points_of ring.now) i }
{
    let a = point_at(ring, i);
    let b = point_at(ring, index_after(i, n));
    a.x * b.y - b.x * a.y
}

// Twice the area that a ring encloses: above 0 where it runs counter-clockwise.
fn signed_area(ring: &[f32]) -> f32
    requires { length ring.now < 2 ^ 60 }
    ensures { result ≡ area_of (points_of ring.now) }
{
    let n = ring.len() / 3;
    let mut area = side_at(ring, n, 0);
    for i in 1..n {
        area += side_at(ring, n, i);
    }
    area
}

// The points of a ring, from the front or from the back.
fn put_ring(ring: &[f32], back: bool, out: &mut [f32])
    requires { length ring.now ≤ length out.old }
    ensures { out.new ≡ sets out.old 0 (flat (reversed back (points_of ring.now))) }
{
    let n = ring.len() / 3;
    for i in 0..n {
        let p = point_at(ring, place(back, n, i));
        put(out, 3 * i, [p.x, p.y, p.z]);
    }
}

// The answer for a ring that was joined with the greatest gap given.
fn finish(ring: &[f32], gap: f32, dropped: usize, out: &mut [f32]) -> Result<Outline, Refusal>
    requires { length ring.now < 2 ^ 60 }
    ensures { (ws : List ℕ) (xs : List Float) →
        outline_fault ws xs ≡ fine →
        points_of ring.now ≡ (whole_line ws xs).ring →
        gap ≡ (whole_line ws xs).gap →
        dropped ≡ dropped_of ws →
        Outlines ws xs out.old out.new result }
{
    let count = open_count(ring);
    let size = 3 * count;
    refuse_if(out.len() < size, Refusal::ShortOutput(size))?;
    let open = &ring[..size];
    let widest = max(gap, reach(final_point(ring), first_point(ring)));
    let turned = signed_area(open) < 0.0;
    put_ring(open, turned, out);
    Ok(Outline {
        count,
        dropped,
        gap: widest,
        closed: widest <= 0.1,
        turned,
    })
}

// ---- the call

#[tactic(auto, unfolding(crate::specs::Refusal::found, crate::specs::Refusal::refuse, crate::specs::Refusal::number_of, crate::specs::Refusal::place_of, crate::specs::Refusal::or_else, crate::specs::Lists::longer, crate::specs::Lists::uneven, crate::specs::Outline::outline_limits, crate::specs::Outline::outline_ragged, crate::specs::Outline::outline_fault))]
impl<'a> Boundary<'a> {
    // The segments, of two words each.
    fn records(self) -> Records<'a, 2>
        ensures { result.words.now ≡ self.entry.segments.now }
    {
        Records {
            words: self.segments,
        }
    }

    // Which list is past its limit, if any is.
    fn limits(self) -> Result<(), Refusal>
        ensures { found result ≡ outline_limits self.entry.segments.now self.entry.points.now }
    {
        refuse_if(
            2 * MAX_SEGMENTS < self.segments.len(),
            Refusal::Oversize(MAX_SEGMENTS),
        )?;
        refuse_if(
            3 * MAX_BOUNDARY_POINTS < self.points.len(),
            Refusal::Oversize(MAX_BOUNDARY_POINTS),
        )
    }

    // Which list is ragged, if any is.
    fn ragged(self) -> Result<(), Refusal>
        ensures { found result ≡ outline_ragged self.entry.segments.now self.entry.points.now }
    {
        refuse_if(self.segments.len() % 2 != 0, Refusal::Ragged(0))?;
        let bad = self.records().any_bad(0, self.points.len() / 3);
        refuse_if(bad, Refusal::Ragged(0))?;
        refuse_if(self.points.len() % 3 != 0, Refusal::Ragged(1))
    }

    // The boundary as one that is checked, or why its lists are turned back.
    fn check(self) -> Result<Checked<'a>, Refusal>
        ensures { MatchResult result
            (λ c. (c.segments.words.now ≡ self.entry.segments.now) × (c.points.now ≡ self.entry.points.now))
            (λ r. found (Err r) ≡ outline_fault self.entry.segments.now self.entry.points.now) }
    {
        self.limits()?;
        self.ragged()?;
        Ok(Checked {
            segments: self.records(),
            points: self.points,
        })
    }
}

// The outline of a boundary, joined in the memory `line`.
fn ring_in(boundary: Checked, line: &mut [f32], out: &mut [f32]) -> Result<Outline, Refusal>
    requires { length boundary.points.now ≤ length line.old }
    ensures { Outlines boundary.entry.segments.words.now boundary.entry.points.now out.old out.new result }
{
    let j = boundary.join(line);
    let size = 3 * j.ring.count;
    let dropped = boundary.segments.len() - j.segments;
    finish(&line[..size], j.gap.root, dropped, out)
}

// The same in memory for N coordinates.
fn ring_of<const N: usize>(boundary: Checked, out: &mut [f32]) -> Result<Outline, Refusal>
    requires { (length boundary.points.now ≤ N) × (N ≤ 3 * max_boundary_points) }
    ensures { Outlines boundary.entry.segments.words.now boundary.entry.points.now out.old out.new result }
{
    let mut line = [0.0f32; N];
    ring_in(boundary, &mut line, out)
}

// How many coordinates are few: those of 256 points. And as many as may come.
const FEW: usize = 768;

const MANY: usize = 3 * MAX_BOUNDARY_POINTS;

// The ring of a boundary. Its coordinates are left at the front of `out`. To clear memory for as many points as
// may come takes longer than to join a few points.
#[tactic(auto, unfolding(crate::specs::Refusal::found, crate::specs::Refusal::refuse, crate::specs::Refusal::or_else, crate::specs::Lists::longer, crate::specs::Outline::outline_limits, crate::specs::Outline::outline_ragged, crate::specs::Outline::outline_fault))]
pub fn ring(boundary: Boundary, out: &mut [f32]) -> Result<Outline, Refusal>
    ensures { Outlines boundary.entry.segments.now boundary.entry.points.now out.old out.new result }
{
    let checked = boundary.check()?;
    if checked.points.len() <= FEW {
        return ring_of::<FEW>(checked, out);
    }
    ring_of::<MANY>(checked, out)
}
