// Ribs: at each kept point of a lane a left and a right vertex, across the lane, with the normal of both. A
// rib stands square to the tangent that its lane was given, not to the chords: where two lanes meet, both
// have the same tangent there, and so the same rib. At a corner tighter than half the width the inner vertex
// would pass the next inner one and fold the strip, so it is drawn in (pinched), while the outer one keeps
// its distance.
#![tactic(auto, unfolding(crate::specs::Strip::kept_point, crate::specs::Strip::leg_of, crate::specs::Strip::no_leg, crate::specs::Strip::leg_out, crate::specs::Strip::along_of, crate::specs::Strip::grade_of, crate::specs::Strip::slope_of, crate::specs::Strip::lateral_of, crate::specs::Strip::half_of, crate::specs::Strip::eat_square_of, crate::specs::Strip::turns_left, crate::specs::MeshSteps::walk_at, vector::specs::Coords::zero_vector, vector::specs::Coords::up_vector))]

ghost use Rattle.std.specs.Prelude.{◌≡◌, ◌^◌, ◌<◌, true};
ghost use Rattle.vector.specs.Coords.{vector_add, normalize_or, normalize_or_zero};
ghost use Rattle.shape.specs.Strip.{lane_of, kept_point, leg_of, no_leg, leg_in, leg_out, along_of, grade_of, slope_of, lateral_of, half_of, eat_square_of, turns_left, spread_of, rib_at};
ghost use Rattle.shape.specs.MeshSteps.{Mild, walk_at};

use crate::lists::{point_at, single_or, vector_at, word_at};
use rounding::extremes::{clamp, is_finite, max, min};
use rounding::root::{root_near_one, sqrt32};
use vector::coords::{Point, Vector};
use vector::geometry::{horizontal, left_normal};

// A lane as it is lent: the coordinates of its points and of its tangents in threes, its widths, its banks in
// twos as sine and cosine, and the width where the list has none.
#[derive(Clone, Copy)]
pub(crate) struct Lane<'a> {
    pub points: &'a [f32],
    pub tangents: &'a [f32],
    pub widths: &'a [f32],
    pub banks: &'a [f32],
    pub width: f32,
}

// A lane with the numbers of its points that are kept.
#[derive(Clone, Copy)]
pub(crate) struct Course<'a> {
    pub lane: Lane<'a>,
    pub ks: &'a [u32],
}

// From one kept point to the next: the direction on the ground, and the square of the length.
#[derive(Clone, Copy)]
pub(crate) struct Leg {
    pub way: Vector,
    pub square: f32,
}

// How far the two vertices of a rib lie from the kept point.
#[derive(Clone, Copy)]
struct Spread {
    left: f32,
    right: f32,
}

// Two vertices across a lane, and the normal of both.
#[derive(Clone, Copy)]
pub(crate) struct Rib {
    pub left: Point,
    pub right: Point,
    pub up: Vector,
}

// A rib, and the leg out of its point, which is the leg into the next.
#[derive(Clone, Copy)]
pub(crate) struct Walk {
    pub rib: Rib,
    pub out: Leg,
}

fn leg_between(a: Point, b: Point) -> Leg
    ensures { result ≡ leg_of a b }
{
    let d = b - a;
    Leg {
        way: horizontal(d).normalize_or_zero(),
        square: d.length_squared(),
    }
}

pub(crate) fn no_leg() -> Leg
    ensures { result ≡ no_leg }
{
    Leg {
        way: Vector::ZERO,
        square: 0.0,
    }
}

// The direction halfway between the ways of the two legs.
fn bisector(inc: Vector, out: Vector) -> Vector
    ensures { result ≡ normalize_or_zero (vector_add inc out) }
{
    (inc + out).normalize_or_zero()
}

// Along the lane, by the tangent t. The way between the legs is worked out only where the tangent has no
// direction.
#[tactic(auto, unfolding(vector::specs::Coords::normalize_or))]
fn along_any(t: Vector, inc: Vector, out: Vector) -> Vector
    ensures { result ≡ normalize_or t (normalize_or_zero (vector_add inc out)) }
{
    let len = t.length();
    if is_finite(len) && len > 0.0 {
        t * (1.0 / len)
    } else {
        bisector(inc, out)
    }
}

// Along the lane. Most tangents have about unit length, and their root is the cheap one.
fn along(tangents: &[f32], k: usize, inc: Vector, out: Vector) -> Vector
    requires { k < 2 ^ 32 }
    ensures { result ≡ along_of tangents.now k inc out }
{
    let t = horizontal(vector_at(tangents, k));
    if let Some(root) = root_near_one(t.length_squared()) {
        return t * (1.0 / root);
    }
    along_any(t, inc, out)
}

// Rise over run.
fn grade(a: Point, b: Point) -> f32
    ensures { result ≡ grade_of a b }
{
    let run = horizontal(b - a).length();
    if run > 1e-6 { (b.z - a.z) / run } else { 0.0 }
}

// Along the lane with the grade between the neighbours a and b.
fn slope(along: Vector, a: Point, b: Point) -> Vector
    ensures { result ≡ slope_of along a b }
{
    (along + Vector::Z * grade(a, b)).normalize_or(along)
}

// Across the lane: its left, rolled by the bank.
fn lateral(banks: &[f32], k: usize, left: Vector, along: Vector) -> Vector
    requires { k < 2 ^ 32 }
    ensures { result ≡ lateral_of banks.now k left along }
{
    let sin = single_or(banks, 2 * k, 0.0);
    let cos = single_or(banks, 2 * k + 1, 1.0);
    left.rotate_about(along, sin, cos)
}

fn half_at(widths: &[f32], k: usize, width: f32) -> f32
    ensures { result ≡ half_of widths.now k width }
{
    single_or(widths, k, width) * 0.5
}

// The sine of half the turn, squared. The sine is how much of a leg an offset of 1 eats.
fn eat_square(inc: Vector, out: Vector) -> f32
    ensures { result ≡ eat_square_of inc out }
{
    let cos_turn = clamp(inc.dot(out), -1.0, 1.0);
    max((1.0 - cos_turn) * 0.5, 0.0)
}

fn turns_left(inc: Vector, out: Vector, left: Vector) -> bool
    ensures { result ≡ turns_left inc out left }
{
    (out - inc).dot(left) > 0.0
}

// Is a corner so mild that nothing is pinched at half the width h? Most are: the sine of half the turn
// is at most 1/16, both legs are at least 1 and h is at most 7. The squares tell that without a root.
fn mild(eats: f32, inc: f32, out: f32, h: f32) -> bool
    ensures { result ≡ true → Mild eats inc out h }
{
    eats <= 0.00390625 && inc >= 1.0 && out >= 1.0 && h <= 7.0
}

// The corner pinched. An offset of 1 moves the inner vertex along each leg by `eats`; it may take just under
// half of the shorter leg, so that the two ends of a leg never pass each other.
#[tactic(auto, unfolding(crate::specs::Strip::spread_of, crate::specs::Strip::pinches, crate::specs::Strip::inner_of, crate::specs::Strip::shorter_of, crate::specs::Strip::eat_of))]
fn pinched(inc: Leg, out: Leg, left: Vector, h: f32) -> Spread
    ensures { result ≡ spread_of true inc out left h }
{
    let eats = sqrt32(eat_square(inc.way, out.way));
    let seg = min(sqrt32(inc.square), sqrt32(out.square));
    if eats > 1e-4 && seg > 1e-6 {
        let inner = min(h, 0.49 * seg / eats);
        if turns_left(inc.way, out.way, left) {
            return Spread {
                left: inner,
                right: h,
            };
        }
        return Spread {
            left: h,
            right: inner,
        };
    }
    Spread { left: h, right: h }
}

#[tactic(auto, using(crate::proofs::Corners::mild_full), unfolding(crate::specs::Strip::spread_of))]
fn spread_at(corner: bool, inc: Leg, out: Leg, left: Vector, h: f32) -> Spread
    ensures { result ≡ spread_of corner inc out left h }
{
    if corner && !mild(eat_square(inc.way, out.way), inc.square, out.square, h) {
        pinched(inc, out, left, h)
    } else {
        Spread { left: h, right: h }
    }
}

impl Course<'_> {
    // Kept point i.
    fn point(self, i: usize) -> Point
        ensures { result ≡ kept_point self.entry.lane.points.now self.entry.ks.now i }
    {
        point_at(self.lane.points, word_at(self.ks, i))
    }

    // The leg out of it.
    fn leg_out(self, i: usize) -> Leg
        requires { i < 2 ^ 61 }
        ensures { result ≡ leg_out self.entry.lane.points.now self.entry.ks.now i }
    {
        if i + 1 < self.ks.len() {
            return leg_between(self.point(i), self.point(i + 1));
        }
        no_leg()
    }

    // Its rib, with the legs into it and out of it.
    #[tactic(auto, unfolding(crate::specs::Strip::rib_at, vector::specs::Coords::up_vector))]
    fn rib_at(self, i: usize, inc: Leg, out: Leg) -> Rib
        requires { let ps = self.lane.points.now in
            (i < 2 ^ 61) × (inc ≡ leg_in ps self.ks.now i) × (out ≡ leg_out ps self.ks.now i) }
        ensures { result ≡ rib_at (lane_of self.entry.lane) self.entry.ks.now i }
    {
        let lane = self.lane;
        let k = word_at(self.ks, i);
        let p = self.point(i);
        let way = along(lane.tangents, k, inc.way, out.way);
        let left = left_normal(way);
        let across = lateral(lane.banks, k, left, way);
        let corner = (0 < i) & (i + 1 < self.ks.len());
        let m = spread_at(corner, inc, out, left, half_at(lane.widths, k, lane.width));
        let a = self.point(i.saturating_sub(1));
        let b = self.point((i + 1).min(self.ks.len().saturating_sub(1)));
        Rib {
            left: p + across * m.left,
            right: p - across * m.right,
            up: slope(way, a, b).cross(across).normalize_or(Vector::Z),
        }
    }

    // The same with the leg out of its point worked out.
    pub(crate) fn walk_at(self, i: usize, inc: Leg) -> Walk
        requires { (i < 2 ^ 61) × (inc ≡ leg_in self.lane.points.now self.ks.now i) }
        ensures { result ≡ walk_at (lane_of self.entry.lane) self.entry.ks.now i }
    {
        let out = self.leg_out(i);
        let rib = self.rib_at(i, inc, out);
        Walk { rib, out }
    }
}
