// Which points of a lane are kept. A step much shorter than the one before it is a stub, as where a section
// ends centimetres past its last sample. Ribs so close together fold the strip: a triangle turns over, or a
// pinched rib stands beside a full one with no room between them. So stubs are welded away before ribs are
// made. What a stub is depends on the step before it, since a tight curve may be sampled finely on purpose.
// Points are picked by their numbers and not rewritten, so that a rib has its point, tangent, width and bank
// from one place.
ghost use Rattle.std.specs.Prelude.{◌≡◌, ◌/◌, ◌^◌, ◌<◌, ◌≤◌, true, [], ◌∷◌, length, if◌then◌else◌};
ghost use Rattle.std.specs.Float.{binary32};
ghost use Rattle.std.specs.Float.Ieee.{lt};
ghost use Rattle.rounding.specs.Root.{sqrt_of};
ghost use Rattle.rounding.specs.Thresholds.{micro};
ghost use Rattle.shape.specs.Memory.{Put};
ghost use Rattle.shape.specs.Lists.{max_lane_points};
ghost use Rattle.shape.specs.Strip.{step_of, keeps_step, keeps, end_kept, kept_of};

use crate::lists::{MAX_LANE_POINTS, point_at};
use crate::memory::put;
use crate::rib::{Course, Lane};
use rounding::compare::root_above_tenth;
use rounding::extremes::max;
use rounding::root::sqrt32;

// How far a lane is welded: how many points are kept but for the last, the last, and the square of the
// step to it.
#[derive(Clone, Copy)]
struct Welding {
    count: usize,
    last: usize,
    square: f32,
}

// Is a step of the square `square` clearly above a quarter of one of the square `last`, so that no root
// is taken? Steps of about one length, from 0.27 to 22, always are.
#[tactic(auto, using(crate::proofs::Welds::keeps_one, crate::proofs::Welds::keeps_two, crate::proofs::Welds::keeps_three, crate::proofs::Welds::keeps_four))]
fn clearly_kept(square: f32, last: f32) -> bool
    ensures { result ≡ true → keeps_step (sqrt_of binary32 last) (sqrt_of binary32 square) ≡ true }
{
    if !(last >= 0.0) {
        return false;
    }
    if last <= 1.0 {
        return square >= 0.07;
    }
    if last <= 8.0 {
        return square >= 0.6;
    }
    if last <= 64.0 {
        return square >= 5.0;
    }
    last <= 512.0 && square >= 40.0
}

// No step up to this length is a sample, whatever stands around it.
const WELD_FLOOR: f32 = 0.1;

// A step up to this part of the one before it is a stub.
const STUB_FRACTION: f32 = 0.25;

// Is a point kept, whose step from the last kept has the square `square`, where the step to that has
// the square `last`? Most points that go are within 0.1, which takes no root to see either.
#[tactic(auto, using(crate::proofs::Strips::near), unfolding(crate::specs::Strip::keeps_step))]
fn is_kept(square: f32, last: f32) -> bool
    ensures { result ≡ keeps_step (sqrt_of binary32 last) (sqrt_of binary32 square) }
{
    clearly_kept(square, last)
        || root_above_tenth(square)
            && sqrt32(square) > max(STUB_FRACTION * sqrt32(last), WELD_FLOOR)
}

// Point i, after those that `h` tells of.
#[tactic(auto, using(crate::proofs::Laws::Memory::put_none), unfolding(crate::specs::Strip::keeps, crate::specs::Strip::step_of, vector::specs::Coords::length_of))]
fn weld_step(points: &[f32], kept: &mut [u32], h: Welding, i: usize) -> Welding
    requires { (h.last < i) × (i < 2 ^ 32) × (h.count < length kept.old) × (h.count < 2 ^ 32) }
    ensures step_value { let k = keeps points.now h.last (sqrt_of binary32 h.square) i in
        (result.last ≡ (if k then i else h.last)) × (sqrt_of binary32 result.square ≡ (if k then step_of points.now h.last i else sqrt_of binary32 h.square)) }
    ensures put { let k = keeps points.now h.last (sqrt_of binary32 h.square) i in
        Put kept.old kept.new h.count (if k then h.last ∷ [] else []) result.count }
{
    let d = point_at(points, i) - point_at(points, h.last);
    let square = d.length_squared();
    if is_kept(square, h.square) {
        return Welding {
            count: put(kept, h.count, [h.last as u32]),
            last: i,
            square,
        };
    }
    h
}

// Whether the ends of a lane, points 0 and e, lie under 1e-6 apart.
#[tactic(auto, unfolding(crate::specs::Strip::step_of))]
fn ends_meet(points: &[f32], e: usize) -> bool
    requires { e < 2 ^ 32 }
    ensures { result ≡ lt (step_of points.now 0 e) micro }
{
    (point_at(points, e) - point_at(points, 0)).length_below_micro()
}

// The final point e takes the place of the last kept, with its tangent, width and bank, so that the lane
// ends where the next begins and no seam opens. A lane welded down to one point has both its ends, as one
// thin quad, if they are apart; a lane of no length has no surface.
#[tactic(auto, unfolding(crate::specs::Strip::end_kept))]
fn weld_end(points: &[f32], kept: &mut [u32; MAX_LANE_POINTS], m: usize, e: usize) -> usize
    requires { (m < max_lane_points) × (e < 2 ^ 32) }
    ensures put { Put kept.old kept.new m (end_kept m (lt (step_of points.now 0 e) micro) e) result }
    ensures upper_bound { result ≤ max_lane_points }
{
    if m == 0 {
        if ends_meet(points, e) {
            return 0;
        }
        return put(kept, 0, [0, e as u32]);
    }
    put(kept, m, [e as u32])
}

// A lane with the points of it that are kept, whose numbers are written into `kept`.
pub(crate) fn weld<'a>(lane: Lane<'a>, kept: &'a mut [u32; MAX_LANE_POINTS]) -> Course<'a>
    requires { length lane.points.now / 3 ≤ max_lane_points }
    ensures course { let ps = lane.entry.points.now in (result.lane ≡ lane.entry) × (result.ks.now ≡ kept_of ps (length ps / 3)) }
    ensures few { length result.ks.now ≤ max_lane_points }
{
    let points = lane.points;
    let n = points.len() / 3;
    if n == 0 {
        return Course { lane, ks: &[] };
    }
    let mut h = Welding {
        count: 0,
        last: 0,
        square: 0.0,
    };
    for i in 1..n {
        h = weld_step(points, kept, h, i);
    }
    let m = weld_end(points, kept, h.count, n - 1);
    Course {
        lane,
        ks: &kept[..m],
    }
}
