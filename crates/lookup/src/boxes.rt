// Boxes on the ground, each worked out in the Rust's order of roundings.
ghost use Rattle.std.specs.Prelude.{◌≡◌, Some};
ghost use Rattle.lookup.specs.Box.{around_of, grown_of, merge_of};
ghost use Rattle.lookup.specs.Frame.{join_of};

use crate::mesh::Triangle;
use rounding::extremes::{max, min};

// A box on the ground. The bounds stand in this order so that the compiler works the lower ones out in one
// instruction, and the upper ones.
#[derive(Clone, Copy)]
pub struct Aabb {
    pub min_x: f32,
    pub min_y: f32,
    pub max_x: f32,
    pub max_y: f32,
}

// The box around a triangle, NaN or not.
#[tactic(auto, unfolding(crate::specs::Box::around_of))]
pub(crate) fn around_any(t: Triangle) -> Aabb
    ensures { result ≡ around_of t.a t.b t.c }
{
    let Triangle { a, b, c } = t;
    Aabb {
        min_x: min(min(a.x, b.x), c.x),
        max_x: max(max(a.x, b.x), c.x),
        min_y: min(min(a.y, b.y), c.y),
        max_y: max(max(a.y, b.y), c.y),
    }
}

// How far outside a triangle, as a share of its corners' weights, a point still counts as on it, so that a
// point on an edge of two triangles is found by one of them in spite of rounding.
pub(crate) const EDGE_SLACK: f32 = 1e-4;

// A box with each bound moved out by the slack times width plus height: a point that the weights' slack
// lets a triangle cover lies past its corners.
#[tactic(auto, unfolding(crate::specs::Box::grown_of, crate::specs::Box::slack_of))]
pub(crate) fn grown(b: Aabb) -> Aabb
    ensures { result ≡ grown_of b }
{
    let slack = EDGE_SLACK * ((b.max_x - b.min_x) + (b.max_y - b.min_y));
    Aabb {
        min_x: b.min_x - slack,
        max_x: b.max_x + slack,
        min_y: b.min_y - slack,
        max_y: b.max_y + slack,
    }
}

// The box around two.
#[tactic(auto, unfolding(crate::specs::Box::merge_of))]
fn merge(a: Aabb, b: Aabb) -> Aabb
    ensures { result ≡ merge_of a b }
{
    Aabb {
        min_x: min(a.min_x, b.min_x),
        max_x: max(a.max_x, b.max_x),
        min_y: min(a.min_y, b.min_y),
        max_y: max(a.max_y, b.max_y),
    }
}

// The box around another and what there is so far.
#[tactic(auto, unfolding(crate::specs::Frame::join_of))]
pub(crate) fn join(e: Option<Aabb>, g: Aabb) -> Aabb
    ensures { Some result ≡ join_of e (Some g) }
{
    match e {
        Some(x) => merge(x, g),
        None => g,
    }
}
