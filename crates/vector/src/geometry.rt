// Directions on the ground.
ghost use Rattle.std.specs.Prelude.{◌≡◌};
ghost use Rattle.vector.specs.Geometry.{horizontal_of, left_normal_of};

use crate::coords::Vector;

// `v` without its height.
#[tactic(auto, unfolding(crate::specs::Geometry::horizontal_of))]
pub fn horizontal(v: Vector) -> Vector
    ensures { result ≡ horizontal_of v }
{
    Vector {
        x: v.x,
        y: v.y,
        z: 0.0,
    }
}

// The unit vector to the left of a heading, zero where that has no horizontal extent.
#[tactic(auto, unfolding(crate::specs::Geometry::left_normal_of, crate::specs::Coords::up_vector))]
pub fn left_normal(heading: Vector) -> Vector
    ensures { result ≡ left_normal_of heading }
{
    Vector::Z.cross(horizontal(heading)).normalize_or_zero()
}
