// The two coordinate types: a place, and a displacement between places.
ghost use Rattle.std.specs.Prelude.{◌≡◌};
ghost use Rattle.std.specs.Float.Ieee.{lt};
ghost use Rattle.rounding.specs.Thresholds.{micro};
ghost use Rattle.vector.specs.Coords.{
  point_sub,
  point_add,
  point_sub_vector,
  point_finite,
  distance_of,
  vector_add,
  vector_sub,
  vector_mul,
  vector_neg,
  vector_finite,
  dot_of,
  cross_of,
  length_squared_of,
  length_of,
  normalize_or,
  normalize_or_zero,
  is_zero,
  turned_of,
  rotate_about,
  all_finite,
};

use rounding::compare;
use rounding::extremes::is_finite;
use rounding::root::{root_near_one, sqrt32};
use std::ops::{Add, Mul, Neg, Sub};

// A place in the world: right-handed, z up, metres.
#[derive(Clone, Copy, Debug, Default, PartialEq)]
pub struct Point {
    pub x: f32,
    pub y: f32,
    pub z: f32,
}

// A displacement between places, or a direction.
#[derive(Clone, Copy, Debug, Default, PartialEq)]
pub struct Vector {
    pub x: f32,
    pub y: f32,
    pub z: f32,
}

// Whether all three are finite.
#[tactic(auto, unfolding(crate::specs::Coords::all_finite))]
fn all_finite(x: f32, y: f32, z: f32) -> bool
    ensures { result ≡ all_finite x y z }
{
    is_finite(x) && is_finite(y) && is_finite(z)
}

impl Point {
    pub const ORIGIN: Point = Point {
        x: 0.0,
        y: 0.0,
        z: 0.0,
    };

    // Straight-line distance.
    #[tactic(auto, unfolding(crate::specs::Coords::distance_of))]
    pub fn distance_to(self, other: Point) -> f32
        ensures { result ≡ distance_of self other }
    {
        (other - self).length()
    }

    #[tactic(auto, unfolding(crate::specs::Coords::point_finite))]
    pub fn is_finite(self) -> bool
        ensures { result ≡ point_finite self }
    {
        all_finite(self.x, self.y, self.z)
    }
}

// The displacement between two places, from the second to the first.
#[tactic(auto, unfolding(crate::specs::Coords::point_sub))]
impl Sub for Point {
    type Output = Vector;

    ghost sub_gives = { λ a b r. r ≡ point_sub a b };

    fn sub(self, other: Point) -> Vector {
        Vector {
            x: self.x - other.x,
            y: self.y - other.y,
            z: self.z - other.z,
        }
    }
}

// The place a displacement away.
#[tactic(auto, unfolding(crate::specs::Coords::point_add))]
impl Add<Vector> for Point {
    type Output = Point;

    ghost add_gives = { λ a v r. r ≡ point_add a v };

    fn add(self, v: Vector) -> Point {
        Point {
            x: self.x + v.x,
            y: self.y + v.y,
            z: self.z + v.z,
        }
    }
}

// The place from which a displacement leads to the first.
#[tactic(auto, unfolding(crate::specs::Coords::point_sub_vector))]
impl Sub<Vector> for Point {
    type Output = Point;

    ghost sub_gives = { λ a v r. r ≡ point_sub_vector a v };

    fn sub(self, v: Vector) -> Point {
        Point {
            x: self.x - v.x,
            y: self.y - v.y,
            z: self.z - v.z,
        }
    }
}

#[tactic(auto, unfolding(crate::specs::Coords::vector_add))]
impl Add for Vector {
    type Output = Vector;

    ghost add_gives = { λ a b r. r ≡ vector_add a b };

    fn add(self, v: Vector) -> Vector {
        Vector {
            x: self.x + v.x,
            y: self.y + v.y,
            z: self.z + v.z,
        }
    }
}

#[tactic(auto, unfolding(crate::specs::Coords::vector_sub))]
impl Sub for Vector {
    type Output = Vector;

    ghost sub_gives = { λ a b r. r ≡ vector_sub a b };

    fn sub(self, v: Vector) -> Vector {
        Vector {
            x: self.x - v.x,
            y: self.y - v.y,
            z: self.z - v.z,
        }
    }
}

#[tactic(auto, unfolding(crate::specs::Coords::vector_mul))]
impl Mul<f32> for Vector {
    type Output = Vector;

    ghost mul_gives = { λ a k r. r ≡ vector_mul a k };

    fn mul(self, k: f32) -> Vector {
        Vector {
            x: self.x * k,
            y: self.y * k,
            z: self.z * k,
        }
    }
}

#[tactic(auto, unfolding(crate::specs::Coords::vector_neg))]
impl Neg for Vector {
    type Output = Vector;

    ghost neg_gives = { λ a r. r ≡ vector_neg a };

    fn neg(self) -> Vector {
        Vector {
            x: -self.x,
            y: -self.y,
            z: -self.z,
        }
    }
}

impl Vector {
    pub const ZERO: Vector = Vector {
        x: 0.0,
        y: 0.0,
        z: 0.0,
    };
    // Up.
    pub const Z: Vector = Vector {
        x: 0.0,
        y: 0.0,
        z: 1.0,
    };

    #[tactic(auto, unfolding(crate::specs::Coords::dot_of))]
    pub fn dot(self, other: Vector) -> f32
        ensures { result ≡ dot_of self other }
    {
        self.x * other.x + self.y * other.y + self.z * other.z
    }

    // Right-handed: the cross product of x and y is z.
    #[tactic(auto, unfolding(crate::specs::Coords::cross_of))]
    pub fn cross(self, other: Vector) -> Vector
        ensures { result ≡ cross_of self other }
    {
        Vector {
            x: self.y * other.z - self.z * other.y,
            y: self.z * other.x - self.x * other.z,
            z: self.x * other.y - self.y * other.x,
        }
    }

    #[tactic(auto, unfolding(crate::specs::Coords::length_squared_of))]
    pub fn length_squared(self) -> f32
        ensures { result ≡ length_squared_of self }
    {
        self.dot(self)
    }

    #[tactic(auto, unfolding(crate::specs::Coords::length_of))]
    pub fn length(self) -> f32
        ensures { result ≡ length_of self }
    {
        sqrt32(self.length_squared())
    }

    // Is the length below 1e-6? No root is taken for it.
    #[tactic(auto, unfolding(crate::specs::Coords::length_of))]
    pub fn length_below_micro(self) -> bool
        ensures { result ≡ lt (length_of self) micro }
    {
        compare::root_below_micro(self.length_squared())
    }

    // This direction at unit length, or `fallback` where the length is zero or not finite. Most vectors
    // that come here have about unit length already, and their root is the cheap one.
    pub fn normalize_or(self, fallback: Vector) -> Vector
        ensures { result ≡ normalize_or self fallback }
    {
        if let Some(root) = root_near_one(self.length_squared()) {
            return self * (1.0 / root);
        }
        self.normalize_any(fallback)
    }

    // The same, of any length.
    #[tactic(auto, unfolding(crate::specs::Coords::normalize_or))]
    fn normalize_any(self, fallback: Vector) -> Vector
        ensures { result ≡ normalize_or self fallback }
    {
        let len = self.length();
        if is_finite(len) && len > 0.0 {
            return self * (1.0 / len);
        }
        fallback
    }

    #[tactic(auto, unfolding(crate::specs::Coords::normalize_or_zero, crate::specs::Coords::zero_vector))]
    pub fn normalize_or_zero(self) -> Vector
        ensures { result ≡ normalize_or_zero self }
    {
        self.normalize_or(Vector::ZERO)
    }

    // Whether all three components equal 0: -0 does, and a NaN does not.
    #[tactic(auto, unfolding(crate::specs::Coords::is_zero))]
    fn is_zero(self) -> bool
        ensures { result ≡ is_zero self }
    {
        self == Vector::ZERO
    }

    // This vector turned about the unit vector k: Rodrigues' rotation.
    #[tactic(auto, unfolding(crate::specs::Coords::turned_of))]
    fn turned(self, k: Vector, sin: f32, cos: f32) -> Vector
        ensures { result ≡ turned_of self k sin cos }
    {
        let along = k * (k.dot(self) * (1.0 - cos));
        self * cos + k.cross(self) * sin + along
    }

    // This vector turned about `axis`, right-handed, by the angle with the sine and cosine given. An
    // axis with no direction turns nothing.
    #[tactic(auto, unfolding(crate::specs::Coords::rotate_about))]
    pub fn rotate_about(self, axis: Vector, sin: f32, cos: f32) -> Vector
        ensures { result ≡ rotate_about self axis sin cos }
    {
        let k = axis.normalize_or_zero();
        if k.is_zero() {
            return self;
        }
        self.turned(k, sin, cos)
    }

    #[tactic(auto, unfolding(crate::specs::Coords::vector_finite))]
    pub fn is_finite(self) -> bool
        ensures { result ≡ vector_finite self }
    {
        all_finite(self.x, self.y, self.z)
    }
}
