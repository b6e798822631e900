ghost use Rattle.std.specs.Prelude.{◌≡◌, Some};
ghost use Rattle.plane.specs.Plane.{size, greater};
ghost use Rattle.plane.specs.Text.{point_text};

use std::fmt;

// A point of the plane, in whole millimetres. Points are ordered by x and, at equal x, by y.
#[derive(Clone, Copy, PartialEq, Eq, PartialOrd, Ord, Debug)]
pub struct Point {
    pub x: i32,
    pub y: i32,
}

// The point (0, 0).
pub const ORIGIN: Point = Point { x: 0, y: 0 };

impl Point {
    // The greater of the two absolute coordinates.
    pub fn size(self) -> u32
        ensures { result ≡ size self }
    {
        self.x.unsigned_abs().max(self.y.unsigned_abs())
    }

    // Whether this point comes after q: by x and, at equal x, by y.
    pub fn greater(self, q: Point) -> bool
        ensures { result ≡ greater self q }
    {
        self > q
    }
}

impl fmt::Display for Point {
    ghost output = { λ p. Some (point_text p) };

    fn fmt<W: fmt::Write>(&self, f: &mut fmt::Formatter<W>) -> fmt::Result {
        write!(f, "{} {}", self.x, self.y)
    }
}
