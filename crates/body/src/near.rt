// Points within the greatest reach of a body: neither a sum nor a difference of two of them passes 32 bits.
ghost use Rattle.std.specs.Prelude.{◌≡◌, ◌≤◌};
ghost use Rattle.plane.specs.Plane.{size, plus, minus, perp};

use plane::point::Point;

// A point of size 1,000,000 at most.
#[derive(Clone, Copy)]
pub struct Near {
    pub at: Point,
    ghost near: { size at ≤ 1000000 },
}

impl Near {
    // The sum of both.
    pub fn plus(self, q: Near) -> Point
        ensures { result ≡ plus self.at q.at }
    {
        Point {
            x: self.at.x + q.at.x,
            y: self.at.y + q.at.y,
        }
    }

    // This point after a quarter turn to the left about the origin.
    pub fn perp(self) -> Near
        ensures { result.at ≡ perp self.at }
    {
        Near {
            at: Point {
                x: -self.at.y,
                y: self.at.x,
            },
        }
    }

    // The way from q to this point.
    pub fn minus(self, q: Near) -> Point
        ensures { result ≡ minus self.at q.at }
    {
        Point {
            x: self.at.x - q.at.x,
            y: self.at.y - q.at.y,
        }
    }
}
