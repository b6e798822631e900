ghost use Rattle.std.specs.Prelude.{◌≡◌};
ghost use Rattle.plane.specs.Directed.{Makes};
ghost use Rattle.plane.specs.Plane.{point, vector, east, west, perp, negate};

use crate::direction::Direction;
use crate::fault::{Cause, Fault};

// The greatest component of a direction.
pub const LIMIT: i64 = 2_000_000;

impl Direction {
    // The direction with these components, or a refusal where they make none.
    pub fn new(x: i64, y: i64) -> Result<Direction, Fault>
        ensures { Makes (point x y) result }
    {
        if x == 0 && y == 0 {
            return Err(Fault::new(Cause::NoDirection, 0));
        }
        if x < -LIMIT || x > LIMIT || y < -LIMIT || y > LIMIT {
            return Err(Fault::new(Cause::NoDirection, 0));
        }
        // `as`: both are tested, and `try_from` would leave arms that are never taken.
        Ok(Direction {
            x: x as i32,
            y: y as i32,
        })
    }

    pub fn east() -> Direction
        ensures { vector result ≡ east }
    {
        Direction { x: 1, y: 0 }
    }

    pub fn west() -> Direction
        ensures { vector result ≡ west }
    {
        Direction { x: -1, y: 0 }
    }

    // A quarter turn to the left.
    pub fn perp(self) -> Direction
        ensures { vector result ≡ perp (vector self) }
    {
        Direction {
            x: -self.y,
            y: self.x,
        }
    }

    // A half turn.
    pub fn opposite(self) -> Direction
        ensures { vector result ≡ negate (vector self) }
    {
        Direction {
            x: -self.x,
            y: -self.y,
        }
    }
}
