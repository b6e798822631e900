ghost use Rattle.std.specs.Prelude.{◌≡◌};
ghost use Rattle.body.specs.Set.{set_meaning};
ghost use Rattle.body.specs.SetKept.{set_bounded};

use crate::judged::{Judged, Shape};
use crate::reach::{farthest, judge};
use plane::direction::Direction;
use plane::fault::Fault;
use plane::point::Point;

// The greatest number of points of a set.
pub const MOST: u32 = 1024;

// A body that means the points of a list.
pub type Set<'a> = Judged<Points<'a>>;

// The list that a set is over.
#[derive(Clone, Copy)]
pub struct Points<'a> {
    points: &'a [Point],
}

impl Shape for Points<'_> {
    ghost meaning = { λ s. set_meaning s.points.now };

    ghost bounded = { λ s. set_bounded s.points.now };

    fn judge(&self) -> Result<u32, Fault> {
        judge(self.points, MOST)
    }

    fn farthest(&self, u: Direction) -> Point {
        farthest(self.points, u)
    }
}

impl<'a> Set<'a> {
    pub fn new(points: &'a [Point]) -> Set<'a>
        ensures { result.shape.points.now ≡ points.now }
    {
        Judged::over(Points { points })
    }
}
