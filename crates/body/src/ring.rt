ghost use Rattle.std.specs.Prelude.{◌≡◌};
ghost use Rattle.body.specs.Ring.{ring_meaning};
ghost use Rattle.body.specs.RingKept.{ring_bounded};

use crate::judged::{Judged, Shape};
use crate::reach::{farthest, judge};
use crate::steps::first_unlawful;
use plane::direction::Direction;
use plane::fault::{Cause, Fault};
use plane::point::Point;

// The greatest number of corners of a ring.
pub const MOST: u32 = 256;

// A body that means corners in outline order.
pub type Ring<'a> = Judged<Corners<'a>>;

// The list that a ring is over.
#[derive(Clone, Copy)]
pub struct Corners<'a> {
    corners: &'a [Point],
}

impl Shape for Corners<'_> {
    ghost meaning = { λ r. ring_meaning r.corners.now };

    ghost bounded = { λ r. ring_bounded r.corners.now };

    fn judge(&self) -> Result<u32, Fault> {
        let reach = judge(self.corners, MOST)?;
        match first_unlawful(self.corners) {
            // `as`: a ring's steps are few, and `try_from` would leave an arm that is never taken.
            Some(step) => Err(Fault::new(Cause::UnlawfulStep, step as u32)),
            None => Ok(reach),
        }
    }

    fn farthest(&self, u: Direction) -> Point {
        farthest(self.corners, u)
    }
}

impl<'a> Ring<'a> {
    pub fn new(corners: &'a [Point]) -> Ring<'a>
        ensures { result.shape.corners.now ≡ corners.now }
    {
        Judged::over(Corners { corners })
    }
}
