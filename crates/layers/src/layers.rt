// Layers over any bodies; each is a body again.
ghost use Rattle.std.specs.Prelude.{◌≡◌};
ghost use Rattle.layers.specs.Layers.{moved, turned, halved, quartered, quarter_turns, summed, joined};
ghost use Rattle.layers.specs.LayersKept.{moved_bounded, turns_bounded, summed_bounded, joined_bounded};

use crate::answers::{join_answer, move_answer, sum_answer, turned_answer};
use crate::part::{PartFault, limited_sum};
use body::body::Body;
use plane::direction::Direction;
use plane::fault::Fault;
use plane::point::Point;

// The part, shifted by `by`.
#[derive(Drop)]
pub struct Move<A> {
    pub part: A,
    pub by: Point,
}

// The part after so many quarter turns to the left about the origin.
#[derive(Drop)]
pub struct Turned<A, const TURNS: u8> {
    pub part: A,
}

// The part after a half turn.
pub type Half<A> = Turned<A, 2>;

// The part after a quarter turn to the left.
pub type Quarter<A> = Turned<A, 1>;

// What the two names mean: the half turn of a part negates each point, the quarter turn takes (x, y) to (-y, x).
pub fn named_turns<A: Body + Copy>(part: A) -> (Half<A>, Quarter<A>)
    ensures half { ⟦<Half<A> as Body>⟧.meaning result.0 ≡ halved (A.Body.meaning part) }
    ensures quarter { ⟦<Quarter<A> as Body>⟧.meaning result.1 ≡ quartered (A.Body.meaning part) }
{
    (Half { part }, Quarter { part })
}

// All sums of a point of one part and a point of the other.
#[derive(Drop)]
pub struct Sum<A, B> {
    pub left: A,
    pub right: B,
}

// The points of both parts.
#[derive(Drop)]
pub struct Join<A, B> {
    pub left: A,
    pub right: B,
}

impl<A: Body> Body for Move<A> {
    ghost meaning = { λ m. moved m.by (A.Body.meaning m.part) };

    ghost bounded = { λ m. moved_bounded m.by (A.Body.bounded m.part) };

    fn verdict(&self) -> Result<u32, Fault> {
        let reach = self.part.verdict().map_err(PartFault)?;
        limited_sum(reach, self.by.size())
    }

    fn support(&self, u: Direction) -> Result<Point, Fault> {
        self.verdict()?;
        move_answer(&self.part, self.by, u)
    }
}

impl<A: Body, const TURNS: u8> Body for Turned<A, TURNS> {
    ghost meaning = { λ m. turned (quarter_turns TURNS) (A.Body.meaning m.part) };

    ghost bounded = { λ m. turns_bounded TURNS (A.Body.bounded m.part) };

    fn verdict(&self) -> Result<u32, Fault> {
        // The `?` raises a fault of the part.
        Ok(self.part.verdict().map_err(PartFault)?)
    }

    // A hint: in a pile the call would cost more than the turn.
    #[inline]
    fn support(&self, u: Direction) -> Result<Point, Fault> {
        turned_answer(&self.part, u, TURNS)
    }
}

// A sum and a join share only that both parts are asked, the left one first.
impl<A: Body, B: Body> Body for Sum<A, B> {
    ghost meaning = { λ m. summed (A.Body.meaning m.left) (B.Body.meaning m.right) };

    ghost bounded = { λ m. summed_bounded (A.Body.bounded m.left) (B.Body.bounded m.right) };

    fn verdict(&self) -> Result<u32, Fault> {
        let left = self.left.verdict().map_err(PartFault)?;
        let right = self.right.verdict().map_err(PartFault)?;
        limited_sum(left, right)
    }

    fn support(&self, u: Direction) -> Result<Point, Fault> {
        self.verdict()?;
        sum_answer(&self.left, &self.right, u)
    }
}

impl<A: Body, B: Body> Body for Join<A, B> {
    ghost meaning = { λ m. joined (A.Body.meaning m.left) (B.Body.meaning m.right) };

    ghost bounded = { λ m. joined_bounded (A.Body.bounded m.left) (B.Body.bounded m.right) };

    fn verdict(&self) -> Result<u32, Fault> {
        let left = self.left.verdict().map_err(PartFault)?;
        let right = self.right.verdict().map_err(PartFault)?;
        Ok(left.max(right))
    }

    fn support(&self, u: Direction) -> Result<Point, Fault> {
        join_answer(&self.left, &self.right, u)
    }
}
