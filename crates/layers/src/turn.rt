// Quarter turns to the left, about the origin. Hints to inline: a layer knows its number of turns, so a loop over one or two is straight code.
ghost use Rattle.std.specs.Prelude.{◌≡◌};
ghost use Rattle.plane.specs.Plane.{vector};
ghost use Rattle.layers.specs.Layers.{quarter_turns, before_turns};

use body::near::Near;
use plane::direction::Direction;
use plane::point::Point;

// The direction that so many turns take to u. The loop counts turns; no list is walked.
#[inline]
#[tactic(auto, using(crate::proofs::Turning::before_more))]
pub(crate) fn turn_back(u: Direction, turns: u8) -> Direction
    ensures { vector result ≡ before_turns turns (vector u) }
{
    let mut back = u;
    for _ in 0..turns {
        back = back.perp().opposite();
    }
    back
}

// The point that so many turns make of p. The loop counts turns.
#[inline]
#[tactic(auto, using(crate::proofs::Turning::turns_more))]
pub(crate) fn turn(p: Near, turns: u8) -> Point
    ensures { result ≡ quarter_turns turns p.at }
{
    let mut turned = p;
    for _ in 0..turns {
        turned = turned.perp();
    }
    turned.at
}
