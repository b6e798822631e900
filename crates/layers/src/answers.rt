// The answers of layers, from those of their parts. That a layer is sound is required where it is needed: a type for it would be
// made by the same proof at each call.
ghost use Rattle.std.specs.Prelude.{IsOk};
ghost use Rattle.plane.specs.Plane.{vector};
ghost use Rattle.layers.specs.Layers.{moved, turned, quarter_turns, summed, joined};
ghost use Rattle.body.specs.Meaning.{Answers};

use crate::part::PartFault;
use crate::turn::{turn, turn_back};
use body::body::Body;
use body::near::Near;
use plane::direction::Direction;
use plane::fault::Fault;
use plane::point::Point;

// The part's answer in direction u, moved; the move is sound.
pub(crate) fn move_answer<A: Body>(part: &A, by: Point, u: Direction) -> Result<Point, Fault>
    requires { IsOk (moved by (A.Body.meaning part.now)).verdict }
    ensures { Answers (moved by (A.Body.meaning part.now)) (vector u) result }
{
    let p = part.support(u).map_err(PartFault)?;
    Ok(Near { at: p }.plus(Near { at: by }))
}

// The part's answer in the direction before so many quarter turns, turned. Inlined, since the layer knows how many they are.
#[inline]
pub(crate) fn turned_answer<A: Body>(part: &A, u: Direction, turns: u8) -> Result<Point, Fault>
    ensures { Answers (turned (quarter_turns turns) (A.Body.meaning part.now)) (vector u) result }
{
    let p = part.support(turn_back(u, turns)).map_err(PartFault)?;
    Ok(turn(Near { at: p }, turns))
}

// The sum of both answers in direction u; the sum is sound.
pub(crate) fn sum_answer<A: Body, B: Body>(
    left: &A,
    right: &B,
    u: Direction,
) -> Result<Point, Fault>
    requires { IsOk (summed (A.Body.meaning left.now) (B.Body.meaning right.now)).verdict }
    ensures { Answers (summed (A.Body.meaning left.now) (B.Body.meaning right.now)) (vector u) result }
{
    let p = left.support(u).map_err(PartFault)?;
    let q = right.support(u).map_err(PartFault)?;
    Ok(Near { at: p }.plus(Near { at: q }))
}

// The farther of both answers in direction u.
pub(crate) fn join_answer<A: Body, B: Body>(
    left: &A,
    right: &B,
    u: Direction,
) -> Result<Point, Fault>
    ensures { Answers (joined (A.Body.meaning left.now) (B.Body.meaning right.now)) (vector u) result }
{
    let p = left.support(u).map_err(PartFault)?;
    let q = right.support(u).map_err(PartFault)?;
    Ok(u.farther(p, q))
}
