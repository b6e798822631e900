ghost use Rattle.std.specs.Prelude.{◌≡◌, ◌<◌, ◌≤◌, length, unwrap_or, IfSome};
ghost use Rattle.plane.specs.Plane.{next};
ghost use Rattle.body.specs.Ring.{corner, previous, rises, turns_left, unlawful_by, first_unlawful};
ghost use Rattle.body.specs.Set.{reach};

use crate::near::Near;
use plane::point::Point;
use plane::products::cross;

// Step i of a ring whose corners are within the limit: from corner i, where the walk is, to the one after it.
#[derive(Clone, Copy)]
struct Step<'a> {
    ring: &'a [Point],
    i: usize,
    start: Point,
    ghost near: { reach ring.now ≤ 1000000 },
    ghost within: { i < length ring.now },
    ghost starts: { start ≡ corner ring.now i },
}

#[tactic(auto, using(crate::proofs::Stepping::corner_low))]
impl Step<'_> {
    // The corner before the step's start.
    fn before(&self) -> Near
        ensures { result.at ≡ corner self.now.ring.now (previous (length self.now.ring.now) self.now.i) }
    {
        let n = self.ring.len();
        Near {
            at: self.ring[if self.i == 0 { n - 1 } else { self.i - 1 }],
        }
    }

    fn start(&self) -> Near
        ensures { result.at ≡ corner self.now.ring.now self.now.i }
    {
        Near { at: self.start }
    }

    fn end(&self) -> Near
        ensures { result.at ≡ corner self.now.ring.now (next (length self.now.ring.now) self.now.i) }
    {
        let n = self.ring.len();
        Near {
            at: self.ring[if self.i + 1 < n { self.i + 1 } else { 0 }],
        }
    }

    fn rises(&self) -> bool
        ensures { result ≡ rises self.now.ring.now self.now.i }
    {
        self.end().at > self.start().at
    }

    // Whether the way turns strictly left at the step's start.
    fn turns_left(&self) -> bool
        ensures { result ≡ turns_left self.now.ring.now self.now.i }
    {
        let before = self.before();
        0 < cross(self.start().minus(before), self.end().minus(before))
    }

    // Whether the step is unlawful, given whether it rises and whether an earlier one rose.
    fn is_unlawful(&self, up: bool, risen: bool) -> bool
        ensures { result ≡ unlawful_by self.now.ring.now self.now.i up risen }
    {
        let n = self.ring.len();
        (!up && (risen || self.i + 1 == n)) || (n > 2 && !self.turns_left())
    }
}

// The first unlawful step, by its number.
pub(crate) fn first_unlawful(corners: &[Point]) -> Option<usize>
    requires { reach corners.now ≤ 1000000 }
    ensures value { first_unlawful corners.now ≡ unwrap_or result (length corners.now) }
    ensures within { IfSome result (λ i. i < length corners.now) }
{
    if corners.len() == 1 {
        return None;
    }
    let mut risen = false;
    for (i, corner) in corners.iter().enumerate() {
        let start = *corner;
        let step = Step {
            ring: corners,
            i,
            start,
        };
        let up = step.rises();
        if step.is_unlawful(up, risen) {
            return Some(i);
        }
        risen = risen || up;
    }
    None
}
