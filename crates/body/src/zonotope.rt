ghost use Rattle.std.specs.Prelude.{◌≡◌, ◌+◌, ◌≤◌, length};
ghost use Rattle.plane.specs.Plane.{size};
ghost use Rattle.body.specs.Meaning.{limited};
ghost use Rattle.body.specs.Zonotope.{overrun, span, zonotope_meaning};
ghost use Rattle.body.specs.ZonotopeKept.{zonotope_bounded};

use crate::judged::{Judged, Shape};
use crate::near::Near;
use crate::reach::{LIMIT, limited};
use plane::direction::Direction;
use plane::fault::{Cause, Fault};
use plane::point::{ORIGIN, Point};

// The greatest number of generators of a zonotope.
pub const MOST: u32 = 64;

// A body that means all sums of a base and some of its generators.
pub type Zonotope<'a> = Judged<Choices<'a>>;

// The base and the generators that a zonotope is over.
#[derive(Clone, Copy)]
pub struct Choices<'a> {
    base: Point,
    generators: &'a [Point],
}

// A reach within the limit, and one generator more. Takes it by value: the prover knows no range of a number read through `&`.
fn reach_with(reach: u32, generator: Point) -> u32
    requires { reach ≤ 1000000 }
    ensures { result ≡ reach + size generator }
{
    reach + generator.size()
}

impl Choices<'_> {
    // The size of the base plus that of each generator. With no test on its way the walk takes several generators at a time.
    fn span(&self) -> u64
        requires { length self.now.generators.now ≤ 64 }
        ensures { result ≡ span (size self.now.base) self.now.generators.now }
    {
        let mut reach = u64::from(self.base.size());
        for generator in self.generators {
            reach += u64::from(generator.size());
        }
        reach
    }

    // That sum, or the fault after the base or the generator that first takes it beyond the limit.
    fn running_reach(&self) -> Result<u32, Fault>
        requires { length self.now.generators.now ≤ 64 }
        ensures { result ≡ limited (overrun (size self.now.base) self.now.generators.now) (span (size self.now.base) self.now.generators.now) }
    {
        let mut reach = limited(0, self.base.size())?;
        for (added, generator) in self.generators.iter().enumerate() {
            // `as`: generators are few, and `try_from` would leave an arm that is never taken.
            reach = limited(added as u32 + 1, reach_with(reach, *generator))?;
        }
        Ok(reach)
    }
}

impl Shape for Choices<'_> {
    ghost meaning = { λ z. zonotope_meaning z.base z.generators.now };

    ghost bounded = { λ z. zonotope_bounded z.base z.generators.now };

    fn judge(&self) -> Result<u32, Fault> {
        // `as`: no `From` leads from 32 bits to the width of a length.
        if self.generators.len() > MOST as usize {
            return Err(Fault::new(Cause::TooManyPoints, MOST));
        }
        let span = self.span();
        if span > u64::from(LIMIT) {
            // Only a zonotope that is refused is walked again, for the place.
            return self.running_reach();
        }
        // `as`: it is tested, and `try_from` would leave an arm that is never taken.
        Ok(span as u32)
    }

    // The base plus each generator that lies beyond the origin.
    fn farthest(&self, u: Direction) -> Point {
        let mut best = self.base;
        for generator in self.generators {
            if u.beyond(ORIGIN, *generator) {
                best = Near { at: best }.plus(Near { at: *generator });
            }
        }
        best
    }
}

impl<'a> Zonotope<'a> {
    pub fn new(base: Point, generators: &'a [Point]) -> Zonotope<'a>
        ensures at { result.shape.base ≡ base }
        ensures over { result.shape.generators.now ≡ generators.now }
    {
        Judged::over(Choices { base, generators })
    }
}
