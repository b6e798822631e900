// A body that has a given fault.
ghost use Rattle.std.specs.Prelude.{[], Err};

use body::body::Body;
use plane::direction::Direction;
use plane::fault::Fault;
use plane::point::Point;

#[derive(Clone, Copy)]
pub struct Faulty(pub Fault);

impl Body for Faulty {
    ghost meaning = { λ b. record { verdict = Err b.0; points = [] } };

    ghost bounded = { λ b. record { bounds = tt } };

    fn verdict(&self) -> Result<u32, Fault> {
        Err(self.0)
    }

    fn support(&self, _u: Direction) -> Result<Point, Fault> {
        Err(self.0)
    }
}
