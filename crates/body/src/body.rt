ghost use Rattle.std.specs.Prelude.{◌≡◌};
ghost use Rattle.plane.specs.Plane.{vector};
ghost use Rattle.body.specs.Meaning.{Meaning, Bounded, Answers};

use plane::direction::Direction;
use plane::fault::Fault;
use plane::point::Point;

// Whatever has a meaning within the bounds and shows it in both answers.
pub trait Body {
    ghost meaning: { Self → Meaning };

    // The reach of a sound body, or the fault of a faulty one.
    fn verdict(&self) -> Result<u32, Fault>
        ensures { result ≡ (meaning self.now).verdict };

    // The support point in direction u, or the fault of a faulty body.
    fn support(&self, u: Direction) -> Result<Point, Fault>
        ensures { Answers (meaning self.now) (vector u) result };

    // A sound body keeps its bounds.
    ghost bounded: { (b : Self) → Bounded (meaning b) };
}
