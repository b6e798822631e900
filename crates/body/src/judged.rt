ghost use Rattle.std.specs.Prelude.{◌≡◌, IsOk, ⊤};
ghost use Rattle.plane.specs.Plane.{vector};
ghost use Rattle.plane.specs.Support.{Supports};
ghost use Rattle.body.specs.Meaning.{Meaning, Bounded};

use crate::body::Body;
use plane::direction::Direction;
use plane::fault::Fault;
use plane::point::Point;
use std::alloc::AllocError;

// What a plain body is made of: it can be judged, and once it is sound it has a farthest point.
pub(crate) trait Shape: Copy {
    ghost meaning: { Self → Meaning };

    fn judge(&self) -> Result<u32, Fault>
        ensures { result ≡ (meaning self.now).verdict };

    fn farthest(&self, u: Direction) -> Point
        requires { IsOk (meaning self.now).verdict }
        ensures { Supports (vector u) (meaning self.now).points result };

    // A sound shape keeps a body's bounds.
    ghost bounded: { (s : Self) → Bounded (meaning s) };
}

// A plain body, judged once, when it is made.
pub struct Judged<S: Shape> {
    shape: S,
    verdict: Result<u32, Fault>,
    ghost known: { verdict ≡ (S.Shape.meaning shape).verdict },
}

impl<S: Shape> Copy for Judged<S> {}

// By hand: the derive is refused over a ghost field of a generic struct. It promises what a derive does.
impl<S: Shape> Clone for Judged<S> {
    ghost is_clone = { λ x y. y ≡ x };

    ghost is_infallible = { λ _. ⊤ };

    fn clone(&self) -> Result<Judged<S>, AllocError> {
        Ok(*self)
    }
}

impl<S: Shape> Judged<S> {
    // Judges the shape, here and never again.
    pub(crate) fn over(shape: S) -> Judged<S>
        ensures { result.shape ≡ shape }
    {
        let verdict = shape.judge();
        Judged { shape, verdict }
    }
}

impl<S: Shape> Body for Judged<S> {
    ghost meaning = { λ j. S.Shape.meaning j.shape };

    ghost bounded = { λ j. S.Shape.bounded j.shape };

    fn verdict(&self) -> Result<u32, Fault> {
        self.verdict
    }

    fn support(&self, u: Direction) -> Result<Point, Fault> {
        self.verdict?;
        Ok(self.shape.farthest(u))
    }
}
