// A body that counts its questions, written against the trait alone.
use body::body::Body;
use plane::direction::Direction;
use plane::fault::Fault;
use plane::point::Point;
use std::cell::Cell;

// How often each question was asked.
#[derive(Default, Drop)]
pub struct Asked {
    pub verdicts: Cell<u32>,
    pub supports: Cell<u32>,
}

// Means and answers what its part does, and counts.
#[derive(Drop)]
pub struct Counted<'a, B> {
    pub part: B,
    pub asked: &'a Asked,
}

impl<B: Body> Body for Counted<'_, B> {
    ghost meaning = { λ c. B.Body.meaning c.part };

    ghost bounded = { λ c. B.Body.bounded c.part };

    fn verdict(&self) -> Result<u32, Fault> {
        self.asked.verdicts.update(|n| n.wrapping_add(1));
        self.part.verdict()
    }

    fn support(&self, u: Direction) -> Result<Point, Fault> {
        self.asked.supports.update(|n| n.wrapping_add(1));
        self.part.support(u)
    }
}
