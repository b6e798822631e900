#![tactic(auto)]

// The calls on a survey and what they tell, as values.
ghost use Rattle.std.specs.Prelude.{◌≡◌, Some};
ghost use Rattle.plane.specs.Plane.{origin, vector, east};
ghost use Rattle.calls.specs.Text.{counts_text};

use plane::direction::Direction;
use plane::fault::Fault;
use plane::point::{ORIGIN, Point};
use std::fmt;

// A corner, with the direction that found it.
#[derive(Clone, Copy, PartialEq, Eq, Debug)]
pub struct Corner {
    pub at: Point,
    pub asked: Direction,
}

// What `ArrayVec` fills the slots with that no corner is in. By hand, since no direction is a default of its own.
impl Default for Corner {
    ghost is_default = { λ c. (c.at ≡ origin) × (vector c.asked ≡ east) };

    fn default() -> Corner {
        Corner {
            at: ORIGIN,
            asked: Direction::east(),
        }
    }
}

// What an accepted probe says: it found a corner, it settled an edge, or all was settled before it.
#[derive(Clone, Copy, PartialEq, Eq, Debug)]
pub enum Said {
    Corner,
    Settled,
    Closed,
}

// What ended a run.
#[derive(Clone, Copy, PartialEq, Eq, Debug)]
pub enum Ended {
    Closed,
    Spent,
    Refused(Fault),
}

// How many counted probes a run made, and what ended it.
#[derive(Clone, Copy, PartialEq, Eq, Debug)]
pub struct Ran {
    pub made: u32,
    pub ended: Ended,
}

// How many corners are found, and how many probes are counted.
#[derive(Clone, Copy, PartialEq, Eq, Debug)]
pub struct Counts {
    pub corners: usize,
    pub probes: u32,
}

impl fmt::Display for Counts {
    ghost output = { λ c. Some (counts_text c) };

    fn fmt<W: fmt::Write>(&self, f: &mut fmt::Formatter<W>) -> fmt::Result {
        write!(f, "corners {} probes {}", self.corners, self.probes)
    }
}

// A call on a survey; the outline is read into so many slots of a lent buffer.
#[derive(Clone, Copy)]
pub enum Call {
    Probe,
    Run(u32),
    Counts,
    Corner(usize),
    Outline(usize),
}

// What a call told.
#[derive(Clone, Copy, PartialEq, Eq, Debug)]
pub enum Told {
    Probe(Result<Said, Fault>),
    Run(Ran),
    Counts(Counts),
    Corner(Result<Corner, Fault>),
    Outline(Result<usize, Fault>),
}

// A call, and what it told once it is made.
#[derive(Clone, Copy)]
pub struct Entry {
    pub call: Call,
    pub told: Option<Told>,
}
