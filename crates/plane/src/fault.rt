ghost use Rattle.std.specs.Prelude.{◌≡◌, Some};
ghost use Rattle.plane.specs.Fault.{number, fault};
ghost use Rattle.plane.specs.Text.{fault_text};

use std::error::Error;
use std::fmt;

// Why a call is refused; `number` is what is printed.
#[derive(Clone, Copy, PartialEq, Eq, Debug)]
pub enum Cause {
    TextTooLong = 1,
    NoToken = 2,
    NumberTooLarge = 3,
    TokenNotAllowed = 4,
    TooDeep = 5,
    NoNodeSlot = 6,
    NoPointSlot = 7,
    BrokenTable = 8,
    NoPoints = 9,
    TooManyPoints = 10,
    BeyondReach = 11,
    UnlawfulStep = 12,
    NoDirection = 13,
    TooManyCorners = 14,
    NoSuchCorner = 15,
    NotClosed = 16,
    BufferTooShort = 17,
}

impl Cause {
    pub fn number(self) -> u8
        ensures { result ≡ number self }
    {
        // `as`: the one way from a variant to the number that it is declared with.
        self as u8
    }
}

// A refusal: its cause, the place it speaks of, and how many layers it came up through.
#[derive(Clone, Copy, PartialEq, Eq, Debug)]
pub struct Fault {
    pub cause: Cause,
    pub place: u32,
    pub layer: u8,
}

impl Fault {
    // A fault where it arises, under no layer yet.
    pub fn new(cause: Cause, place: u32) -> Fault
        ensures { result ≡ fault cause place }
    {
        Fault {
            cause,
            place,
            layer: 0,
        }
    }
}

impl fmt::Display for Fault {
    ghost output = { λ f. Some (fault_text f) };

    fn fmt<W: fmt::Write>(&self, f: &mut fmt::Formatter<W>) -> fmt::Result {
        write!(
            f,
            "refused {} {} {}",
            self.cause.number(),
            self.place,
            self.layer
        )
    }
}

impl Error for Fault {}
