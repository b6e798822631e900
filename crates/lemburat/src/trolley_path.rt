// A second sample: a loaded trolley on its way from one place to the next.
ghost use Rattle.std.specs.Prelude.{◌≡◌, ◌≤◌, ◌++◌, length, drop, Ok};
ghost use Rattle.lemburat.specs.Samples.{trolley, path_corners};

use crate::outline;
use body::body::Body;
use body::ring::Ring;
use body::zonotope::Zonotope;
use calls::Counts;
use layers::layers::{Join, Move, Sum};
use plane::fault::Fault;
use plane::point::{ORIGIN, Point};

// A trolley of 1200 by 800, by its two sides from the corner at the origin.
const TROLLEY: [Point; 2] = [Point { x: 1200, y: 0 }, Point { x: 0, y: 800 }];

// Its load may shift by 100 along either axis, so it covers a diamond around each point of the trolley.
const LOAD: [Point; 4] = [
    Point { x: 100, y: 0 },
    Point { x: 0, y: 100 },
    Point { x: -100, y: 0 },
    Point { x: 0, y: -100 },
];

// Where the trolley stands, and where it goes from there.
const PLACE: Point = Point { x: 2000, y: 500 };

const NEXT_PLACE: Point = Point { x: 3500, y: 1500 };

// A trolley with its load, at a place.
type Trolley = Move<Sum<Zonotope<'static>, Ring<'static>>>;

// The trolley with its load, moved to a place.
fn loaded_trolley(by: Point) -> Trolley
    ensures { ⟦<Trolley as Body>⟧.meaning result ≡ trolley by }
{
    let part = Sum {
        left: Zonotope::new(ORIGIN, &TROLLEY),
        right: Ring::new(&LOAD),
    };
    Move { part, by }
}

// Surveys the trolley on its way until closed: ten corners, which go into the first slots.
fn outline_path(slots: &mut [Point]) -> Result<Counts, Fault>
    requires { 10 ≤ length slots.old }
    ensures tells { result ≡ Ok (record { corners = 10; probes = 20 }) }
    ensures writes { slots.new ≡ path_corners ++ drop 10 slots.old }
{
    let path = Join {
        left: loaded_trolley(PLACE),
        right: loaded_trolley(NEXT_PLACE),
    };
    outline(path, slots)
}

#[cfg(test)]
mod tests {
    use super::*;
    use std::process::Abort;
    use std::test::Fail;

    #[test]
    fn ten_corners(rt: HostRuntime) -> Result<(), Fail> {
        let mut slots = [ORIGIN; 12];
        outlines_path(&rt, &mut slots)
    }

    // The corners worked out by hand: the octagon of trolley and load at both places, and the way between them.
    fn outlines_path(rt: &impl Abort, slots: &mut [Point]) -> Result<(), Fail> {
        assert!(rt; slots.len() == 12);
        let counts = outline_path(slots)?;
        assert_eq!(rt; counts.corners, 10);
        assert_eq!(rt; counts.probes, 20);
        assert_eq!(rt; slots[0], Point { x: 4800, y: 2300 });
        assert_eq!(rt; slots[3], Point { x: 2000, y: 1400 });
        assert_eq!(rt; slots[9], Point { x: 4800, y: 1500 });
        assert_eq!(rt; slots[10], ORIGIN);
        Ok(())
    }
}
