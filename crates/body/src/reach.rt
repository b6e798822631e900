ghost use Rattle.std.specs.Prelude.{◌≡◌, ◌<◌, length, unwrap_or, IfSome};
ghost use Rattle.plane.specs.Plane.{vector};
ghost use Rattle.plane.specs.Support.{Supports};
ghost use Rattle.body.specs.Meaning.{limited};
ghost use Rattle.body.specs.Set.{reach, first_beyond, points_verdict};

use plane::direction::Direction;
use plane::fault::{Cause, Fault};
use plane::point::Point;

// The greatest reach of a sound body.
pub const LIMIT: u32 = 1_000_000;

// This reach, or the fault at this place where it is beyond the limit.
pub fn limited(place: u32, reach: u32) -> Result<u32, Fault>
    ensures { result ≡ limited place reach }
{
    if reach > LIMIT {
        return Err(Fault::new(Cause::BeyondReach, place));
    }
    Ok(reach)
}

// The largest size of a point. With no test on its way the walk takes several points at a time.
fn reach_of(points: &[Point]) -> u32
    ensures { result ≡ reach points.now }
{
    let mut reach = 0;
    for point in points {
        reach = point.size().max(reach);
    }
    reach
}

// The number of the first point beyond the limit, if there is one.
fn first_beyond(points: &[Point]) -> Option<usize>
    ensures value { first_beyond points.now ≡ unwrap_or result (length points.now) }
    ensures within { IfSome result (λ i. i < length points.now) }
{
    for (i, point) in points.iter().enumerate() {
        if point.size() > LIMIT {
            return Some(i);
        }
    }
    None
}

// The verdict of a list of 1 to `most` points.
pub(crate) fn judge(points: &[Point], most: u32) -> Result<u32, Fault>
    ensures { result ≡ points_verdict most points.now }
{
    if points.is_empty() {
        return Err(Fault::new(Cause::NoPoints, 0));
    }
    // `as`: no `From` leads from 32 bits to the width of a length.
    if points.len() > most as usize {
        return Err(Fault::new(Cause::TooManyPoints, most));
    }
    let greatest = reach_of(points);
    if greatest > LIMIT {
        // Only a list that is refused is walked again. `as`: the number of a point is bounded by `most`.
        let place = first_beyond(points).unwrap_or(points.len());
        return Err(Fault::new(Cause::BeyondReach, place as u32));
    }
    Ok(greatest)
}

// The support point of a list in direction u, in one walk over it.
pub(crate) fn farthest(points: &[Point], u: Direction) -> Point
    requires { 0 < length points.now }
    ensures { Supports (vector u) points.now result }
{
    let mut best = points[0];
    for point in &points[1..] {
        best = u.farther(best, *point);
    }
    best
}
