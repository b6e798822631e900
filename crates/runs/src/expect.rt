// What a body is expected to do, asked directly and through a survey.
use body::body::Body;
use calls::{Counts, Ended, Ran};
use plane::direction::Direction;
use plane::fault::{Cause, Fault};
use plane::point::Point;
use std::process::Abort;
use std::test::Fail;
use survey::survey::Survey;

// An array of points, by their coordinates.
macro_rules! points {
    ($($x:expr, $y:expr);*) => { [$(Point { x: $x, y: $y }),*] };
}

pub(crate) use points;

// A faulty body gives its fault to both questions, to a probe and to a run, and the survey stays empty.
pub(crate) fn refuses<B: Body + Drop>(rt: &impl Abort, body: B, fault: Fault) {
    assert_eq!(rt; body.verdict(), Err(fault));
    assert_eq!(rt; body.support(Direction::east()), Err(fault));
    let mut survey = Survey::open(body);
    assert_eq!(rt; survey.probe(), Err(fault));
    let ended = Ended::Refused(fault);
    assert_eq!(rt; survey.run(5), Ran { made: 0, ended });
    let counts = Counts {
        corners: 0,
        probes: 0,
    };
    assert_eq!(rt; survey.counts(), counts);
}

// A body that is faulty under no layer.
pub(crate) fn faulty<B: Body + Drop>(rt: &impl Abort, body: B, cause: Cause, place: u32) {
    refuses(rt, body, Fault::new(cause, place));
}

// Surveyed until closed, a body has two probes for each corner, and the corners in this order.
pub(crate) fn outlines<B: Body + Drop>(
    rt: &impl Abort,
    body: B,
    corners: &[Point],
) -> Result<(), Fail> {
    let mut survey = Survey::open(body);
    assert_eq!(rt; survey.run(1000).ended, Ended::Closed);
    for (i, at) in corners.iter().enumerate() {
        assert_eq!(rt; survey.corner(i)?.at, *at);
    }
    let counts = Counts {
        corners: corners.len(),
        probes: u32::try_from(corners.len().wrapping_mul(2))?,
    };
    assert_eq!(rt; survey.counts(), counts);
    Ok(())
}
