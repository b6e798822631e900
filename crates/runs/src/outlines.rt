use crate::counted::{Asked, Counted};
use crate::expect::{outlines, points};
use body::set::Set;
use calls::{Counts, Ended, Ran};
use plane::fault::{Cause, Fault};
use plane::point::{ORIGIN, Point};
use std::process::Abort;
use std::test::Fail;
use survey::survey::Survey;

// The points (x, x²) for x from -128 on: any number of these are all corners.
pub(crate) fn fill_with_parabola(points: &mut [Point]) {
    for (point, x) in points.iter_mut().zip(-128i32..) {
        *point = Point {
            x,
            y: x.wrapping_mul(x),
        };
    }
}

// The middle of the upper side, (1, 1), ties with its ends and is no corner.
#[test]
fn rectangle(rt: HostRuntime) -> Result<(), Fail> {
    let rectangle = points![0, 0; 2, 0; 2, 1; 0, 1; 1, 1];
    outlines(&rt, Set::new(&rectangle), &points![2, 1; 0, 1; 0, 0; 2, 0])
}

#[test]
fn one_point_twice(rt: HostRuntime) -> Result<(), Fail> {
    outlines(&rt, Set::new(&points![5, 5; 5, 5]), &points![5, 5])
}

// (3, 1) lies on the segment from (0, 0) to (6, 2).
#[test]
fn segment(rt: HostRuntime) -> Result<(), Fail> {
    let segment = points![0, 0; 3, 1; 6, 2];
    outlines(&rt, Set::new(&segment), &points![6, 2; 0, 0])
}

// The first open edge is always the leftmost, and the tangent to a chord touches at the middle: when the corner at
// x = 127 is the only one missing, the upper edge and the 254 edges left of x = 126 are settled.
#[test]
fn too_many_corners(rt: HostRuntime) {
    one_corner_too_many(&rt, &mut [ORIGIN; 257]);
}

fn one_corner_too_many(rt: &impl Abort, points: &mut [Point]) {
    fill_with_parabola(points);
    let mut survey = Survey::open(Set::new(points));
    let full = Fault::new(Cause::TooManyCorners, 0);
    let ended = Ended::Refused(full);
    assert_eq!(rt; survey.run(1000), Ran { made: 511, ended });
    assert_eq!(rt; survey.probe(), Err(full));
    assert_eq!(rt; survey.run(1000), Ran { made: 0, ended });
    let counts = Counts {
        corners: 256,
        probes: 511,
    };
    assert_eq!(rt;
        survey.counts(),
        counts,
        "a refused probe loses and counts nothing"
    );
}

// 251 corners, with x from -128 to 122, among 1,024 points, the others inside: two probes for each corner, one question for
// each probe, and no verdict asked.
#[test]
fn one_walk_for_each_probe(rt: HostRuntime) {
    one_question_for_each_probe(&rt, &mut [Point { x: 3, y: 12000 }; 1024]);
}

fn one_question_for_each_probe(rt: &impl Abort, points: &mut [Point]) {
    assert!(rt; points.len() == 1024);
    fill_with_parabola(&mut points[0..251]);
    let asked = Asked::default();
    let part = Set::new(points);
    let mut survey = Survey::open(Counted {
        part,
        asked: &asked,
    });
    let ended = Ended::Closed;
    assert_eq!(rt; survey.run(1000), Ran { made: 502, ended });
    assert_eq!(rt; survey.counts().corners, 251);
    assert_eq!(rt; asked.supports.get(), 502);
    assert_eq!(rt; asked.verdicts.get(), 0);
}
