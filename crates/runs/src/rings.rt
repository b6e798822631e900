use crate::expect::{faulty, outlines, points, refuses};
use crate::outlines::fill_with_parabola;
use body::body::Body;
use body::ring::Ring;
use plane::fault::{Cause, Fault};
use plane::point::{ORIGIN, Point};
use std::process::Abort;
use std::test::Fail;

fn unlawful(rt: &impl Abort, corners: &[Point], step: u32, why: &str) {
    let fault = Fault::new(Cause::UnlawfulStep, step);
    assert_eq!(rt; Ring::new(corners).verdict(), Err(fault), "{why}");
    refuses(rt, Ring::new(corners), fault);
}

#[test]
fn unlawful_steps(rt: HostRuntime) {
    unlawful(&rt, &points![0, 0; 2, 0; 2, 2], 2, "the last step falls");
    unlawful(
        &rt,
        &points![0, 0; 2, 0],
        1,
        "of two corners only the rise counts",
    );
    unlawful(
        &rt,
        &points![5, 5; 5, 5],
        1,
        "a last step that ends where it starts",
    );
    unlawful(
        &rt,
        &points![2, 2; 1, 1; 0, 0; 2, 0],
        1,
        "no turn at (1, 1)",
    );
    unlawful(&rt, &points![2, 2; 2, 0; 0, 0], 0, "clockwise");
    let twice = points![2, 2; 0, 2; 0, 0; 2, 0; 2, 2; 0, 2; 0, 0; 2, 0];
    unlawful(&rt, &twice, 4, "twice round");
}

#[test]
fn lawful_rings(rt: HostRuntime) -> Result<(), Fail> {
    let triangle = points![2, 2; 0, 0; 2, 0];
    outlines(&rt, Ring::new(&triangle), &triangle)?;
    let segment = points![2, 0; 0, 0];
    outlines(&rt, Ring::new(&segment), &segment)?;
    let point = points![-7, 3];
    outlines(&rt, Ring::new(&point), &point)
}

// A parabola's points from the rightmost over the upper edge to the leftmost, and back along the lower side.
#[test]
fn most_corners(rt: HostRuntime) -> Result<(), Fail> {
    closes(&rt, &mut [Point { x: 127, y: 16_129 }; 256])
}

fn closes(rt: &impl Abort, corners: &mut [Point]) -> Result<(), Fail> {
    assert!(rt; corners.len() == 256);
    fill_with_parabola(&mut corners[1..256]);
    outlines(rt, Ring::new(corners), corners)
}

#[test]
fn faulty_rings(rt: HostRuntime) {
    faulty(&rt, Ring::new(&[]), Cause::NoPoints, 0);
    faulty(&rt, Ring::new(&[ORIGIN; 257]), Cause::TooManyPoints, 256);
    // before any step
    let far = points![0, 0; 2, 1_000_001; 2, 2];
    faulty(&rt, Ring::new(&far), Cause::BeyondReach, 1);
}
