use crate::counted::{Asked, Counted};
use crate::expect::{faulty, outlines, points, refuses};
use crate::faulty::Faulty;
use body::body::Body;
use body::ring::Ring;
use body::set::Set;
use body::zonotope::Zonotope;
use layers::layers::{Half, Join, Move, Quarter, Sum};
use plane::direction::Direction;
use plane::fault::{Cause, Fault};
use plane::point::{ORIGIN, Point};
use std::process::Abort;
use std::test::Fail;
use survey::survey::Survey;

// A unit square as a zonotope: above it, (0, 1) and (1, 1) tie, and perp(0, 1) = (-1, 0) prefers (0, 1).
#[test]
fn zonotope(rt: HostRuntime) -> Result<(), Fail> {
    let generators = points![1, 0; 0, 1];
    let square = Zonotope::new(ORIGIN, &generators);
    assert_eq!(rt;
        square.support(Direction::new(0, 1)?),
        Ok(Point { x: 0, y: 1 })
    );
    outlines(&rt, square, &points![1, 1; 0, 1; 0, 0; 1, 0])?;
    let point = Zonotope::new(Point { x: 3, y: -4 }, &[]);
    assert_eq!(rt; point.verdict(), Ok(4));
    let least = Zonotope::new(ORIGIN, &[Point { x: -15_625, y: 0 }; 64]);
    assert_eq!(rt; least.verdict(), Ok(1_000_000));
    outlines(&rt, least, &points![0, 0; -1_000_000, 0])
}

#[test]
fn faulty_zonotopes(rt: HostRuntime) {
    let many = [Point { x: i32::MIN, y: 0 }; 65];
    let wide = Zonotope::new(ORIGIN, &many);
    faulty(&rt, wide, Cause::TooManyPoints, 64);
    let far = Zonotope::new(Point { x: 0, y: i32::MIN }, &many[0..64]);
    faulty(&rt, far, Cause::BeyondReach, 0);
    let first = Zonotope::new(ORIGIN, &many[0..64]);
    faulty(&rt, first, Cause::BeyondReach, 1);
    let generators = points![600_000, 0; 0, -400_000; 0, 0; 1, 0; 1, 0];
    faulty(
        &rt,
        Zonotope::new(ORIGIN, &generators),
        Cause::BeyondReach,
        4,
    );
}

// Half a turn takes (3, 1) to (-3, -1): its end to the right is (0, 0), its end to the left (-3, -1).
#[test]
fn turns(rt: HostRuntime) -> Result<(), Fail> {
    let segment = points![0, 0; 3, 1];
    let part = Set::new(&segment);
    let half = Half { part };
    assert_eq!(rt; half.support(Direction::east()), Ok(ORIGIN));
    outlines(&rt, half, &points![0, 0; -3, -1])?;
    outlines(&rt, Quarter { part }, &points![0, 0; -1, 3])
}

// The sum of a unit square and a set turned by a half is a square from (-1, 0) to (1, 2), moved to lie from (9, 0) to
// (11, 2). A quarter turn takes the ring to the triangle (0, 8), (-8, 0), (0, 0). Of both together (0, 0) and (9, 0) lie on
// the lower side, and (9, 2) below the line from (11, 2) to (0, 8). The reaches: 2 and 1, summed and moved 13, against 8.
#[test]
fn pile(rt: HostRuntime) -> Result<(), Fail> {
    let square = points![1, 0; 0, 1];
    let set = points![1, 0; 0, -1; 1, -1; 0, 0];
    let ring = points![8, 0; 0, 8; 0, 0];
    let left: Move<Sum<Zonotope, Half<Set>>> = Move {
        part: Sum {
            left: Zonotope::new(ORIGIN, &square),
            right: Half {
                part: Set::new(&set),
            },
        },
        by: Point { x: 10, y: 0 },
    };
    let right = Quarter {
        part: Ring::new(&ring),
    };
    let pile: Join<Move<Sum<Zonotope, Half<Set>>>, Quarter<Ring>> = Join { left, right };
    assert_eq!(rt; pile.verdict(), Ok(13));
    outlines(&rt, pile, &points![11, 2; 0, 8; -8, 0; 11, 0])
}

fn layered(cause: Cause, place: u32, layer: u8) -> Fault {
    Fault {
        cause,
        place,
        layer,
    }
}

#[test]
fn faults_come_up(rt: HostRuntime) -> Result<(), Fail> {
    let far = points![1_000_000, 0];
    let part = Set::new(&far);
    outlines(&rt, part, &far)?;
    let by = Point { x: 1, y: 0 };
    let beyond = layered(Cause::BeyondReach, 0, 0);
    refuses(&rt, Move { part, by }, beyond);
    refuses(
        &rt,
        Sum {
            left: part,
            right: Move { part, by: ORIGIN },
        },
        beyond,
    );
    let empty = Set::new(&[]);
    let left = Half { part: empty };
    refuses(
        &rt,
        Sum { left, right: empty },
        layered(Cause::NoPoints, 0, 2),
    );
    Ok(())
}

// The left part is asked first, each layer adds one, and 255 stays.
#[test]
fn layer_numbers(rt: HostRuntime) {
    let left = Faulty(layered(Cause::BrokenTable, 7, 253));
    let right = Faulty(layered(Cause::UnlawfulStep, 3, 4));
    refuses(
        &rt,
        Join { left, right },
        layered(Cause::BrokenTable, 7, 254),
    );
    let part = Half { part: left };
    refuses(
        &rt,
        Quarter {
            part: Quarter { part },
        },
        layered(Cause::BrokenTable, 7, 255),
    );
    let sound = Set::new(&[ORIGIN]);
    refuses(
        &rt,
        Sum { left: sound, right },
        layered(Cause::UnlawfulStep, 3, 5),
    );
}

// A sum asks each part for its verdict and its support point once for each probe; the sum of a triangle with itself is
// one of twice the size, which takes six probes.
#[test]
fn one_question_for_each_part(rt: HostRuntime) -> Result<(), Fail> {
    let triangle = points![2, 2; 0, 0; 2, 0];
    let part = Ring::new(&triangle);
    let of_left = Asked::default();
    let of_right = Asked::default();
    let left = Counted {
        part,
        asked: &of_left,
    };
    let right = Counted {
        part,
        asked: &of_right,
    };
    let mut survey = Survey::open(Sum { left, right });
    assert_eq!(rt; survey.run(1000).made, 6);
    assert_eq!(rt; of_left.supports.get(), 6);
    assert_eq!(rt; of_left.verdicts.get(), 6);
    assert_eq!(rt; of_right.supports.get(), 6);
    assert_eq!(rt; of_right.verdicts.get(), 6);
    Ok(())
}
