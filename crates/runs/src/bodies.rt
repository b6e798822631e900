use crate::expect::{faulty, points};
use body::body::Body;
use body::near::Near;
use body::set::Set;
use plane::direction::Direction;
use plane::fault::Cause;
use plane::point::{ORIGIN, Point};
use std::test::Fail;

#[test]
fn faulty_sets(rt: HostRuntime) {
    faulty(&rt, Set::new(&[]), Cause::NoPoints, 0);
    faulty(&rt, Set::new(&[ORIGIN; 1025]), Cause::TooManyPoints, 1024);
    let far = points![0, 0; 1_000_001, 0; 0, -1_000_001];
    faulty(&rt, Set::new(&far), Cause::BeyondReach, 1);
    faulty(&rt, Set::new(&points![7, i32::MIN]), Cause::BeyondReach, 0);
    let mut many = [ORIGIN; 1025];
    many[2] = Point { x: 2_000_000, y: 0 };
    // the lower cause comes first
    faulty(&rt, Set::new(&many), Cause::TooManyPoints, 1024);
}

#[test]
fn reach(rt: HostRuntime) {
    let most = [ORIGIN; 1024];
    let set = Set::new(&most);
    assert_eq!(rt; set.verdict(), Ok(0));
    let points = points![3, -8; -1_000_000, 4];
    let wide = Set::new(&points);
    assert_eq!(rt; wide.verdict(), Ok(1_000_000));
}

// In direction (0, 1) three points tie; perp(0, 1) = (-1, 0) prefers the leftmost.
#[test]
fn ties(rt: HostRuntime) -> Result<(), Fail> {
    let points = points![1, 1; 0, 1; 2, 1; 0, 0];
    let set = Set::new(&points);
    assert_eq!(rt;
        set.support(Direction::new(0, 1)?),
        Ok(Point { x: 0, y: 1 })
    );
    assert_eq!(rt; set.support(Direction::new(0, -3)?), Ok(ORIGIN));
    assert_eq!(rt; set.support(Direction::east()), Ok(Point { x: 2, y: 1 }));
    Ok(())
}

// At the ends of what is near: no sum and no difference of two such points passes 32 bits.
#[test]
fn near_points(rt: HostRuntime) {
    let p = Near {
        at: Point {
            x: 1_000_000,
            y: -1_000_000,
        },
    };
    let q = Near {
        at: Point { x: -3, y: 4 },
    };
    assert_eq!(rt;
        p.plus(p),
        Point {
            x: 2_000_000,
            y: -2_000_000
        }
    );
    assert_eq!(rt;
        p.minus(q),
        Point {
            x: 1_000_003,
            y: -1_000_004
        }
    );
    assert_eq!(rt; q.perp().at, Point { x: -4, y: -3 });
}
