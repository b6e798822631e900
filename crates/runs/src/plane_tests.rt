use calls::Counts;
use plane::direction::Direction;
use plane::fault::{Cause, Fault};
use plane::point::Point;
use plane::products::{cross, normal};
use std::test::Fail;

const LEAST: Point = Point {
    x: i32::MIN,
    y: i32::MIN,
};

#[test]
fn directions(rt: HostRuntime) -> Result<(), Fail> {
    let none = Fault::new(Cause::NoDirection, 0);
    assert_eq!(rt; none.cause.number(), 13);
    assert_eq!(rt; Direction::new(0, 0), Err(none));
    assert_eq!(rt; Direction::new(2_000_001, 1), Err(none));
    assert_eq!(rt; Direction::new(1, i64::MIN), Err(none));
    let widest = Direction::new(2_000_000, -2_000_000)?;
    assert_eq!(rt; widest.perp(), Direction::new(2_000_000, 2_000_000)?);
    Ok(())
}

// The products at the ends of 32 bits: (-2^31)·(-2^31) - (-2^31)·(2^31 - 1) = 2^63 - 2^31.
#[test]
fn wide_products(rt: HostRuntime) -> Result<(), Fail> {
    let q = Point {
        x: i32::MAX,
        y: i32::MIN,
    };
    assert_eq!(rt; cross(LEAST, q), 9_223_372_034_707_292_160);
    assert_eq!(rt;
        Direction::new(2_000_000, 2_000_000)?.dot(LEAST),
        -8_589_934_592_000_000
    );
    assert_eq!(rt; LEAST.size(), 2_147_483_648);
    Ok(())
}

#[test]
fn normals(rt: HostRuntime) {
    let p = Point { x: 1, y: 1 };
    let q = Point { x: 4, y: 3 };
    assert_eq!(rt; normal(p, q), Direction::new(2, -3));
    assert_eq!(rt; normal(p, p), Direction::new(0, 0));
    assert_eq!(rt; normal(p, LEAST).is_ok(), false);
}

// What is printed of a refusal, a point and counts, in the form that docs/RULES.md gives.
#[test]
fn texts(rt: HostRuntime) -> Result<(), Fail> {
    let alloc = rt.alloc();
    let mut fault = Fault::new(Cause::UnlawfulStep, 2);
    assert_eq!(rt; format!(in alloc; "{fault}")?.as_str(), "refused 12 2 0");
    fault.layer = 255;
    fault.place = u32::MAX;
    assert_eq!(rt;
        format!(in alloc; "{fault}")?.as_str(),
        "refused 12 4294967295 255"
    );
    let point = Point { x: -7, y: i32::MIN };
    assert_eq!(rt; format!(in alloc; "{point}")?.as_str(), "-7 -2147483648");
    let counts = Counts {
        corners: 256,
        probes: 512,
    };
    assert_eq!(rt;
        format!(in alloc; "{counts}")?.as_str(),
        "corners 256 probes 512"
    );
    Ok(())
}
