use body::set::Set;
use calls::{Call, Corner, Counts, Ended, Entry, Ran, Said, Told};
use plane::direction::Direction;
use plane::fault::{Cause, Fault};
use plane::point::Point;
use std::process::Abort;
use std::test::Fail;
use survey::replay::replay;
use survey::survey::Survey;

// What a slot holds that nothing is written to.
const MARK: Point = Point { x: 7, y: 7 };

const SQUARE: [Point; 4] = [
    Point { x: 0, y: 0 },
    Point { x: 2, y: 0 },
    Point { x: 2, y: 2 },
    Point { x: 0, y: 2 },
];

// A square closes after 8 probes: budgets, one run after the other, with how many probes each makes and what ends it.
const RUNS: [(u32, Ran); 7] = [
    (
        0,
        Ran {
            made: 0,
            ended: Ended::Spent,
        },
    ),
    (
        1,
        Ran {
            made: 1,
            ended: Ended::Spent,
        },
    ),
    (
        6,
        Ran {
            made: 6,
            ended: Ended::Spent,
        },
    ),
    (
        1,
        Ran {
            made: 1,
            ended: Ended::Closed,
        },
    ),
    (
        0,
        Ran {
            made: 0,
            ended: Ended::Closed,
        },
    ),
    (
        9,
        Ran {
            made: 0,
            ended: Ended::Closed,
        },
    ),
    (
        u32::MAX,
        Ran {
            made: 0,
            ended: Ended::Closed,
        },
    ),
];

#[test]
fn budgets(rt: HostRuntime) {
    let mut survey = Survey::open(Set::new(&SQUARE));
    for (budget, ran) in RUNS {
        assert_eq!(rt; survey.run(budget), ran);
    }
    let mut whole = Survey::open(Set::new(&SQUARE));
    let ended = Ended::Closed;
    assert_eq!(rt; whole.run(u32::MAX), Ran { made: 8, ended });
}

fn entry(call: Call) -> Entry {
    Entry { call, told: None }
}

fn refused(cause: Cause) -> Fault {
    Fault::new(cause, 0)
}

// Makes the calls of the log on a survey of the square, and compares what each told.
fn follow(
    rt: &impl Abort,
    log: &mut [Entry],
    buffer: &mut [Point],
    expected: &[Told],
) -> Result<(), Fail> {
    let survey = replay(Set::new(&SQUARE), log, buffer);
    assert_eq!(rt; survey.counts().corners, 4);
    assert_eq!(rt; log.len(), expected.len());
    for (entry, told) in log.iter().zip(expected) {
        assert_eq!(rt; entry.told, Some(*told));
    }
    assert_eq!(rt;
        buffer.last().copied(),
        Some(MARK),
        "a slot after the corners stays"
    );
    Ok(())
}

// The first corner is (2, 2). In direction (-1, 0) the points (0, 0) and (0, 2) tie, and perp(-1, 0) = (0, -1) prefers
// (0, 0). From then on six probes find two corners more and settle four edges.
#[test]
fn history(rt: HostRuntime) -> Result<(), Fail> {
    let second = Corner {
        at: Point { x: 0, y: 0 },
        asked: Direction::west(),
    };
    let mut log = [
        entry(Call::Counts),
        entry(Call::Run(2)),
        entry(Call::Corner(1)),
        entry(Call::Run(100)),
        entry(Call::Probe),
        entry(Call::Counts),
        entry(Call::Outline(4)),
    ];
    let expected = [
        Told::Counts(Counts {
            corners: 0,
            probes: 0,
        }),
        Told::Run(Ran {
            made: 2,
            ended: Ended::Spent,
        }),
        Told::Corner(Ok(second)),
        Told::Run(Ran {
            made: 6,
            ended: Ended::Closed,
        }),
        Told::Probe(Ok(Said::Closed)),
        Told::Counts(Counts {
            corners: 4,
            probes: 8,
        }),
        Told::Outline(Ok(4)),
    ];
    follow(&rt, &mut log, &mut [MARK; 5], &expected)
}

// A corner too early, an outline of an open survey into too few slots, and one of a closed survey into too few.
#[test]
fn refused_readings(rt: HostRuntime) -> Result<(), Fail> {
    let mut log = [
        entry(Call::Corner(0)),
        entry(Call::Outline(0)),
        entry(Call::Probe),
        entry(Call::Corner(1)),
        entry(Call::Run(100)),
        entry(Call::Outline(3)),
        entry(Call::Corner(4)),
    ];
    let expected = [
        Told::Corner(Err(refused(Cause::NoSuchCorner))),
        Told::Outline(Err(refused(Cause::NotClosed))),
        Told::Probe(Ok(Said::Corner)),
        Told::Corner(Err(refused(Cause::NoSuchCorner))),
        Told::Run(Ran {
            made: 7,
            ended: Ended::Closed,
        }),
        Told::Outline(Err(refused(Cause::BufferTooShort))),
        Told::Corner(Err(refused(Cause::NoSuchCorner))),
    ];
    follow(&rt, &mut log, &mut [MARK; 4], &expected)
}
