#![tactic(auto)]

ghost use Rattle.std.specs.Prelude.{◌≡◌};
ghost use Rattle.survey.specs.Rules.{until_closed};
ghost use Rattle.survey.specs.State.{state};
ghost use Rattle.lemburat.specs.Outline.{outline_of, counts_of};

use body::body::Body;
use body::set::Set;
use calls::{Counts, Ended, Ran};
use plane::fault::Fault;
use plane::point::{ORIGIN, Point};
use std::io;
use survey::survey::Survey;

mod trolley_path;

// A rectangle of 2 by 1 whose upper side is measured at its middle too.
const SAMPLE: [Point; 5] = [
    Point { x: 0, y: 0 },
    Point { x: 2, y: 0 },
    Point { x: 2, y: 1 },
    Point { x: 0, y: 1 },
    Point { x: 1, y: 1 },
];

// No survey makes more probes: each finds one of 256 corners or settles one of 256 edges.
const PROBES: u32 = 512;

// Surveys the body from an opening until closed or refused.
fn surveyed<A: Body>(body: A) -> (Survey<A>, Ran)
    ensures tells { result.1 ≡ (until_closed (A.Body.meaning body)).tells }
    ensures leaves { state result.0 ≡ (until_closed (A.Body.meaning body)).leaves }
{
    let mut survey = Survey::open(body);
    let told = survey.run(PROBES);
    (survey, told)
}

// Surveys the body until closed, and writes its corners into the first slots.
fn outline<A: Body + Drop>(body: A, slots: &mut [Point]) -> Result<Counts, Fault>
    ensures tells { result ≡ counts_of (A.Body.meaning body) slots.old }
    ensures writes { slots.new ≡ (outline_of (A.Body.meaning body) slots.old).buffer }
{
    let (survey, told) = surveyed(body);
    if let Ended::Refused(fault) = told.ended {
        return Err(fault);
    }
    survey.outline(slots)?;
    Ok(survey.counts())
}

fn main(rt: HostRuntime) -> io::Result<()> {
    let mut slots = [ORIGIN; 256];
    match outline(Set::new(&SAMPLE), &mut slots) {
        Ok(counts) => {
            println!(rt; "{counts}")?;
            for corner in slots.iter().take(counts.corners) {
                println!(rt; "{corner}")?;
            }
            Ok(())
        }
        Err(fault) => println!(rt; "{fault}"),
    }
}
