ghost use Rattle.std.specs.Prelude.{◌≡◌};
ghost use Rattle.survey.specs.Rules.{run as ran};
ghost use Rattle.survey.specs.State.{state};

use crate::survey::Survey;
use body::body::Body;
use calls::{Ended, Ran, Said};

impl<A: Body> Survey<A> {
    // Makes probes while the budget lasts, and tells how many were counted and what ended it.
    pub fn run(&mut self, budget: u32) -> Ran
        ensures held { self.new.body ≡ self.old.body }
        ensures tells { result ≡ (ran (A.Body.meaning self.old.body) budget (state self.old)).tells }
        ensures leaves { state self.new ≡ (ran (A.Body.meaning self.old.body) budget (state self.old)).leaves }
    {
        // Counts probes; no list is walked.
        for made in 0..budget {
            match self.probe() {
                Ok(Said::Corner | Said::Settled) => {}
                Ok(Said::Closed) => return Ran {
                    made,
                    ended: Ended::Closed,
                },
                Err(fault) => return Ran {
                    made,
                    ended: Ended::Refused(fault),
                },
            }
        }
        let ended = if self.is_closed() {
            Ended::Closed
        } else {
            Ended::Spent
        };
        Ran {
            made: budget,
            ended,
        }
    }
}
