ghost use Rattle.std.specs.Prelude.{◌≡◌};
ghost use Rattle.survey.specs.Calls.{make as made, stand, telling, leaves_from, tells_from, surveyed, all_told, calls_of, told_of, each_told};

use crate::survey::Survey;
use body::body::Body;
use calls::{Call, Entry, Told};
use plane::point::Point;

impl<A: Body> Survey<A> {
    // Makes one call; an outline is read into the first slots of the buffer.
    #[tactic(auto, using(std::proofs::lemmas::List::take_min, std::proofs::lemmas::List::drop_min))]
    fn make(&mut self, call: Call, buffer: &mut [Point]) -> Told
        ensures held { self.new.body ≡ self.old.body }
        ensures tells { telling result ≡ (made (A.Body.meaning self.old.body) (stand self.old buffer.old) call).tells }
        ensures leaves { stand self.new buffer.new ≡ (made (A.Body.meaning self.old.body) (stand self.old buffer.old) call).leaves }
    {
        match call {
            Call::Probe => Told::Probe(self.probe()),
            Call::Run(budget) => Told::Run(self.run(budget)),
            Call::Counts => Told::Counts(self.counts()),
            Call::Corner(i) => Told::Corner(self.corner(i)),
            Call::Outline(slots) => {
                let n = slots.min(buffer.len());
                Told::Outline(self.outline(&mut buffer[..n]))
            }
        }
    }

    // Makes the calls of a log, in its order; each entry keeps what its call told. Log and buffer are lent, each for itself.
    fn make_all(&mut self, log: &mut [Entry], buffer: &mut [Point])
        ensures held { self.new.body ≡ self.old.body }
        ensures calls { calls_of log.new ≡ calls_of log.old }
        ensures tells { told_of log.new ≡ each_told (tells_from (A.Body.meaning self.old.body) (stand self.old buffer.old) (calls_of log.old)) }
        ensures leaves { stand self.new buffer.new ≡ leaves_from (A.Body.meaning self.old.body) (stand self.old buffer.old) (calls_of log.old) }
    {
        for entry in log.iter_mut() {
            entry.told = Some(self.make(entry.call, buffer));
        }
    }
}

// Makes the calls of a log, in its order, on a survey of the body from its opening; each entry keeps what its call told.
pub fn replay<A: Body>(body: A, log: &mut [Entry], buffer: &mut [Point]) -> Survey<A>
    ensures held { result.body ≡ body }
    ensures calls { calls_of log.new ≡ calls_of log.old }
    ensures tells { told_of log.new ≡ each_told (all_told (A.Body.meaning body) buffer.old (calls_of log.old)) }
    ensures leaves { stand result buffer.new ≡ surveyed (A.Body.meaning body) buffer.old (calls_of log.old) }
{
    let mut survey = Survey::open(body);
    survey.make_all(log, buffer);
    survey
}
