ghost use Rattle.std.specs.Prelude.{◌≡◌, ◌+◌, ◌<◌, ◌≤◌, false, length, OnErr};
ghost use Rattle.plane.specs.Directed.{Makes};
ghost use Rattle.plane.specs.Plane.{vector};
ghost use Rattle.survey.specs.Rules.{opened, closed, question, edge_end, probe as probed, about_edge, take_in};
ghost use Rattle.survey.specs.State.{state, found_by};

use crate::survey::Survey;
use arrayvec::ArrayVec;
use body::body::Body;
use calls::{Corner, Said};
use plane::direction::Direction;
use plane::fault::{Cause, Fault};
use plane::point::Point;
use plane::products::normal;

impl<A> Survey<A> {
    // Takes the body over, with nothing asked yet.
    pub fn open(body: A) -> Survey<A>
        ensures held { result.body ≡ body }
        ensures none { state result ≡ opened }
    {
        Survey {
            body,
            corners: ArrayVec::new(),
            settled: 0,
            probes: 0,
        }
    }

    // Whether something is found and every edge is settled.
    #[tactic(auto, using(crate::proofs::Marks::closed_marked))]
    pub(crate) fn is_closed(&self) -> bool
        ensures { result ≡ closed (state self.now) }
    {
        !self.corners.is_empty() && self.settled == self.corners.len()
    }

    // Where the first open edge ends.
    #[tactic(auto, using(crate::proofs::Marks::edge_end_marked))]
    fn edge_end(&self) -> Point
        requires { self.now.settled < length self.now.corners.items }
        ensures { result ≡ edge_end (state self.now).found self.now.settled }
    {
        match self.corners.get(self.settled + 1) {
            Some(corner) => corner.at,
            None => self.corners[0].at,
        }
    }

    // What the next probe asks.
    #[tactic(auto, using(crate::proofs::Marks::closed_marked, crate::proofs::Marks::question_single))]
    fn question(&self) -> Result<Direction, Fault>
        requires { closed (state self.now) ≡ false }
        ensures { Makes (question (state self.now).found) result }
    {
        match self.corners.as_slice() {
            [] => Ok(Direction::east()),
            [_] => Ok(Direction::west()),
            corners => normal(corners[self.settled].at, self.edge_end()),
        }
    }

    // Takes in a corner at place i, or refuses where there is no room.
    #[tactic(auto, using(crate::proofs::Marks::length_marked, crate::proofs::Marks::inserted_marked))]
    fn take_in(&mut self, i: usize, corner: Corner) -> Result<Said, Fault>
        requires after { self.old.settled ≤ i }
        requires within { i ≤ length self.old.corners.items }
        ensures held { self.new.body ≡ self.old.body }
        ensures says { result ≡ (take_in (state self.old) i (found_by corner) corner.at).says }
        ensures leaves { state self.new ≡ (take_in (state self.old) i (found_by corner) corner.at).leaves }
    {
        self.corners
            .try_insert(i, corner)
            .map_err(|_| Fault::new(Cause::TooManyCorners, 0))?;
        self.probes += 1;
        Ok(Said::Corner)
    }

    // Takes in an answer about the first open edge: its end settles it, and any other point is a corner.
    #[tactic(auto, using(crate::proofs::Marks::settle_marked, plane::proofs::Points::same_by_eq))]
    fn about_edge(&mut self, asked: Direction, at: Point) -> Result<Said, Fault>
        requires { self.old.settled < length self.old.corners.items }
        ensures held { self.new.body ≡ self.old.body }
        ensures says { result ≡ (about_edge (state self.old) self.old.settled (vector asked) at).says }
        ensures leaves { state self.new ≡ (about_edge (state self.old) self.old.settled (vector asked) at).leaves }
    {
        if at == self.edge_end() {
            self.settled += 1;
            self.probes += 1;
            return Ok(Said::Settled);
        }
        self.take_in(self.settled + 1, Corner { at, asked })
    }
}

impl<A: Body> Survey<A> {
    // Asks the body once, and takes a corner in or settles an edge; on a closed survey it asks nothing.
    #[tactic(auto, using(crate::proofs::Marks::closed_marked))]
    pub fn probe(&mut self) -> Result<Said, Fault>
        ensures held { self.new.body ≡ self.old.body }
        ensures says { result ≡ (probed (A.Body.meaning self.old.body) (state self.old)).says }
        ensures leaves { state self.new ≡ (probed (A.Body.meaning self.old.body) (state self.old)).leaves }
        ensures still { OnErr result (state self.new ≡ state self.old) }
    {
        if self.is_closed() {
            return Ok(Said::Closed);
        }
        let asked = self.question()?;
        let at = self.body.support(asked)?;
        if self.corners.is_empty() {
            return self.take_in(0, Corner { at, asked });
        }
        self.about_edge(asked, at)
    }
}
