ghost use Rattle.std.specs.Prelude.{◌≡◌, ◌≤◌, ◌++◌, length, drop};
ghost use Rattle.survey.specs.Calls.{read_counts, read_corner, read_outline, corner_told};
ghost use Rattle.survey.specs.Rules.{corners as corners_of};
ghost use Rattle.survey.specs.State.{state};

use crate::survey::Survey;
use calls::{Corner, Counts};
use plane::fault::{Cause, Fault};
use plane::point::Point;

impl<A> Survey<A> {
    // Writes the corners into the first slots of `out`, which has enough.
    fn write_corners(&self, out: &mut [Point])
        requires { length self.now.corners.items ≤ length out.old }
        ensures { out.new ≡ corners_of (state self.now) ++ drop (length (state self.now).found) out.old }
    {
        // By place: through an adapter of `iter_mut` a proof loses sight of the slots.
        for (i, corner) in self.corners.iter().enumerate() {
            out[i] = corner.at;
        }
    }

    #[tactic(auto, using(crate::proofs::Marks::length_marked))]
    pub fn counts(&self) -> Counts
        ensures { result ≡ read_counts (state self.now) }
    {
        Counts {
            corners: self.corners.len(),
            probes: self.probes,
        }
    }

    // Corner i, with the direction that found it.
    #[tactic(auto, using(crate::proofs::Marks::reads))]
    pub fn corner(&self, i: usize) -> Result<Corner, Fault>
        ensures { corner_told result ≡ read_corner (state self.now) i }
    {
        self.corners
            .get(i)
            .copied()
            .ok_or(Fault::new(Cause::NoSuchCorner, 0))
    }

    // Writes the corners of a closed survey into the first slots of `out`, and tells how many they are.
    #[tactic(auto, using(crate::proofs::Marks::length_marked))]
    pub fn outline(&self, out: &mut [Point]) -> Result<usize, Fault>
        ensures tells { result ≡ (read_outline (state self.now) out.old).tells }
        ensures writes { out.new ≡ (read_outline (state self.now) out.old).buffer }
    {
        if !self.is_closed() {
            return Err(Fault::new(Cause::NotClosed, 0));
        }
        if out.len() < self.corners.len() {
            return Err(Fault::new(Cause::BufferTooShort, 0));
        }
        self.write_corners(out);
        Ok(self.corners.len())
    }
}
