ghost use Rattle.std.specs.Prelude.{◌≡◌, ◌+◌, ◌≤◌, length};

use arrayvec::ArrayVec;
use calls::Corner;

// How many corners a survey has room for.
pub const MOST: usize = 256;

// A survey of a body: its corners so far in outline order, of whose edges the first `settled` are settled.
// The body stands beside what is found: in a struct apart from it, five of the public calls would stand twice.
#[derive(Drop)]
pub struct Survey<A> {
    pub(crate) body: A,
    pub(crate) corners: ArrayVec<Corner, MOST>,
    pub(crate) settled: usize,
    pub(crate) probes: u32,
    // The list as clauses see it does not show how long it can get.
    ghost few: { length corners.items ≤ 256 },
    ghost within: { settled ≤ length corners.items },
    ghost counted: { probes ≡ length corners.items + settled },
}
