ghost use Rattle.std.specs.Prelude.{◌+◌, ◌<◌, ◌≤◌, unsigned_abs};

// A vector other than (0, 0), both components between -2,000,000 and 2,000,000.
#[derive(Clone, Copy, PartialEq, Eq, Debug)]
pub struct Direction {
    pub(crate) x: i32,
    pub(crate) y: i32,
    ghost some: { 0 < unsigned_abs x + unsigned_abs y },
    ghost wide: { unsigned_abs x ≤ 2000000 },
    ghost high: { unsigned_abs y ≤ 2000000 },
}
