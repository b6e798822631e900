ghost use Rattle.std.specs.Prelude.{◌≡◌, length};
ghost use Rattle.runs.specs.Worked.{worked, worked_bodies, AllWorked, AllBodiesWorked};

// How many runs are worked out by hand: of sets of points, and of other bodies.
#[derive(Clone, Copy, PartialEq, Eq, Debug)]
pub struct Worked {
    pub sets: usize,
    pub bodies: usize,
}

// Counts the runs that are worked out by hand; the definitions give every one of them.
pub fn count_worked() -> Worked
    ensures sets { result.sets ≡ length worked }
    ensures bodies { result.bodies ≡ length worked_bodies }
    ensures right { AllWorked }
    ensures bodies_right { AllBodiesWorked }
{
    Worked { sets: 6, bodies: 7 }
}
