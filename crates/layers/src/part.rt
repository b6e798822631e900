// Faults and reaches of a layer's parts, on their way up.
ghost use Rattle.std.specs.Prelude.{◌≡◌, ◌+◌};
ghost use Rattle.layers.specs.Layers.{raised};
ghost use Rattle.body.specs.Meaning.{limited};

use body::reach::limited;
use plane::fault::Fault;

// A fault of the part that `?` raises by one layer.
#[derive(Clone, Copy)]
pub struct PartFault(pub Fault);

impl From<PartFault> for Fault {
    ghost from_gives = { λ e r. r ≡ raised e.0 };

    fn from(e: PartFault) -> Fault {
        Fault {
            layer: e.0.layer.saturating_add(1),
            ..e.0
        }
    }
}

// The sum of two reaches, or a fault where it passes the limit, as it does where it passes 32 bits.
pub(crate) fn limited_sum(left: u32, right: u32) -> Result<u32, Fault>
    ensures { result ≡ limited 0 (left + right) }
{
    limited(0, left.saturating_add(right))
}
