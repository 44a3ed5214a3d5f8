// A label times a bit.
ghost use Rattle.std.specs.Prelude.{◌≡◌};
ghost use Rattle.labels.specs.Kind.{times as scaled};

use labels::kind::Label;

// b·x: the label where the bit is 1, and the zero label where it is 0.
pub fn times<L: Label>(bit: bool, x: L) -> L
    ensures { result ≡ scaled L.kind bit x }
{
    if bit { x } else { L::zero() }
}
