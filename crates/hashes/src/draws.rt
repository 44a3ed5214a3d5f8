// Labels drawn from a seed.
ghost use Rattle.std.specs.Prelude.{◌≡◌};
ghost use Rattle.hashes.specs.Count.{counted};
ghost use Rattle.hashes.specs.Draws.{draw as drawn};

use crate::hash::LabelHash;
use labels::kind::Label;

// Draw d of the seed.
pub fn draw<L: Label, H: LabelHash<L>>(h: &mut H, seed: L, d: u32) -> L
    ensures answer { result ≡ drawn (H.means h.old) seed d }
    ensures kept { H.means h.new ≡ H.means h.old }
    ensures count { H.calls h.new ≡ counted (H.calls h.old) 1 }
{
    h.hash(seed, 0x1_0000_0000 + u64::from(d))
}
