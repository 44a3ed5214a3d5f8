// The end of a side.
ghost use Rattle.std.specs.Prelude.{◌≡◌, length, replicate, Some, None, OnOk, OnErr, IfErr};
ghost use Rattle.parties.specs.Side.{unused};
ghost use Rattle.parties.specs.Refusing.{garbler_wipe_refusal};

use crate::record::{Garbler, GarblerToken};
use circuit::refusal::Refusal;
use gates::clear::clear;
use labels::kind::Label;

impl<L: Label> Garbler<L> {
    // Zeroes the wire memory, forgets offset, seed and marks, and ends the side; a denied call hands the token back.
    // Written for each side: the records differ, and each takes its own token.
    pub fn wipe(
        &mut self,
        token: GarblerToken,
        wires: &mut [L],
    ) -> Result<(), (Refusal, GarblerToken)>
        ensures accepted { OnOk result (garbler_wipe_refusal self.old.progress.side (length wires.old) ≡ None) }
        ensures ended { OnOk result (self.new.progress.side ≡ unused) }
        ensures offset { OnOk result (self.new.secrets.offset ≡ L.kind.zero) }
        ensures seed { OnOk result (self.new.secrets.seed ≡ L.kind.zero) }
        ensures cleared { OnOk result (wires.new ≡ replicate (length wires.old) L.kind.zero) }
        ensures refused { IfErr result (λ e. garbler_wipe_refusal self.old.progress.side (length wires.old) ≡ Some e.0) }
        ensures same { OnErr result (self.new ≡ self.old) }
        ensures wires { OnErr result (wires.new ≡ wires.old) }
    {
        let turn = !self.progress.side.ended;
        if let Err(why) = self.progress.side.may_wipe(turn, wires.len()) {
            return Err((why, token));
        }
        clear(wires);
        *self = Garbler::new();
        let GarblerToken(_) = token;
        Ok(())
    }
}
