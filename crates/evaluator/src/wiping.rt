// The end of a side.
ghost use Rattle.std.specs.Prelude.{◌≡◌, length, replicate, Some, None, OnOk, OnErr, IfErr};
ghost use Rattle.parties.specs.Side.{unused};
ghost use Rattle.parties.specs.Refusing.{evaluator_wipe_refusal};

use crate::record::{Evaluator, EvaluatorToken};
use circuit::refusal::Refusal;
use gates::clear::clear;
use labels::kind::Label;
use parties::state::{EvaluatorCall, in_turn};

impl Evaluator {
    // Zeroes the wire memory, forgets the marks, and ends the side; a denied call hands the token back.
    // Written for each side: the records differ, and each takes its own token.
    pub fn wipe<L: Label>(
        &mut self,
        token: EvaluatorToken,
        wires: &mut [L],
    ) -> Result<(), (Refusal, EvaluatorToken)>
        ensures accepted { OnOk result (evaluator_wipe_refusal self.old.progress.side (length wires.old) ≡ None) }
        ensures ended { OnOk result (self.new.progress.side ≡ unused) }
        ensures cleared { OnOk result (wires.new ≡ replicate (length wires.old) L.kind.zero) }
        ensures refused { IfErr result (λ e. evaluator_wipe_refusal self.old.progress.side (length wires.old) ≡ Some e.0) }
        ensures same { OnErr result (self.new ≡ self.old) }
        ensures wires { OnErr result (wires.new ≡ wires.old) }
    {
        let turn = in_turn(self.state(), EvaluatorCall::Wipe);
        if let Err(why) = self.progress.side.may_wipe(turn, wires.len()) {
            return Err((why, token));
        }
        clear(wires);
        *self = Evaluator::new();
        let EvaluatorToken(_) = token;
        Ok(())
    }
}
