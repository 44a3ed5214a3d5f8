// The evaluator's joining.
ghost use Rattle.std.specs.Prelude.{◌≡◌, length, Some, None, OnOk, OnErr, IfErr};
ghost use Rattle.circuit.specs.Parts.{parts_of};
ghost use Rattle.parties.specs.Refusing.{join_refusal};
ghost use Rattle.evaluator.specs.Evaluating.{Joined};

use crate::record::{Evaluator, EvaluatorToken};
use circuit::refusal::Refusal;
use labels::kind::Label;
use memory::start::join_wires;
use parties::progress::Progress;
use parties::state::{EvaluatorCall, in_turn};
use parties::turn::may_begin;

impl Evaluator {
    // Begins with a circuit, its row words zero or not: every wire up to the last is zero.
    pub fn join<L: Label>(
        &mut self,
        circuit: &[u8],
        wires: &mut [L],
    ) -> Result<EvaluatorToken, Refusal>
        ensures accepted { OnOk result (join_refusal self.old.progress.side circuit.now (length wires.old) ≡ None) }
        ensures joined { OnOk result (Joined L.kind (parts_of circuit.now) self.new.progress.side wires.old wires.new) }
        ensures refused { IfErr result (λ why. join_refusal self.old.progress.side circuit.now (length wires.old) ≡ Some why) }
        ensures same { OnErr result (self.new ≡ self.old) }
        ensures wires { OnErr result (wires.new ≡ wires.old) }
    {
        let turn = in_turn(self.state(), EvaluatorCall::Join);
        let passed = may_begin(turn, circuit, wires.len())?;
        join_wires(wires, passed.wires);
        *self = Evaluator {
            progress: Progress::start(passed),
        };
        Ok(EvaluatorToken(()))
    }
}
