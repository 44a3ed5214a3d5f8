// The evaluator's labels of its inputs.
ghost use Rattle.std.specs.Prelude.{◌≡◌, length, Some, None, OnOk, OnErr, IfErr, slice_set};
ghost use Rattle.parties.specs.Side.{marked};
ghost use Rattle.parties.specs.Refusing.{deliver_refusal};

use crate::record::Evaluator;
use circuit::refusal::Refusal;
use labels::kind::Label;
use parties::state::{EvaluatorCall, in_turn};

impl Evaluator {
    // Takes the label of an input.
    pub fn deliver<L: Label>(
        &mut self,
        circuit: &[u8],
        wires: &mut [L],
        input: usize,
        label: L,
    ) -> Result<(), Refusal>
        ensures accepted { OnOk result (deliver_refusal self.old.progress.side circuit.now (length wires.old) input ≡ None) }
        ensures stored { OnOk result (wires.new ≡ slice_set wires.old input label) }
        ensures marked { OnOk result (self.new.progress.side ≡ marked self.old.progress.side input) }
        ensures refused { IfErr result (λ why. deliver_refusal self.old.progress.side circuit.now (length wires.old) input ≡ Some why) }
        ensures same { OnErr result (self.new ≡ self.old) }
        ensures wires { OnErr result (wires.new ≡ wires.old) }
    {
        let turn = in_turn(self.state(), EvaluatorCall::Deliver);
        self.progress
            .may_input(turn, circuit, wires.len(), input, 0)?;
        wires[input] = label;
        self.progress.side.mark(input);
        Ok(())
    }
}
