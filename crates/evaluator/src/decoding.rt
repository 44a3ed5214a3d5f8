// The evaluator's output bits.
ghost use Rattle.std.specs.Prelude.{◌≡◌, length, Some, None, OnOk, OnErr, IfErr};
ghost use Rattle.circuit.specs.Parts.{parts_of};
ghost use Rattle.memory.specs.Outputs.{decoded_of};
ghost use Rattle.parties.specs.Refusing.{decode_refusal};

use crate::record::Evaluator;
use circuit::refusal::Refusal;
use labels::kind::Label;
use memory::outputs::write_outputs;
use parties::state::{EvaluatorCall, in_turn};
use plain::run::all_bits;

impl Evaluator {
    // Writes each output's bit: its label's colour ⊕ the byte that came for it.
    pub fn decode<L: Label>(
        &self,
        circuit: &[u8],
        wires: &[L],
        colours: &[u8],
        outputs: &mut [u8],
    ) -> Result<(), Refusal>
        ensures accepted { OnOk result (decode_refusal self.now.progress.side circuit.now (length wires.now) colours.now (length outputs.old) ≡ None) }
        ensures written { OnOk result (outputs.new ≡ decoded_of L.kind wires.now (parts_of circuit.now).outputs colours.now (length outputs.old)) }
        ensures refused { IfErr result (λ why. decode_refusal self.now.progress.side circuit.now (length wires.now) colours.now (length outputs.old) ≡ Some why) }
        ensures same { OnErr result (outputs.new ≡ outputs.old) }
    {
        let turn = in_turn(self.state(), EvaluatorCall::Decode);
        let list = self
            .progress
            .may_outputs(turn, circuit, wires.len(), colours.len())?;
        if outputs.len() != colours.len() {
            return Err(Refusal::Memory);
        }
        if !all_bits(colours) {
            return Err(Refusal::Bit);
        }
        write_outputs(wires, list, colours, outputs);
        Ok(())
    }
}
