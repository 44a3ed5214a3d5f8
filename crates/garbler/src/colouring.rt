// The colours of the outputs' zero labels.
ghost use Rattle.std.specs.Prelude.{◌≡◌, length, Some, None, OnOk, OnErr, IfErr};
ghost use Rattle.circuit.specs.Parts.{parts_of};
ghost use Rattle.memory.specs.Outputs.{colours_of};
ghost use Rattle.parties.specs.Refusing.{colours_refusal};

use crate::record::Garbler;
use circuit::refusal::Refusal;
use labels::kind::Label;
use memory::outputs::write_colours;

impl<L: Label> Garbler<L> {
    // Writes the colour of each output's zero label.
    pub fn colours(&self, circuit: &[u8], wires: &[L], colours: &mut [u8]) -> Result<(), Refusal>
        ensures accepted { OnOk result (colours_refusal self.now.progress.side circuit.now (length wires.now) (length colours.old) ≡ None) }
        ensures written { OnOk result (colours.new ≡ colours_of L.kind wires.now (parts_of circuit.now).outputs (length colours.old)) }
        ensures refused { IfErr result (λ why. colours_refusal self.now.progress.side circuit.now (length wires.now) (length colours.old) ≡ Some why) }
        ensures same { OnErr result (colours.new ≡ colours.old) }
    {
        let turn = self.progress.side.has_garbled();
        let list = self
            .progress
            .may_outputs(turn, circuit, wires.len(), colours.len())?;
        write_colours(wires, list, colours);
        Ok(())
    }
}
