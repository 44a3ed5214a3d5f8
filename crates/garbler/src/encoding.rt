// The garbler's labels of input bits.
ghost use Rattle.std.specs.Prelude.{◌≡◌, length, Some, None, OnOk, OnErr, IfOk, IfErr};
ghost use Rattle.parties.specs.Side.{marked};
ghost use Rattle.parties.specs.Refusing.{encode_refusal};
ghost use Rattle.garbler.specs.Garbling.{encoded};

use crate::record::Garbler;
use circuit::refusal::Refusal;
use gates::scale::times;
use labels::kind::Label;
use memory::outputs::label_at;

impl<L: Label> Garbler<L> {
    // The label of an input's bit: its zero label, with the offset where the bit is 1.
    pub fn encode(
        &mut self,
        circuit: &[u8],
        wires: &[L],
        input: usize,
        bit: u8,
    ) -> Result<L, Refusal>
        ensures accepted { OnOk result (encode_refusal self.old.progress.side circuit.now (length wires.now) input bit ≡ None) }
        ensures label { IfOk result (λ label. label ≡ encoded L.kind self.old.secrets.offset wires.now input bit) }
        ensures marked { OnOk result (self.new.progress.side ≡ marked self.old.progress.side input) }
        ensures secrets { OnOk result (self.new.secrets ≡ self.old.secrets) }
        ensures refused { IfErr result (λ why. encode_refusal self.old.progress.side circuit.now (length wires.now) input bit ≡ Some why) }
        ensures same { OnErr result (self.new ≡ self.old) }
    {
        let turn = !self.progress.side.ended;
        self.progress
            .may_input(turn, circuit, wires.len(), input, bit)?;
        let zero = label_at(wires, input);
        let label = zero.xor(times(bit == 1, self.secrets.offset));
        self.progress.side.mark(input);
        Ok(label)
    }
}
