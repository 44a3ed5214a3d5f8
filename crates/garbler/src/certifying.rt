// The bit of an output's label.
ghost use Rattle.std.specs.Prelude.{◌≡◌, not, Some, None, OnOk, IfOk, IfErr, true, false, MatchOption};
ghost use Rattle.circuit.specs.Gates.{output_of};
ghost use Rattle.circuit.specs.Parts.{parts_of};
ghost use Rattle.labels.specs.Lists.{places};
ghost use Rattle.parties.specs.Refusing.{is_foreign, certify_refusal};

use crate::record::Garbler;
use circuit::refusal::Refusal;
use labels::kind::Label;
use memory::outputs::label_at;

// The bit that a label stands for on a wire, or none where it is neither of the wire's two.
fn bit_of<L: Label>(zero: L, offset: L, label: L) -> Option<bool>
    ensures { MatchOption result (is_foreign L.kind offset zero label ≡ true) (λ bit. (is_foreign L.kind offset zero label ≡ false) × (bit ≡ not (L.kind.same label zero))) }
{
    if label.same(zero) {
        return Some(false);
    }
    if label.same(zero.xor(offset)) {
        return Some(true);
    }
    None
}

impl<L: Label> Garbler<L> {
    // 0 for the output's zero label, and 1 for that with the offset.
    pub fn certify(
        &self,
        circuit: &[u8],
        wires: &[L],
        output: usize,
        label: L,
    ) -> Result<bool, Refusal>
        ensures accepted { OnOk result (certify_refusal self.now.progress.side circuit.now L.kind self.now.secrets.offset wires.now output label ≡ None) }
        ensures bit { IfOk result (λ bit. bit ≡ not (L.kind.same label (places L.kind wires.now (output_of (parts_of circuit.now) output)))) }
        ensures refused { IfErr result (λ why. certify_refusal self.now.progress.side circuit.now L.kind self.now.secrets.offset wires.now output label ≡ Some why) }
    {
        let turn = self.progress.side.has_garbled();
        let wire = self
            .progress
            .may_output(turn, circuit, wires.len(), output)?;
        let zero = label_at(wires, usize::from(wire));
        bit_of(zero, self.secrets.offset, label).ok_or(Refusal::Foreign)
    }
}
