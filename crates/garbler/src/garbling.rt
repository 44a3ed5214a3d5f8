// The garbler's next gate.
ghost use Rattle.std.specs.Prelude.{◌≡◌, length, Some, None, OnOk, OnErr, IfOk, IfErr};
ghost use Rattle.hashes.specs.Count.{counted};
ghost use Rattle.circuit.specs.Lent.{parts_in};
ghost use Rattle.circuit.specs.Parts.{parts_of};
ghost use Rattle.steps.specs.Gate.{garble_calls};
ghost use Rattle.parties.specs.Refusing.{garble_refusal};
ghost use Rattle.parties.specs.Ready.{StepReady};
ghost use Rattle.garbler.specs.Garbling.{Garbled};

use crate::record::Garbler;
use circuit::passed::Circuit;
use circuit::refusal::Refusal;
use hashes::hash::LabelHash;
use labels::kind::Label;
use parties::progress::Progress;
use steps::garble::garble_gate;
use steps::secrets::Secrets;
use wires::Wires;

// Garbles the side's next gate, whose material has so many bits, and goes one gate further.
// Eight arguments: three of them are memories that callers lend apart.
fn garble_next<L: Label, H: LabelHash<L>>(
    h: &mut H,
    progress: &mut Progress,
    circuit: Circuit,
    bits: usize,
    secrets: Secrets<L>,
    wires: &mut [L],
    material: &mut [u8],
    scratch: &mut [L],
)
    requires { StepReady L.kind progress.old.side (parts_in circuit.arrays) bits (length wires.old) (length scratch.old) (length material.old) }
    ensures garbled { Garbled L.kind (H.means h.old) (parts_in circuit.entry.arrays) secrets.seed secrets.offset progress.old.side progress.new.side bits wires.old wires.new material.old material.new scratch.old scratch.new }
    ensures kept { H.means h.new ≡ H.means h.old }
    ensures count { H.calls h.new ≡ counted (H.calls h.old) (garble_calls (parts_in circuit.entry.arrays) progress.old.side.next) }
{
    let side = &mut progress.side;
    let bytes = bits.div_ceil(8);
    let part = &mut material[side.bytes..side.bytes + bytes];
    let mut store = Wires::new(wires, side.made);
    garble_gate(h, circuit, side.next, secrets, &mut store, part, scratch);
    let new = store.made - side.made;
    side.advance(new, bytes);
}

impl<L: Label> Garbler<L> {
    // Garbles the next gate; answers the bits of its material, without the filling.
    pub fn garble<H: LabelHash<L>>(
        &mut self,
        h: &mut H,
        circuit: &[u8],
        wires: &mut [L],
        material: &mut [u8],
        scratch: &mut [L],
    ) -> Result<usize, Refusal>
        ensures accepted { OnOk result (garble_refusal self.old.progress.side circuit.now L.kind (length wires.old) (length scratch.old) (length material.old) ≡ None) }
        ensures garbled { IfOk result (λ bits. Garbled L.kind (H.means h.old) (parts_of circuit.now) self.old.secrets.seed self.old.secrets.offset self.old.progress.side self.new.progress.side bits wires.old wires.new material.old material.new scratch.old scratch.new) }
        ensures secrets { OnOk result (self.new.secrets ≡ self.old.secrets) }
        ensures kept { OnOk result (H.means h.new ≡ H.means h.old) }
        ensures count { OnOk result (H.calls h.new ≡ counted (H.calls h.old) (garble_calls (parts_of circuit.now) self.old.progress.side.next)) }
        ensures refused { IfErr result (λ why. garble_refusal self.old.progress.side circuit.now L.kind (length wires.old) (length scratch.old) (length material.old) ≡ Some why) }
        ensures same { OnErr result (self.new ≡ self.old) }
        ensures wires { OnErr result (wires.new ≡ wires.old) }
        ensures material { OnErr result (material.new ≡ material.old) }
        ensures scratch { OnErr result (scratch.new ≡ scratch.old) }
        ensures hash { OnErr result (h.new ≡ h.old) }
    {
        let turn = self.progress.side.garbles();
        let (passed, bits) = self
            .progress
            .may_step::<L>(turn, circuit, wires.len(), scratch.len(), material.len())?;
        let secrets = self.secrets;
        garble_next(
            h,
            &mut self.progress,
            passed,
            bits,
            secrets,
            wires,
            material,
            scratch,
        );
        Ok(bits)
    }
}
