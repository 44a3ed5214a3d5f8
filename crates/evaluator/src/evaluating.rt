// The evaluator's next gate.
ghost use Rattle.std.specs.Prelude.{◌≡◌, length, Some, None, OnOk, OnErr, IfErr};
ghost use Rattle.hashes.specs.Count.{counted};
ghost use Rattle.circuit.specs.Lent.{parts_in};
ghost use Rattle.circuit.specs.Parts.{parts_of};
ghost use Rattle.steps.specs.Gate.{evaluate_calls};
ghost use Rattle.parties.specs.Refusing.{evaluate_refusal};
ghost use Rattle.parties.specs.Ready.{StepReady};
ghost use Rattle.evaluator.specs.Evaluating.{Stepped};

use crate::record::Evaluator;
use circuit::passed::Circuit;
use circuit::refusal::Refusal;
use hashes::hash::LabelHash;
use labels::kind::Label;
use parties::progress::Progress;
use parties::state::{EvaluatorCall, in_turn};
use steps::evaluate::evaluate_gate;
use wires::Wires;

// Evaluates the side's next gate, whose material has so many bits, and goes one gate further.
fn evaluate_next<L: Label, H: LabelHash<L>>(
    h: &mut H,
    progress: &mut Progress,
    circuit: Circuit,
    bits: usize,
    wires: &mut [L],
    material: &[u8],
    scratch: &mut [L],
)
    requires { StepReady L.kind progress.old.side (parts_in circuit.arrays) bits (length wires.old) (length scratch.old) (length material.now) }
    ensures stepped { Stepped L.kind (parts_in circuit.entry.arrays) (H.means h.old) progress.old.side progress.new.side wires.old wires.new material.now scratch.old scratch.new }
    ensures kept { H.means h.new ≡ H.means h.old }
    ensures count { H.calls h.new ≡ counted (H.calls h.old) (evaluate_calls (parts_in circuit.entry.arrays) progress.old.side.next) }
{
    let side = &mut progress.side;
    let bytes = bits.div_ceil(8);
    let part = &material[side.bytes..side.bytes + bytes];
    let mut store = Wires::new(wires, side.made);
    evaluate_gate(h, circuit, side.next, &mut store, part, scratch);
    let new = store.made - side.made;
    side.advance(new, bytes);
}

impl Evaluator {
    // Evaluates the next gate, from the material's bytes from its own count on.
    pub fn evaluate<L: Label, H: LabelHash<L>>(
        &mut self,
        h: &mut H,
        circuit: &[u8],
        wires: &mut [L],
        material: &[u8],
        scratch: &mut [L],
    ) -> Result<(), Refusal>
        ensures accepted { OnOk result (evaluate_refusal self.old.progress.side circuit.now L.kind (length wires.old) (length scratch.old) (length material.now) ≡ None) }
        ensures stepped { OnOk result (Stepped L.kind (parts_of circuit.now) (H.means h.old) self.old.progress.side self.new.progress.side wires.old wires.new material.now scratch.old scratch.new) }
        ensures kept { OnOk result (H.means h.new ≡ H.means h.old) }
        ensures count { OnOk result (H.calls h.new ≡ counted (H.calls h.old) (evaluate_calls (parts_of circuit.now) self.old.progress.side.next)) }
        ensures refused { IfErr result (λ why. evaluate_refusal self.old.progress.side circuit.now L.kind (length wires.old) (length scratch.old) (length material.now) ≡ Some why) }
        ensures same { OnErr result (self.new ≡ self.old) }
        ensures wires { OnErr result (wires.new ≡ wires.old) }
        ensures scratch { OnErr result (scratch.new ≡ scratch.old) }
        ensures hash { OnErr result (h.new ≡ h.old) }
    {
        let turn = in_turn(self.state(), EvaluatorCall::Evaluate);
        let (passed, bits) = self
            .progress
            .may_step::<L>(turn, circuit, wires.len(), scratch.len(), material.len())?;
        let progress = &mut self.progress;
        evaluate_next(h, progress, passed, bits, wires, material, scratch);
        Ok(())
    }
}
