// What every call decides first: the circuit, whose it is, and the memory.
ghost use Rattle.std.specs.Prelude.{◌≡◌, ◌<◌, ◌≤◌, true, not, ◌&&◌, Some, None, OnOk, IfOk, IfErr};
ghost use Rattle.circuit.specs.Gates.{output_of};
ghost use Rattle.circuit.specs.Lent.{parts_in};
ghost use Rattle.circuit.specs.Parts.{parts_of};
ghost use Rattle.circuit.specs.Passed.{Passed};
ghost use Rattle.parties.specs.Turns.{is_its, Its, gates_left};
ghost use Rattle.parties.specs.Refusing.{begin_refusal, turn_refusal, step_refusal, input_refusal, output_refusal, outputs_refusal, wipe_refusal};
ghost use Rattle.parties.specs.Ready.{StepReady, OutputsReady};

use crate::progress::Progress;
use crate::side::Side;
use circuit::check::read;
use circuit::passed::Circuit;
use circuit::refusal::Refusal;
use circuit::words::word_at;
use labels::kind::Label;

// The circuit that a side begins with, and whether there is memory for its wires.
pub fn may_begin<'a>(turn: bool, circuit: &'a [u8], wires: usize) -> Result<Circuit<'a>, Refusal>
    ensures accepted { OnOk result (begin_refusal circuit.now turn wires ≡ None) }
    ensures its_turn { OnOk result (turn ≡ true) }
    ensures passed { IfOk result (λ c. Passed circuit.now (parts_in c.arrays) c.wires) }
    ensures room { IfOk result (λ c. c.wires ≤ wires) }
    ensures refused { IfErr result (λ why. begin_refusal circuit.now turn wires ≡ Some why) }
{
    let passed = read(circuit)?;
    if !turn {
        return Err(Refusal::Turn);
    }
    if wires < usize::from(passed.wires) {
        return Err(Refusal::Memory);
    }
    Ok(passed)
}

impl Side {
    // Whether it is garble's turn: the side is open, with gates left.
    pub fn garbles(&self) -> bool
        ensures { result ≡ (not self.now.ended && gates_left self.now) }
    {
        !self.ended && self.next < self.sizes.gates
    }

    // Whether it is the turn of the garbler's outputs: the side is open, with no gate left.
    pub fn has_garbled(&self) -> bool
        ensures { result ≡ (not self.now.ended && not (gates_left self.now)) }
    {
        !self.ended && self.next >= self.sizes.gates
    }

    // Whether it may be wiped with so much wire memory.
    pub fn may_wipe(&self, turn: bool, wires: usize) -> Result<(), Refusal>
        ensures accepted { OnOk result (wipe_refusal self.now turn wires ≡ None) }
        ensures refused { IfErr result (λ why. wipe_refusal self.now turn wires ≡ Some why) }
    {
        if !turn {
            return Err(Refusal::Turn);
        }
        if wires < usize::from(self.wires) {
            return Err(Refusal::Memory);
        }
        Ok(())
    }
}

impl Progress {
    // Whether a circuit that passed is the side's own.
    fn is_its_own(&self, c: Circuit) -> bool
        ensures answer { result ≡ is_its self.now.side (parts_in c.entry.arrays) }
        ensures its { result ≡ true → Its self.now.side (parts_in c.entry.arrays) c.entry.wires }
    {
        self.side.sizes == c.arrays.sizes
            && self.side.wires == c.wires
            && self.side.made == usize::from(c.wires_before(self.side.next))
    }

    // The circuit that the side goes on with.
    fn its_circuit<'a>(&self, turn: bool, circuit: &'a [u8]) -> Result<Circuit<'a>, Refusal>
        ensures accepted { OnOk result (turn_refusal self.now.side circuit.now turn ≡ None) }
        ensures its_turn { OnOk result (turn ≡ true) }
        ensures passed { IfOk result (λ c. Passed circuit.now (parts_in c.arrays) c.wires) }
        ensures its { IfOk result (λ c. Its self.now.side (parts_in c.arrays) c.wires) }
        ensures refused { IfErr result (λ why. turn_refusal self.now.side circuit.now turn ≡ Some why) }
    {
        let c = read(circuit)?;
        if !(turn && self.is_its_own(c)) {
            return Err(Refusal::Turn);
        }
        Ok(c)
    }

    // The next gate: the circuit, and the bits of the gate's material.
    pub fn may_step<'a, L: Label>(
        &self,
        turn: bool,
        circuit: &'a [u8],
        wires: usize,
        scratch: usize,
        material: usize,
    ) -> Result<(Circuit<'a>, usize), Refusal>
        requires left { turn ≡ true → self.now.side.next < self.now.side.sizes.gates }
        ensures accepted { OnOk result (step_refusal self.now.side circuit.now L.kind turn wires scratch material ≡ None) }
        ensures parts { IfOk result (λ v. parts_in v.0.arrays ≡ parts_of circuit.now) }
        ensures ready { IfOk result (λ v. StepReady L.kind self.now.side (parts_in v.0.arrays) v.1 wires scratch material) }
        ensures refused { IfErr result (λ why. step_refusal self.now.side circuit.now L.kind turn wires scratch material ≡ Some why) }
    {
        let c = self.its_circuit(turn, circuit)?;
        if wires < usize::from(c.wires) || scratch < 256 {
            return Err(Refusal::Memory);
        }
        let bits = c.gate_bits::<L>(self.side.next);
        if material < self.side.bytes + bits.div_ceil(8) {
            return Err(Refusal::Material);
        }
        Ok((c, bits))
    }

    // An input that is encoded or delivered.
    pub fn may_input(
        &self,
        turn: bool,
        circuit: &[u8],
        wires: usize,
        input: usize,
        bit: u8,
    ) -> Result<(), Refusal>
        ensures accepted { OnOk result (input_refusal self.now.side circuit.now turn wires input bit ≡ None) }
        ensures there { OnOk result (input < self.now.side.sizes.inputs) }
        ensures room { OnOk result (input < wires) }
        ensures refused { IfErr result (λ why. input_refusal self.now.side circuit.now turn wires input bit ≡ Some why) }
    {
        let c = self.its_circuit(turn, circuit)?;
        if wires < usize::from(c.wires) {
            return Err(Refusal::Memory);
        }
        if input >= usize::from(self.side.sizes.inputs) {
            return Err(Refusal::Number);
        }
        if bit > 1 {
            return Err(Refusal::Bit);
        }
        if self.side.marks[input] {
            return Err(Refusal::Again);
        }
        Ok(())
    }

    // The outputs: the circuit's list of them.
    pub fn may_outputs<'a>(
        &self,
        turn: bool,
        circuit: &'a [u8],
        wires: usize,
        colours: usize,
    ) -> Result<&'a [u8], Refusal>
        ensures accepted { OnOk result (outputs_refusal self.now.side circuit.now turn wires colours ≡ None) }
        ensures ready { IfOk result (λ list. OutputsReady self.now.side circuit.now list.now wires colours) }
        ensures refused { IfErr result (λ why. outputs_refusal self.now.side circuit.now turn wires colours ≡ Some why) }
    {
        let c = self.its_circuit(turn, circuit)?;
        if wires < usize::from(c.wires) || colours != usize::from(self.side.sizes.outputs) {
            return Err(Refusal::Memory);
        }
        Ok(c.arrays.outputs)
    }

    // An output that is certified: its wire.
    pub fn may_output(
        &self,
        turn: bool,
        circuit: &[u8],
        wires: usize,
        output: usize,
    ) -> Result<u16, Refusal>
        ensures accepted { OnOk result (output_refusal self.now.side circuit.now turn wires output ≡ None) }
        ensures wire { IfOk result (λ w. w ≡ output_of (parts_of circuit.now) output) }
        ensures room { IfOk result (λ w. w < wires) }
        ensures refused { IfErr result (λ why. output_refusal self.now.side circuit.now turn wires output ≡ Some why) }
    {
        let c = self.its_circuit(turn, circuit)?;
        if wires < usize::from(c.wires) {
            return Err(Refusal::Memory);
        }
        if output >= usize::from(self.side.sizes.outputs) {
            return Err(Refusal::Number);
        }
        Ok(word_at(c.arrays.outputs, output))
    }
}
