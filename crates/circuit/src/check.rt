// Checking a circuit.
ghost use Rattle.std.specs.Prelude.{◌≡◌, suc, ◌<◌, ◌≤◌, Some, None, MatchResult};
ghost use Rattle.circuit.specs.Gates.{made_before, wires_in};
ghost use Rattle.circuit.specs.Check.{gate_refusal, gates_refusal, circuit_refusal, checked};
ghost use Rattle.circuit.specs.Lent.{parts_in};
ghost use Rattle.circuit.specs.Passed.{Passed};

use crate::arrays::Arrays;
use crate::cut::cut;
use crate::gate::gate_at;
use crate::header::{header, within_limits};
use crate::passed::Circuit;
use crate::refusal::Refusal;
use crate::sizes::Checked;
use crate::words::words_below;
use labels::kind::Label;

// Checks gate g, before which `made` wires are made; answers those made after it.
fn check_gate(a: Arrays, g: u16, made: u16) -> Result<u16, Refusal>
    requires there { g < a.sizes.gates }
    requires before { made ≡ made_before (parts_in a) g }
    requires few { made ≤ 1024 }
    ensures { MatchResult result (λ w. (gate_refusal (parts_in a.entry) g ≡ None) × (w ≡ made_before (parts_in a.entry) (suc g)) × (w ≤ 1024)) (λ why. gate_refusal (parts_in a.entry) g ≡ Some why) }
{
    let gate = gate_at(a, g)?;
    let after = made + gate.makes();
    if after > 1024 {
        return Err(Refusal::TooManyWires(g));
    }
    if !gate.reads_made(made) {
        return Err(Refusal::NotMade(g));
    }
    if !gate.rows_fit() {
        return Err(Refusal::WideRow(g));
    }
    Ok(after)
}

// Checks the gates in order; answers the number of wires.
fn check_gates(a: Arrays) -> Result<u16, Refusal>
    requires few { a.sizes.inputs ≤ 256 }
    ensures { MatchResult result (λ w. (gates_refusal (parts_in a.entry) a.entry.sizes.gates ≡ None) × (w ≡ wires_in (parts_in a.entry)) × (w ≤ 1024)) (λ why. gates_refusal (parts_in a.entry) a.entry.sizes.gates ≡ Some why) }
{
    let mut made = a.sizes.inputs;
    // Over the numbers of the gates: a refusal names one.
    for g in 0..a.sizes.gates {
        made = check_gate(a, g, made)?;
    }
    Ok(made)
}

// Reads any bytes as a circuit.
pub fn read(circuit: &[u8]) -> Result<Circuit<'_>, Refusal>
    ensures { MatchResult result (λ c. Passed circuit.now (parts_in c.arrays) c.wires) (λ why. circuit_refusal circuit.now ≡ Some why) }
{
    let (sizes, rest) = header(circuit)?;
    if !within_limits(sizes) {
        return Err(Refusal::Size);
    }
    let arrays = cut(sizes, rest)?;
    let wires = check_gates(arrays)?;
    if !words_below(arrays.outputs, u32::from(wires)) {
        return Err(Refusal::NotMade(sizes.gates));
    }
    Ok(Circuit { arrays, wires })
}

// The sizes, wires and material of a circuit for labels of one kind, or its first refusal.
pub fn check<L: Label>(circuit: &[u8]) -> Result<Checked, Refusal>
    ensures { result ≡ checked L.kind circuit.now }
{
    Ok(read(circuit)?.totals::<L>())
}
