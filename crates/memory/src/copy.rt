// The open copy of a circuit, which the evaluator holds.
ghost use Rattle.std.specs.Prelude.{◌≡◌, ◌-◌, ◌≤◌, ◌++◌, length, take, drop, replicate, Some, None, OnOk, OnErr, IfErr};
ghost use Rattle.memory.specs.Copy.{open_copy, copy_refusal};

use circuit::check::read;
use circuit::refusal::Refusal;

// Copies the bytes, and makes those from one place up to another zero.
fn write_copy(circuit: &[u8], out: &mut [u8], from: usize, to: usize)
    requires long { length out.old ≡ length circuit.now }
    requires order { from ≤ to }
    requires within { to ≤ length circuit.now }
    ensures { out.new ≡ take from circuit.now ++ (replicate (to - from) 0 ++ drop to circuit.now) }
{
    out.copy_from_slice(circuit);
    out[from..to].fill(0);
}

// Writes the circuit with every row word zero; memory past it stays.
pub fn open_copy(circuit: &[u8], out: &mut [u8]) -> Result<(), Refusal>
    ensures accepted { OnOk result (copy_refusal circuit.now (length out.old) ≡ None) }
    ensures copied { OnOk result (out.new ≡ open_copy circuit.now ++ drop (length circuit.now) out.old) }
    ensures refused { IfErr result (λ why. copy_refusal circuit.now (length out.old) ≡ Some why) }
    ensures same { OnErr result (out.new ≡ out.old) }
{
    let s = read(circuit)?.arrays.sizes;
    if out.len() < circuit.len() {
        return Err(Refusal::Memory);
    }
    let from = 2 * (5 + 2 * usize::from(s.gates) + usize::from(s.operands));
    let to = from + 2 * usize::from(s.rows);
    write_copy(circuit, &mut out[..circuit.len()], from, to);
    Ok(())
}
