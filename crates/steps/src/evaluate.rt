// The evaluator's step at one gate of a circuit.
ghost use Rattle.std.specs.Prelude.{◌≡◌, suc, ◌+◌, ◌*◌, ◌/◌, ◌<◌, ◌≤◌, true, length, replicate};
ghost use Rattle.labels.specs.Words.{word_at};
ghost use Rattle.hashes.specs.Count.{counted};
ghost use Rattle.wires.specs.Wires.{Grown};
ghost use Rattle.circuit.specs.Words.{all_below};
ghost use Rattle.circuit.specs.Forms.{makes};
ghost use Rattle.circuit.specs.Gates.{form_of, made_before};
ghost use Rattle.circuit.specs.Material.{gate_bytes};
ghost use Rattle.circuit.specs.Lent.{parts_in};
ghost use Rattle.gates.specs.Bytes.{bytes_at};
ghost use Rattle.gates.specs.Half.{joined};
ghost use Rattle.material.specs.Size.{bytes_of};
ghost use Rattle.tables.specs.Gate.{evaluated, evaluator_calls};
ghost use Rattle.labels.specs.Lists.{places};
ghost use Rattle.steps.specs.Gate.{label_on, labels_on, new_labels, evaluate_calls};

use crate::operands::{eight_fit, operand, read_operands};
use crate::xor::xor_wire;
use circuit::gate::Gate;
use circuit::passed::Circuit;
use gates::clear::clear;
use gates::half;
use gates::rows::get;
use hashes::hash::LabelHash;
use labels::kind::Label;
use tables::gate as table;
use wires::Wires;

// AND: makes the new wire from the rows T and U.
fn evaluate_and<L: Label, H: LabelHash<L>>(
    h: &mut H,
    gate: u32,
    wires: &mut Wires<L>,
    operands: &[u8],
    material: &[u8],
)
    requires shaped { length operands.now ≡ 4 }
    requires order { all_below (word_at operands.now) 2 wires.old.made ≡ true }
    requires room { wires.old.made < length wires.old.values.now }
    requires part { length material.now ≡ 2 * L.kind.width }
    ensures made { wires.new.made ≡ wires.old.made + 1 }
    ensures grown { Grown wires.old.made 1 (λ _. joined L.kind (H.means h.old) gate (L.kind.from (bytes_at 0 L.kind.width material.now)) (L.kind.from (bytes_at L.kind.width L.kind.width material.now)) (label_on L.kind wires.old.values.now operands.now 0) (label_on L.kind wires.old.values.now operands.now 1)) wires.old.values.now wires.new.values.now }
    ensures same { wires.new.values.ghost_name ≡ wires.old.values.ghost_name }
    ensures kept { H.means h.new ≡ H.means h.old }
    ensures count { H.calls h.new ≡ counted (H.calls h.old) 2 }
{
    let a = operand(wires, operands, 0);
    let b = operand(wires, operands, 1);
    let t = get(material, 0);
    let u = get(material, L::width());
    let label = half::evaluate(h, gate, t, u, a, b);
    wires.push(label);
}

// A table: its new wires are lent as the part of the store from the next wire on.
fn evaluate_table<L: Label, H: LabelHash<L>>(
    h: &mut H,
    gate: u32,
    wires: &mut Wires<L>,
    m: usize,
    operands: &[u8],
    material: &[u8],
    scratch: &mut [L],
)
    requires least { 1 ≤ length operands.now / 2 }
    requires most { length operands.now / 2 ≤ 8 }
    requires outputs { m ≤ 16 }
    requires order { all_below (word_at operands.now) (length operands.now / 2) wires.old.made ≡ true }
    requires room { wires.old.made + m ≤ length wires.old.values.now }
    requires part { length material.now ≡ bytes_of L.kind.width (length operands.now / 2) m }
    requires scratch { 256 ≤ length scratch.old }
    ensures made { wires.new.made ≡ wires.old.made + m }
    ensures grown { Grown wires.old.made m (places L.kind (evaluated L.kind (H.means h.old) gate (length operands.now / 2) m material.now (places L.kind (labels_on L.kind wires.old.values.now operands.now)))) wires.old.values.now wires.new.values.now }
    ensures same { wires.new.values.ghost_name ≡ wires.old.values.ghost_name }
    ensures scratch { scratch.new ≡ replicate (length scratch.old) L.kind.zero }
    ensures kept { H.means h.new ≡ H.means h.old }
    ensures count { H.calls h.new ≡ counted (H.calls h.old) (evaluator_calls (length operands.now / 2) m) }
{
    eight_fit(scratch);
    let mut eight = [L::zero(); 8];
    let labels = &mut eight[..operands.len() / 2];
    read_operands(wires, operands, labels);
    let from = wires.made;
    let to = from + m;
    table::evaluate(
        h,
        gate,
        labels,
        material,
        scratch,
        &mut wires.values[from..to],
    );
    wires.made = to;
}

// Evaluates gate g from its material: makes its new wires, and leaves the scratch zero.
pub fn evaluate_gate<L: Label, H: LabelHash<L>>(
    h: &mut H,
    circuit: Circuit,
    g: u16,
    wires: &mut Wires<L>,
    material: &[u8],
    scratch: &mut [L],
)
    requires there { g < circuit.arrays.sizes.gates }
    requires made { wires.old.made ≡ made_before (parts_in circuit.arrays) g }
    requires room { circuit.wires ≤ length wires.old.values.now }
    requires part { length material.now ≡ gate_bytes (8 * L.kind.width) (form_of (parts_in circuit.arrays) g) }
    requires scratch { 256 ≤ length scratch.old }
    ensures made { wires.new.made ≡ made_before (parts_in circuit.entry.arrays) (suc g) }
    ensures grown { Grown (made_before (parts_in circuit.entry.arrays) g) (makes (form_of (parts_in circuit.entry.arrays) g)) (places L.kind (new_labels (parts_in circuit.entry.arrays) g L.kind (places L.kind wires.old.values.now) (H.means h.old) material.now)) wires.old.values.now wires.new.values.now }
    ensures same { wires.new.values.ghost_name ≡ wires.old.values.ghost_name }
    ensures scratch { scratch.new ≡ replicate (length scratch.old) L.kind.zero }
    ensures kept { H.means h.new ≡ H.means h.old }
    ensures count { H.calls h.new ≡ counted (H.calls h.old) (evaluate_calls (parts_in circuit.entry.arrays) g) }
{
    let gate = u32::from(g);
    match circuit.gate(g) {
        Gate::Xor { operands } => {
            xor_wire(wires, operands);
            clear(scratch);
        }
        Gate::And { operands } => {
            evaluate_and(h, gate, wires, operands, material);
            clear(scratch);
        }
        Gate::Table { m, operands, .. } => {
            evaluate_table(h, gate, wires, usize::from(m), operands, material, scratch);
        }
    }
}
