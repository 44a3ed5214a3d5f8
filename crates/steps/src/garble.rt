// The garbler's step at one gate of a circuit.
ghost use Rattle.std.specs.Prelude.{◌≡◌, suc, ◌+◌, ◌*◌, ◌/◌, ◌^◌, ◌<◌, ◌≤◌, true, ◌++◌, length, replicate};
ghost use Rattle.labels.specs.Words.{word_at};
ghost use Rattle.hashes.specs.Count.{counted};
ghost use Rattle.wires.specs.Wires.{Grown};
ghost use Rattle.circuit.specs.Words.{all_below};
ghost use Rattle.circuit.specs.Forms.{makes};
ghost use Rattle.circuit.specs.Gates.{form_of, made_before};
ghost use Rattle.circuit.specs.Material.{gate_bytes};
ghost use Rattle.circuit.specs.Lent.{parts_in};
ghost use Rattle.gates.specs.Half.{garbled};
ghost use Rattle.material.specs.Size.{bytes_of};
ghost use Rattle.tables.specs.Gate.{material_for, zeros_for, garbler_calls};
ghost use Rattle.labels.specs.Lists.{places};
ghost use Rattle.steps.specs.Gate.{label_on, labels_on, new_zeros, gate_material, garble_calls};

use crate::operands::{eight_fit, operand, read_operands};
use crate::secrets::Secrets;
use crate::xor::xor_wire;
use circuit::gate::Gate;
use circuit::passed::Circuit;
use gates::clear::clear;
use gates::half;
use gates::rows::put;
use hashes::hash::LabelHash;
use labels::kind::Label;
use tables::gate as table;
use wires::Wires;

// AND: writes the rows T and U and makes the new wire.
fn garble_and<L: Label, H: LabelHash<L>>(
    h: &mut H,
    gate: u32,
    offset: L,
    wires: &mut Wires<L>,
    operands: &[u8],
    material: &mut [u8],
)
    requires shaped { length operands.now ≡ 4 }
    requires order { all_below (word_at operands.now) 2 wires.old.made ≡ true }
    requires room { wires.old.made < length wires.old.values.now }
    requires part { length material.old ≡ 2 * L.kind.width }
    ensures made { wires.new.made ≡ wires.old.made + 1 }
    ensures grown { Grown wires.old.made 1 (λ _. (garbled L.kind (H.means h.old) gate offset (label_on L.kind wires.old.values.now operands.now 0) (label_on L.kind wires.old.values.now operands.now 1)).2) wires.old.values.now wires.new.values.now }
    ensures same { wires.new.values.ghost_name ≡ wires.old.values.ghost_name }
    ensures material { material.new ≡ L.kind.bytes (garbled L.kind (H.means h.old) gate offset (label_on L.kind wires.old.values.now operands.now 0) (label_on L.kind wires.old.values.now operands.now 1)).0 ++ L.kind.bytes (garbled L.kind (H.means h.old) gate offset (label_on L.kind wires.old.values.now operands.now 0) (label_on L.kind wires.old.values.now operands.now 1)).1 }
    ensures kept { H.means h.new ≡ H.means h.old }
    ensures count { H.calls h.new ≡ counted (H.calls h.old) 4 }
{
    let a = operand(wires, operands, 0);
    let b = operand(wires, operands, 1);
    let (t, u, zero) = half::garble(h, gate, offset, a, b);
    put(material, 0, t);
    put(material, L::width(), u);
    wires.push(zero);
}

// A table: its new wires are lent as the part of the store from the next wire on.
// Nine arguments: each is a part of the gate or a memory, and is used once.
fn garble_table<L: Label, H: LabelHash<L>>(
    h: &mut H,
    gate: u32,
    secrets: Secrets<L>,
    wires: &mut Wires<L>,
    m: usize,
    operands: &[u8],
    rows: &[u8],
    material: &mut [u8],
    scratch: &mut [L],
)
    requires early { gate < 512 }
    requires least { 1 ≤ length operands.now / 2 }
    requires most { length operands.now / 2 ≤ 8 }
    requires outputs { m ≤ 16 }
    requires order { all_below (word_at operands.now) (length operands.now / 2) wires.old.made ≡ true }
    requires room { wires.old.made + m ≤ length wires.old.values.now }
    requires rows { length rows.now ≡ 2 * 2 ^ (length operands.now / 2) }
    requires part { length material.old ≡ bytes_of L.kind.width (length operands.now / 2) m }
    requires scratch { 256 ≤ length scratch.old }
    ensures made { wires.new.made ≡ wires.old.made + m }
    ensures grown { Grown wires.old.made m (places L.kind (zeros_for L.kind (H.means h.old) gate secrets.seed secrets.offset (labels_on L.kind wires.old.values.now operands.now) rows.now m)) wires.old.values.now wires.new.values.now }
    ensures same { wires.new.values.ghost_name ≡ wires.old.values.ghost_name }
    ensures material { material.new ≡ material_for L.kind (H.means h.old) gate secrets.seed secrets.offset (labels_on L.kind wires.old.values.now operands.now) rows.now m }
    ensures scratch { scratch.new ≡ replicate (length scratch.old) L.kind.zero }
    ensures kept { H.means h.new ≡ H.means h.old }
    ensures count { H.calls h.new ≡ counted (H.calls h.old) (garbler_calls (length operands.now / 2) m) }
{
    eight_fit(scratch);
    let mut eight = [L::zero(); 8];
    let zeros = &mut eight[..operands.len() / 2];
    read_operands(wires, operands, zeros);
    let from = wires.made;
    let to = from + m;
    table::garble(
        h,
        gate,
        secrets.seed,
        secrets.offset,
        zeros,
        rows,
        material,
        scratch,
        &mut wires.values[from..to],
    );
    wires.made = to;
}

// Garbles gate g: writes its material, makes its new wires, and leaves the scratch zero.
pub fn garble_gate<L: Label, H: LabelHash<L>>(
    h: &mut H,
    circuit: Circuit,
    g: u16,
    secrets: Secrets<L>,
    wires: &mut Wires<L>,
    material: &mut [u8],
    scratch: &mut [L],
)
    requires there { g < circuit.arrays.sizes.gates }
    requires few { circuit.arrays.sizes.gates ≤ 512 }
    requires made { wires.old.made ≡ made_before (parts_in circuit.arrays) g }
    requires room { circuit.wires ≤ length wires.old.values.now }
    requires part { length material.old ≡ gate_bytes (8 * L.kind.width) (form_of (parts_in circuit.arrays) g) }
    requires scratch { 256 ≤ length scratch.old }
    ensures made { wires.new.made ≡ made_before (parts_in circuit.entry.arrays) (suc g) }
    ensures grown { Grown (made_before (parts_in circuit.entry.arrays) g) (makes (form_of (parts_in circuit.entry.arrays) g)) (places L.kind (new_zeros (parts_in circuit.entry.arrays) g L.kind (places L.kind wires.old.values.now) (H.means h.old) secrets.seed secrets.offset)) wires.old.values.now wires.new.values.now }
    ensures same { wires.new.values.ghost_name ≡ wires.old.values.ghost_name }
    ensures material { material.new ≡ gate_material (parts_in circuit.entry.arrays) g L.kind (places L.kind wires.old.values.now) (H.means h.old) secrets.seed secrets.offset }
    ensures scratch { scratch.new ≡ replicate (length scratch.old) L.kind.zero }
    ensures kept { H.means h.new ≡ H.means h.old }
    ensures count { H.calls h.new ≡ counted (H.calls h.old) (garble_calls (parts_in circuit.entry.arrays) g) }
{
    let gate = u32::from(g);
    match circuit.gate(g) {
        Gate::Xor { operands } => {
            xor_wire(wires, operands);
            clear(scratch);
        }
        Gate::And { operands } => {
            garble_and(h, gate, secrets.offset, wires, operands, material);
            clear(scratch);
        }
        Gate::Table {
            m,
            operands,
            rows,
            ..
        } => {
            let m = usize::from(m);
            garble_table(
                h, gate, secrets, wires, m, operands, rows, material, scratch,
            );
        }
    }
}
