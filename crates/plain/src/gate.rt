// The wires of one gate.
ghost use Rattle.std.specs.Prelude.{◌≡◌, ◌+◌, ◌/◌, ◌≤◌, true, false, length, slice_index_or};
ghost use Rattle.labels.specs.Words.{word_at};
ghost use Rattle.circuit.specs.Words.{all_below};
ghost use Rattle.circuit.specs.Lent.{Shaped, operands_in, new_in};
ghost use Rattle.plain.specs.Plain.{new_bit};
ghost use Rattle.wires.specs.Wires.{Grown};

use crate::rows::{row_number, write_bits};
use circuit::gate::Gate;
use circuit::words::word_at;
use wires::Wires;

// Makes the wires of one gate.
pub(crate) fn plain_gate(wires: &mut Wires<bool>, gate: Gate)
    requires shaped { Shaped gate }
    requires order { all_below (word_at (operands_in gate)) (length (operands_in gate) / 2) wires.old.made ≡ true }
    requires room { wires.old.made + new_in gate ≤ length wires.old.values.now }
    ensures made { wires.new.made ≡ wires.old.made + new_in gate.entry }
    ensures grown { Grown wires.old.made (new_in gate.entry) (new_bit gate.entry (λ i. slice_index_or wires.old.values.now (word_at (operands_in gate.entry) i) false)) wires.old.values.now wires.new.values.now }
    ensures same { wires.new.values.ghost_name ≡ wires.old.values.ghost_name }
{
    match gate {
        Gate::Xor { operands } => {
            let a = wires.read(word_at(operands, 0));
            let b = wires.read(word_at(operands, 1));
            wires.push(a ^ b);
        }
        Gate::And { operands } => {
            let a = wires.read(word_at(operands, 0));
            let b = wires.read(word_at(operands, 1));
            wires.push(a & b);
        }
        Gate::Table {
            m,
            operands,
            rows,
            ..
        } => {
            let row = word_at(rows, row_number(wires, operands));
            let from = wires.made;
            let to = from + usize::from(m);
            write_bits(&mut wires.values[from..to], row);
            wires.made = to;
        }
    }
}
