// A circuit that passed: its arrays, and how many wires it has.
ghost use Rattle.std.specs.Prelude.{◌≡◌, ◌*◌, ◌^◌, ◌<◌, ◌≤◌, None};
ghost use Rattle.circuit.specs.Gates.{form_of, made_before, wires_in};
ghost use Rattle.circuit.specs.Material.{gate_bits};
ghost use Rattle.circuit.specs.Check.{gates_refusal, totals};
ghost use Rattle.circuit.specs.Lent.{parts_in, GateAt};

use crate::arrays::Arrays;
use crate::forms::form_bits;
use crate::gate::{Gate, passed_gate, wires_before};
use crate::sizes::Checked;
use crate::words::word_at;
use labels::kind::Label;

#[derive(Clone, Copy)]
pub struct Circuit<'a> {
    pub arrays: Arrays<'a>,
    pub wires: u16,
    pub ghost gates_pass: { gates_refusal (parts_in arrays) arrays.sizes.gates ≡ None },
    pub ghost counted: { wires ≡ wires_in (parts_in arrays) },
}

impl<'a> Circuit<'a> {
    // Gate g.
    pub fn gate(self, g: u16) -> Gate<'a>
        requires { g < self.arrays.sizes.gates }
        ensures { GateAt (parts_in self.entry.arrays) g result }
    {
        passed_gate(self.arrays, g)
    }

    // The wires made before gate g.
    pub fn wires_before(self, g: u16) -> u16
        requires { g ≤ self.arrays.sizes.gates }
        ensures { result ≡ made_before (parts_in self.entry.arrays) g }
    {
        wires_before(self.arrays, g)
    }

    // The bits of gate g's material, for labels of one kind.
    pub fn gate_bits<L: Label>(self, g: u16) -> usize
        requires { g < self.arrays.sizes.gates }
        ensures bits { result ≡ gate_bits (8 * L.kind.width) (form_of (parts_in self.entry.arrays) g) }
        ensures few { result ≤ 2 ^ 23 }
    {
        form_bits(8 * L::width(), word_at(self.arrays.forms, usize::from(g)))
    }

    // The sizes, the wires and the material of all gates, for labels of one kind.
    pub fn totals<L: Label>(self) -> Checked
        ensures { result ≡ totals L.kind (parts_in self.entry.arrays) }
    {
        let mut bits = 0;
        let mut bytes = 0;
        // Over the numbers of the gates: two sums at once.
        for g in 0..self.arrays.sizes.gates {
            let more = self.gate_bits::<L>(g);
            bits += more;
            bytes += more.div_ceil(8);
        }
        Checked {
            sizes: self.arrays.sizes,
            wires: self.wires,
            bits,
            bytes,
        }
    }
}
