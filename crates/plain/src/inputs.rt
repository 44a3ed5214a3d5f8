// Input bits, and the wires that they stand on.
ghost use Rattle.std.specs.Prelude.{◌≡◌, ◌≤◌, length, slice_index};
ghost use Rattle.circuit.specs.Words.{all_below};
ghost use Rattle.plain.specs.Plain.{bit_in};
ghost use Rattle.wires.specs.Wires.{Filled};

use wires::Wires;

// Whether each byte is 0 or 1.
pub fn all_bits(bits: &[u8]) -> bool
    ensures { result ≡ all_below (λ i. slice_index bits.now i) (length bits.now) 2 }
{
    bits.iter().all(|bit| *bit <= 1)
}

// Puts the input bits on the first wires.
pub(crate) fn take_inputs(wires: &mut Wires<bool>, bits: &[u8])
    requires first { wires.old.made ≡ 0 }
    requires room { length bits.now ≤ length wires.old.values.now }
    ensures made { wires.new.made ≡ length bits.now }
    ensures filled { Filled (length bits.now) (bit_in bits.now) wires.old.values.now wires.new.values.now }
    ensures same { wires.new.values.ghost_name ≡ wires.old.values.ghost_name }
{
    for bit in bits {
        wires.push(*bit == 1);
    }
}
