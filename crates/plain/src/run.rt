// Plain evaluation: every wire's bit, in the clear.
ghost use Rattle.std.specs.Prelude.{◌≡◌, ℕ, ◌*◌, ◌<◌, ◌≤◌, true, false, length, Some, MatchResult, slice_index, slice_index_or};
ghost use Rattle.labels.specs.Numbers.{digit};
ghost use Rattle.labels.specs.Words.{word_at};
ghost use Rattle.circuit.specs.Words.{all_below};
ghost use Rattle.circuit.specs.Lent.{parts_in};
ghost use Rattle.plain.specs.Plain.{bit_in, plain_bit, plain_refusal, Evaluated};
ghost use Rattle.plain.specs.Ready.{Ready};
ghost use Rattle.wires.specs.Wires.{Filled};

use crate::gate::plain_gate;
pub use crate::inputs::all_bits;
use crate::inputs::take_inputs;
use circuit::check::read;
use circuit::passed::Circuit;
use circuit::refusal::Refusal;
use circuit::words::word_at;
use wires::Wires;

// The circuit, once nothing stands against a plain evaluation.
fn ready<'a>(
    circuit: &'a [u8],
    bits: &[u8],
    wires: usize,
    outputs: usize,
) -> Result<Circuit<'a>, Refusal>
    ensures { MatchResult result (Ready circuit.now bits.now wires outputs) (λ why. plain_refusal circuit.now bits.now wires outputs ≡ Some why) }
{
    let c = read(circuit)?;
    let s = c.arrays.sizes;
    if wires < usize::from(c.wires)
        || bits.len() != usize::from(s.inputs)
        || outputs != usize::from(s.outputs)
    {
        return Err(Refusal::Memory);
    }
    if !all_bits(bits) {
        return Err(Refusal::Bit);
    }
    Ok(c)
}

// Makes every wire: the inputs, and then gate by gate.
fn make_wires(c: Circuit, bits: &[u8], wires: &mut Wires<bool>)
    requires inputs { length bits.now ≡ c.arrays.sizes.inputs }
    requires first { wires.old.made ≡ 0 }
    requires room { c.wires ≤ length wires.old.values.now }
    ensures made { wires.new.made ≡ c.entry.wires }
    ensures filled { Filled c.entry.wires (plain_bit (parts_in c.entry.arrays) (bit_in bits.now)) wires.old.values.now wires.new.values.now }
    ensures same { wires.new.values.ghost_name ≡ wires.old.values.ghost_name }
{
    take_inputs(wires, bits);
    // Over the numbers of the gates: each reads wires that those before it made.
    for g in 0..c.arrays.sizes.gates {
        plain_gate(wires, c.gate(g));
    }
}

// Writes the bit on each output's wire.
fn give_outputs(wires: &Wires<bool>, list: &[u8], outputs: &mut [u8])
    requires long { length list.now ≡ 2 * length outputs.old }
    requires order { all_below (word_at list.now) (length outputs.old) wires.now.made ≡ true }
    requires room { wires.now.made ≤ length wires.now.values.now }
    ensures { (o : ℕ) → o < length outputs.old → slice_index outputs.new o ≡ digit (slice_index_or wires.now.values.now (word_at list.now o) false) }
{
    for (o, output) in outputs.iter_mut().enumerate() {
        *output = u8::from(wires.read(word_at(list, o)));
    }
}

// Fills the wire memory and writes the outputs.
fn run(c: Circuit, bits: &[u8], wires: &mut [bool], outputs: &mut [u8])
    requires inputs { length bits.now ≡ c.arrays.sizes.inputs }
    requires list { length outputs.old ≡ c.arrays.sizes.outputs }
    requires order { all_below (word_at c.arrays.outputs.now) c.arrays.sizes.outputs c.wires ≡ true }
    requires room { c.wires ≤ length wires.old }
    ensures filled { Filled c.entry.wires (plain_bit (parts_in c.entry.arrays) (bit_in bits.now)) wires.old wires.new }
    ensures outs { (o : ℕ) → o < c.entry.arrays.sizes.outputs → slice_index outputs.new o ≡ digit (slice_index_or wires.new (word_at c.entry.arrays.outputs.now o) false) }
{
    let mut store = Wires::new(wires, 0);
    make_wires(c, bits, &mut store);
    give_outputs(&store, c.arrays.outputs, outputs);
}

// Evaluates a circuit in the clear: fills the wire memory up to the last wire and writes the outputs, or changes nothing.
pub fn plain(
    circuit: &[u8],
    bits: &[u8],
    wires: &mut [bool],
    outputs: &mut [u8],
) -> Result<(), Refusal>
    ensures { MatchResult result (λ _. Evaluated circuit.now bits.now wires.old wires.new outputs.new) (λ why. (plain_refusal circuit.now bits.now (length wires.old) (length outputs.old) ≡ Some why) × (wires.new ≡ wires.old) × (outputs.new ≡ outputs.old)) }
{
    let c = ready(circuit, bits, wires.len(), outputs.len())?;
    run(c, bits, wires, outputs);
    Ok(())
}
