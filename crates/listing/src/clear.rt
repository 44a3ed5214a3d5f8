// The joint dividend of two ticket counts, in the clear.
ghost use Rattle.std.specs.Prelude.{◌≡◌, length, Some, MatchResult};
ghost use Rattle.plain.specs.Plain.{plain_refusal};
ghost use Rattle.listing.specs.Dividend.{count_bits, Settled};

use crate::dividend::{input_bits, number_of_outputs};
use circuit::check::read;
use circuit::refusal::Refusal;
use plain::run::plain;

// Evaluates a circuit of 14 inputs and 16 outputs at two counts; of each count only the seven low bits go in.
// Answers the number of wires and the dividend.
pub fn joint_dividend(
    circuit: &[u8],
    first: u8,
    second: u8,
    wires: &mut [bool],
    outputs: &mut [u8; 16],
) -> Result<(usize, u32), Refusal>
    ensures { MatchResult result (λ v. Settled circuit.now first second wires.old wires.new outputs.new v.0 v.1) (λ why. (plain_refusal circuit.now (count_bits first second) (length wires.old) 16 ≡ Some why) × (wires.new ≡ wires.old) × (outputs.new ≡ outputs.old)) }
{
    let bits = input_bits(first, second);
    let c = read(circuit)?;
    plain(circuit, &bits, wires, outputs)?;
    Ok((usize::from(c.wires), number_of_outputs(outputs)))
}
