// The input of a worksheet.
ghost use Rattle.std.specs.Prelude.{◌≡◌, Some, MatchResult};
ghost use Rattle.circuit.specs.Header.{words_in};
ghost use Rattle.listing.specs.Work.{Cut};
ghost use Rattle.listing.specs.Worksheet.{sheet_refusal};

use circuit::header::{header, within_limits};
use circuit::refusal::Refusal;
use circuit::sizes::Sizes;

// A circuit with its sizes, two seed bytes and a byte for each input bit.
#[derive(Clone, Copy)]
pub struct Input<'a> {
    pub sizes: Sizes,
    pub circuit: &'a [u8],
    pub seed: &'a [u8],
    pub bits: &'a [u8],
}

// The words of a circuit.
fn words_of(s: Sizes) -> usize
    ensures { result ≡ words_in s }
{
    5 + 2 * usize::from(s.gates)
        + usize::from(s.operands)
        + usize::from(s.rows)
        + usize::from(s.outputs)
}

// Cuts an input into its parts.
pub fn cut_input(input: &[u8]) -> Result<Input<'_>, Refusal>
    ensures { MatchResult result (λ p. Cut input.now p) (λ why. sheet_refusal input.now ≡ Some why) }
{
    let (sizes, _) = header(input)?;
    if !within_limits(sizes) {
        return Err(Refusal::Size);
    }
    let end = 2 * words_of(sizes);
    if input.len() != end + 2 + usize::from(sizes.inputs) {
        return Err(Refusal::Length);
    }
    Ok(Input {
        sizes,
        circuit: &input[0..end],
        seed: &input[end..end + 2],
        bits: &input[end + 2..input.len()],
    })
}
