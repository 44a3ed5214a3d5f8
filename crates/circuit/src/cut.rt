// Cutting a circuit into its arrays, and an array into stretches.
ghost use Rattle.std.specs.Prelude.{◌≡◌, ◌≢◌, ◌+◌, ◌*◌, ◌<◌, ◌≤◌, length, MatchOption, MatchResult};
ghost use Rattle.circuit.specs.Words.{part};
ghost use Rattle.circuit.specs.Lent.{Behind};

use crate::arrays::Arrays;
use crate::refusal::Refusal;
use crate::sizes::Sizes;

// Cuts what stands behind the header into the arrays.
pub fn cut<'a>(s: Sizes, rest: &'a [u8]) -> Result<Arrays<'a>, Refusal>
    ensures { MatchResult result (λ a. Behind s rest.now a) (λ why. (why ≡ Refusal.Length) × (length rest.now ≢ 2 * (2 * s.gates + s.operands + s.rows + s.outputs))) }
{
    let gates = 2 * usize::from(s.gates);
    let before_rows = 2 * gates + 2 * usize::from(s.operands);
    let before_outputs = before_rows + 2 * usize::from(s.rows);
    if rest.len() != before_outputs + 2 * usize::from(s.outputs) {
        return Err(Refusal::Length);
    }
    let forms = &rest[0..gates];
    let places = &rest[gates..2 * gates];
    let operands = &rest[2 * gates..before_rows];
    let rows = &rest[before_rows..before_outputs];
    let outputs = &rest[before_outputs..rest.len()];
    Ok(Arrays {
        sizes: s,
        forms,
        places,
        operands,
        rows,
        outputs,
    })
}

// The `count` words from word `from` on, if the array has them.
pub fn stretch(array: &[u8], from: u16, count: u32) -> Option<&[u8]>
    ensures { MatchOption result (length array.now < 2 * (from + count)) (λ x. (2 * (from + count) ≤ length array.now) × (x.now ≡ part from count array.now)) }
{
    let start = 2 * usize::from(from);
    let end = start + 2 * (count as usize);
    array.get(start..end)
}
