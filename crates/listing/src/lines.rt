// Lines of text.
ghost use Rattle.std.specs.Prelude.{◌≡◌, ◌++◌, length, IfOk, string_bytes, OnOk, slice_index};
ghost use Rattle.listing.specs.Lines.{out_line, refused_line};

use circuit::refusal::Refusal;
use std::alloc::{AllocError, Global};

// Adds the line of the output bits.
pub fn add_outputs(text: &mut String, outputs: &[u8]) -> Result<(), AllocError>
    ensures { OnOk result (string_bytes text.new ≡ string_bytes text.old ++ out_line (λ k. slice_index outputs.now k) (length outputs.now)) }
{
    text.push_str("out ")?;
    for bit in outputs {
        write!(text, "{bit}")?;
    }
    text.push_str("\n")
}

// The text of a refusal.
pub fn refused(heap: Global, why: Refusal) -> Result<String, AllocError>
    ensures { IfOk result (λ s. string_bytes s ≡ refused_line why) }
{
    format!(in heap; "{why}\n")
}
