// The lines of a worksheet.
ghost use Rattle.std.specs.Prelude.{◌≡◌, false, ◌++◌, length, string_bytes, OnOk, slice_index, slice_index_or};
ghost use Rattle.labels.specs.Papers.{paper};
ghost use Rattle.labels.specs.Lists.{places};
ghost use Rattle.listing.specs.Sheet.{offset_line, label_line, label_lines, material_line};

use crate::hex::{add_bytes, add_label};
use labels::paper::Paper;
use std::alloc::AllocError;

// Adds the line of the offset.
pub fn add_offset(text: &mut String, offset: Paper) -> Result<(), AllocError>
    ensures { OnOk result (string_bytes text.new ≡ string_bytes text.old ++ offset_line offset) }
{
    text.push_str("offset ")?;
    add_label(text, offset)?;
    text.push_str("\n")
}

// Adds a wire's line.
fn add_wire(
    text: &mut String,
    w: usize,
    zero: Paper,
    label: Paper,
    bit: bool,
) -> Result<(), AllocError>
    ensures { OnOk result (string_bytes text.new ≡ string_bytes text.old ++ label_line w zero label bit) }
{
    let digit = u8::from(bit);
    write!(text, "{w} ")?;
    add_label(text, zero)?;
    text.push_str(" ")?;
    add_label(text, label)?;
    writeln!(text, " {digit}")
}

// Adds a line for each wire that has a bit.
pub fn add_labels(
    text: &mut String,
    zeros: &[Paper],
    labels: &[Paper],
    bits: &[bool],
) -> Result<(), AllocError>
    requires zeros { length bits.now ≡ length zeros.now }
    requires labels { length bits.now ≡ length labels.now }
    ensures { OnOk result (string_bytes text.new ≡ string_bytes text.old ++ label_lines (places paper zeros.now) (places paper labels.now) (λ w. slice_index_or bits.now w false) (length bits.now)) }
{
    for (w, bit) in bits.iter().enumerate() {
        add_wire(text, w, zeros[w], labels[w], *bit)?;
    }
    Ok(())
}

// Adds the line of the material.
pub fn add_material(text: &mut String, material: &[u8]) -> Result<(), AllocError>
    ensures { OnOk result (string_bytes text.new ≡ string_bytes text.old ++ material_line (λ k. slice_index material.now k) (length material.now)) }
{
    text.push_str("material ")?;
    add_bytes(text, material)?;
    text.push_str("\n")
}
