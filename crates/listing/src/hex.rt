// Hex digits.
ghost use Rattle.std.specs.Prelude.{◌≡◌, ◌++◌, length, string_bytes, OnOk, slice_index};
ghost use Rattle.listing.specs.Hex.{hex_byte, hex_label, hex_bytes};

use labels::paper::Paper;
use std::alloc::AllocError;

// Adds a byte's two digits.
pub fn add_byte(text: &mut String, byte: u8) -> Result<(), AllocError>
    ensures { OnOk result (string_bytes text.new ≡ string_bytes text.old ++ hex_byte byte) }
{
    write!(text, "{byte:02X}")
}

// Adds a label's four digits.
#[tactic(auto, unfolding(crate::specs::Hex::hex_label))]
pub fn add_label(text: &mut String, label: Paper) -> Result<(), AllocError>
    ensures { OnOk result (string_bytes text.new ≡ string_bytes text.old ++ hex_label label) }
{
    add_byte(text, (label.word / 256) as u8)?;
    add_byte(text, (label.word % 256) as u8)
}

// Adds the digits of some bytes.
pub fn add_bytes(text: &mut String, bytes: &[u8]) -> Result<(), AllocError>
    ensures { OnOk result (string_bytes text.new ≡ string_bytes text.old ++ hex_bytes (λ k. slice_index bytes.now k) (length bytes.now)) }
{
    for byte in bytes {
        add_byte(text, *byte)?;
    }
    Ok(())
}
