// Rows of labels in the material's bytes, and the circuit's table rows.
ghost use Rattle.std.specs.Prelude.{◌≡◌, ℕ, ◌+◌, ◌*◌, ◌<◌, ◌≤◌, length, ◌≢◌};
ghost use Rattle.labels.specs.Words.{word_at};
ghost use Rattle.tables.specs.Material.{row_bytes, row_at};

use gates::rows;
use labels::kind::Label;

// Writes the material's row k; all other rows stay.
pub fn put_row<L: Label>(material: &mut [u8], k: usize, label: L)
    requires { k * L.kind.width + L.kind.width ≤ length material.old }
    ensures here { row_bytes L.kind k material.new ≡ L.kind.bytes label }
    ensures others { (i : ℕ) → (i ≢ k) → row_bytes L.kind i material.new ≡ row_bytes L.kind i material.old }
{
    rows::put(material, k * L::width(), label);
}

// Reads the material's row k.
pub fn get_row<L: Label>(material: &[u8], k: usize) -> L
    requires { k * L.kind.width + L.kind.width ≤ length material.now }
    ensures { result ≡ row_at L.kind material.now k }
{
    rows::get(material, k * L::width())
}

// Row i of the circuit's table. A word is read here too, since this crate knows no format of circuits.
pub fn table_row(rows: &[u8], i: usize) -> u16
    requires { 2 * i + 1 < length rows.now }
    ensures { result ≡ word_at rows.now i }
{
    u16::from_le_bytes([rows[2 * i], rows[2 * i + 1]])
}
