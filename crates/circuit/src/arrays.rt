// The arrays of a circuit, behind its header.
ghost use Rattle.std.specs.Prelude.{◌≡◌, ◌*◌, length};

use crate::sizes::Sizes;

// Each array is a part of the lent circuit, as the bytes of its words: as many as its size says.
// The forms and the places are two arrays, since the format lays one behind the other.
#[derive(Clone, Copy)]
pub struct Arrays<'a> {
    pub sizes: Sizes,
    pub forms: &'a [u8],
    pub places: &'a [u8],
    pub operands: &'a [u8],
    pub rows: &'a [u8],
    pub outputs: &'a [u8],
    pub ghost forms_long: { length forms.now ≡ 2 * sizes.gates },
    pub ghost places_long: { length places.now ≡ 2 * sizes.gates },
    pub ghost operands_long: { length operands.now ≡ 2 * sizes.operands },
    pub ghost rows_long: { length rows.now ≡ 2 * sizes.rows },
    pub ghost outputs_long: { length outputs.now ≡ 2 * sizes.outputs },
}
