// The gates of a circuit.
ghost use Rattle.std.specs.Prelude.{◌≡◌, ◌+◌, ◌*◌, ◌/◌, ◌^◌, ◌<◌, ◌≤◌, length, Some, None, MatchResult};
ghost use Rattle.labels.specs.Words.{word_at};
ghost use Rattle.circuit.specs.Words.{part, all_below};
ghost use Rattle.circuit.specs.Check.{shape_refusal};
ghost use Rattle.circuit.specs.Forms.{is_table};
ghost use Rattle.circuit.specs.Gates.{form_of, place_of, made_before, wires_in};
ghost use Rattle.circuit.specs.Lent.{parts_in, GateAt, new_in, operands_in, narrow};

use crate::arrays::Arrays;
use crate::cut::stretch;
use crate::forms::form_makes;
use crate::refusal::Refusal;
use crate::words::{two_to, word_at, words_below, words_fit};

// A gate, whose operands and rows are parts of the lent circuit. A table has n inputs and m outputs.
#[derive(Clone, Copy)]
pub enum Gate<'a> {
    Xor {
        operands: &'a [u8],
    },
    And {
        operands: &'a [u8],
    },
    Table {
        n: u16,
        m: u16,
        operands: &'a [u8],
        rows: &'a [u8],
    },
}

// Whether a form is a table's.
fn table_form(form: u16) -> bool
    ensures { result ≡ is_table form }
{
    (1..=8).contains(&(form / 256)) && (1..=16).contains(&(form % 256))
}

// A stretch of words of gate g, which is refused where it runs past its array.
fn stretch_of(g: u16, array: &[u8], from: u16, count: u32) -> Result<&[u8], Refusal>
    ensures { MatchResult result (λ x. (2 * (from + count) ≤ length array.now) × (x.now ≡ part from count array.now)) (λ why. (why ≡ Refusal.PastArray g) × (length array.now < 2 * (from + count))) }
{
    stretch(array, from, count).ok_or(Refusal::PastArray(g))
}

// Gate g; refused where its form is unknown or a part of it runs past its array.
// The form is a number here and in `table_at`, as the format has it; from here on it is a case of `Gate`.
pub fn gate_at<'a>(a: Arrays<'a>, g: u16) -> Result<Gate<'a>, Refusal>
    requires there { g < a.sizes.gates }
    ensures { MatchResult result (λ gate. (shape_refusal (parts_in a.entry) g ≡ None) × GateAt (parts_in a.entry) g gate) (λ why. shape_refusal (parts_in a.entry) g ≡ Some why) }
{
    let form = word_at(a.forms, usize::from(g));
    let place = word_at(a.places, usize::from(g));
    if form > 1 {
        return table_at(a, g, form, place);
    }
    let operands = stretch_of(g, a.operands, place, 2)?;
    if form == 0 {
        Ok(Gate::Xor { operands })
    } else {
        Ok(Gate::And { operands })
    }
}

// Gate g of a form above 1.
fn table_at<'a>(a: Arrays<'a>, g: u16, form: u16, place: u16) -> Result<Gate<'a>, Refusal>
    requires high { 1 < form }
    requires formed { form ≡ form_of (parts_in a) g }
    requires placed { place ≡ place_of (parts_in a) g }
    ensures { MatchResult result (λ gate. (shape_refusal (parts_in a.entry) g ≡ None) × GateAt (parts_in a.entry) g gate) (λ why. shape_refusal (parts_in a.entry) g ≡ Some why) }
{
    if !table_form(form) {
        return Err(Refusal::UnknownForm(g));
    }
    let n = form / 256;
    let words = stretch_of(g, a.operands, place, u32::from(n) + 1)?;
    let first = word_at(words, usize::from(n));
    let rows = stretch_of(g, a.rows, first, two_to(n))?;
    Ok(Gate::Table {
        n,
        m: form % 256,
        operands: &words[0..2 * usize::from(n)],
        rows,
    })
}

impl<'a> Gate<'a> {
    // How many wires it makes.
    pub fn makes(self) -> u16
        ensures { result ≡ new_in self.entry }
    {
        match self {
            Gate::Xor { .. } | Gate::And { .. } => 1,
            Gate::Table { m, .. } => m,
        }
    }

    // The wires it reads, as words.
    pub fn operands(self) -> &'a [u8]
        ensures { result.now ≡ operands_in self.entry }
    {
        match self {
            Gate::Xor { operands } | Gate::And { operands } | Gate::Table { operands, .. } =>
                operands,
        }
    }

    // Whether each wire that it reads is one of the first `made`.
    pub fn reads_made(self, made: u16) -> bool
        ensures { result ≡ all_below (word_at (operands_in self.entry)) (length (operands_in self.entry) / 2) made }
    {
        words_below(self.operands(), u32::from(made))
    }

    // Whether each row is below 2^m.
    pub fn rows_fit(self) -> bool
        requires { new_in self ≤ 16 }
        ensures { result ≡ narrow self.entry }
    {
        match self {
            Gate::Xor { .. } | Gate::And { .. } => true,
            Gate::Table { m, rows, .. } => words_fit(rows, m),
        }
    }
}

// Gate g, whose form and places passed.
pub fn passed_gate<'a>(a: Arrays<'a>, g: u16) -> Gate<'a>
    requires there { g < a.sizes.gates }
    requires passed { shape_refusal (parts_in a) g ≡ None }
    ensures { GateAt (parts_in a.entry) g result }
{
    gate_at(a, g).unwrap()
}

// The wires made before gate g.
pub fn wires_before(a: Arrays, g: u16) -> u16
    requires there { g ≤ a.sizes.gates }
    requires few { wires_in (parts_in a) < 2 ^ 16 }
    ensures { result ≡ made_before (parts_in a.entry) g }
{
    let mut made = a.sizes.inputs;
    // Over the numbers of the gates: a sum of a chain would ask for its bound as a fact about a list.
    for k in 0..g {
        made += form_makes(word_at(a.forms, usize::from(k)));
    }
    made
}
