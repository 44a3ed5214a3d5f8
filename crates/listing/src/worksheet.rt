// The worksheet: the work of both sides, wire by wire.
ghost use Rattle.std.specs.Prelude.{◌≡◌, ℕ, List, ◌<◌, false, ◌++◌, length, IfOk, None, string_bytes, slice_index, slice_index_or};
ghost use Rattle.labels.specs.Papers.{paper};
ghost use Rattle.hashes.specs.Draws.{offset};
ghost use Rattle.hashes.specs.PaperHash.{paper_hash};
ghost use Rattle.circuit.specs.Gates.{wires_in};
ghost use Rattle.circuit.specs.Parts.{parts_of};
ghost use Rattle.plain.specs.Plain.{bit_in, plain_bit, plain_refusal, bits_refusal};
ghost use Rattle.labels.specs.Lists.{places};
ghost use Rattle.settlement.specs.declared.line.Line.{Line};
ghost use Rattle.labels.specs.declared.paper.Paper.{Paper};
ghost use Rattle.exchange.specs.Planned.{whole_refusal};
ghost use Rattle.exchange.specs.Outcome.{Outcome};
ghost use Rattle.listing.specs.Lines.{out_line, text_unless};
ghost use Rattle.listing.specs.Sheet.{offset_line, label_lines, material_line};
ghost use Rattle.listing.specs.Worksheet.{sheet_of, worksheet_text};

pub use crate::input::{Input, cut_input};
use crate::lines::{add_outputs, refused};
use crate::sheet::{add_labels, add_material, add_offset};
use circuit::refusal::Refusal;
use evaluator::record::Evaluator;
use exchange::ending::wipe_both;
use exchange::room::Room;
use exchange::whole::run;
use garbler::record::Garbler;
use hashes::draws::draw;
use hashes::paper::{PaperFunction, PaperHash};
use labels::kind::Label;
use labels::paper::Paper;
use plain::run::plain;
use settlement::lent::{Lent, lend};
use std::alloc::{AllocError, Global};

// The offset that the seed gives.
fn offset_of(seed: &[u8]) -> Paper
    requires { length seed.now ≡ 2 }
    ensures { result ≡ offset paper_hash (paper.from seed.now) paper }
{
    draw(&mut PaperHash::starting_at(0), Paper::read(seed), 0).raise()
}

// The bit on each wire, in the clear.
fn plain_bits(
    heap: Global,
    circuit: &[u8],
    given: &[u8],
    wires: usize,
    outputs: usize,
) -> Result<Vec<bool>, AllocError>
    requires passes { plain_refusal circuit.now given.now wires outputs ≡ None }
    requires wires { wires ≡ wires_in (parts_of circuit.now) }
    ensures long { IfOk result (λ v. length v.items ≡ wires) }
    ensures bits { IfOk result (λ v. (w : ℕ) → w < wires → slice_index_or v.items w false ≡ plain_bit (parts_of circuit.now) (bit_in given.now) w) }
{
    let mut bits = vec![in heap; false; wires]?;
    let mut values = vec![in heap; 0; outputs]?;
    plain(circuit, given, bits.as_mut_slice(), values.as_mut_slice()).unwrap();
    Ok(bits)
}

// The lines of what both sides hold.
fn sheet_text(
    heap: Global,
    offset: Paper,
    bits: &[bool],
    lent: &Lent<Paper>,
) -> Result<String, AllocError>
    requires zeros { length bits.now ≡ length lent.now.zeros.now }
    requires labels { length bits.now ≡ length lent.now.labels.now }
    ensures { IfOk result (λ t. string_bytes t ≡ offset_line offset ++ (label_lines (places paper lent.now.zeros.now) (places paper lent.now.labels.now) (λ w. slice_index_or bits.now w false) (length bits.now) ++ (material_line (λ k. slice_index lent.now.material.now k) (length lent.now.material.now) ++ out_line (λ k. slice_index lent.now.outputs.now k) (length lent.now.outputs.now)))) }
{
    let mut text = String::new(heap);
    add_offset(&mut text, offset)?;
    add_labels(&mut text, lent.zeros, lent.labels, bits)?;
    add_material(&mut text, lent.material)?;
    add_outputs(&mut text, lent.outputs)?;
    Ok(text)
}

// The text of a settlement that is done.
fn written(heap: Global, p: Input, lent: &Lent<Paper>) -> Result<String, AllocError>
    requires passes { bits_refusal p.circuit.now p.bits.now ≡ None }
    requires seed { length p.seed.now ≡ 2 }
    requires zeros { length lent.now.zeros.now ≡ wires_in (parts_of p.circuit.now) }
    requires labels { length lent.now.labels.now ≡ wires_in (parts_of p.circuit.now) }
    requires outputs { length lent.now.outputs.now ≡ (parts_of p.circuit.now).sizes.outputs }
    requires done { (lines : List (Line Paper)) × Outcome paper paper_hash (paper.from p.seed.now) (parts_of p.circuit.now) p.bits.now lent.now lines }
    ensures { IfOk result (λ t. string_bytes t ≡ sheet_of p.entry.circuit.now p.entry.seed.now p.entry.bits.now) }
{
    let wires = lent.zeros.len();
    let bits = plain_bits(heap, p.circuit, p.bits, wires, lent.outputs.len())?;
    sheet_text(heap, offset_of(p.seed), bits.as_slice(), lent)
}

// Runs both sides, writes down what they hold, and then wipes them, also where there is no memory for the text.
fn work(heap: Global, p: Input) -> Result<String, AllocError>
    requires { length p.seed.now ≡ 2 }
    ensures { IfOk result (λ t. string_bytes t ≡ text_unless (whole_refusal paper paper_hash p.entry.circuit.now p.entry.seed.now p.entry.bits.now) (sheet_of p.entry.circuit.now p.entry.seed.now p.entry.bits.now)) }
{
    let mut room: Room<Paper> = match Room::furnish(heap, p.circuit, p.seed, p.bits)? {
        Ok(room) => room,
        Err(why) => return refused(heap, why),
    };
    let mut garbler = Garbler::new();
    let mut evaluator = Evaluator::new();
    let mut lent = lend(
        room.zeros.as_mut_slice(),
        room.labels.as_mut_slice(),
        room.sent.as_mut_slice(),
        room.scratch.as_mut_slice(),
        room.material.as_mut_slice(),
        room.colours.as_mut_slice(),
        room.outputs.as_mut_slice(),
    );
    match run::<Paper, PaperFunction>(
        p.circuit,
        room.copy.as_mut_slice(),
        room.seed.as_mut_slice(),
        &mut garbler,
        &mut evaluator,
        &mut lent,
        room.calls.as_slice(),
        room.lines.as_mut_slice(),
    ) {
        Ok(tokens) => {
            let text = written(heap, p, &lent);
            wipe_both(&mut garbler, &mut evaluator, tokens, &mut lent);
            text
        }
        Err(why) => refused(heap, why),
    }
}

// The text that the worksheet prints for any input.
pub fn worksheet_text(heap: Global, input: &[u8]) -> Result<String, AllocError>
    ensures { IfOk result (λ t. string_bytes t ≡ worksheet_text input.now) }
{
    match cut_input(input) {
        Ok(p) => work(heap, p),
        Err(refusal) => refused(heap, refusal),
    }
}
