// The joint dividend of two ticket counts, by a settlement under long labels and the AES hash.
ghost use Rattle.std.specs.Prelude.{◌≡◌, ℕ, OnOk, ◌+◌, ◌≤◌, ◌++◌, length, ◌-◌, IfOk, Some, None, string_bytes, MatchResult, nat_eq, slice_index};
ghost use Rattle.labels.specs.Numbers.{number as number_from};
ghost use Rattle.settlement.specs.Lines.{call_at, line_at};
ghost use Rattle.listing.specs.Lines.{text_unless};
ghost use Rattle.listing.specs.Dividend.{low_bits, count_bits, sixteen_refusal, tickets_line, size_line, counts_line, dividend_line, settled_text, settle_lines, settle_text};
ghost use Rattle.labels.specs.Longs.{long};
ghost use Rattle.hashes.specs.AesHash.{aes_hash};
ghost use Rattle.exchange.specs.Planned.{whole_refusal};

use crate::calls::add_lines;
pub use crate::clear::joint_dividend;
use crate::lines::{add_outputs, refused};
use circuit::check::read;
use circuit::refusal::Refusal;
use evaluator::record::Evaluator;
use exchange::ending::wipe_both;
use exchange::room::Room;
use exchange::whole::run;
use garbler::record::Garbler;
use hashes::aes_hash::AesFunction;
use labels::long::Long;
use settlement::call::Call;
use settlement::lent::{Lent, lend};
use settlement::line::Line;
use std::alloc::{AllocError, Global};

// Writes the low bits of a number, the lowest first.
fn write_low(out: &mut [u8], value: u8)
    requires { length out.old ≤ 8 }
    ensures { out.new ≡ low_bits (length out.old) value }
{
    for (j, bit) in out.iter_mut().enumerate() {
        *bit = (value >> j) % 2;
    }
}

// The input bits of two counts.
pub(crate) fn input_bits(first: u8, second: u8) -> [u8; 14]
    ensures { result ≡ count_bits first second }
{
    let mut bits = [0u8; 14];
    write_low(&mut bits[0..7], first);
    write_low(&mut bits[7..14], second);
    bits
}

// The number whose bits the outputs are, the first lowest.
pub(crate) fn number_of_outputs(outputs: &[u8]) -> u32
    requires { length outputs.now ≡ 16 }
    ensures { result ≡ number_from 16 (λ o. nat_eq (slice_index outputs.now o) 1) }
{
    let mut sum = 0;
    for (j, bit) in outputs.iter().enumerate() {
        sum += u32::from(*bit == 1) << j;
    }
    sum
}

// Whether a circuit passes and has sixteen outputs.
fn has_sixteen(circuit: &[u8]) -> Result<(), Refusal>
    ensures { MatchResult result (λ u. sixteen_refusal circuit.now ≡ None) (λ why. sixteen_refusal circuit.now ≡ Some why) }
{
    let c = read(circuit)?;
    if c.arrays.sizes.outputs != 16 {
        return Err(Refusal::Memory);
    }
    Ok(())
}

// The first line.
fn tickets(heap: Global, first: u8, second: u8) -> Result<String, AllocError>
    ensures { IfOk result (λ t. string_bytes t ≡ tickets_line first second) }
{
    format!(in heap; "tickets {first} {second}\n")
}

// Adds how long the material is, and both counts of the last line.
fn add_totals(text: &mut String, bytes: usize, last: Line<Long>) -> Result<(), AllocError>
    ensures { OnOk result (string_bytes text.new ≡ string_bytes text.old ++ (size_line bytes ++ counts_line last.garbler_count last.evaluator_count)) }
{
    let garbler = last.garbler_count;
    let evaluator = last.evaluator_count;
    writeln!(text, "material {bytes} bytes")?;
    writeln!(text, "counts {garbler} {evaluator}")
}

// Adds the dividend's line.
fn add_dividend(text: &mut String, outputs: &[u8]) -> Result<(), AllocError>
    requires { length outputs.now ≡ 16 }
    ensures { OnOk result (string_bytes text.new ≡ string_bytes text.old ++ dividend_line (number_from 16 (λ o. nat_eq (slice_index outputs.now o) 1))) }
{
    let dividend = number_of_outputs(outputs);
    writeln!(text, "dividend {dividend}")
}

// The text of a settlement that is done.
fn lines_of(
    head: String,
    lent: &Lent<Long>,
    calls: &[Call],
    lines: &[Line<Long>],
) -> Result<String, AllocError>
    requires calls { length calls.now ≡ length lines.now }
    requires some { 1 ≤ length lines.now }
    requires outputs { length lent.now.outputs.now ≡ 16 }
    ensures { IfOk result (λ t. (first second : ℕ) → string_bytes head ≡ tickets_line first second → string_bytes t ≡ settled_text first second (call_at calls.now) (line_at lines.now) (length calls.now) (length lent.now.material.now) (line_at lines.now (length lines.now - 1)).garbler_count (line_at lines.now (length lines.now - 1)).evaluator_count (λ o. slice_index lent.now.outputs.now o) (number_from 16 (λ o. nat_eq (slice_index lent.now.outputs.now o) 1))) }
{
    let mut text = head;
    let last = lines[lines.len() - 1];
    add_lines(&mut text, calls, lines)?;
    add_totals(&mut text, lent.material.len(), last)?;
    add_outputs(&mut text, lent.outputs)?;
    add_dividend(&mut text, lent.outputs)?;
    Ok(text)
}

// Runs a settlement of a circuit of sixteen outputs, writes down its lines, and then wipes both sides.
fn settled(
    heap: Global,
    circuit: &[u8],
    seed: &[u8],
    first: u8,
    second: u8,
) -> Result<String, AllocError>
    requires { sixteen_refusal circuit.now ≡ None }
    ensures { IfOk result (λ t. string_bytes t ≡ text_unless (whole_refusal long aes_hash circuit.now seed.now (count_bits first second)) (settle_lines circuit.now seed.now first second)) }
{
    let bits = input_bits(first, second);
    let head = tickets(heap, first, second)?;
    let mut room: Room<Long> = match Room::furnish(heap, circuit, seed, &bits)? {
        Ok(room) => room,
        Err(why) => return refused(heap, why),
    };
    let mut garbler = Garbler::new();
    let mut evaluator = Evaluator::new();
    let mut lent = lend(
        room.zeros.as_mut_slice(),
        room.labels.as_mut_slice(),
        room.sent.as_mut_slice(),
        room.scratch.as_mut_slice(),
        room.material.as_mut_slice(),
        room.colours.as_mut_slice(),
        room.outputs.as_mut_slice(),
    );
    let calls = room.calls.as_slice();
    let lines = room.lines.as_mut_slice();
    match run::<Long, AesFunction>(
        circuit,
        room.copy.as_mut_slice(),
        room.seed.as_mut_slice(),
        &mut garbler,
        &mut evaluator,
        &mut lent,
        calls,
        lines,
    ) {
        Ok(tokens) => {
            let text = lines_of(head, &lent, calls, lines);
            wipe_both(&mut garbler, &mut evaluator, tokens, &mut lent);
            text
        }
        Err(why) => refused(heap, why),
    }
}

// The text that settle prints for any circuit, any seed and any two counts; of a count only the seven low bits go in.
pub fn settle_text(
    heap: Global,
    circuit: &[u8],
    seed: &[u8],
    first: u8,
    second: u8,
) -> Result<String, AllocError>
    ensures { IfOk result (λ t. string_bytes t ≡ settle_text circuit.now seed.now first second) }
{
    match has_sixteen(circuit) {
        Ok(()) => settled(heap, circuit, seed, first, second),
        Err(refusal) => refused(heap, refusal),
    }
}
