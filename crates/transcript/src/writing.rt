// The lines of a transcript.

use crate::room::Room;
use circuit::refusal::Refusal;
use labels::kind::Label;
use settlement::call::Call;
use settlement::line::{Answer, Line};
use std::alloc::{AllocError, Global};

// The text of a settlement that is refused.
pub fn refused(heap: Global, why: Refusal) -> Result<String, AllocError> {
    format!(in heap; "{why}\n")
}

// Both counts, and the end of the line.
fn add_counts(text: &mut String, counts: (u64, u64)) -> Result<(), AllocError> {
    let (garbler, evaluator) = counts;
    writeln!(text, "; counts {garbler} {evaluator}")
}

// The first line: both counts after the opening.
pub fn add_begun(text: &mut String, counts: (u64, u64)) -> Result<(), AllocError> {
    text.push_str("begun")?;
    add_counts(text, counts)
}

// A label as one number in hex, its highest byte first.
fn add_label<L: Label>(heap: Global, text: &mut String, label: L) -> Result<(), AllocError> {
    let mut bytes = vec![in heap; 0; L::width()]?;
    label.write(bytes.as_mut_slice());
    text.push_str("label ")?;
    for byte in bytes.iter().rev() {
        write!(text, "{byte:02X}")?;
    }
    Ok(())
}

// The first so many digits.
fn add_digits(
    text: &mut String,
    name: &str,
    digits: &[u8],
    length: usize,
) -> Result<(), AllocError> {
    write!(text, "{name} ")?;
    for digit in digits.iter().take(length) {
        write!(text, "{digit}")?;
    }
    Ok(())
}

// The length that colours and decode are lent.
fn length_of(call: Call) -> usize {
    match call {
        Call::Colours { length } | Call::Decode { length } => length,
        _ => 0,
    }
}

// What came of a call. The colours and the bits of the outputs are the same each time they are shown.
fn add_answer<L: Label>(
    heap: Global,
    text: &mut String,
    room: &Room<L>,
    call: Call,
    answer: Answer<L>,
) -> Result<(), AllocError> {
    let length = length_of(call);
    match answer {
        Answer::NotMade => text.push_str("not made"),
        Answer::Refused(why) => write!(text, "{why}"),
        Answer::Garbled { bits, bytes } => write!(text, "garbled {bits} bits {bytes} bytes"),
        Answer::Encoded(label) => add_label(heap, text, label),
        Answer::Delivered => text.push_str("delivered"),
        Answer::Evaluated { bytes } => write!(text, "evaluated {bytes} bytes"),
        Answer::Coloured => add_digits(text, "colours", room.colours.as_slice(), length),
        Answer::Certified(bit) => write!(text, "bit {}", u8::from(bit)),
        Answer::Decoded => add_digits(text, "out", room.outputs.as_slice(), length),
    }
}

// The line of a call.
pub fn add_line<L: Label>(
    heap: Global,
    text: &mut String,
    room: &Room<L>,
    call: Call,
    line: Line<L>,
) -> Result<(), AllocError> {
    add_answer(heap, text, room, call, line.answer)?;
    add_counts(text, (line.garbler_count, line.evaluator_count))
}
