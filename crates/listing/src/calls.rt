// The lines of a settlement under long labels.
ghost use Rattle.std.specs.Prelude.{◌≡◌, ◌++◌, length, string_bytes, OnOk};
ghost use Rattle.settlement.specs.Lines.{call_at, line_at};
ghost use Rattle.listing.specs.Calls.{hex_long, call_text, answer_text, call_line, call_lines};

use crate::hex::add_byte;
use labels::kind::Label;
use labels::long::Long;
use settlement::call::Call;
use settlement::line::{Answer, Line};
use std::alloc::AllocError;

// Adds a label, its highest byte first.
#[tactic(auto, unfolding(crate::specs::Calls::hex_long))]
fn add_long(text: &mut String, label: Long) -> Result<(), AllocError>
    ensures { OnOk result (string_bytes text.new ≡ string_bytes text.old ++ hex_long label) }
{
    let mut bytes = [0u8; 16];
    label.write(&mut bytes);
    for k in 0..16 {
        add_byte(text, bytes[15 - k])?;
    }
    Ok(())
}

// Adds a call and what it carries.
fn add_call(text: &mut String, call: Call) -> Result<(), AllocError>
    ensures { OnOk result (string_bytes text.new ≡ string_bytes text.old ++ call_text call) }
{
    match call {
        Call::Garble { scratch, material } => write!(text, "garble {scratch} {material}"),
        Call::Encode { input, bit } => write!(text, "encode {input} {bit}"),
        Call::Deliver { input } => write!(text, "deliver {input}"),
        Call::Evaluate { scratch } => write!(text, "evaluate {scratch}"),
        Call::Colours { length } => write!(text, "colours {length}"),
        Call::Decode { length } => write!(text, "decode {length}"),
        Call::Certify { output } => write!(text, "certify {output}"),
    }
}

// Adds what came of a call.
fn add_answer(text: &mut String, answer: Answer<Long>) -> Result<(), AllocError>
    ensures { OnOk result (string_bytes text.new ≡ string_bytes text.old ++ answer_text answer) }
{
    match answer {
        Answer::NotMade => text.push_str("not made"),
        Answer::Refused(why) => write!(text, "{why}"),
        Answer::Garbled { bits, bytes } => write!(text, "garbled {bits} bits {bytes} bytes"),
        Answer::Encoded(label) => {
            text.push_str("label ")?;
            add_long(text, label)
        }
        Answer::Delivered => text.push_str("delivered"),
        Answer::Evaluated { bytes } => write!(text, "evaluated {bytes} bytes"),
        Answer::Coloured => text.push_str("shown"),
        Answer::Decoded => text.push_str("decoded"),
        Answer::Certified(bit) => {
            let digit = u8::from(bit);
            write!(text, "bit {digit}")
        }
    }
}

// Adds a call's line.
fn add_line(text: &mut String, call: Call, line: Line<Long>) -> Result<(), AllocError>
    ensures { OnOk result (string_bytes text.new ≡ string_bytes text.old ++ call_line call line) }
{
    let garbler = line.garbler_count;
    let evaluator = line.evaluator_count;
    add_call(text, call)?;
    text.push_str(": ")?;
    add_answer(text, line.answer)?;
    writeln!(text, "; counts {garbler} {evaluator}")
}

// Adds a line for each call.
pub fn add_lines(text: &mut String, calls: &[Call], lines: &[Line<Long>]) -> Result<(), AllocError>
    requires { length calls.now ≡ length lines.now }
    ensures { OnOk result (string_bytes text.new ≡ string_bytes text.old ++ call_lines (call_at calls.now) (line_at lines.now) (length calls.now)) }
{
    for (k, call) in calls.iter().enumerate() {
        add_line(text, *call, lines[k])?;
    }
    Ok(())
}
