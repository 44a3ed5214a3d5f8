// The calls of the input.

use anyhow::bail;
use settlement::call::Call;
use words::Words;

// A call from its words.
fn call_of(words: &mut Words) -> anyhow::Result<Call> {
    let call = match words.word() {
        "garble" => Call::Garble {
            scratch: words.size()?,
            material: words.size()?,
        },
        "encode" => Call::Encode {
            input: words.size()?,
            bit: words.byte()?,
        },
        "deliver" => Call::Deliver {
            input: words.size()?,
        },
        "evaluate" => Call::Evaluate {
            scratch: words.size()?,
        },
        "colours" => Call::Colours {
            length: words.size()?,
        },
        "decode" => Call::Decode {
            length: words.size()?,
        },
        "certify" => Call::Certify {
            output: words.size()?,
        },
        other => bail!("{other:?} is no call"),
    };
    Ok(call)
}

// Reads a line `call ..`.
pub fn read_call(line: &str) -> anyhow::Result<Call> {
    let mut words = Words::new(line);
    words.name("call")?;
    let call = call_of(&mut words)?;
    words.end()?;
    Ok(call)
}
