// Reads a circuit, two seed bytes and the input bits from standard input, and prints the worksheet.
#![tactic(auto)]

use listing::worksheet::worksheet_text;
use std::io;
use std::io::Read;

fn main(rt: HostRuntime) -> io::Result<()> {
    let heap = rt.alloc();
    let mut input = Vec::new(heap);
    rt.stdin().read_to_end(&mut input)?;
    let text = worksheet_text(heap, input.as_slice())?;
    rt.print(text.as_str())
}
