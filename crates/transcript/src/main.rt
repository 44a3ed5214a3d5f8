// Settlements as text: reads the parts and the calls of each from standard input, and prints what came of each call.
#![tactic(auto)]

mod calls;
mod parts;
mod room;
mod running;
mod settling;
mod writing;

use parts::Parts;
use running::transcript;
use std::io;

fn run(rt: &HostRuntime) -> anyhow::Result<()> {
    let heap = rt.alloc();
    let input = io::read_to_string(heap, rt.stdin())?;
    let settlements = Parts::read_all(heap, input.as_str())?;
    for (k, parts) in settlements.iter().enumerate() {
        if k > 0 {
            rt.print("\n")?;
        }
        let text = transcript(heap, parts)?;
        rt.print(text.as_str())?;
    }
    Ok(())
}

fn main(rt: HostRuntime) -> anyhow::Result<()> {
    run(&rt)
}
