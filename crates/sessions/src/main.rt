// Sessions of single calls of both parties: reads them from standard input, and prints what came of each.
#![tactic(auto)]

mod answer;
mod call;
mod circuits;
mod evaluating;
mod evaluator_side;
mod flat;
mod garbler_side;
mod garbling;
mod lent;
mod numbered;
mod playing;
mod reading;
mod sections;
mod writing;

use circuits::Circuits;
use playing::play;
use sections::read_sections;
use std::io;

fn run(rt: &HostRuntime) -> anyhow::Result<()> {
    let heap = rt.alloc();
    let input = io::read_to_string(heap, rt.stdin())?;
    let circuits = Circuits::read(heap, input.as_str())?;
    let sections = read_sections(heap, &circuits, input.as_str())?;
    let mut text = String::new(heap);
    for section in &sections {
        play(heap, &mut text, section)?;
    }
    rt.print(text.as_str())?;
    Ok(())
}

fn main(rt: HostRuntime) -> anyhow::Result<()> {
    run(&rt)
}
