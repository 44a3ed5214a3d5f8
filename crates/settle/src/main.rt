// Two tracks' ticket counts become one joint dividend: `settle CIRCUIT FIRST SECOND SEED` prints the settlement, call by call.
#![tactic(auto)]

use anyhow::{Context, ensure};
use listing::dividend::settle_text;
use std::{env, fs};

const USAGE: &str = "usage: settle CIRCUIT FIRST SECOND SEED";

const MOST: &str = "a ticket count is a number of at most 127";

// A ticket count of at most seven bits.
fn count_of(word: Option<String>) -> anyhow::Result<u8> {
    let word = word.context(USAGE)?;
    let count = word.as_str().parse().context(MOST)?;
    ensure!(count <= 127, MOST);
    Ok(count)
}

fn run(rt: &HostRuntime) -> anyhow::Result<()> {
    let heap = rt.alloc();
    let mut words = env::args(rt)?;
    let _program = words.next();
    let path = words.next().context(USAGE)?;
    let first = count_of(words.next())?;
    let second = count_of(words.next())?;
    let digits = words.next().context(USAGE)?;
    let seed = hex::decode(heap, digits.as_str()).context("the seed is no hex")?;
    ensure!(words.next().is_none(), USAGE);
    let circuit = fs::read(rt, path.as_str())?;
    let text = settle_text(heap, circuit.as_slice(), seed.as_slice(), first, second)?;
    rt.print(text.as_str())?;
    Ok(())
}

fn main(rt: HostRuntime) -> anyhow::Result<()> {
    run(&rt)
}
