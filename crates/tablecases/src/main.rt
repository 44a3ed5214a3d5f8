// Table gates of 1 to 8 inputs and 1 to 16 outputs with each of the three hashes, a line each, to hold against an independent implementation:
// hash, inputs, outputs, material bytes and their digest, both counts, the digests of the zero labels and of the evaluator's labels of one row.
#![tactic(auto)]

mod case;
mod digest;
mod operands;

ghost use Rattle.std.specs.Prelude.{◌*◌, ◌^◌, ◌<◌, ◌≤◌};
ghost use Rattle.std.specs.Mem.{type_size};

use crate::case::Case;
use crate::digest::{digest_bytes, digest_labels};
use hashes::aes_hash::AesFunction;
use hashes::counted::Counted;
use hashes::function::LabelFunction;
use hashes::hash::LabelHash;
use hashes::paper::PaperFunction;
use hashes::sha_hash::ShaFunction;
use labels::kind::Label;
use labels::long::Long;
use labels::paper::Paper;
use std::io;

// Prints the line of a gate of n inputs and m outputs under the function F of this name.
#[tactic(auto, using(crate::proofs::Sizes::few_bytes))]
fn print_case<L: Label, F: LabelFunction<L>>(
    rt: &HostRuntime,
    name: &str,
    n: usize,
    m: usize,
) -> io::Result<()>
    requires some_input { 1 ≤ n }
    requires inputs { n ≤ 8 }
    requires outputs { m ≤ 16 }
    requires fits { 300 * type_size L.row < 2 ^ 63 }
    requires narrow { L.kind.width ≤ 16 }
{
    let mut zeros = [L::zero(); 8];
    let mut labels = [L::zero(); 8];
    let mut rows = [0; 512];
    let mut material = [0; 4096];
    let mut new = [L::zero(); 16];
    let mut found = [L::zero(); 16];
    let mut garbler = Counted::<F>::starting_at(0);
    let mut evaluator = Counted::<F>::starting_at(0);
    let mut drawing = Counted::<F>::starting_at(0);
    let case = Case::new(&mut drawing, n, m, &mut zeros, &mut labels, &mut rows);
    let (material, new) = case.garble(&mut garbler, &mut material, &mut new);
    let found = case.evaluate(&mut evaluator, material, &mut found);
    let bytes = material.len();
    let digest = digest_bytes(material);
    let asked = garbler.count();
    let again = evaluator.count();
    let zero = digest_labels(new);
    let held = digest_labels(found);
    println!(rt; "{name} {n} {m} {bytes} {digest:016X} {asked} {again} {zero:016X} {held:016X}")
}

// Prints the lines of the gates of n inputs.
fn print_cases(rt: &HostRuntime, n: usize) -> io::Result<()>
    requires some_input { 1 ≤ n }
    requires inputs { n ≤ 8 }
{
    for m in [1, 2, 7, 8, 16] {
        print_case::<Paper, PaperFunction>(rt, "paper", n, m)?;
        print_case::<Long, AesFunction>(rt, "aes", n, m)?;
        print_case::<Long, ShaFunction>(rt, "sha", n, m)?;
    }
    Ok(())
}

fn main(rt: HostRuntime) -> io::Result<()> {
    for n in 1..=8 {
        print_cases(&rt, n)?;
    }
    Ok(())
}
