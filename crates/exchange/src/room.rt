// The memory that a whole settlement is run in, on the heap.
ghost use Rattle.std.specs.Prelude.{◌≡◌, length, Some, None, IfOk, MatchResult};
ghost use Rattle.circuit.specs.Gates.{wires_in};
ghost use Rattle.plain.specs.Plain.{bits_refusal};
ghost use Rattle.plain.specs.Ready.{Ready};
ghost use Rattle.circuit.specs.Lent.{parts_in};
ghost use Rattle.circuit.specs.Parts.{parts_of};
ghost use Rattle.exchange.specs.Furnished.{Furnished};

use crate::calls::all_calls;
use circuit::check::read;
use circuit::passed::Circuit;
use circuit::refusal::Refusal;
use labels::kind::Label;
use plain::run::all_bits;
use settlement::call::Call;
use settlement::line::Line;
use std::alloc::{AllocError, Global};

// A label for each input that a circuit may have, and the scratch that a gate asks for.
const LABELS: usize = 256;

#[derive(Drop)]
pub struct Room<L> {
    pub copy: Vec<u8>,
    pub seed: Vec<u8>,
    pub zeros: Vec<L>,
    pub labels: Vec<L>,
    pub sent: Vec<L>,
    pub scratch: Vec<L>,
    pub material: Vec<u8>,
    pub colours: Vec<u8>,
    pub outputs: Vec<u8>,
    pub calls: Vec<Call>,
    pub lines: Vec<Line<L>>,
}

// The circuit, where it passes and each of its inputs has a bit.
fn judge<'a>(circuit: &'a [u8], bits: &[u8]) -> Result<Circuit<'a>, Refusal>
    ensures { MatchResult result (λ c. Ready circuit.now bits.now (wires_in (parts_of circuit.now)) (parts_of circuit.now).sizes.outputs c) (λ why. bits_refusal circuit.now bits.now ≡ Some why) }
{
    let c = read(circuit)?;
    if bits.len() != usize::from(c.arrays.sizes.inputs) {
        return Err(Refusal::Memory);
    }
    if !all_bits(bits) {
        return Err(Refusal::Bit);
    }
    Ok(c)
}

impl<L: Label> Room<L> {
    // As much as the circuit asks for, with the seed and the calls, unless the circuit or the bits are refused.
    pub fn furnish(
        heap: Global,
        circuit: &[u8],
        seed: &[u8],
        bits: &[u8],
    ) -> Result<Result<Room<L>, Refusal>, AllocError>
        ensures { IfOk result (λ r. MatchResult r (λ m. Furnished L.kind circuit.now seed.now bits.now m) (λ why. bits_refusal circuit.now bits.now ≡ Some why)) }
    {
        match judge(circuit, bits) {
            Ok(c) => {
                let room = Room::new(heap, circuit, c, seed, bits)?;
                Ok(Ok(room))
            }
            Err(why) => Ok(Err(why)),
        }
    }

    // With a circuit that passed.
    fn new(
        heap: Global,
        circuit: &[u8],
        c: Circuit,
        seed: &[u8],
        bits: &[u8],
    ) -> Result<Room<L>, AllocError>
        requires parts { parts_in c.arrays ≡ parts_of circuit.now }
        requires bits { length bits.now ≡ c.arrays.sizes.inputs }
        requires accepted { bits_refusal circuit.now bits.now ≡ None }
        ensures { IfOk result (λ m. Furnished L.kind circuit.now seed.now bits.now m) }
    {
        let zero = L::zero();
        let wires = usize::from(c.wires);
        let outputs = usize::from(c.arrays.sizes.outputs);
        let material = c.totals::<L>().bytes;
        let calls = all_calls(heap, c.arrays.sizes, material, bits)?;
        let lines = vec![in heap; Line::unmade(); calls.len()]?;
        Ok(Room {
            copy: vec![in heap; 0; circuit.len()]?,
            seed: seed.to_vec(heap)?,
            zeros: vec![in heap; zero; wires]?,
            labels: vec![in heap; zero; wires]?,
            sent: vec![in heap; zero; LABELS]?,
            scratch: vec![in heap; zero; LABELS]?,
            material: vec![in heap; 0; material]?,
            colours: vec![in heap; 0; outputs]?,
            outputs: vec![in heap; 0; outputs]?,
            calls,
            lines,
        })
    }
}
