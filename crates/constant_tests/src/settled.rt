// A circuit of an XOR, an AND and a table gate, settled on all input bits under the constant hash.
use crate::constant::ConstantFunction;
use evaluator::record::Evaluator;
use exchange::ending::wipe_both;
use exchange::room::Room;
use exchange::whole::run;
use garbler::record::Garbler;
use labels::kind::Label;
use labels::long::Long;
use plain::run::plain;
use settlement::lent::{Lent, lend};
use settlement::line::{Answer, Line};
use std::alloc::Global;
use std::test::Fail;

// Three inputs; wire 3 is 0 ⊕ 1, wire 4 is 3 AND 2, and wires 5 and 6 are a table of wires 0 and 4. All new wires are outputs.
const CIRCUIT: [u8; 52] = [
    3, 0, 3, 0, 4, 0, 7, 0, 4, 0, 0, 0, 1, 0, 2, 2, 0, 0, 2, 0, 4, 0, 0, 0, 1, 0, 3, 0, 2, 0, 0, 0,
    4, 0, 0, 0, 1, 0, 2, 0, 3, 0, 0, 0, 3, 0, 4, 0, 5, 0, 6, 0,
];

const SEED: [u8; 16] = [1; 16];

// The constant with its colour raised.
const OFFSET: Long = Long { low: 7, high: 9 };

// What a settlement came to.
#[derive(Drop)]
struct Done {
    // On every wire the evaluator's label is the zero label, with the offset exactly where the bit is 1.
    stands: bool,
    outputs: [u8; 4],
    lines: Vec<Line<Long>>,
}

// Whether each label is that of its bit.
fn stand(lent: &Lent<Long>, bits: &[bool]) -> bool {
    let mut all = lent.zeros.len() == 7 && lent.labels.len() == 7;
    for ((zero, label), bit) in lent.zeros.iter().zip(lent.labels.iter()).zip(bits) {
        let wanted = if *bit { zero.xor(OFFSET) } else { *zero };
        all = all && *label == wanted;
    }
    all
}

// Settles on some input bits, and compares with the plain bits.
fn settled(heap: Global, given: &[u8; 3]) -> Result<Done, Fail> {
    let mut wires = [false; 7];
    let mut outputs = [0u8; 4];
    plain(&CIRCUIT, given, &mut wires, &mut outputs)?;
    let mut room: Room<Long> = Room::furnish(heap, &CIRCUIT, &SEED, given)??;
    let mut garbler = Garbler::new();
    let mut evaluator = Evaluator::new();
    let mut lent = lend(
        room.zeros.as_mut_slice(),
        room.labels.as_mut_slice(),
        room.sent.as_mut_slice(),
        room.scratch.as_mut_slice(),
        room.material.as_mut_slice(),
        room.colours.as_mut_slice(),
        room.outputs.as_mut_slice(),
    );
    let tokens = run::<Long, ConstantFunction>(
        &CIRCUIT,
        room.copy.as_mut_slice(),
        room.seed.as_mut_slice(),
        &mut garbler,
        &mut evaluator,
        &mut lent,
        room.calls.as_slice(),
        room.lines.as_mut_slice(),
    )?;
    let stands = stand(&lent, &wires) && &*lent.outputs == outputs.as_slice();
    wipe_both(&mut garbler, &mut evaluator, tokens, &mut lent);
    Ok(Done {
        stands,
        outputs,
        lines: room.lines,
    })
}

// What a line shows but for labels and bits.
fn shown(line: Line<Long>) -> (usize, usize, u64, u64) {
    let (bits, bytes) = match line.answer {
        Answer::Garbled { bits, bytes } => (bits, bytes),
        Answer::Evaluated { bytes } => (1, bytes),
        Answer::Encoded(_) => (2, 0),
        Answer::Delivered => (3, 0),
        Answer::Coloured => (4, 0),
        Answer::Decoded => (5, 0),
        Answer::Certified(_) => (6, 0),
        Answer::NotMade => (7, 0),
        Answer::Refused(_) => (8, 0),
    };
    (bits, bytes, line.garbler_count, line.evaluator_count)
}

// Whether the lines show the same.
fn show_the_same(lines: &[Line<Long>], others: &[Line<Long>]) -> bool {
    let mut all = true;
    for (line, other) in lines.iter().zip(others) {
        all = all && shown(*line) == shown(*other);
    }
    all
}

// The bits that certify answered, in the order of the outputs.
fn certified(lines: &[Line<Long>]) -> [u8; 4] {
    let mut bits = [2u8; 4];
    for (line, bit) in lines.iter().skip(14).zip(bits.iter_mut()) {
        if let Answer::Certified(b) = line.answer {
            *bit = u8::from(b);
        }
    }
    bits
}

// Bits decoded and certified are the plain bits, labels stand for bits, counts are the rules', and all inputs show the same.
#[test]
fn constant_hash(rt: HostRuntime) -> Result<(), Fail> {
    let heap = rt.alloc();
    let first = settled(heap, &[0; 3])?;
    assert_eq!(rt; first.lines.len(), 18);
    for n in 0..8 {
        let done = settled(heap, &[n % 2, n / 2 % 2, n / 4])?;
        assert!(rt; done.stands);
        assert_eq!(rt; certified(done.lines.as_slice()), done.outputs);
        assert_eq!(rt; done.lines.len(), 18);
        assert!(rt; show_the_same(done.lines.as_slice(), first.lines.as_slice()));
        if let Some(last) = done.lines.last() {
            assert_eq!(rt; (last.garbler_count, last.evaluator_count), (25, 10));
        }
    }
    Ok(())
}
