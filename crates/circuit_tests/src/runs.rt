// Plain evaluation: what it writes, what it leaves, and when it is refused.
use crate::built::{Answer, circuit_of, numbers_of};
use plain::run::plain;
use std::test::Fail;

// Memory for four wires and two outputs, as it stands before and after a run.
#[derive(Clone, Copy, PartialEq, Eq, Debug)]
struct Memory {
    wires: [bool; 4],
    outputs: [u8; 2],
}

const BEFORE: Memory = Memory {
    wires: [false, false, true, true],
    outputs: [7, 7],
};

// What a run on some of the memory answers, and the memory after it.
fn run(circuit: &[u8], bits: &[u8], wires: u8, outputs: u8) -> (Answer, Memory) {
    let mut memory = BEFORE;
    let w = usize::from(wires.min(4));
    let o = usize::from(outputs.min(2));
    let answer = plain(
        circuit,
        bits,
        &mut memory.wires[..w],
        &mut memory.outputs[..o],
    );
    (answer.map_err(numbers_of), memory)
}

// A table of one input and two outputs: three wires, and a fourth that is left as it was.
#[test]
fn table(rt: HostRuntime) -> Result<(), Fail> {
    let circuit = circuit_of(rt.alloc(), &[1, 1, 2, 2, 2, 258, 0, 0, 0, 2, 1, 1, 2], 0)?;
    let c = circuit.as_slice();
    let one = Memory {
        wires: [true, true, false, true],
        outputs: [1, 0],
    };
    let zero = Memory {
        wires: [false, false, true, true],
        outputs: [0, 1],
    };
    assert_eq!(rt; run(c, &[1], 4, 2), (Ok(()), one));
    assert_eq!(rt; run(c, &[0], 3, 2), (Ok(()), zero));
    assert_eq!(rt; run(c, &[1], 2, 2), (Err((10, None)), BEFORE));
    assert_eq!(rt; run(c, &[1], 4, 1), (Err((10, None)), BEFORE));
    assert_eq!(rt; run(c, &[], 4, 2), (Err((10, None)), BEFORE));
    assert_eq!(rt; run(c, &[2, 1], 4, 2), (Err((10, None)), BEFORE));
    assert_eq!(rt; run(c, &[2], 4, 2), (Err((13, None)), BEFORE));
    Ok(())
}

// XOR and AND of two inputs, a refusal of the circuit, and a circuit with no gate.
#[test]
fn gates(rt: HostRuntime) -> Result<(), Fail> {
    let heap = rt.alloc();
    let both = circuit_of(heap, &[2, 2, 2, 2, 0, 0, 1, 0, 0, 0, 1, 2, 3], 0)?;
    let one = Memory {
        wires: [true, false, true, false],
        outputs: [1, 0],
    };
    let two = Memory {
        wires: [true, true, false, true],
        outputs: [0, 1],
    };
    assert_eq!(rt; run(both.as_slice(), &[1, 0], 4, 2), (Ok(()), one));
    assert_eq!(rt; run(both.as_slice(), &[1, 1], 4, 2), (Ok(()), two));
    let late = circuit_of(heap, &[2, 2, 2, 2, 0, 0, 1, 0, 0, 0, 2, 2, 3], 0)?;
    assert_eq!(rt;
        run(late.as_slice(), &[2], 0, 0),
        (Err((7, Some(0))), BEFORE)
    );
    let none = circuit_of(heap, &[2, 0, 2, 0, 0, 1, 0], 0)?;
    let exchanged = Memory {
        wires: [true, false, true, true],
        outputs: [0, 1],
    };
    assert_eq!(rt; run(none.as_slice(), &[1, 0], 2, 2), (Ok(()), exchanged));
    Ok(())
}
