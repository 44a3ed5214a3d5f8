// The check of a circuit, refusal by refusal.
use crate::built::{Answer, answer_to, circuit_of, repeat};
use circuit::check::check;
use circuit::refusal::Refusal;
use labels::long::Long;
use labels::paper::Paper;
use std::alloc::{AllocError, Global};
use std::test::Fail;

// The words of a circuit, how many zero words follow, and what is answered of it.
type Case<'a> = (&'a [u16], u16, Answer);

fn all(heap: Global, cases: &[Case]) -> Result<(), Fail> {
    for (words, zeros, expected) in cases {
        let circuit = circuit_of(heap, words, *zeros)?;
        let answer = answer_to(circuit.as_slice());
        if answer != *expected {
            return Err(Fail::new(format_args!("{answer:?} and not {expected:?}")));
        }
    }
    Ok(())
}

// The sizes and the length: refusals 1 to 3.
#[test]
fn sizes(rt: HostRuntime) -> Result<(), Fail> {
    assert_eq!(rt; answer_to(&[1, 0, 0, 0, 1, 0, 0, 0, 0]), Err((1, None)));
    assert_eq!(rt;
        answer_to(&[1, 0, 0, 0, 1, 0, 0, 0, 0, 0, 0]),
        Err((3, None))
    );
    all(
        rt.alloc(),
        &[
            (&[1, 0, 1, 0, 0], 0, Err((3, None))),
            (&[1, 0, 1, 0, 0], 1, Ok(())),
            (&[1, 0, 1, 0, 0], 2, Err((3, None))),
            (&[0, 0, 1, 0, 0], 1, Err((2, None))),
            (&[256, 0, 1, 0, 0], 1, Ok(())),
            (&[257, 0, 1, 0, 0], 1, Err((2, None))),
            (&[1, 512, 1, 2, 0], 1027, Ok(())),
            (&[1, 513, 1, 2, 0], 1029, Err((2, None))),
            (&[1, 0, 0, 0, 0], 0, Err((2, None))),
            (&[1, 0, 256, 0, 0], 256, Ok(())),
            (&[1, 0, 257, 0, 0], 257, Err((2, None))),
            (&[1, 0, 1, 4096, 0], 4097, Ok(())),
            (&[1, 0, 1, 4097, 0], 4098, Err((2, None))),
            (&[1, 0, 1, 0, 4096], 4097, Ok(())),
            (&[1, 0, 1, 0, 4097], 4098, Err((2, None))),
        ],
    )
}

// The form, the places, the wires and the rows of one gate, and the output list: refusals 4, 5, 7 and 8.
#[test]
fn gates(rt: HostRuntime) -> Result<(), Fail> {
    all(
        rt.alloc(),
        &[
            (&[1, 1, 1, 9, 256, 2064], 267, Ok(())),
            (&[1, 1, 1, 9, 256, 2065], 267, Err((4, Some(0)))),
            (&[1, 1, 1, 9, 256, 256], 267, Err((4, Some(0)))),
            (&[1, 1, 1, 9, 256, 257], 267, Ok(())),
            (&[1, 1, 1, 9, 256, 1], 267, Ok(())),
            (&[1, 1, 1, 9, 256, 2], 267, Err((4, Some(0)))),
            (&[1, 1, 1, 10, 512, 2305], 524, Err((4, Some(0)))),
            (&[1, 1, 1, 3, 0, 0, 1], 4, Ok(())),
            (&[1, 1, 1, 3, 0, 0, 2], 4, Err((5, Some(0)))),
            (&[1, 1, 1, 3, 3, 257, 1, 9, 0, 1, 9], 3, Ok(())),
            (&[1, 1, 1, 3, 3, 257, 2, 9, 0, 1, 9], 3, Err((5, Some(0)))),
            (&[1, 1, 1, 3, 3, 257, 1, 9, 0, 2, 9], 3, Err((5, Some(0)))),
            (&[1, 2, 1, 2, 0, 0, 1, 0, 0, 0, 0], 1, Ok(())),
            (&[1, 2, 1, 2, 0, 0, 1, 0, 0, 0, 1], 1, Err((7, Some(0)))),
            (&[1, 1, 2, 2, 2, 258, 0, 0, 0, 3, 3, 1, 2], 0, Ok(())),
            (
                &[1, 1, 2, 2, 2, 258, 0, 0, 0, 3, 3, 1, 3],
                0,
                Err((7, Some(1))),
            ),
            (
                &[1, 1, 2, 2, 2, 258, 0, 0, 0, 3, 4, 1, 2],
                0,
                Err((8, Some(0))),
            ),
        ],
    )
}

// Of two faults the earlier gate's is answered, and within a gate the lower number.
#[test]
fn two_faults(rt: HostRuntime) -> Result<(), Fail> {
    all(
        rt.alloc(),
        &[
            (&[0, 0, 1, 0, 0], 0, Err((2, None))),
            (&[1, 1, 1, 0, 0, 2], 0, Err((3, None))),
            (
                &[1, 2, 1, 2, 2, 257, 2, 0, 0, 0, 0, 2],
                2,
                Err((8, Some(0))),
            ),
            (
                &[1, 2, 1, 2, 2, 257, 2, 0, 0, 0, 0, 1],
                2,
                Err((4, Some(1))),
            ),
            (&[1, 1, 1, 2, 0, 2, 9, 9, 9, 9], 0, Err((4, Some(0)))),
            (&[1, 1, 1, 2, 2, 257, 0, 9, 1, 9, 9], 1, Err((5, Some(0)))),
            (&[1, 1, 1, 2, 2, 257, 0, 9, 0, 9, 9], 1, Err((7, Some(0)))),
            (
                &[1, 1, 1, 2, 2, 257, 0, 0, 0, 9, 9, 9],
                0,
                Err((8, Some(0))),
            ),
        ],
    )
}

// 256 inputs and 48 tables of 16 outputs: 1024 wires.
fn full(heap: Global) -> Result<Vec<u8>, AllocError> {
    let mut circuit = circuit_of(heap, &[256, 48, 1, 2, 2], 0)?;
    repeat(&mut circuit, 272, 48)?;
    repeat(&mut circuit, 0, 48 + 5)?;
    Ok(circuit)
}

// The same with an XOR gate more, which reads a wire that is not made.
fn overfull(heap: Global) -> Result<Vec<u8>, AllocError> {
    let mut circuit = circuit_of(heap, &[256, 49, 1, 4, 2], 0)?;
    repeat(&mut circuit, 272, 48)?;
    repeat(&mut circuit, 0, 1 + 48)?;
    repeat(&mut circuit, 2, 1)?;
    repeat(&mut circuit, 0, 2)?;
    repeat(&mut circuit, 1024, 2)?;
    repeat(&mut circuit, 0, 3)?;
    Ok(circuit)
}

// 1024 wires pass. 1025 are refused 6, before a wire that is not yet made.
#[test]
fn wires(rt: HostRuntime) -> Result<(), Fail> {
    let heap = rt.alloc();
    let inside = full(heap)?;
    let checked = check::<Long>(inside.as_slice()).ok().ok_or("refused")?;
    assert_eq!(rt; checked.wires, 1024);
    let outside = overfull(heap)?;
    assert_eq!(rt; answer_to(outside.as_slice()), Err((6, Some(48))));
    Ok(())
}

// The material of a table of 8 inputs and 16 outputs, and of an AND and a small table.
#[test]
fn material(rt: HostRuntime) -> Result<(), Fail> {
    let heap = rt.alloc();
    let table = circuit_of(heap, &[1, 1, 1, 9, 256, 2064], 267)?;
    let long = check::<Long>(table.as_slice()).ok().ok_or("refused")?;
    assert_eq!(rt; (long.wires, long.bits, long.bytes), (17, 21376, 2672));
    let two = circuit_of(heap, &[1, 3, 1, 2, 2, 258, 0, 258], 8)?;
    let paper = check::<Paper>(two.as_slice()).ok().ok_or("refused")?;
    assert_eq!(rt; (paper.wires, paper.bits, paper.bytes), (6, 72, 10));
    Ok(())
}

// A refusal says its number.
#[test]
fn words(rt: HostRuntime) -> Result<(), Fail> {
    let why = Refusal::Memory;
    let text = format!(in rt.alloc(); "{why}")?;
    assert_eq!(rt; text.as_str(), "refused 10");
    Ok(())
}
