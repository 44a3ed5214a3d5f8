// The calls of a session.

// What nearly every call is lent: a circuit, and the first so many wires.
#[derive(Clone, Copy)]
pub struct On<'a> {
    pub circuit: &'a [u8],
    pub wires: usize,
}

// Bytes of the input, of which the first so many are lent.
#[derive(Drop)]
pub struct Front {
    pub bytes: Vec<u8>,
    pub count: usize,
}

#[derive(Drop)]
pub enum GarblerCall<'a> {
    Open {
        on: On<'a>,
        seed: Front,
    },
    Garble {
        on: On<'a>,
        scratch: usize,
        material: usize,
    },
    Encode {
        on: On<'a>,
        input: usize,
        bit: u8,
    },
    Colours {
        on: On<'a>,
        length: usize,
    },
    Certify {
        on: On<'a>,
        output: usize,
        label: u16,
    },
    Wipe {
        wires: usize,
    },
}

#[derive(Drop)]
pub enum EvaluatorCall<'a> {
    Join {
        on: On<'a>,
    },
    Deliver {
        on: On<'a>,
        input: usize,
        label: u16,
    },
    Evaluate {
        on: On<'a>,
        scratch: usize,
        material: usize,
    },
    Decode {
        on: On<'a>,
        colours: Front,
        length: usize,
    },
    Missing,
    State,
    Wipe {
        wires: usize,
    },
}

// What a line of a session asks for.
#[derive(Drop)]
pub enum Task<'a> {
    // It is only printed.
    Nothing,
    // The hashes have these counts, the garbler's first.
    Counts(u64, u64),
    // The evaluator is lent the garbler's material.
    Send,
    // The evaluator is lent this material.
    Material(Vec<u8>),
    Garbler(GarblerCall<'a>),
    Evaluator(EvaluatorCall<'a>),
    // A party's token is offered to another side, which has ended, with so many wires.
    OtherGarbler { wires: usize },
    OtherEvaluator { wires: usize },
}
