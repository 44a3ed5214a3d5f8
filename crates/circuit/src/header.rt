// The header: five sizes, and the arrays behind them.
ghost use Rattle.std.specs.Prelude.{◌≡◌, ◌<◌, ◌≤◌, length, drop, MatchResult};
ghost use Rattle.circuit.specs.Header.{sizes_of, within};

use crate::refusal::Refusal;
use crate::sizes::Sizes;
use crate::words::word;

// The five sizes, and the bytes behind them.
pub fn header(circuit: &[u8]) -> Result<(Sizes, &[u8]), Refusal>
    ensures { MatchResult result (λ v. (10 ≤ length circuit.now) × (v.0 ≡ sizes_of circuit.now) × (v.1.now ≡ drop 10 circuit.now)) (λ why. (why ≡ Refusal.Short) × (length circuit.now < 10)) }
{
    let [i0, i1, q0, q1, o0, o1, p0, p1, r0, r1, rest @ ..] = circuit else {
        return Err(Refusal::Short);
    };
    let sizes = Sizes {
        inputs: word(*i0, *i1),
        gates: word(*q0, *q1),
        outputs: word(*o0, *o1),
        operands: word(*p0, *p1),
        rows: word(*r0, *r1),
    };
    Ok((sizes, rest))
}

// Whether each size is within its limits.
pub fn within_limits(s: Sizes) -> bool
    ensures { result ≡ within s }
{
    let inputs = (1..=256).contains(&s.inputs);
    let outputs = (1..=256).contains(&s.outputs);
    inputs && s.gates <= 512 && outputs && s.operands <= 4096 && s.rows <= 4096
}
