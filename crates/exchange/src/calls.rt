// The calls of a whole settlement.
ghost use Rattle.std.specs.Prelude.{◌≡◌, length, IfOk};
ghost use Rattle.labels.specs.Lists.{listed};
ghost use Rattle.exchange.specs.Course.{calls_in, course};

use circuit::sizes::Sizes;
use settlement::call::Call;
use std::alloc::{AllocError, Global};

// Call k: inputs are encoded, then delivered, gates garbled, then evaluated, colours shown, outputs decoded, then certified.
#[tactic(auto, unfolding(crate::specs::Course::by_turn))]
fn call_at(s: Sizes, material: usize, bits: &[u8], k: usize) -> Call
    requires { length bits.now ≡ s.inputs }
    ensures { result ≡ course s material bits.now k }
{
    let inputs = usize::from(s.inputs);
    let gates = usize::from(s.gates);
    let length = usize::from(s.outputs);
    if k < inputs {
        let bit = bits[k];
        Call::Encode { input: k, bit }
    } else if k < 2 * inputs {
        Call::Deliver { input: k - inputs }
    } else if k < 2 * inputs + gates {
        let scratch = 256;
        Call::Garble { scratch, material }
    } else if k < 2 * inputs + 2 * gates {
        Call::Evaluate { scratch: 256 }
    } else if k == 2 * inputs + 2 * gates {
        Call::Colours { length }
    } else if k == 2 * inputs + 2 * gates + 1 {
        Call::Decode { length }
    } else {
        let output = k - (2 * inputs + 2 * gates + 2);
        Call::Certify { output }
    }
}

// All of them, in order.
pub fn all_calls(
    heap: Global,
    s: Sizes,
    material: usize,
    bits: &[u8],
) -> Result<Vec<Call>, AllocError>
    requires { length bits.now ≡ s.inputs }
    ensures { IfOk result (λ v. v.items ≡ listed (calls_in s) (course s material bits.now)) }
{
    let count = 2 * usize::from(s.inputs) + 2 * usize::from(s.gates) + 2 + usize::from(s.outputs);
    let mut calls = Vec::new(heap);
    for k in 0..count {
        calls.push(call_at(s, material, bits, k))?;
    }
    Ok(calls)
}
