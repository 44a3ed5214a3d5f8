// Hashes and AND gates, many in a row.

use gates::half;
use gates::rows::{get, put};
use hashes::aes_hash::AesHash;
use hashes::hash::LabelHash;
use labels::long::Long;

// The hash of each label, label k under tweak k. False where the memories do not fit.
#[unsafe(no_mangle)]
pub extern "C" fn speed_hash(labels: &[u8], out: &mut [u8]) -> bool {
    if labels.len() != out.len() {
        return false;
    }
    let mut h: AesHash = AesHash::starting_at(0);
    for k in 0..labels.len() / 16 {
        let label: Long = get(labels, 16 * k);
        put(out, 16 * k, h.hash(label, k as u64));
    }
    true
}

// The garbler's step of each AND gate: operands has two zero labels a gate, material gets two rows a gate and new
// a zero label. False where the memories do not fit.
#[unsafe(no_mangle)]
pub extern "C" fn speed_garble(
    offset: &[u8],
    operands: &[u8],
    material: &mut [u8],
    new: &mut [u8],
) -> bool {
    let count = new.len() / 16;
    if offset.len() != 16
        || count > 0xffff_ffff
        || operands.len() / 32 < count
        || material.len() / 32 < count
    {
        return false;
    }
    let mut h: AesHash = AesHash::starting_at(0);
    let offset: Long = get(offset, 0);
    for k in 0..count {
        let a: Long = get(operands, 32 * k);
        let b: Long = get(operands, 32 * k + 16);
        let (t, u, zero) = half::garble(&mut h, k as u32, offset, a, b);
        put(material, 32 * k, t);
        put(material, 32 * k + 16, u);
        put(new, 16 * k, zero);
    }
    true
}

// The evaluator's step of each AND gate: operands has two labels a gate, material two rows a gate, and new gets a
// label. False where the memories do not fit.
#[unsafe(no_mangle)]
pub extern "C" fn speed_evaluate(operands: &[u8], material: &[u8], new: &mut [u8]) -> bool {
    let count = new.len() / 16;
    if count > 0xffff_ffff || operands.len() / 32 < count || material.len() / 32 < count {
        return false;
    }
    let mut h: AesHash = AesHash::starting_at(0);
    for k in 0..count {
        let a: Long = get(operands, 32 * k);
        let b: Long = get(operands, 32 * k + 16);
        let t: Long = get(material, 32 * k);
        let u: Long = get(material, 32 * k + 16);
        put(new, 16 * k, half::evaluate(&mut h, k as u32, t, u, a, b));
    }
    true
}
