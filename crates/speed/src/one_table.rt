// One table gate.
ghost use Rattle.std.specs.Prelude.{◌≡◌, ◌*◌, length};

use gates::rows::{get, put};
use hashes::aes_hash::AesHash;
use labels::kind::Label;
use labels::long::Long;
use material::{byte_count, row_count};
use tables::gate;

// The labels of the bytes.
fn read_all(bytes: &[u8], labels: &mut [Long])
    requires { length bytes.now ≡ 16 * length labels.old }
{
    for (k, label) in labels.iter_mut().enumerate() {
        *label = get(bytes, 16 * k);
    }
}

// The bytes of the labels.
fn write_all(labels: &[Long], bytes: &mut [u8])
    requires { length bytes.old ≡ 16 * length labels.now }
{
    for (k, label) in labels.iter().enumerate() {
        put(bytes, 16 * k, *label);
    }
}

// The garbler's step. The memories' lengths say how many operands and new wires there are; false where they do not fit.
#[unsafe(no_mangle)]
pub extern "C" fn speed_garble_table(
    gate: u32,
    seed: &[u8],
    offset: &[u8],
    zeros: &[u8],
    rows: &[u8],
    material: &mut [u8],
    new: &mut [u8],
) -> bool {
    let n = zeros.len() / 16;
    let m = new.len() / 16;
    if gate >= 512 || seed.len() != 16 || offset.len() != 16 {
        return false;
    }
    if n < 1 || n > 8 || m > 16 || zeros.len() != 16 * n || new.len() != 16 * m {
        return false;
    }
    if rows.len() != 2 * row_count(n) || material.len() != byte_count(16, n, m) {
        return false;
    }
    let mut operands = [Long::zero(); 8];
    let operands = &mut operands[..n];
    read_all(zeros, operands);
    let mut scratch = [Long::zero(); 256];
    let mut wires = [Long::zero(); 16];
    let wires = &mut wires[..m];
    let mut h: AesHash = AesHash::starting_at(0);
    gate::garble(
        &mut h,
        gate,
        get(seed, 0),
        get(offset, 0),
        operands,
        rows,
        material,
        &mut scratch,
        wires,
    );
    write_all(wires, new);
    true
}

// The evaluator's step, with lengths as in the garbler's.
#[unsafe(no_mangle)]
pub extern "C" fn speed_evaluate_table(
    gate: u32,
    labels: &[u8],
    material: &[u8],
    new: &mut [u8],
) -> bool {
    let n = labels.len() / 16;
    let m = new.len() / 16;
    if n < 1 || n > 8 || m > 16 || labels.len() != 16 * n || new.len() != 16 * m {
        return false;
    }
    if gate >= 512 || material.len() != byte_count(16, n, m) {
        return false;
    }
    let mut operands = [Long::zero(); 8];
    let operands = &mut operands[..n];
    read_all(labels, operands);
    let mut scratch = [Long::zero(); 256];
    let mut wires = [Long::zero(); 16];
    let wires = &mut wires[..m];
    let mut h: AesHash = AesHash::starting_at(0);
    gate::evaluate(&mut h, gate, operands, material, &mut scratch, wires);
    write_all(wires, new);
    true
}
