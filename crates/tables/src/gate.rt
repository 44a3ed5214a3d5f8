// The lookup-table gate: the garbler's step and the evaluator's step.
ghost use Rattle.std.specs.Prelude.{◌≡◌, ℕ, suc, ◌+◌, ◌-◌, ◌*◌, ◌^◌, ◌<◌, ◌≤◌, length, replicate, slice_index};
ghost use Rattle.hashes.specs.Count.{counted};
ghost use Rattle.tables.specs.All.{Sound};
ghost use Rattle.tables.specs.Gate.{material_for, zeros_for, evaluated, Meets, garbler_calls, evaluator_calls};
ghost use Rattle.tables.specs.Level.{bases, Holds};
ghost use Rattle.material.specs.Size.{labels_of, bytes_of};
ghost use Rattle.tables.specs.Material.{row_bytes};
ghost use Rattle.tables.specs.Ran.{Ran};
ghost use Rattle.std.specs.Mem.{type_size};
ghost use Rattle.labels.specs.Words.{word_at};
ghost use Rattle.labels.specs.Lists.{places};
ghost use Rattle.tables.specs.Table.{colours as of_colours, hot, hot_row, mask_row, turned, made};

use crate::evaluate_levels::evaluate_levels;
use crate::garble_levels::garble_levels;
use crate::number::colours;
use crate::one_hot::{evaluate_one_hot, garble_one_hot};
use crate::pack::{pack, unpack};
use crate::random::{mask_table, pick_all};
use crate::wires::{choose, local_labels_fit, start_wires};
use gates::clear::clear;
use hashes::draws::draw;
use hashes::hash::LabelHash;
use labels::kind::Label;

// The garbler's steps 1 to 4 for the number s: the new wires' zero labels, the material's rows, and the numbers f' in fs.
// The arguments stay apart: a struct of the garbler's labels was tried, and the checker did not cover this function with it.
fn garble_labels<L: Label, H: LabelHash<L>>(
    h: &mut H,
    gate: u32,
    s: u16,
    offset: L,
    zeros: &[L],
    rows: &[u8],
    v: &mut [L],
    fs: &mut [u16],
    new: &mut [L],
    material: &mut [u8],
)
    requires fits { 64 * type_size L.row < 2 ^ 63 }
    requires outputs { length new.old ≤ 16 }
    requires some { 1 ≤ length zeros.now }
    requires few { length zeros.now ≤ 8 }
    requires hots { length v.old ≡ 2 ^ length zeros.now }
    requires turns { length fs.old ≡ 2 ^ length zeros.now }
    requires words { length rows.now ≡ 2 * 2 ^ length zeros.now }
    requires room { labels_of (length zeros.now) (length new.old) * L.kind.width ≤ length material.old }
    ensures news { Holds L.kind (length new.old) (made L.kind (H.means h.old) gate (length new.old) (length zeros.now) s offset (places L.kind zeros.now) (word_at rows.now)) new.new }
    ensures hots { (k : ℕ) → k < length zeros.now - 1 → row_bytes L.kind k material.new ≡ L.kind.bytes (hot_row L.kind (H.means h.old) gate offset (bases L.kind offset zeros.now) (suc k)) }
    ensures masks { (d : ℕ) → d < length zeros.now → (j : ℕ) → j < length new.old → row_bytes L.kind (length zeros.now - 1 + (d * length new.old + j)) material.new ≡ L.kind.bytes (mask_row L.kind (H.means h.old) gate (length new.old) (length zeros.now) offset (bases L.kind offset zeros.now) (hot L.kind (H.means h.old) gate offset (bases L.kind offset zeros.now) (length zeros.now)) d j) }
    ensures turns { (i : ℕ) → i < 2 ^ length zeros.now → slice_index fs.new i ≡ turned L.kind (H.means h.old) gate (length new.old) (length zeros.now) s offset (bases L.kind offset zeros.now) (word_at rows.now) (of_colours L.kind (length zeros.now) (places L.kind zeros.now)) i }
    ensures ran { Ran (H.means h.old) (H.means h.new) (H.calls h.old) (H.calls h.new) (3 * 2 ^ length zeros.now - 4 + 2 * (length zeros.now * length new.old)) }
{
    let n = zeros.len();
    let alpha = colours(zeros);
    let mut nums = [0u16; 512];
    garble_one_hot(h, gate, offset, zeros, v, material);
    pick_all(h, gate, new.len() as u32, offset, zeros, &mut nums);
    mask_table(rows, alpha, s, &nums, n, fs);
    start_wires(s, offset, fs, v, new);
    garble_levels(h, gate, offset, zeros, &nums, v, new, material);
}

// The garbler's step, but for the clearing of the scratch. The arguments are those of `garble`.
fn garble_uncleared<L: Label, H: LabelHash<L>>(
    h: &mut H,
    gate: u32,
    seed: L,
    offset: L,
    zeros: &[L],
    rows: &[u8],
    material: &mut [u8],
    scratch: &mut [L],
    new: &mut [L],
)
    requires gate { gate < 512 }
    requires some { 1 ≤ length zeros.now }
    requires few { length zeros.now ≤ 8 }
    requires outputs { length new.old ≤ 16 }
    requires words { length rows.now ≡ 2 * 2 ^ length zeros.now }
    requires room { length material.old ≡ bytes_of L.kind.width (length zeros.now) (length new.old) }
    requires lent { 256 ≤ length scratch.old }
    ensures material { material.new ≡ material_for L.kind (H.means h.old) gate seed offset zeros.now rows.now (length new.old) }
    ensures news { new.new ≡ zeros_for L.kind (H.means h.old) gate seed offset zeros.now rows.now (length new.old) }
    ensures kept { H.means h.new ≡ H.means h.old }
    ensures count { H.calls h.new ≡ counted (H.calls h.old) (garbler_calls (length zeros.now) (length new.old)) }
{
    local_labels_fit(scratch);
    let n = zeros.len();
    let m = new.len();
    let s = draw(h, seed, 2048 + gate).low_bits(m as u32);
    let mut numbers = [0u16; 256];
    let fs = &mut numbers[..1 << n];
    let v = &mut scratch[..1 << n];
    garble_labels(h, gate, s, offset, zeros, rows, v, fs, new, material);
    let table = (n - 1 + n * m) * L::width();
    pack(fs, m, &mut material[table..]);
}

// The garbler's step: writes the gate's material and the zero labels of its new wires, and leaves the scratch zero.
// Nine arguments: three of them are memories that callers lend apart, and `steps`, above this crate, holds seed and offset as one.
pub fn garble<L: Label, H: LabelHash<L>>(
    h: &mut H,
    gate: u32,
    seed: L,
    offset: L,
    zeros: &[L],
    rows: &[u8],
    material: &mut [u8],
    scratch: &mut [L],
    new: &mut [L],
)
    requires gate { gate < 512 }
    requires some { 1 ≤ length zeros.now }
    requires few { length zeros.now ≤ 8 }
    requires outputs { length new.old ≤ 16 }
    requires words { length rows.now ≡ 2 * 2 ^ length zeros.now }
    requires room { length material.old ≡ bytes_of L.kind.width (length zeros.now) (length new.old) }
    requires lent { 256 ≤ length scratch.old }
    ensures material { material.new ≡ material_for L.kind (H.means h.old) gate seed offset zeros.now rows.now (length new.old) }
    ensures news { new.new ≡ zeros_for L.kind (H.means h.old) gate seed offset zeros.now rows.now (length new.old) }
    ensures scratch { scratch.new ≡ replicate (length scratch.old) L.kind.zero }
    ensures kept { H.means h.new ≡ H.means h.old }
    ensures count { H.calls h.new ≡ counted (H.calls h.old) (garbler_calls (length zeros.now) (length new.old)) }
{
    garble_uncleared(h, gate, seed, offset, zeros, rows, material, scratch, new);
    clear(scratch);
}

// The evaluator's step, but for the clearing of the scratch.
fn evaluate_uncleared<L: Label, H: LabelHash<L>>(
    h: &mut H,
    gate: u32,
    labels: &[L],
    material: &[u8],
    scratch: &mut [L],
    new: &mut [L],
)
    requires some { 1 ≤ length labels.now }
    requires few { length labels.now ≤ 8 }
    requires outputs { length new.old ≤ 16 }
    requires room { length material.now ≡ bytes_of L.kind.width (length labels.now) (length new.old) }
    requires lent { 256 ≤ length scratch.old }
    ensures news { new.new ≡ evaluated L.kind (H.means h.old) gate (length labels.now) (length new.old) material.now (places L.kind labels.now) }
    ensures meets { Meets L.kind (H.means h.old) gate (length labels.now) (length new.old) material.now (places L.kind labels.now) new.new }
    ensures kept { H.means h.new ≡ H.means h.old }
    ensures count { H.calls h.new ≡ counted (H.calls h.old) (evaluator_calls (length labels.now) (length new.old)) }
{
    local_labels_fit(scratch);
    let n = labels.len();
    let m = new.len();
    let mut numbers = [0u16; 256];
    let fs = &mut numbers[..1 << n];
    let table = (n - 1 + n * m) * L::width();
    unpack(&material[table..], m, fs);
    let v = &mut scratch[..1 << n];
    evaluate_one_hot(h, gate, labels, material, v);
    choose(fs, v, new);
    evaluate_levels(h, gate, labels, material, v, new);
}

// The evaluator's step: its labels of the new wires, from its labels and the gate's material; leaves the scratch zero.
pub fn evaluate<L: Label, H: LabelHash<L>>(
    h: &mut H,
    gate: u32,
    labels: &[L],
    material: &[u8],
    scratch: &mut [L],
    new: &mut [L],
)
    requires some { 1 ≤ length labels.now }
    requires few { length labels.now ≤ 8 }
    requires outputs { length new.old ≤ 16 }
    requires room { length material.now ≡ bytes_of L.kind.width (length labels.now) (length new.old) }
    requires lent { 256 ≤ length scratch.old }
    ensures news { new.new ≡ evaluated L.kind (H.means h.old) gate (length labels.now) (length new.old) material.now (places L.kind labels.now) }
    ensures meets { Meets L.kind (H.means h.old) gate (length labels.now) (length new.old) material.now (places L.kind labels.now) new.new }
    ensures scratch { scratch.new ≡ replicate (length scratch.old) L.kind.zero }
    ensures kept { H.means h.new ≡ H.means h.old }
    ensures count { H.calls h.new ≡ counted (H.calls h.old) (evaluator_calls (length labels.now) (length new.old)) }
{
    evaluate_uncleared(h, gate, labels, material, scratch, new);
    clear(scratch);
}

// Whoever holds the labels of the operands' bits gets those of the new wires' bits, at each of the three gates:
// for every label kind and every F.
pub fn gates_stand<L: Label>()
    ensures { Sound L.kind }
{}
