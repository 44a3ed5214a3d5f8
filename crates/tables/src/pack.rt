// The masked table f' in bytes: row after row, the lowest bit first.
ghost use Rattle.std.specs.Prelude.{◌≡◌, ℕ, ◌+◌, ◌*◌, ◌%◌, ◌^◌, ◌<◌, ◌≤◌, length, slice_index, EachIndex};
ghost use Rattle.tables.specs.Level.{Packing};
ghost use Rattle.material.specs.Size.{in_bytes};
ghost use Rattle.tables.specs.Material.{packed as in_order, bit_at, unpacked};
ghost use Rattle.labels.specs.Numbers.{number};

// Bits of the rows that are not in the bytes yet: the `count` lowest of `bits`, which stand from byte `at` on.
#[derive(Clone, Copy)]
struct Held {
    at: usize,
    count: usize,
    bits: u32,
}

// Holds the m lowest bits of the next row too.
fn hold_row(held: Held, row: u16, m: usize) -> Held
    requires small { m ≤ 16 }
    requires few { held.count < 8 }
    requires low { held.bits < 256 }
    requires near { held.at ≤ 512 }
    ensures at { result.at ≡ held.at }
    ensures count { result.count ≡ held.count + m }
    ensures bits { result.bits ≡ row % 2 ^ m * 2 ^ held.count + held.bits }
{
    let next = u32::from(row) % (1 << m);
    Held {
        at: held.at,
        count: held.count + m,
        bits: (next << held.count) + held.bits,
    }
}

// Moves the lowest eight held bits into the bytes, where so many are held; the bytes are still those of the same rows.
fn move_byte(held: Held, bytes: &mut [u8]) -> Held
    requires room { 8 ≤ held.count → held.at < length bytes.old }
    ensures kept { (w m : ℕ) (f : ℕ → ℕ) → Packing w m f held.at held.count held.bits bytes.old → Packing w m f result.at result.count result.bits bytes.new }
    ensures total { 8 * result.at + result.count ≡ 8 * held.at + held.count }
    ensures fewer { 8 ≤ held.count → result.count + 8 ≡ held.count }
    ensures same { held.count < 8 → result.count ≡ held.count }
{
    if held.count < 8 {
        return held;
    }
    bytes[held.at] = (held.bits % 256) as u8;
    Held {
        at: held.at + 1,
        count: held.count - 8,
        bits: held.bits >> 8,
    }
}

// Writes the rows of m bits.
pub fn pack(fs: &[u16], m: usize, bytes: &mut [u8])
    requires few { length fs.now ≤ 256 }
    requires small { m ≤ 16 }
    requires room { length bytes.old ≡ in_bytes (length fs.now * m) }
    ensures { bytes.new ≡ in_order (length fs.now) m (λ i. slice_index fs.now i) }
{
    let mut held = Held {
        at: 0,
        count: 0,
        bits: 0,
    };
    for f in fs {
        let all = hold_row(held, *f, m);
        let rest = move_byte(all, bytes);
        held = move_byte(rest, bytes);
    }
    if held.count == 0 {
        return;
    }
    bytes[held.at] = held.bits as u8;
}

// A byte, or 0 past the end.
fn byte_at(bytes: &[u8], at: usize) -> u8
    ensures value { result ≡ slice_index bytes.now at }
    ensures within { result < 256 }
{
    if at < bytes.len() { bytes[at] } else { 0 }
}

// The m bits from bit p on, as a number: they stand in three bytes.
fn unpack_row(bytes: &[u8], m: usize, p: usize) -> u16
    requires small { m ≤ 16 }
    requires near { p ≤ 4096 }
    ensures { result ≡ number m (λ j. bit_at bytes.now (p + j)) }
{
    let at = p / 8;
    let low = byte_at(bytes, at);
    let middle = byte_at(bytes, at + 1);
    let high = byte_at(bytes, at + 2);
    let window = u32::from_le_bytes([low, middle, high, 0]);
    ((window >> (p % 8)) % (1 << m)) as u16
}

// Reads the rows of m bits.
pub fn unpack(bytes: &[u8], m: usize, fs: &mut [u16])
    requires few { length fs.old ≤ 256 }
    requires small { m ≤ 16 }
    requires long { length fs.old * m ≤ 8 * length bytes.now }
    ensures { EachIndex fs.new (λ i. slice_index fs.new i ≡ unpacked m bytes.now i) }
{
    for (i, f) in fs.iter_mut().enumerate() {
        *f = unpack_row(bytes, m, i * m);
    }
}
