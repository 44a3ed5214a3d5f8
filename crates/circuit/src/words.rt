// Sixteen-bit words in bytes, the lower byte first.
ghost use Rattle.std.specs.Prelude.{◌≡◌, ◌+◌, ◌*◌, ◌/◌, ◌^◌, ◌<◌, ◌≤◌, length};
ghost use Rattle.labels.specs.Words.{word_at};
ghost use Rattle.circuit.specs.Words.{all_below, united};

pub fn word(low: u8, high: u8) -> u16
    ensures { result ≡ low + 256 * high }
{
    u16::from_le_bytes([low, high])
}

// Word k of some bytes.
pub fn word_at(bytes: &[u8], k: usize) -> u16
    requires { 2 * k + 1 < length bytes.now }
    ensures { result ≡ word_at bytes.now k }
{
    word(bytes[2 * k], bytes[2 * k + 1])
}

// Whether every word is below the bound.
pub fn words_below(bytes: &[u8], bound: u32) -> bool
    ensures { result ≡ all_below (word_at bytes.now) (length bytes.now / 2) bound }
{
    (0..bytes.len() / 2).all(|k| u32::from(word_at(bytes, k)) < bound)
}

// 2^n
pub fn two_to(n: u16) -> u32
    requires { n ≤ 16 }
    ensures power { result ≡ 2 ^ n }
    ensures few { result ≤ 65536 }
{
    1 << n
}

// The bitwise or of all words.
fn united(bytes: &[u8]) -> u16
    ensures { result ≡ united (word_at bytes.now) (length bytes.now / 2) }
{
    let mut all = 0;
    // By number, as `words_below`; the compiler takes many words at once.
    for k in 0..bytes.len() / 2 {
        all |= word_at(bytes, k);
    }
    all
}

// Whether every word is below 2^m: so it is where their bitwise or is.
pub fn words_fit(bytes: &[u8], m: u16) -> bool
    requires { m ≤ 16 }
    ensures { result ≡ all_below (word_at bytes.now) (length bytes.now / 2) (2 ^ m) }
{
    u32::from(united(bytes)) < two_to(m)
}
