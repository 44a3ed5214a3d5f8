// Digests by FNV-1a in 64 bits.
ghost use Rattle.std.specs.Prelude.{◌≡◌};
ghost use Rattle.tablecases.specs.Digests.{empty, extended_by, digest_of_labels};

use labels::kind::Label;

// The digest of no bytes.
const EMPTY: u64 = 0xCBF2_9CE4_8422_2325;

// A digest and the bytes that follow.
fn extend(digest: u64, bytes: &[u8]) -> u64
    ensures { result ≡ extended_by digest bytes.now }
{
    bytes.iter().fold(
        digest,
        |d, b| (d ^ u64::from(*b)).wrapping_mul(0x100_0000_01B3),
    )
}

pub fn digest_bytes(bytes: &[u8]) -> u64
    ensures { result ≡ extended_by empty bytes.now }
{
    extend(EMPTY, bytes)
}

// The digest of the labels' bytes, one label after the other.
pub fn digest_labels<L: Label>(labels: &[L]) -> u64
    ensures { result ≡ digest_of_labels L.kind labels.now }
{
    // The widest label has 4096 bytes.
    let mut widest = [0; 4096];
    let bytes = &mut widest[..L::width()];
    let mut digest = EMPTY;
    for label in labels {
        label.write(bytes);
        digest = extend(digest, bytes);
    }
    digest
}
