// Values of the AES hash, computed apart from this code.
use hashes::aes_hash::AesHash;
use hashes::hash::LabelHash;
use labels::long::Long;
use std::test::Fail;

fn answers(label: Long, tweak: u64, low: u64, high: u64) -> Result<(), Fail> {
    let mut hash = AesHash::starting_at(7);
    let answer = hash.hash(label, tweak);
    let found = (answer.low, answer.high, hash.count());
    if found != (low, high, 8) {
        return Err(Fail::new(format_args!("{found:?}")));
    }
    Ok(())
}

#[test]
fn values() -> Result<(), Fail> {
    answers(
        Long {
            low: 0x0,
            high: 0x0,
        },
        0x0,
        0x825b8f87373ba1c6,
        0x79d8c8a162814f6f,
    )?;
    answers(
        Long {
            low: 0x31,
            high: 0x0,
        },
        0x100000000,
        0xe6fdb6f72883841f,
        0xc7f7799d60406d58,
    )?;
    answers(
        Long {
            low: 0x123456789abcdef,
            high: 0xfedcba9876543210,
        },
        0xc05,
        0x6e716523e677cdbe,
        0xe4e9928073c19104,
    )?;
    answers(
        Long {
            low: 0xffffffffffffffff,
            high: 0xfffffffffffffffe,
        },
        0xffffffffffffffff,
        0x57d0c76345aedf56,
        0x82aba716d2581b9b,
    )
}

#[test]
fn full_count_stays(rt: HostRuntime) {
    let mut hash = AesHash::starting_at(u64::MAX);
    let _ = hash.hash(Long { low: 1, high: 2 }, 3);
    assert_eq!(rt; hash.count(), u64::MAX);
}
