// SHA-256 on published messages and on lengths about a block's, and the SHA hash; the values are those of another implementation.
use hashes::hash::LabelHash;
use hashes::sha_hash::ShaHash;
use labels::long::Long;
use sha256::sha256;

#[test]
fn published(rt: HostRuntime) {
    assert_eq!(rt;
        sha256(b"abc"),
        *b"\xba\x78\x16\xbf\x8f\x01\xcf\xea\x41\x41\x40\xde\x5d\xae\x22\x23\xb0\x03\x61\xa3\x96\x17\x7a\x9c\xb4\x10\xff\x61\xf2\x00\x15\xad"
    );
    assert_eq!(rt;
        sha256(b""),
        *b"\xe3\xb0\xc4\x42\x98\xfc\x1c\x14\x9a\xfb\xf4\xc8\x99\x6f\xb9\x24\x27\xae\x41\xe4\x64\x9b\x93\x4c\xa4\x95\x99\x1b\x78\x52\xb8\x55"
    );
    assert_eq!(rt;
        sha256(b"abcdbcdecdefdefgefghfghighijhijkijkljklmklmnlmnomnopnopq"),
        *b"\x24\x8d\x6a\x61\xd2\x06\x38\xb8\xe5\xc0\x26\x93\x0c\x3e\x60\x39\xa3\x3c\xe4\x59\x64\xff\x21\x67\xf6\xec\xed\xd4\x19\xdb\x06\xc1"
    );
}

// A message of 55 bytes has its padding in one block, and one of 56 in two.
#[test]
fn lengths(rt: HostRuntime) {
    let text = b"The quick brown fox jumps over the lazy dog, and then it rests 0.";
    assert_eq!(rt;
        sha256(&text[..55]),
        *b"\xcb\xeb\x77\x00\x3d\x15\x35\x1b\xea\x7c\xad\x8e\xce\xfe\x6b\xea\x29\xf3\x3c\xd9\x12\x4a\x2d\x9b\x24\x84\x43\x30\xec\x82\xd5\x68"
    );
    assert_eq!(rt;
        sha256(&text[..56]),
        *b"\x4c\xfa\x16\xb4\xe5\x5e\x83\xe5\x41\x11\x9b\x9e\xc2\x2c\x8d\xa5\xa1\x22\xe6\x10\x54\x4c\x0b\xe7\x5a\x8e\x06\x50\xd5\x8a\x36\x4a"
    );
    assert_eq!(rt;
        sha256(&text[..63]),
        *b"\x9a\xbb\x74\x6f\xd7\x94\xa9\x69\x1d\x68\xc1\x76\x1a\xa1\x29\x19\xef\x9e\x0c\x3c\x0b\x05\x36\x58\x30\x77\xd0\x52\x8a\x29\x77\xda"
    );
    assert_eq!(rt;
        sha256(&text[..64]),
        *b"\xfd\xd4\xe7\x41\xde\x8c\x29\x7d\x23\x95\x9d\x8d\xa7\xc1\x85\x49\x84\xe2\x99\xf7\x71\xff\x7b\x2f\xd2\x1c\x4c\xc3\x4d\x18\x6e\xb9"
    );
    assert_eq!(rt;
        sha256(text),
        *b"\xfc\xd8\x92\x8f\xa3\xed\xe0\x2a\xef\xbb\x9a\x12\x77\xc6\xfc\xe9\x95\x6f\x66\x52\x83\xa6\xae\xd9\xf2\x94\x50\x1c\x8b\x2e\x89\xc8"
    );
}

fn hashed(low: u64, high: u64, tweak: u64) -> (u64, u64) {
    let mut hash = ShaHash::starting_at(0);
    let answer = hash.hash(Long { low, high }, tweak);
    (answer.low, answer.high)
}

#[test]
fn hash(rt: HostRuntime) {
    assert_eq!(rt;
        hashed(0x0, 0x0, 0x0),
        (0xde56b2b6cf8e909d, 0x886c4e507c9ab4f8)
    );
    assert_eq!(rt;
        hashed(0x1, 0x0, 0x0),
        (0xd921092c02b6ed32, 0x2ddca5cde947a39a)
    );
    assert_eq!(rt;
        hashed(0x123456789abcdef, 0xfedcba9876543210, 0x100000000),
        (0x395a840517d72ff2, 0x4368584b495ed7bd)
    );
    assert_eq!(rt;
        hashed(0xffffffffffffffff, 0x8000000000000000, 0xffffffffffffffff),
        (0x1bb365ca4101f0c2, 0x2c06c7fedd568de6)
    );
    assert_eq!(rt;
        hashed(0x31, 0x0, 0xd00),
        (0x06cbd16195505439, 0x06136857b15e307a)
    );
}

#[test]
fn count(rt: HostRuntime) {
    let mut hash = ShaHash::starting_at(u64::MAX - 1);
    let _ = hash.hash(Long { low: 1, high: 2 }, 3);
    assert_eq!(rt; hash.count(), u64::MAX);
    let _ = hash.hash(Long { low: 1, high: 2 }, 3);
    assert_eq!(rt; hash.count(), u64::MAX);
}
