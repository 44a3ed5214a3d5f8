// The cipher under the key 00 01 .. 0f, its round keys written out.
ghost use Rattle.std.specs.Prelude.{◌≡◌};
ghost use Rattle.aes.specs.Cipher.{cipher as enciphered, fixed_key};
ghost use Rattle.aes.specs.Columns.{bytes_of};

use crate::block::Block;
use crate::cipher::encrypt_with;

// The words of the fixed key's expansion.
static WORDS: [u32; 44] = [
    0x03020100, 0x07060504, 0x0b0a0908, 0x0f0e0d0c, 0xfd74aad6, 0xfa72afd2, 0xf178a6da, 0xfe76abd6,
    0x0bcf92b6, 0xf1bd3d64, 0x00c59bbe, 0xfeb33068, 0x4e74ffb6, 0xbfc9c2d2, 0xbf0c596c, 0x41bf6904,
    0xbcf7f747, 0x033e3595, 0xbc326cf9, 0xfd8d05fd, 0xe8a3aa3c, 0xeb9d9fa9, 0x57aff350, 0xaa22f6ad,
    0x7d0f395e, 0x9692a6f7, 0xc13d55a7, 0x6b1fa30a, 0x1a70f914, 0x8ce25fe3, 0x4ddf0a44, 0x26c0a94e,
    0x35874347, 0xb9651ca4, 0xf4ba16e0, 0xd27abfae, 0xd1329954, 0x685785f0, 0x9ced9310, 0x4e972cbe,
    0x7f1d1113, 0x174a94e3, 0x8ba707f3, 0xc5302b4d,
];

// The block encrypted under the fixed key.
pub fn encrypt_fixed(x: Block) -> Block
    ensures { bytes_of result ≡ enciphered fixed_key (bytes_of x) }
{
    encrypt_with(&WORDS, x)
}

// Two blocks under the same key.
pub fn encrypt_fixed_two(x: Block, y: Block) -> (Block, Block)
    ensures first { bytes_of result.0 ≡ enciphered fixed_key (bytes_of x) }
    ensures second { bytes_of result.1 ≡ enciphered fixed_key (bytes_of y) }
{
    (encrypt_fixed(x), encrypt_fixed(y))
}
