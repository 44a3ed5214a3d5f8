// The AES hash over long labels.
ghost use Rattle.std.specs.Prelude.{◌≡◌};
ghost use Rattle.hashes.specs.AesHash.{aes_hash, enciphered, tweaked};

use crate::counted::Counted;
use crate::function::LabelFunction;
use aes::block::Block;
use aes::fixed::encrypt_fixed;
use labels::kind::Label;
use labels::long::Long;

#[derive(Clone, Copy)]
pub struct AesFunction;

pub type AesHash = Counted<AesFunction>;

fn with_tweak(label: Long, tweak: u64) -> Long
    ensures { result ≡ tweaked label tweak }
{
    Long {
        low: label.high ^ tweak,
        high: label.high ^ label.low,
    }
}

fn encipher(label: Long) -> Long
    ensures { result ≡ enciphered label }
{
    let block = encrypt_fixed(Block::from_words(label.low, label.high));
    let (low, high) = block.words();
    Long { low, high }
}

impl LabelFunction<Long> for AesFunction {
    ghost means = { aes_hash };

    fn answer(label: Long, tweak: u64) -> Long {
        let y = with_tweak(label, tweak);
        encipher(y).xor(y)
    }
}
