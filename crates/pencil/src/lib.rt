// The figures for the pencil, with the paper label and the paper hash.
#![tactic(auto)]

ghost use Rattle.pencil.specs.Figures.{Figures};

use gates::{half, xor};
use hashes::draws::draw;
use hashes::hash::LabelHash;
use hashes::paper::PaperHash;
use labels::kind::Label;
use labels::paper::Paper;
use tables::gate;

// The rules give the figures.
pub fn figures_stand()
    ensures { Figures }
{}

#[cfg(test)]
mod tests {
    use super::*;

    #[test]
    fn and_of_both(rt: HostRuntime) {
        let mut h = PaperHash::starting_at(0);
        let seed = Paper { word: 0x0031 };
        let offset = draw(&mut h, seed, 0).raise();
        let a = draw(&mut h, seed, 1);
        let b = draw(&mut h, seed, 2);
        assert_eq!(rt; offset.word, 0xF601);
        assert_eq!(rt; a.word, 0xFB00);
        assert_eq!(rt; b.word, 0x0001);
        let (t, u, zero) = half::garble(&mut h, 0, offset, a, b);
        assert_eq!(rt; t.word, 0xF1A7);
        assert_eq!(rt; u.word, 0xF6CE);
        assert_eq!(rt; zero.word, 0x0729);
        let both = half::evaluate(&mut h, 0, t, u, a.xor(offset), b.xor(offset));
        assert_eq!(rt; both.word, 0xF128);
        let one = half::evaluate(&mut h, 0, t, u, a.xor(offset), b);
        assert_eq!(rt; one.word, 0x0729);
        assert_eq!(rt; xor::step(a, b).word, 0xFB01);
        assert_eq!(rt; h.count(), 11);
    }

    #[test]
    fn table_on_input_0(rt: HostRuntime) {
        let mut h = PaperHash::starting_at(0);
        let none = Paper { word: 0 };
        let zero = Paper { word: 0xFB00 };
        let offset = Paper { word: 0xF601 };
        let mut material = [0u8; 5];
        let mut scratch = [Paper { word: 9 }; 257];
        let mut new = [none; 2];
        gate::garble(
            &mut h,
            0,
            Paper { word: 0x0031 },
            offset,
            &[zero],
            &[2, 0, 1, 0],
            &mut material,
            &mut scratch,
            &mut new,
        );
        assert_eq!(rt; h.count(), 7);
        assert_eq!(rt; material, [0xBA, 0x07, 0xBA, 0xF6, 0x0E]);
        assert_eq!(rt; new[0].word, 0xAAF1);
        assert_eq!(rt; new[1].word, 0xA0F0);
        assert_eq!(rt; scratch[0].word, 0);
        assert_eq!(rt; scratch[256].word, 0);
        gate::evaluate(&mut h, 0, &[zero], &material, &mut scratch, &mut new);
        assert_eq!(rt; h.count(), 10);
        assert_eq!(rt; new[0].word, 0xAAF1);
        assert_eq!(rt; new[1].word, 0x56F1);
        gate::evaluate(
            &mut h,
            0,
            &[zero.xor(offset)],
            &material,
            &mut scratch,
            &mut new,
        );
        assert_eq!(rt; new[0].word, 0x5CF0);
        assert_eq!(rt; new[1].word, 0xA0F0);
    }
}
