// What the seed 0031 gives under the paper hash.
use hashes::draws::draw;
use hashes::hash::LabelHash;
use hashes::paper::PaperHash;
use labels::kind::Label;
use labels::paper::Paper;

#[test]
fn draws(rt: HostRuntime) {
    let mut hash = PaperHash::starting_at(0);
    let seed = Paper { word: 0x0031 };
    assert_eq!(rt; draw(&mut hash, seed, 0).raise().word, 0xf601);
    assert_eq!(rt; draw(&mut hash, seed, 1).word, 0xfb00);
    assert_eq!(rt; draw(&mut hash, seed, 2).word, 0x0001);
    assert_eq!(rt; hash.count(), 3);
}
