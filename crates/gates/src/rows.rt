// Labels in bytes of material.
ghost use Rattle.std.specs.Prelude.{◌≡◌, ◌+◌, ◌≤◌, length};
ghost use Rattle.gates.specs.Bytes.{laid, bytes_at};

use labels::kind::Label;

// Writes a label's bytes from a place on; all other bytes stay.
pub fn put<L: Label>(material: &mut [u8], place: usize, label: L)
    requires { place + L.kind.width ≤ length material.old }
    ensures { material.new ≡ laid place (L.kind.bytes label) material.old }
{
    let end = place + L::width();
    label.write(&mut material[place..end]);
}

// Reads the label whose bytes begin at a place.
pub fn get<L: Label>(material: &[u8], place: usize) -> L
    requires { place + L.kind.width ≤ length material.now }
    ensures { result ≡ L.kind.from (bytes_at place L.kind.width material.now) }
{
    let end = place + L::width();
    L::read(&material[place..end])
}
