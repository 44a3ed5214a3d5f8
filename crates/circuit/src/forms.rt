// What a form says of a gate. A form is a number here, as the format has it: a gate that is read is a case of `Gate`.
ghost use Rattle.std.specs.Prelude.{◌≡◌, ◌*◌, ◌^◌, ◌≤◌, true};
ghost use Rattle.circuit.specs.Forms.{known, makes};
ghost use Rattle.circuit.specs.Material.{gate_bits};

use material::table_bits;

// How many wires a gate of a form makes.
pub(crate) fn form_makes(form: u16) -> u16
    ensures { result ≡ makes form }
{
    if form <= 1 { 1 } else { form % 256 }
}

// The bits of its material, for labels of kappa bits.
pub fn form_bits(kappa: usize, form: u16) -> usize
    requires narrow { kappa ≤ 8 * 4096 }
    requires known { known form ≡ true }
    ensures bits { result ≡ gate_bits kappa form }
    ensures few { result ≤ 2 ^ 23 }
{
    match form {
        0 => 0,
        1 => 2 * kappa,
        _ => table_bits(kappa, usize::from(form / 256), usize::from(form % 256)),
    }
}
