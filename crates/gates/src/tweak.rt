// The tweaks of a gate's hash calls.
ghost use Rattle.std.specs.Prelude.{◌≡◌, ◌<◌};
ghost use Rattle.gates.specs.Tweak.{tweak as of_point};

// The tweak of a point in a gate.
pub fn tweak(gate: u32, point: usize) -> u64
    requires { point < 1024 }
    ensures { result ≡ of_point gate point }
{
    1024 * u64::from(gate) + point as u64
}
