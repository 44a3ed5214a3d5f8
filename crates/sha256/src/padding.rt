// The last one or two blocks of a padded message.
ghost use Rattle.std.specs.Prelude.{◌≡◌, ◌+◌, ◌%◌, ◌<◌, ◌++◌, length, replicate, slice_set};
ghost use Rattle.sha256.specs.Padding.{bits, eight, padding, zeros};

// How long a rest of less than a block becomes by padding: one block or two.
pub fn padded_length(rest: usize) -> usize
    requires { rest < 64 }
    ensures { result ≡ rest + 9 + zeros rest }
{
    if rest < 56 { 64 } else { 128 }
}

// The length field of a message of `total` bytes.
fn write_length(field: &mut [u8], total: usize)
    requires { length field.old ≡ 8 }
    ensures { field.new ≡ eight (bits total) }
{
    field.copy_from_slice(&(total as u64).wrapping_mul(8).to_be_bytes());
}

// The byte after the message.
fn mark(bytes: &mut [u8], at: usize)
    requires { at < length bytes.old }
    ensures { bytes.new ≡ slice_set bytes.old at 0x80 }
{
    bytes[at] = 0x80;
}

// Writes what follows the whole blocks of a message of `total` bytes, with its padding, into zero bytes.
pub fn pad(bytes: &mut [u8], rest: &[u8], total: usize)
    requires short { length rest.now ≡ total % 64 }
    requires room { length bytes.old ≡ length rest.now + 9 + zeros (length rest.now) }
    requires blank { bytes.old ≡ replicate (length bytes.old) 0 }
    ensures { bytes.new ≡ rest.now ++ padding total }
{
    let end = bytes.len();
    bytes[..rest.len()].copy_from_slice(rest);
    mark(bytes, rest.len());
    write_length(&mut bytes[end - 8..end], total);
}
