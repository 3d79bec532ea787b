//! Big-endian numbers.

ghost use Rattle.std.specs.Prelude.{◌≡◌, ◌≤◌, length};
ghost use Rattle.std.specs.Slice.Scan.{big_endian};

/// Returns the number that bytes spell, the highest first.
pub fn big_endian(bytes: &[u8]) -> u64
    requires { length bytes.now ≤ 8 }
    ensures { result ≡ big_endian 0 bytes.now }
{
    let mut value = 0;
    for byte in bytes {
        value = value * 256 + u64::from(*byte);
    }
    value
}
