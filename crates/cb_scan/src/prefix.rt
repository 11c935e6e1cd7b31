//! The first bytes of a key as a number.
ghost use Rattle.std.specs.Prelude.{◌≡◌, ◌≤◌, ◌<◌, get_or, length};
ghost use Rattle.cb_scan.specs.Keys.{key_prefix};

/// The byte at a place, or 0 past the end.
fn byte_at(key: &[u8], at: usize) -> u64
    ensures value { result ≡ get_or key.now at 0 }
    ensures small { result < 256 }
{
    if at < key.len() { key[at] as u64 } else { 0 }
}

/// The first eight bytes as a big-endian number.
fn word(bytes: &[u8]) -> u64
    requires { 8 ≤ length bytes.now }
    ensures { result ≡ key_prefix bytes.now }
{
    u64::from_be_bytes([
        bytes[0], bytes[1], bytes[2], bytes[3], bytes[4], bytes[5], bytes[6], bytes[7],
    ])
}

/// The first eight bytes of a key as a big-endian number; where it has fewer, zeros follow.
pub fn key_prefix(key: &[u8]) -> u64
    ensures { result ≡ key_prefix key.now }
{
    if key.len() >= 8 {
        return word(key);
    }
    byte_at(key, 0) * 0x0100_0000_0000_0000
        + byte_at(key, 1) * 0x0001_0000_0000_0000
        + byte_at(key, 2) * 0x0000_0100_0000_0000
        + byte_at(key, 3) * 0x0000_0001_0000_0000
        + byte_at(key, 4) * 0x0000_0000_0100_0000
        + byte_at(key, 5) * 0x0000_0000_0001_0000
        + byte_at(key, 6) * 0x0000_0000_0000_0100
}
