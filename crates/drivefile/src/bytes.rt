// Little-endian numbers in bytes. Two calls, since `from_le_bytes` is a method of each number type with no trait over them: a
// generic one would need a padded array or a loop over bytes, and a length at each call.
ghost use Rattle.std.specs.Prelude.{◌≡◌, ◌+◌, ◌<◌, ◌≤◌, length};
ghost use Rattle.drivefile.specs.Bytes.{le16 as le16_at, le32 as le32_at};

// The 16-bit number at `i`.
pub(crate) fn le16(bytes: &[u8], i: usize) -> u32
    requires { i + 2 ≤ length bytes.now }
    ensures value { result ≡ le16_at bytes.now i }
    ensures bound { result < 65536 }
{
    u16::from_le_bytes([bytes[i], bytes[i + 1]]) as u32
}

// The 32-bit number at `i`.
pub(crate) fn le32(bytes: &[u8], i: usize) -> u32
    requires { i + 4 ≤ length bytes.now }
    ensures { result ≡ le32_at bytes.now i }
{
    u32::from_le_bytes([bytes[i], bytes[i + 1], bytes[i + 2], bytes[i + 3]])
}
