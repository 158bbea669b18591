// Big-endian numbers of two and of four bytes, read and written at an offset of a buffer.
#![tactic(auto)]

ghost use Rattle.std.specs.Prelude.{◌≡◌, ◌+◌, ◌<◌, ◌≤◌, length};
ghost use Rattle.format.specs.Number.{be};
ghost use Rattle.format.specs.Bytes.{bytes, put};

// The byte at `at`.
pub fn byte(s: &[u8], at: usize) -> u16
    requires { at < length s.now }
    ensures { (result ≡ be 1 s.now at) × (result < 256) }
{
    s[at] as u16
}

// The number that the two bytes at `at` write.
pub fn u16_at(s: &[u8], at: usize) -> u16
    requires { at + 2 ≤ length s.now }
    ensures { result ≡ be 2 s.now at }
{
    u16::from_be_bytes([s[at], s[at + 1]])
}

// The number that the four bytes at `at` write.
pub fn u32_at(s: &[u8], at: usize) -> u32
    requires { at + 4 ≤ length s.now }
    ensures { result ≡ be 4 s.now at }
{
    u32::from_be_bytes([s[at], s[at + 1], s[at + 2], s[at + 3]])
}

// Puts the byte `n` at `at`, and leaves all else as it was.
pub fn put_byte(out: &mut [u8], at: usize, n: u8)
    requires { at < length out.old }
    ensures { out.new ≡ put out.old at (bytes 1 n) }
{
    out[at] = n;
}

// Puts `n` into the two bytes at `at`, and leaves all else as it was.
pub fn put_u16(out: &mut [u8], at: usize, n: u16)
    requires { at + 2 ≤ length out.old }
    ensures { out.new ≡ put out.old at (bytes 2 n) }
{
    out[at..at + 2].copy_from_slice(&n.to_be_bytes());
}

// Puts `n` into the four bytes at `at`, and leaves all else as it was.
pub fn put_u32(out: &mut [u8], at: usize, n: u32)
    requires { at + 4 ≤ length out.old }
    ensures { out.new ≡ put out.old at (bytes 4 n) }
{
    out[at..at + 4].copy_from_slice(&n.to_be_bytes());
}
