// Bytes put into a lent buffer.
#![tactic(auto)]

ghost use Rattle.std.specs.Prelude.{◌≡◌, [], ◌∷◌, ◌++◌, ◌+◌, ◌*◌, ◌≤◌, length, take, drop};
ghost use Rattle.format.specs.Bytes.{bytes, put};

use bigendian::{put_byte, put_u32};

// Puts the `n` bytes of `from` at `start` into `out` at `at`, and leaves all else as it was.
pub fn copy(from: &[u8], start: usize, n: usize, out: &mut [u8], at: usize)
    requires { (start + n ≤ length from.now) × (at + n ≤ length out.old) }
    ensures { out.new ≡ put out.old at (take n (drop start from.now)) }
{
    // No `copy_from_slice`: with it the library for C would need a `memmove` from outside.
    for i in 0..n {
        out[at + i] = from[start + i];
    }
}

// Puts the text of `n` bytes that stands in `from` at `start` into `out` at `at`, and a zero byte
// behind it.
pub fn put_string(from: &[u8], start: usize, n: usize, out: &mut [u8], at: usize)
    requires { (start + n ≤ length from.now) × (at + n + 1 ≤ length out.old) }
    ensures { out.new ≡ put out.old at (take n (drop start from.now) ++ (0 ∷ [])) }
{
    copy(from, start, n, out, at);
    put_byte(out, at + n, 0);
}

// Puts a count of `m`, and the `m` images that stand in `from` at `start`, into `out` at `at`.
pub fn put_images(from: &[u8], start: usize, m: u16, out: &mut [u8], at: usize)
    requires { (start + 8 * m ≤ length from.now) × (at + 4 + 8 * m ≤ length out.old) }
    ensures { out.new ≡ put out.old at (bytes 4 m ++ take (8 * m) (drop start from.now)) }
{
    put_u32(out, at, m as u32);
    copy(from, start, 8 * m as usize, out, at + 4);
}
