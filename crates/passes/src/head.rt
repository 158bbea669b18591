// The header of a cache, and its hash of empty buckets.
ghost use Rattle.std.specs.Prelude.{◌≡◌, ◌++◌, ◌+◌, ◌*◌, ◌^◌, ◌≤◌, ◌<◌, length};
ghost use Rattle.format.specs.Layout.{end_value};
ghost use Rattle.format.specs.Bytes.{bytes, joined, put};

use bigendian::{put_u16, put_u32};

// Puts the header of a cache with this directory list into `out`.
fn header(out: &mut [u8], directories: usize)
    requires { (12 ≤ length out.old) × (directories < 2 ^ 32) }
    ensures { out.new ≡ put out.old 0 (bytes 2 1 ++ bytes 2 0 ++ bytes 4 12 ++ bytes 4 directories) }
{
    put_u16(out, 0, 1);
    put_u16(out, 2, 0);
    put_u32(out, 4, 12);
    put_u32(out, 8, directories as u32);
}

// Puts the end value, all of whose bytes are 255, into `n` fields of `out` from `at` on.
pub fn clear(out: &mut [u8], at: usize, n: usize)
    requires { at + 4 * n ≤ length out.old }
    ensures { out.new ≡ put out.old at (joined (λ _. bytes 4 end_value) n) }
{
    out[at..at + 4 * n].fill(0xFF);
}

// Puts a header and a hash of empty buckets into `out`.
pub fn tables(out: &mut [u8], buckets: usize, directories: usize)
    requires { (16 + 4 * buckets ≤ length out.old) × (buckets < 2 ^ 32) × (directories < 2 ^ 32) }
    ensures { out.new ≡ put out.old 0 (bytes 2 1 ++ bytes 2 0 ++ bytes 4 12 ++ bytes 4 directories ++ (bytes 4 buckets ++ joined (λ _. bytes 4 end_value) buckets)) }
{
    header(out, directories);
    put_u32(out, 12, buckets as u32);
    clear(out, 16, buckets);
}
