// A record at the end of its chain.
ghost use Rattle.std.specs.Prelude.{◌≡◌, ◌+◌, ◌^◌, ◌≤◌, ◌<◌, length};
ghost use Rattle.passes.specs.Record.{appended};

use bigendian::put_u32;

// Puts a record that no other follows on its chain into `out` at `at`, and its offset into the
// field that leads to it.
pub fn append(out: &mut [u8], at: usize, name: usize, images: usize, field: usize)
    requires { (at + 12 ≤ length out.old) × (field + 4 ≤ length out.old) × (at < 2 ^ 32) × (name < 2 ^ 32) × (images < 2 ^ 32) }
    ensures { out.new ≡ appended out.old at name images field }
{
    put_u32(out, at, 0xFFFF_FFFF);
    put_u32(out, at + 4, name as u32);
    put_u32(out, at + 8, images as u32);
    put_u32(out, field, at as u32);
}
