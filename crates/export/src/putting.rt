// Puts the catalogue of a cache into a lent buffer that has room for it.
ghost use Rattle.std.specs.Prelude.{◌≡◌, ◌++◌, ◌+◌, ◌*◌, ◌≤◌, ◌<◌, length};
ghost use Rattle.format.specs.Bytes.{bytes, joined, put};
ghost use Rattle.format.specs.Header.{directories};
ghost use Rattle.catalogue.specs.Catalogue.{icon_bytes};
ghost use Rattle.catalogue.specs.Fields.{part};
ghost use Rattle.catalogue.specs.Listed.{icon_of};
ghost use Rattle.catalogue.specs.Call.{listed_bytes};
ghost use Rattle.tables.specs.Tables.{Sound};
ghost use Rattle.export.specs.Parts.{Kept, path_piece, icon_piece, Indexed};

use bigendian::{put_byte, put_u16};
use copying::copy;
use tables::Tables;

// Puts `count`, and the `n` bytes that stand in the cache at `start`, into `out` at `place`.
fn counted(cache: &[u8], start: usize, n: usize, count: u16, out: &mut [u8], place: usize)
    requires { (start + n ≤ length cache.now) × (place + 2 + n ≤ length out.old) }
    ensures { out.new ≡ put out.old place (bytes 2 count ++ part cache.now start n) }
{
    put_u16(out, place, count);
    copy(cache, start, n, out, place + 2);
}

// Puts the length of a name and the name, which stands at `start`, into `out` at `place`.
fn name(cache: &[u8], start: usize, size: u8, out: &mut [u8], place: usize)
    requires { (start + size ≤ length cache.now) × (place + 1 + size ≤ length out.old) }
    ensures { out.new ≡ put out.old place (bytes 1 size ++ part cache.now start size) }
{
    put_byte(out, place, size);
    copy(cache, start, size as usize, out, place + 1);
}

// Puts the path of directory `i`, which keeps the rules, into `out` at `place`: where it ends.
fn path(cache: &[u8], t: Tables, i: u32, out: &mut [u8], place: usize) -> usize
    requires sound { Sound cache.now t × (i < directories cache.now) }
    requires i_in_bounds { place + length (path_piece cache.now i) ≤ length out.old }
    ensures out_after { out.new ≡ put out.old place (path_piece cache.now i) }
    ensures value { result ≡ place + length (path_piece cache.now i) }
{
    let path = tables::path(cache, t, i).unwrap();
    let size = path.length;
    counted(cache, path.start, size, size as u16, out, place);
    place + 2 + size
}

// Puts the icon of `record` into `out` at `place`: where it ends.
fn icon(cache: &[u8], record: usize, out: &mut [u8], place: usize) -> usize
    requires kept { Kept cache.now «record» }
    requires record_in_bounds { place + length (icon_bytes (icon_of cache.now «record»)) ≤ length out.old }
    ensures out_after { out.new ≡ put out.old place (icon_bytes (icon_of cache.now «record»)) }
    ensures value { result ≡ place + length (icon_bytes (icon_of cache.now «record»)) }
{
    let parts = crate::parts::icon(cache, record);
    let images = place + 1 + parts.length;
    let size = 8 * parts.count;
    name(cache, parts.name, parts.length as u8, out, place);
    counted(cache, parts.images, size, parts.count as u16, out, images);
    images + 2 + size
}

// Puts all paths into `out` at `at`: where they end.
fn paths(cache: &[u8], t: Tables, out: &mut [u8], at: usize) -> usize
    requires sound { Sound cache.now t }
    requires cache_in_bounds { at + length (joined (path_piece cache.now) (directories cache.now)) ≤ length out.old }
    ensures out_after { out.new ≡ put out.old at (joined (path_piece cache.now) (directories cache.now)) }
    ensures value { result ≡ at + length (joined (path_piece cache.now) (directories cache.now)) }
{
    let mut place = at;
    for i in 0..t.directories {
        place = path(cache, t, i, out, place);
    }
    place
}

// Puts the icons of the `n` records of the index into `out` at `at`.
fn icons(cache: &[u8], t: Tables, index: &[u32], n: usize, out: &mut [u8], at: usize)
    requires indexed { Indexed cache.now t index.now n }
    requires n_in_bounds { at + length (joined (icon_piece cache.now index.now) n) ≤ length out.old }
    ensures { out.new ≡ put out.old at (joined (icon_piece cache.now index.now) n) }
{
    let mut place = at;
    for offset in &index[..n] {
        place = icon(cache, *offset as usize, out, place);
    }
}

// Puts all of it: each section after its count.
pub fn whole(cache: &[u8], t: Tables, index: &[u32], n: usize, out: &mut [u8])
    requires indexed { Indexed cache.now t index.now n }
    requires cache_in_bounds { length (listed_bytes cache.now) ≤ length out.old }
    ensures { out.new ≡ put out.old 0 (listed_bytes cache.now) }
{
    put_u16(out, 0, t.directories as u16);
    let at = paths(cache, t, out, 2);
    put_u16(out, at, n as u16);
    icons(cache, t, index, n, out, at + 2);
}
