// How many bytes the catalogue of a cache has. Apart from `putting`, since all is measured before the
// first byte is put.
ghost use Rattle.std.specs.Prelude.{◌≡◌, ◌+◌, ◌*◌, ◌≤◌, length};
ghost use Rattle.format.specs.Bytes.{joined};
ghost use Rattle.format.specs.Header.{directories};
ghost use Rattle.catalogue.specs.Call.{listed_bytes};
ghost use Rattle.tables.specs.Tables.{Sound};
ghost use Rattle.export.specs.Parts.{path_piece, icon_piece, Indexed};

use crate::parts::{icon_size, path_size};
use tables::Tables;

// Of all paths.
fn paths(cache: &[u8], t: Tables) -> usize
    requires { Sound cache.now t }
    ensures { (result ≡ length (joined (path_piece cache.now) (directories cache.now))) × (result ≤ 1025 * directories cache.now) }
{
    let mut size = 0;
    for i in 0..t.directories {
        size += path_size(cache, t, i);
    }
    size
}

// Of the icons of the `n` records of the index.
fn icons(cache: &[u8], t: Tables, index: &[u32], n: usize) -> usize
    requires { Indexed cache.now t index.now n }
    ensures { (result ≡ length (joined (icon_piece cache.now index.now) n)) × (result ≤ 8450 * n) }
{
    let mut size = 0;
    for offset in &index[..n] {
        size += icon_size(cache, *offset as usize);
    }
    size
}

// Of all of it.
pub fn whole(cache: &[u8], t: Tables, index: &[u32], n: usize) -> usize
    requires { Indexed cache.now t index.now n }
    ensures { result ≡ length (listed_bytes cache.now) }
{
    4 + paths(cache, t) + icons(cache, t, index, n)
}
