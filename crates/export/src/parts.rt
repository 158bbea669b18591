// The parts of an icon and of a path in a cache, and how many bytes a catalogue has for them.
ghost use Rattle.std.specs.Prelude.{◌≡◌, ◌≤◌, ◌<◌, length};
ghost use Rattle.format.specs.Header.{directories};
ghost use Rattle.catalogue.specs.Catalogue.{icon_bytes};
ghost use Rattle.catalogue.specs.Listed.{icon_of};
ghost use Rattle.tables.specs.Tables.{Sound};
ghost use Rattle.export.specs.Parts.{Kept, parts_of, path_piece};

use bigendian::u32_at;
use strings::name_length;
use tables::Tables;

// Where the name and the images of a record stand, and how many bytes and images they are.
#[derive(Clone, Copy)]
pub struct IconParts {
    pub name: usize,
    pub length: usize,
    pub images: usize,
    pub count: usize,
}

// The parts of the icon of `record`.
pub fn icon(cache: &[u8], record: usize) -> IconParts
    requires { Kept cache.now «record» }
    ensures { result ≡ parts_of cache.now «record» }
{
    let name = u32_at(cache, record + 4) as usize;
    let list = u32_at(cache, record + 8) as usize;
    IconParts {
        name,
        length: name_length(cache, name),
        images: list + 4,
        count: u32_at(cache, list) as usize,
    }
}

// How many bytes a catalogue has for the icon of `record`.
pub fn icon_size(cache: &[u8], record: usize) -> usize
    requires { Kept cache.now «record» }
    ensures { (result ≡ length (icon_bytes (icon_of cache.now «record»))) × (result ≤ 8450) }
{
    let parts = icon(cache, record);
    3 + parts.length + 8 * parts.count
}

// How many bytes it has for the path of directory `i`, which keeps the rules.
pub fn path_size(cache: &[u8], t: Tables, i: u32) -> usize
    requires { Sound cache.now t × (i < directories cache.now) }
    ensures { (result ≡ length (path_piece cache.now i)) × (result ≤ 1025) }
{
    let path = tables::path(cache, t, i).unwrap();
    2 + path.length
}
