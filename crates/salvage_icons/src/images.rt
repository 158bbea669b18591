// The images of a record that is kept.
ghost use Rattle.std.specs.Prelude.{◌≡◌, ◌+◌, ◌^◌, ◌≤◌, ◌<◌, length};
ghost use Rattle.catalogue.specs.Catalogue.{image_bytes};
ghost use Rattle.tables.specs.Tables.{TablesOf};
ghost use Rattle.filling.specs.Puts.{Puts};
ghost use Rattle.salvage_paths.specs.Closed.{Closes};
ghost use Rattle.salvage_spec.specs.Salvage.{reindexed};
ghost use Rattle.salvage_spec.specs.Pieces.{images_piece, image_rows};
ghost use Rattle.salvage_icons.specs.Kept.{Kept, list_of};

use bigendian::{u16_at, u32_at};
use filling::{long, row, short};
use records::{valid_image, valid_words};
use salvage_paths::keep_image;
use tables::Tables;

// Where the images of a record begin, and how many they are.
#[derive(Clone, Copy)]
pub struct ImageList {
    pub first: usize,
    pub count: usize,
}

// The image list of `record`.
fn list(cache: &[u8], record: usize) -> ImageList
    requires { Kept cache.now «record» }
    ensures { result ≡ list_of cache.now «record» }
{
    let at = u32_at(cache, record + 8) as usize;
    ImageList {
        first: at + 4,
        count: u32_at(cache, at) as usize,
    }
}

// Puts the image at `image` with a new index.
fn put_image(cache: &[u8], image: usize, index: u16, out: &mut [u8], at: usize) -> usize
    requires { (image + 8 ≤ length cache.now) × (at < 2 ^ 61) }
    ensures { Puts out.old out.new at (image_bytes (reindexed cache.now image index)) result }
{
    let flags = u16_at(cache, image + 2);
    let data = u32_at(cache, image + 4);
    let second = short(out, at, index);
    let third = short(out, second, flags);
    long(out, third, data)
}

// Puts how many images of `record` stay, and behind that these images. The count is put last, since
// they are counted on the way.
pub fn put(
    cache: &[u8],
    t: Tables,
    closed: &[u16],
    record: usize,
    out: &mut [u8],
    at: usize,
) -> usize
    requires { TablesOf cache.now t × Closes cache.now closed.now × Kept cache.now «record» × (at < 2 ^ 60) }
    ensures { Puts out.old out.new at (images_piece cache.now «record») result × (result ≤ at + 8194) }
{
    let valid = valid_words(t.directories);
    let all = list(cache, record);
    let mut stay: u16 = 0;
    let mut next = at + 2;
    for i in 0..all.count {
        let image = all.first + 8 * i;
        if let Some(index) = keep_image(cache, t, valid, closed, image) {
            next = put_image(cache, image, index, out, next);
            stay += 1;
        }
    }
    short(out, at, stay);
    next
}

// Puts the rows of the images of `record` that break rule 11.
pub fn put_rows(cache: &[u8], t: Tables, record: usize, report: &mut [u32], at: usize) -> usize
    requires { TablesOf cache.now t × Kept cache.now «record» × (at < 2 ^ 60) }
    ensures { Puts report.old report.new at (image_rows cache.now «record») result × (result ≤ at + 2048) }
{
    let valid = valid_words(t.directories);
    let all = list(cache, record);
    let mut next = at;
    for i in 0..all.count {
        let image = all.first + 8 * i;
        if !valid_image(cache, valid, image) {
            next = row(report, next, 11, image);
        }
    }
    next
}
