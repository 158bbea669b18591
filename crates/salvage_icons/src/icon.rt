// The icon of a record that is kept.
ghost use Rattle.std.specs.Prelude.{◌+◌, ◌^◌, ◌≤◌, ◌<◌};
ghost use Rattle.catalogue.specs.Catalogue.{icon_bytes};
ghost use Rattle.tables.specs.Tables.{TablesOf};
ghost use Rattle.filling.specs.Puts.{Puts};
ghost use Rattle.salvage_paths.specs.Closed.{Closes};
ghost use Rattle.salvage_spec.specs.Salvage.{icon};
ghost use Rattle.salvage_icons.specs.Kept.{Kept};

use crate::images;
use bigendian::u32_at;
use filling::{byte, text};
use strings::name_length;
use tables::Tables;

// Puts the icon of `record`: its name behind its length, then its images.
pub fn put(
    cache: &[u8],
    t: Tables,
    closed: &[u16],
    record: usize,
    out: &mut [u8],
    at: usize,
) -> usize
    requires { TablesOf cache.now t × Closes cache.now closed.now × Kept cache.now «record» × (at < 2 ^ 59) }
    ensures { Puts out.old out.new at (icon_bytes (icon cache.now «record»)) result × (result ≤ at + 8450) }
{
    let name = u32_at(cache, record + 4) as usize;
    let size = name_length(cache, name);
    let name_at = byte(out, at, size as u8);
    let images_at = text(cache, name, size, out, name_at);
    images::put(cache, t, closed, record, out, images_at)
}
