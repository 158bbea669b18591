// How many bytes a cache has, and where its parts begin.
ghost use Rattle.std.specs.Prelude.{◌≡◌, ℕ, ◌+◌, ◌*◌, ◌^◌, ◌≤◌, ◌<◌, length};
ghost use Rattle.catalogue.specs.Fields.{image_count, icon_end, catalogue_in};
ghost use Rattle.catalogue.specs.Written.{lists_up_to, written_size};
ghost use Rattle.passes.specs.Passes.{Judged, BeginsOf};

use bigendian::{byte, u16_at};
use judging::{Parts, icon_end};

// Where the parts of a cache begin that stand behind its records.
#[derive(Clone, Copy)]
pub struct Begins {
    pub lists: usize,
    pub directories: usize,
    pub paths: usize,
    pub names: usize,
}

// How many bytes the image list of the icon at `icon` takes.
pub fn list_size(catalogue: &[u8], icon: usize) -> usize
    requires { icon_end catalogue.now icon ≤ length catalogue.now }
    ensures { (result ≡ 4 + 8 * image_count catalogue.now icon) × (result < 2 ^ 20) }
{
    let count = icon + 1 + byte(catalogue, icon) as usize;
    4 + 8 * u16_at(catalogue, count) as usize
}

// Where the image lists of all icons end that begin at `at`.
fn lists_end(catalogue: &[u8], first: usize, icons: usize, at: usize) -> usize
    requires by_index { (m : ℕ) × Judged catalogue.now m icons first }
    requires icons_bound { at + length (lists_up_to (catalogue_in catalogue.now) icons) < 2 ^ 32 }
    ensures { result ≡ at + length (lists_up_to (catalogue_in catalogue.now) icons) }
{
    let mut icon = first;
    let mut end = at;
    for _ in 0..icons {
        end += list_size(catalogue, icon);
        icon = icon_end(catalogue, icon);
    }
    end
}

// Where the parts of the cache of a good catalogue begin that stand behind its records.
pub fn arrange(catalogue: &[u8], parts: Parts, buckets: usize) -> Begins
    requires judged { Judged catalogue.now parts.paths parts.icons parts.first_icon }
    requires buckets_bound { (buckets ≤ 4096) × (written_size (catalogue_in catalogue.now) buckets ≤ 16777216) }
    ensures { BeginsOf (catalogue_in catalogue.now) buckets result }
{
    let first = parts.first_icon;
    let icons = parts.icons;
    let n = parts.paths;
    let lists = 16 + 4 * buckets + 12 * icons;
    let directories = lists_end(catalogue, first, icons, lists);
    let paths = directories + 4 + 4 * n;
    // In a catalogue a path has two bytes before it, and in a cache one behind it.
    let names = paths + (first - 4 - n);
    Begins {
        lists,
        directories,
        paths,
        names,
    }
}

// How many bytes the cache of a good catalogue has. In it a directory takes 3 bytes more than in
// the catalogue and an icon 14; beside these there are the buckets, and the header and two counts
// take 20 bytes where the catalogue's counts take 4.
pub fn size(catalogue: &[u8], parts: Parts, buckets: usize) -> usize
    requires { Judged catalogue.now parts.paths parts.icons parts.first_icon × (buckets ≤ 4096) }
    ensures { result ≡ written_size (catalogue_in catalogue.now) buckets }
{
    catalogue.len() + 16 + 4 * buckets + 14 * parts.icons + 3 * parts.paths
}
