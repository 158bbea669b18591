// The image lists, the directory list and the strings of a cache, one behind the other.
ghost use Rattle.std.specs.Prelude.{◌≡◌, ◌++◌, ℕ, ◌+◌, ◌*◌, ◌^◌, ◌≤◌, ◌<◌, length};
ghost use Rattle.format.specs.Bytes.{bytes, joined, put};
ghost use Rattle.catalogue.specs.Fields.{part, path_length, path_text, path_end, name_length, name_text, image_count, first_image_at, icon_end, catalogue_in};
ghost use Rattle.catalogue.specs.LaidOut.{table_bytes, text_and_zero};
ghost use Rattle.catalogue.specs.Written.{lists_up_to, paths_up_to, names_up_to};
ghost use Rattle.passes.specs.Passes.{Judged};

use bigendian::{byte, put_u32, u16_at};
use judging::icon_end;

// Puts the image list of the icon at `icon` into `out` at `place`: where it ends.
fn list(catalogue: &[u8], icon: usize, out: &mut [u8], place: usize) -> usize
    requires icon_in_bounds { icon_end catalogue.now icon ≤ length catalogue.now }
    requires icon_in_bounds_2 { place + (4 + 8 * image_count catalogue.now icon) ≤ length out.old }
    ensures out_after { out.new ≡ put out.old place (bytes 4 (image_count catalogue.now icon) ++ part catalogue.now (first_image_at catalogue.now icon) (8 * image_count catalogue.now icon)) }
    ensures value { result ≡ place + (4 + 8 * image_count catalogue.now icon) }
{
    let count = icon + 1 + byte(catalogue, icon) as usize;
    let images = u16_at(catalogue, count);
    copying::put_images(catalogue, count + 2, images, out, place);
    place + (4 + 8 * images as usize)
}

// Puts the name of the icon at `icon` into `out` at `place`, and a zero byte behind it: where that
// ends.
fn name(catalogue: &[u8], icon: usize, out: &mut [u8], place: usize) -> usize
    requires icon_in_bounds { icon_end catalogue.now icon ≤ length catalogue.now }
    requires icon_in_bounds_2 { place + (name_length catalogue.now icon + 1) ≤ length out.old }
    ensures out_after { out.new ≡ put out.old place (text_and_zero (name_text catalogue.now icon)) }
    ensures value { result ≡ place + (name_length catalogue.now icon + 1) }
{
    let length = byte(catalogue, icon) as usize;
    copying::put_string(catalogue, icon + 1, length, out, place);
    place + (length + 1)
}

// The same of the path at `path`.
fn path(catalogue: &[u8], path: usize, out: &mut [u8], place: usize) -> usize
    requires path_in_bounds { path_end catalogue.now path ≤ length catalogue.now }
    requires path_in_bounds_2 { place + (path_length catalogue.now path + 1) ≤ length out.old }
    ensures out_after { out.new ≡ put out.old place (text_and_zero (path_text catalogue.now path)) }
    ensures value { result ≡ place + (path_length catalogue.now path + 1) }
{
    let length = u16_at(catalogue, path) as usize;
    copying::put_string(catalogue, path + 2, length, out, place);
    place + (length + 1)
}

// Puts the image lists of all icons into `out` at `at`.
pub fn lists(catalogue: &[u8], first: usize, icons: usize, out: &mut [u8], at: usize)
    requires by_index { (m : ℕ) × Judged catalogue.now m icons first }
    requires icons_in_bounds { at + length (lists_up_to (catalogue_in catalogue.now) icons) ≤ length out.old }
    ensures { out.new ≡ put out.old at (lists_up_to (catalogue_in catalogue.now) icons) }
{
    let mut icon = first;
    let mut place = at;
    for _ in 0..icons {
        place = list(catalogue, icon, out, place);
        icon = icon_end(catalogue, icon);
    }
}

// Puts the names of all icons into `out` at `at`.
// A loop like that of `lists`: one for both would take what puts an entry as a closure, and say its
// contract once more.
pub fn names(catalogue: &[u8], first: usize, icons: usize, out: &mut [u8], at: usize)
    requires by_index { (m : ℕ) × Judged catalogue.now m icons first }
    requires icons_in_bounds { at + length (names_up_to (catalogue_in catalogue.now) icons) ≤ length out.old }
    ensures { out.new ≡ put out.old at (names_up_to (catalogue_in catalogue.now) icons) }
{
    let mut icon = first;
    let mut place = at;
    for _ in 0..icons {
        place = name(catalogue, icon, out, place);
        icon = icon_end(catalogue, icon);
    }
}

// Where the path at `path` ends, which lies inside.
fn path_end(catalogue: &[u8], path: usize) -> usize
    requires { path_end catalogue.now path ≤ length catalogue.now }
    ensures { result ≡ path_end catalogue.now path }
{
    path + 2 + u16_at(catalogue, path) as usize
}

// Puts all paths into `out` at `at`.
pub fn paths(catalogue: &[u8], n: usize, out: &mut [u8], at: usize)
    requires by_index { (icons : ℕ) × (first : ℕ) × Judged catalogue.now n icons first }
    requires n_in_bounds { at + length (paths_up_to (catalogue_in catalogue.now) n) ≤ length out.old }
    ensures { out.new ≡ put out.old at (paths_up_to (catalogue_in catalogue.now) n) }
{
    let mut here = 2;
    let mut place = at;
    for _ in 0..n {
        place = path(catalogue, here, out, place);
        here = path_end(catalogue, here);
    }
}

// Puts the offsets of the strings of all paths into `out` at `at`; the first stands at `strings`.
fn entries(catalogue: &[u8], n: usize, strings: usize, out: &mut [u8], at: usize)
    requires by_index { (icons : ℕ) × (first : ℕ) × Judged catalogue.now n icons first }
    requires n_in_bounds { at + 4 * n ≤ length out.old }
    requires n_bound { strings + length (paths_up_to (catalogue_in catalogue.now) n) < 2 ^ 32 }
    ensures { out.new ≡ put out.old at (joined (λ i. bytes 4 (strings + length (paths_up_to (catalogue_in catalogue.now) i))) n) }
{
    let mut here = 2;
    let mut string = strings;
    for i in 0..n {
        put_u32(out, at + 4 * i, string as u32);
        string += u16_at(catalogue, here) as usize + 1;
        here = path_end(catalogue, here);
    }
}

// Puts the directory list into `out` at `at`.
pub fn directories(catalogue: &[u8], n: usize, strings: usize, out: &mut [u8], at: usize)
    requires by_index { (icons : ℕ) × (first : ℕ) × Judged catalogue.now n icons first }
    requires n_in_bounds { at + (4 + 4 * n) ≤ length out.old }
    requires n_bound { strings + length (paths_up_to (catalogue_in catalogue.now) n) < 2 ^ 32 }
    ensures { out.new ≡ put out.old at (table_bytes (λ i. strings + length (paths_up_to (catalogue_in catalogue.now) i)) n) }
{
    put_u32(out, at, n as u32);
    entries(catalogue, n, strings, out, at + 4);
}
