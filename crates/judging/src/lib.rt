// Judges any bytes as a catalogue, section by section and then its names, 18 and 20, and tells where
// the parts of a good one stand. What is judged is in the specs/ of `catalogue`.
#![tactic(auto)]

ghost use Rattle.std.specs.Prelude.{◌≡◌, [], ◌≤◌, length};
ghost use Rattle.format.specs.Fault.{verdict};
ghost use Rattle.catalogue.specs.Fields.{path_end, icon_end, path_count, icon_count_at};
ghost use Rattle.catalogue.specs.Judgement.{path_fields_fault, icon_fields_fault, fields_fault};
ghost use Rattle.catalogue.specs.Repeats.{catalogue_fault};
ghost use Rattle.entries.specs.Judged.{row_judged};
ghost use Rattle.judging.specs.Judging.{icons_fault, parted, Listed, repeat_from};

use bigendian::{byte, u16_at};
use entries::{icon, path};
use format::Fault;
use keys::Kind;

// Where the parts of a good catalogue stand: how many paths and icons it has, and where the first
// icon begins.
#[derive(Clone, Copy)]
pub struct Parts {
    pub paths: usize,
    pub icons: usize,
    pub first_icon: usize,
}

// `n` paths from `at` on: where they end.
fn paths(catalogue: &[u8], n: usize, at: usize) -> Result<usize, Fault>
    requires { at ≤ length catalogue.now }
    ensures { result ≡ row_judged (path_fields_fault catalogue.now) (path_end catalogue.now) n at }
{
    let mut here = at;
    for _ in 0..n {
        here = path(catalogue, here)?;
    }
    Ok(here)
}

// `m` icons from `at` on, in a catalogue with `n` directories: where they end.
// A loop like that of `paths`: one for both would take the judgement of an entry as a closure, and
// say its contract once more.
fn icons(catalogue: &[u8], n: usize, m: usize, at: usize) -> Result<usize, Fault>
    requires { at ≤ length catalogue.now }
    ensures { result ≡ row_judged (icon_fields_fault n catalogue.now) (icon_end catalogue.now) m at }
{
    let mut here = at;
    for _ in 0..m {
        here = icon(catalogue, n, here)?;
    }
    Ok(here)
}

// The icons of a catalogue with `n` directories, from their count on, which stands at `at`; nothing
// follows them.
fn icon_section(catalogue: &[u8], n: usize, at: usize) -> Result<Parts, Fault>
    requires { at ≤ length catalogue.now }
    ensures { result ≡ parted catalogue.now (icons_fault catalogue.now n at) n at }
{
    if catalogue.len() - at < 2 {
        return Err(Fault {
            number: 18,
            place: at,
        });
    }
    let count = u16_at(catalogue, at) as usize;
    let first_icon = at + 2;
    let end = icons(catalogue, n, count, first_icon)?;
    if end < catalogue.len() {
        return Err(Fault {
            number: 18,
            place: end,
        });
    }
    Ok(Parts {
        paths: n,
        icons: count,
        first_icon,
    })
}

// All fields of a catalogue, and where its parts stand if none is refused.
pub fn fields(catalogue: &[u8]) -> Result<Parts, Fault>
    ensures { result ≡ parted catalogue.now (fields_fault catalogue.now) (path_count catalogue.now) (icon_count_at catalogue.now) }
{
    if catalogue.len() < 2 {
        return Err(Fault {
            number: 18,
            place: 0,
        });
    }
    let n = u16_at(catalogue, 0) as usize;
    let end = paths(catalogue, n, 2)?;
    icon_section(catalogue, n, end)
}

// Where the icon at `at` ends, which lies inside.
pub fn icon_end(catalogue: &[u8], at: usize) -> usize
    requires { icon_end catalogue.now at ≤ length catalogue.now }
    ensures { result ≡ icon_end catalogue.now at }
{
    let count = at + 1 + byte(catalogue, at) as usize;
    count + 2 + 8 * u16_at(catalogue, count) as usize
}

// Refuses the first of `m` icons from `at` on whose name was used before. The index has room for
// them.
fn repeated(catalogue: &[u8], m: usize, at: usize, index: &mut [u32]) -> Result<(), Fault>
    requires { Listed catalogue.now m at × (m ≤ length index.old) }
    ensures { result ≡ verdict (repeat_from [] catalogue.now m at) }
{
    let mut here = at;
    for i in 0..m {
        if names::met(catalogue, Kind::Counted, index, i, here as u32) {
            return Err(Fault {
                number: 20,
                place: here + 1,
            });
        }
        here = icon_end(catalogue, here);
    }
    Ok(())
}

// Any bytes as a catalogue: 18 of its fields, then 20 of its names. The index of the names, 256 KiB,
// stands on the stack.
pub fn judge(catalogue: &[u8]) -> Result<Parts, Fault>
    ensures { result ≡ parted catalogue.now (catalogue_fault catalogue.now) (path_count catalogue.now) (icon_count_at catalogue.now) }
{
    let parts = fields(catalogue)?;
    let mut index: [u32; 65536] = [0; 65536];
    repeated(catalogue, parts.icons, parts.first_icon, &mut index)?;
    Ok(parts)
}
