// The directories of a damaged cache: those with a good path are kept and close up, the others have
// a row; and so what becomes of an image.
#![tactic(auto)]

ghost use Rattle.std.specs.Prelude.{◌≡◌, ◌++◌, ◌+◌, ◌^◌, ◌≤◌, ◌<◌, length, take, drop};
ghost use Rattle.format.specs.Bytes.{bytes};
ghost use Rattle.format.specs.Header.{directories};
ghost use Rattle.tables.specs.Tables.{TablesOf};
ghost use Rattle.records.specs.ValidWords.{valid_words};
ghost use Rattle.filling.specs.Puts.{Puts};
ghost use Rattle.salvage_paths.specs.Closed.{ClosedTo, Closes, PathsPut, KeepsImage};

use bigendian::u16_at;
use filling::{row, short, text};
use records::{ValidWords, valid_image};
use tables::{Tables, path};

// How many directories are kept, and where the next bytes and words go.
#[derive(Clone, Copy)]
pub struct Closed {
    pub kept: u16,
    pub bytes: usize,
    pub words: usize,
}

// Puts a path of `size` bytes, which stands at `start`: its length and its text.
fn put_path(cache: &[u8], start: usize, size: usize, out: &mut [u8], at: usize) -> usize
    requires { (start + size ≤ length cache.now) × (size < 65536) × (at < 2 ^ 61) }
    ensures { Puts out.old out.new at (bytes 2 size ++ take size (drop start cache.now)) result }
{
    let next = short(out, at, size as u16);
    text(cache, start, size, out, next)
}

// Puts the new index of each directory into `closed`, 0xFFFF where it went, the paths that are kept
// into `out` at `at`, and the rows of the others into `report`.
pub fn close_up(
    cache: &[u8],
    t: Tables,
    closed: &mut [u16],
    out: &mut [u8],
    at: usize,
    report: &mut [u32],
) -> Closed
    requires { TablesOf cache.now t × (directories cache.now ≤ length closed.old) × (at < 2 ^ 32) }
    ensures table { ClosedTo cache.now closed.new (directories cache.now) result.kept }
    ensures put { PathsPut cache.now out.old out.new at report.old report.new (directories cache.now) result.bytes result.words }
{
    let mut kept: u16 = 0;
    let mut bytes = at;
    let mut words = 0;
    for i in 0..t.directories {
        let place = i as usize;
        match path(cache, t, i) {
            Ok(part) => {
                closed[place] = kept;
                kept += 1;
                bytes = put_path(cache, part.start, part.length, out, bytes);
            }
            Err(fault) => {
                closed[place] = 0xFFFF;
                words = row(report, words, fault.number, fault.place);
            }
        }
    }
    Closed { kept, bytes, words }
}

// The index that the image at `at` has if it stays, where `valid` are the valid first words and
// `closed` has the new indexes. None: it breaks rule 11, or its directory went.
pub fn keep_image(
    cache: &[u8],
    t: Tables,
    valid: ValidWords,
    closed: &[u16],
    at: usize,
) -> Option<u16>
    requires tables_of { TablesOf cache.now t × (valid ≡ valid_words (directories cache.now)) × (at + 8 ≤ length cache.now) }
    requires closes { Closes cache.now closed.now }
    ensures { KeepsImage cache.now at result }
{
    if !valid_image(cache, valid, at) {
        return None;
    }
    let index = u16_at(cache, at);
    if t.directories == 0 {
        return Some(index);
    }
    let place = index as usize;
    let new = closed[place];
    if new == 0xFFFF { None } else { Some(new) }
}
