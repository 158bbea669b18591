// The directory list of a squeezed cache, and its paths: each string once, at its first use.
#![tactic(auto)]

ghost use Rattle.std.specs.Prelude.{◌≡◌, List, ℕ, ◌+◌, ◌*◌, ◌^◌, ◌≤◌, ◌<◌, length};
ghost use Rattle.format.specs.Header.{directories};
ghost use Rattle.tables.specs.Tables.{Sound};
ghost use Rattle.squeeze_paths.specs.Pathed.{Pathed};

use filling::{long, text};
use keys::Kind;
use names::find;
use squeeze_index::add;
use tables::Tables;

// How many paths are stored, as entries of the index, and where the next string goes.
#[derive(Clone, Copy)]
pub struct Texts {
    pub entries: usize,
    pub end: usize,
}

// Puts where the path of directory `i` is stored into `out` at `field`, and stores it first if it
// is new. The paths stored are in the index, and where they are beside it.
fn path(
    cache: &[u8],
    t: Tables,
    i: u32,
    index: &mut [u32],
    places: &mut [u32],
    out: &mut [u8],
    field: usize,
    texts: Texts,
) -> Texts
    requires sound { Sound cache.now t × (i < directories cache.now) × (texts.entries ≤ i) × (65536 ≤ length index.old) × (65536 ≤ length places.old) }
    requires field_bound { (field < 2 ^ 62) × (texts.end < 2 ^ 31) }
    ensures { (lent : List ℕ) (table at : ℕ) → Pathed cache.now lent out.old index.old places.old table at i texts → field ≡ table + 4 + 4 * i → Pathed cache.now lent out.new index.new places.new table at (i + 1) result }
{
    // The path of an accepted cache breaks no rule.
    let path = tables::path(cache, t, i).unwrap();
    let start = path.start as u32;
    let n = texts.entries;
    match find(cache, Kind::Ended, index, n, start) {
        Ok(e) => {
            long(out, field, places[e]);
            texts
        }
        Err(e) => {
            let end = texts.end;
            add(index, places, n, e, start, end as u32);
            long(out, field, end as u32);
            Texts {
                entries: n + 1,
                end: text(cache, path.start, path.length + 1, out, end),
            }
        }
    }
}

// Puts the directory list into `out` at `table`, and the paths at `at`, as far as there is room.
// `index` and `places` may hold anything before; afterwards they say where each path is stored.
pub fn paths(
    cache: &[u8],
    t: Tables,
    index: &mut [u32],
    places: &mut [u32],
    out: &mut [u8],
    table: usize,
    at: usize,
) -> Texts
    requires { Sound cache.now t × (65536 ≤ length index.old) × (65536 ≤ length places.old) × (table < 2 ^ 61) × (at < 2 ^ 30) }
    ensures { Pathed cache.now out.old out.new index.new places.new table at (directories cache.now) result }
{
    let n = t.directories;
    let mut texts = Texts {
        entries: 0,
        end: at,
    };
    let first = long(out, table, n);
    for i in 0..n {
        let field = first + 4 * i as usize;
        texts = path(cache, t, i, index, places, out, field, texts);
    }
    texts
}
