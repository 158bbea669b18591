// The names of a squeezed cache as strings: a name that is a path uses the path's, and any other
// has its own behind the paths.
#![tactic(auto)]

ghost use Rattle.std.specs.Prelude.{◌≡◌, ℕ, ◌+◌, ◌^◌, ◌≤◌, ◌<◌, length, drop, true};
ghost use Rattle.format.specs.String.{extent, is_whole};
ghost use Rattle.format.specs.Words.{Accepted};
ghost use Rattle.format.specs.declared.Reading.TheVariants.{Short};
ghost use Rattle.tables.specs.Tables.{Sound};
ghost use Rattle.squeeze_names.specs.Repeated.{RepeatsMarked};
ghost use Rattle.squeeze_texts.specs.Named.{NameAt, PathsKnown, Stores, Measures};

use bigendian::u32_at;
use keys::Kind;
use names::find;
use squeeze_icons::{first, next};
use squeeze_paths::Texts;
use strings::name_length;
use tables::Tables;

// Where a name is stored, and where the next string goes.
#[derive(Clone, Copy)]
pub struct Stored {
    pub place: usize,
    pub end: usize,
}

// Where the name at `name` is stored: as a path, or at `end`.
pub fn store(
    cache: &[u8],
    index: &[u32],
    places: &[u32],
    entries: usize,
    name: u32,
    end: usize,
) -> Stored
    requires { Accepted Short cache.now × (is_whole (extent 255 (drop name cache.now)) ≡ true) × (entries ≤ length index.now) × (entries ≤ length places.now) × (end < 2 ^ 62) }
    ensures few { result.end ≤ end + 256 }
    ensures stored { (at i : ℕ) → PathsKnown cache.now index.now places.now entries at → NameAt cache.now i name → Stores cache.now at i end result }
{
    match find(cache, Kind::Ended, index, entries, name) {
        Ok(e) => Stored {
            place: places[e] as usize,
            end,
        },
        Err(_) => Stored {
            place: end,
            end: end + (name_length(cache, name as usize) + 1),
        },
    }
}

// How many icons stay, and where the strings end.
#[derive(Clone, Copy)]
pub struct Sizes {
    pub icons: usize,
    pub end: usize,
}

// Measures the icons that stay and their names, behind the paths. `repeated` marks the
// records that go.
pub fn measure(
    cache: &[u8],
    t: Tables,
    index: &[u32],
    places: &[u32],
    repeated: &[u32],
    texts: Texts,
) -> Sizes
    requires sound { Sound cache.now t × RepeatsMarked cache.now repeated.now }
    requires entries_in_bounds { (texts.entries ≤ length index.now) × (texts.entries ≤ length places.now) × (texts.end < 2 ^ 32) }
    ensures { Measures cache.now index.now places.now texts result }
{
    let mut icon = first(cache, t, repeated);
    let mut end = texts.end;
    // Behind the last one there is the end value.
    while icon.at.record != 0xFFFF_FFFF {
        let record = icon.at.record as usize;
        let name = u32_at(cache, record + 4);
        let stored = store(cache, index, places, texts.entries, name, end);
        end = stored.end;
        icon = next(cache, t, repeated, icon);
    }
    Sizes {
        icons: icon.icon,
        end,
    }
}
