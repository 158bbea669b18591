// The records of a squeezed cache, each appended to the chain of its bucket, and the names as
// strings. The icons come bucket by bucket, so that only the bucket of the last one is remembered.
#![tactic(auto)]

ghost use Rattle.std.specs.Prelude.{◌≡◌, List, ℕ, ◌+◌, ◌*◌, ◌^◌, ◌≤◌, ◌<◌, length};
ghost use Rattle.format.specs.Header.{buckets, directories};
ghost use Rattle.squeeze_paths.specs.Pathed.{strings_up_to};
ghost use Rattle.format.specs.Words.{Accepted};
ghost use Rattle.format.specs.declared.Reading.TheVariants.{Short};
ghost use Rattle.catalogue.specs.Written.{records_begin};
ghost use Rattle.squeeze_texts.specs.Named.{PathsKnown};
ghost use Rattle.tables.specs.Tables.{Sound};
ghost use Rattle.squeeze_names.specs.Repeated.{RepeatsMarked};
ghost use Rattle.squeeze_icons.specs.Staying.{IconAt};
ghost use Rattle.squeeze_records.specs.Recorded.{leads, strings, table, recorded, Ready, Recorded, Recording};
ghost use Rattle.squeeze_records.specs.Recorded.{icons as icons_in};

use bigendian::u32_at;
use copying::copy;
use passes::record;
use squeeze_icons::{first, next};
use squeeze_paths::Texts;
use squeeze_texts::store;
use tables::Tables;

// Which icon is put: its number and its bucket, that of the icon before it, where the records
// begin, and where the table is that says where the lists are.
#[derive(Clone, Copy)]
struct Place {
    icon: usize,
    bucket: u32,
    last: u32,
    first: usize,
    table: usize,
}

// The field that leads to the record at `at` of `bucket`, where the record before it is of the
// bucket `last`.
fn lead(last: u32, bucket: u32, at: usize) -> usize
    requires { (12 ≤ at) × (bucket < 2 ^ 32) }
    ensures { result ≡ leads last bucket at }
{
    if last == bucket {
        at - 12
    } else {
        16 + 4 * bucket as usize
    }
}

// Puts the name of the icon `i` into `out` at `end`, unless it is a path, and its record, which
// stands in `cache` at `record`: where the next name goes. The records begin at `first`, and the
// table says where the lists are.
fn icon(
    cache: &[u8],
    index: &[u32],
    places: &[u32],
    entries: usize,
    out: &mut [u8],
    at: Place,
    record: usize,
    end: usize,
) -> usize
    requires accepted { Accepted Short cache.now × IconAt cache.now at.icon at.bucket «record» × (entries ≤ length index.now) × (entries ≤ length places.now) × PathsKnown cache.now index.now places.now entries (strings cache.now) }
    requires first_value { (at.first ≡ records_begin (buckets cache.now)) × (at.table ≡ table cache.now) × Recording cache.now out.old at.icon end at.last }
    ensures { (lent : List ℕ) → Ready cache.now lent → Recorded cache.now lent out.old at.icon end at.last → Recorded cache.now lent out.new (at.icon + 1) result at.bucket }
{
    let list = u32_at(out, at.table + 4 * at.icon);
    let name = u32_at(cache, record + 4);
    let stored = store(cache, index, places, entries, name, end);
    copy(cache, name as usize, stored.end - end, out, end);
    let r = at.first + 12 * at.icon;
    let field = lead(at.last, at.bucket, r);
    record::append(out, r, stored.place, list as usize, field);
    stored.end
}

// Puts the records of all `icons` and their names into `out`, where all else stands and the table.
// `repeated` marks the records that go.
pub fn records(
    cache: &[u8],
    t: Tables,
    index: &[u32],
    places: &[u32],
    repeated: &[u32],
    out: &mut [u8],
    texts: Texts,
    icons: usize,
)
    requires sound { Sound cache.now t × RepeatsMarked cache.now repeated.now × (texts.entries ≤ length index.now) × (texts.entries ≤ length places.now) }
    requires paths_known { PathsKnown cache.now index.now places.now texts.entries (strings cache.now) × (texts.end ≡ strings cache.now + length (strings_up_to cache.now (directories cache.now))) }
    requires icons_value { (icons ≡ icons_in cache.now) × Ready cache.now out.old }
    ensures { out.new ≡ recorded cache.now out.old icons }
{
    let begin = 16 + 4 * t.buckets as usize;
    let table = begin + 8 * icons;
    let mut item = first(cache, t, repeated);
    let mut end = texts.end;
    let mut last = 0xFFFF_FFFF;
    // Behind the last one there is the end value.
    while item.at.record != 0xFFFF_FFFF {
        let record = item.at.record as usize;
        let bucket = item.at.bucket;
        let at = Place {
            icon: item.icon,
            bucket,
            last,
            first: begin,
            table,
        };
        end = icon(cache, index, places, texts.entries, out, at, record, end);
        last = bucket;
        item = next(cache, t, repeated, item);
    }
}
