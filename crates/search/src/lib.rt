// The search for a name on the chain of its bucket.
#![tactic(auto)]

ghost use Rattle.std.specs.Prelude.{◌≡◌, true, false, ◌+◌, ◌-◌, ◌≤◌, ◌<◌, length};
ghost use Rattle.format.specs.String.{allowed};
ghost use Rattle.format.specs.Header.{buckets};
ghost use Rattle.format.specs.Record.{bucket_of};
ghost use Rattle.format.specs.Words.{NoneBelow};
ghost use Rattle.format.specs.Call.{search_bucket};
ghost use Rattle.tables.specs.Tables.{TablesOf};
ghost use Rattle.chains.specs.Walk.{Stands};
ghost use Rattle.search.specs.Seek.{seen, Seeks, SeeksTo};

use bigendian::u32_at;
use chains::{at_first, go_round, horizon, opens, unnamed};
use format::{Found, Next};
use records::{bears, judge};
use rounds::turning;
use tables::{Tables, bucket_field};

// What a field leads to, and whether that is a record that bears the name looked for.
#[derive(Clone, Copy)]
struct Seen {
    next: Next,
    bears: bool,
}

// How many records of a chain were opened, what comes next, and whether that is a record that bears
// the name looked for.
#[derive(Clone, Copy)]
struct Sought {
    opened: usize,
    next: Next,
    bears: bool,
}

// No record that bears it.
fn nameless(next: Next) -> Seen
    ensures { result ≡ seen next false }
{
    Seen { next, bears: false }
}

// What the field at `field` leads to on the chain of `bucket`, as `chains::follow` has it, with a
// name of this bucket to look for. The record's name is compared with it first: one that is equal
// keeps rules 8, 17 and 9, and isn't read again.
fn seek(cache: &[u8], t: Tables, bucket: u32, field: usize, name: &[u8]) -> Seen
    requires tables_of { TablesOf cache.now t }
    requires field_in_bounds { field + 4 ≤ length cache.now }
    requires name_value { (allowed name.now ≡ true) × (bucket_of cache.now name.now ≡ bucket) }
    ensures { Seeks cache.now name.now bucket field result }
{
    let value = u32_at(cache, field);
    if value == 0xFFFF_FFFF {
        return nameless(Next::End);
    }
    let record = value as usize;
    if cache.len() < record + 12 {
        return nameless(Next::Broken(7, field));
    }
    let bears = bears(cache, record, name);
    match judge(cache, t, bucket, record, bears) {
        Ok(()) => Seen {
            next: Next::Record(record),
            bears,
        },
        Err(fault) => nameless(Next::Broken(fault.number, fault.place)),
    }
}

// The search for `name`, a name of `bucket`, from `field` on, where it stands after `opened`
// records without it, past at most `stop` in all.
fn stretch(
    cache: &[u8],
    t: Tables,
    bucket: u32,
    name: &[u8],
    mut field: usize,
    mut opened: usize,
    stop: usize,
) -> Sought
    requires tables_of { TablesOf cache.now t }
    requires name_value { (allowed name.now ≡ true) × (bucket_of cache.now name.now ≡ bucket) }
    requires stands { Stands cache.now bucket field opened × NoneBelow cache.now name.now bucket opened }
    requires opened_le_stop { (opened ≤ stop) × (stop < length cache.now) }
    ensures { SeeksTo cache.now name.now bucket stop result }
{
    loop {
        let seen = seek(cache, t, bucket, field, name);
        let next = seen.next;
        opened += opens(next);
        let Next::Record(record) = next else {
            return Sought {
                opened,
                next,
                bears: false,
            };
        };
        if seen.bears {
            return Sought {
                opened,
                next,
                bears: true,
            };
        }
        if stop < opened {
            return Sought {
                opened,
                next,
                bears: false,
            };
        }
        field = record;
    }
}

// The first record that bears `name`, a name of `bucket`, on its chain.
pub fn search(cache: &[u8], t: Tables, bucket: u32, name: &[u8]) -> Found
    requires tables_of { TablesOf cache.now t }
    requires bucket_bound { bucket < buckets cache.now }
    requires name_value { (allowed name.now ≡ true) × (bucket_of cache.now name.now ≡ bucket) }
    ensures { result ≡ search_bucket cache.now name.now bucket }
{
    let most = cache.len() - 11;
    let first = bucket_field(t, bucket);
    let mut field = first;
    let mut opened = 0;
    let mut stop = at_first(most);
    let mut far = stop;
    loop {
        let sought = stretch(cache, t, bucket, name, field, opened, stop);
        let next = sought.next;
        opened = sought.opened;
        let Next::Record(record) = next else {
            return unnamed(first, next, opened);
        };
        if sought.bears {
            return Found {
                number: 0,
                place: record,
                opened,
            };
        }
        // No record is to come that was not met, or none may be opened.
        if stop == most || stop < far {
            let rest = go_round(cache, record, opened, most);
            let last = rest.after;
            return unnamed(first, last, rest.opened);
        }
        far = horizon(opened, most);
        stop = turning(cache, first, opened, record, far);
        field = record;
    }
}
