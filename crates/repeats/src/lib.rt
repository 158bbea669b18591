// The first name on a chain that a record before it has too. The records lie inside, and nothing is
// judged.
#![tactic(auto)]

ghost use Rattle.std.specs.Prelude.{◌≡◌, List, ℕ, ◌≤◌, ◌<◌, length};
ghost use Rattle.format.specs.Layout.{name_field};
ghost use Rattle.format.specs.Number.{be};
ghost use Rattle.keys.specs.Key.{key_at};
ghost use Rattle.names.specs.Index.{Represents};
ghost use Rattle.names.specs.Repeat.{FirstRepeat, Taken, Looked};
ghost use Rattle.keys.specs.declared.Kind.TheVariants.{Ended};
ghost use Rattle.repeats.specs.Along.{LeadsInside, InsideAlong, name_along};

use bigendian::u32_at;
use keys::Kind;
use names::{holds, met};
use rounds::ahead;

// A record and its NAME_OFFSET.
#[derive(Clone, Copy)]
struct Icon {
    offset: usize,
    name: u32,
}

// The record that `field` leads to.
fn read_record(cache: &[u8], field: usize) -> Icon
    requires { LeadsInside cache.now field }
    ensures { (result.offset ≡ be 4 cache.now field) × (result.name ≡ be 4 cache.now (name_field result.offset)) }
{
    let offset = u32_at(cache, field) as usize;
    Icon {
        offset,
        name: u32_at(cache, offset + 4),
    }
}

// Takes the names of the `n` records from `field` on into the index, up to the first repeat: how
// many are before it.
fn take_in(cache: &[u8], field: usize, n: usize, index: &mut [u32]) -> usize
    requires { InsideAlong cache.now field n × (n ≤ length index.old) }
    ensures { Taken (key_at Ended cache.now) (name_along cache.now field) index.new n result }
{
    let mut at = field;
    for i in 0..n {
        let next = read_record(cache, at);
        if met(cache, Kind::Ended, index, i, next.name) {
            return i;
        }
        at = next.offset;
    }
    n
}

// How many of the `n` records from `field` on come before the first whose name one of the first
// `entries` of the index has. Apart from `take_in`: that changes the index, this only reads it.
fn look_for(cache: &[u8], field: usize, n: usize, index: &[u32], entries: usize) -> usize
    requires { InsideAlong cache.now field n × (entries ≤ length index.now) }
    ensures { (before : List (List ℕ)) → Represents (key_at Ended cache.now) index.now entries before → Looked (name_along cache.now field) before n result }
{
    let mut at = field;
    for i in 0..n {
        let next = read_record(cache, at);
        if holds(cache, Kind::Ended, index, entries, next.name) {
            return i;
        }
        at = next.offset;
    }
    n
}

// How many of the `n` records from `field` on come before the first that repeats a name; `n` where
// none does. Where there are more than the index has room for, it goes block by block: a block's
// names are taken in, and then looked for in all that follow.
pub fn first(cache: &[u8], field: usize, n: usize, index: &mut [u32]) -> usize
    requires { InsideAlong cache.now field n × (0 < length index.old) }
    ensures { FirstRepeat (name_along cache.now field) n result }
{
    let mut at = field;
    let mut done = 0;
    let mut left = n;
    while 0 < left {
        let size = left.min(index.len());
        let taken = take_in(cache, at, size, index);
        if taken < size {
            return done + taken;
        }
        at = ahead(cache, at, size);
        left = look_for(cache, at, left - size, index, size);
        done += size;
    }
    done
}
