// Which records of an accepted cache have a name of one before them, as marks: one for each record
// in the check's order. Equal names lie on one chain, so each chain is looked through by itself.
#![tactic(auto)]

ghost use Rattle.std.specs.Prelude.{◌≡◌, List, ◌∷◌, false, ℕ, ◌+◌, ◌^◌, ◌≤◌, ◌<◌, length};
ghost use Rattle.format.specs.String.{among};
ghost use Rattle.keys.specs.Key.{key_at};
ghost use Rattle.keys.specs.declared.Kind.TheVariants.{Ended};
ghost use Rattle.names.specs.Index.{Represents};
ghost use Rattle.marks.specs.Marks.{marked};
ghost use Rattle.repeats.specs.Along.{InsideAlong, name_along};
ghost use Rattle.tables.specs.Tables.{Sound};
ghost use Rattle.squeeze_names.specs.Repeated.{Noted, Adds, TakenIn, among_before, RepeatsMarked};

use bigendian::u32_at;
use gathering::repeated::count;
use keys::Kind;
use marks::mark;
use names::{holds, met};
use tables::{Tables, bucket_field};

// Takes a name into the index of `entries`, unless it is there; then its record, which has the
// number `number`, is marked. How many entries there are.
fn take(
    cache: &[u8],
    name: u32,
    number: usize,
    index: &mut [u32],
    entries: usize,
    marks: &mut [u32],
) -> usize
    requires { (entries < length index.old) × (entries < 2 ^ 62) }
    ensures few { (entries ≤ result) × (result ≤ entries + 1) }
    ensures taken { (before : List (List ℕ)) → Represents (key_at Ended cache.now) index.old entries before → Noted (among (key_at Ended cache.now name) before) marks.old marks.new number × Represents (key_at Ended cache.now) index.new result (key_at Ended cache.now name ∷ before) }
{
    if met(cache, Kind::Ended, index, entries, name) {
        mark(marks, number);
        return entries;
    }
    entries + 1
}

// Marks a record whose name is in the index.
fn look(cache: &[u8], name: u32, number: usize, index: &[u32], entries: usize, marks: &mut [u32])
    requires { entries ≤ length index.now }
    ensures { (before : List (List ℕ)) → Represents (key_at Ended cache.now) index.now entries before → Noted (among (key_at Ended cache.now name) before) marks.old marks.new number }
{
    if holds(cache, Kind::Ended, index, entries, name) {
        mark(marks, number);
    }
}

// A block of names that are taken into an index: how many, as how many entries, and the field
// behind them.
#[derive(Clone, Copy)]
struct Block {
    names: usize,
    entries: usize,
    field: usize,
}

// Takes the names of the `n` records from `field` on into the index, as many as make `room` entries
// there, and marks those that come again. The first record has the number `number`.
fn take_in(
    cache: &[u8],
    field: usize,
    n: usize,
    number: usize,
    index: &mut [u32],
    room: usize,
    marks: &mut [u32],
) -> Block
    requires { InsideAlong cache.now field n × (0 < room) × (room ≤ length index.old) × (number + n < 2 ^ 62) }
    ensures { TakenIn cache.now field number index.new marks.old marks.new result × (result.entries ≤ room) × (result.names ≤ n) × (0 < n → 0 < result.names) }
{
    let mut at = field;
    let mut entries = 0;
    for i in 0..n {
        if entries == room {
            return Block {
                names: i,
                entries,
                field: at,
            };
        }
        let record = u32_at(cache, at) as usize;
        let name = u32_at(cache, record + 4);
        entries = take(cache, name, number + i, index, entries, marks);
        at = record;
    }
    Block {
        names: n,
        entries,
        field: at,
    }
}

// Marks those of the `n` records from `field` on whose name one of the first `entries` of the index
// has. Apart from `take_in`: that changes the index, this only reads it.
fn look_for(
    cache: &[u8],
    field: usize,
    n: usize,
    number: usize,
    index: &[u32],
    entries: usize,
    marks: &mut [u32],
)
    requires { InsideAlong cache.now field n × (entries ≤ length index.now) × (number + n < 2 ^ 62) }
    ensures { (before : List (List ℕ)) → Represents (key_at Ended cache.now) index.now entries before → Adds marks.old marks.new number n (λ i. among (name_along cache.now field i) before) }
{
    let mut at = field;
    for i in 0..n {
        let record = u32_at(cache, at) as usize;
        let name = u32_at(cache, record + 4);
        look(cache, name, number + i, index, entries, marks);
        at = record;
    }
}

// Marks those of the `n` records from `field` on that have a name of one before them. Where there
// are more names than `room` it goes block by block: a block's names are taken in, and then looked
// for in all that follow.
fn chain(
    cache: &[u8],
    field: usize,
    n: usize,
    number: usize,
    index: &mut [u32],
    room: usize,
    marks: &mut [u32],
)
    requires { InsideAlong cache.now field n × (0 < room) × (room ≤ length index.old) × (number + n < 2 ^ 62) }
    ensures { Adds marks.old marks.new number n (among_before (name_along cache.now field)) }
{
    let mut at = field;
    let mut done = 0;
    while done < n {
        let block = take_in(cache, at, n - done, number + done, index, room, marks);
        at = block.field;
        done += block.names;
        look_for(
            cache,
            at,
            n - done,
            number + done,
            index,
            block.entries,
            marks,
        );
    }
}

// Marks all that have a name of one before them, as far as there are words for them. `index` may
// hold anything.
pub fn mark_repeated(cache: &[u8], t: Tables, index: &mut [u32], marks: &mut [u32])
    requires { Sound cache.now t × (16384 ≤ length index.old) }
    ensures { ((i : ℕ) → marked marks.old i ≡ false) → RepeatsMarked cache.now marks.new }
{
    let mut number = 0;
    for bucket in 0..t.buckets {
        let n = count(cache, t, bucket);
        chain(
            cache,
            bucket_field(t, bucket),
            n,
            number,
            index,
            16384,
            marks,
        );
        number += n;
    }
}
