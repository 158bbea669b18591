// A bucket's chain: what its fields lead to, and the walk along it.
#![tactic(auto)]

ghost use Rattle.std.specs.Prelude.{◌≡◌, ℕ, ◌+◌, ◌-◌, ◌^◌, ◌≤◌, ◌<◌, length};
ghost use Rattle.format.specs.Header.{buckets};
ghost use Rattle.format.specs.Chain.{chain_of};
ghost use Rattle.format.specs.Words.{KeepsBelow};
ghost use Rattle.format.specs.Chain as definition;
ghost use Rattle.format.specs.Call as calls;
ghost use Rattle.format.specs.declared.Reading.TheVariants.{Short};
ghost use Rattle.tables.specs.Tables.{TablesOf};
ghost use Rattle.rounds.specs.Stepping.{InsideBelow};
ghost use Rattle.rounds.specs.Stepping as rounds;
ghost use Rattle.chains.specs.Walk.{walked, stepped_to, Stands, Further, Judged};

use bigendian::u32_at;
use format::{Found, Next};
use records::judge;
use rounds::{ahead, turning};
use tables::{Tables, bucket_field};

// How many records of a chain were opened, and what comes after those that keep the rules.
#[derive(Clone, Copy)]
pub struct Walked {
    pub opened: usize,
    pub after: Next,
}

// What the field at `field` leads to on the chain of `bucket`.
pub fn follow(cache: &[u8], t: Tables, bucket: u32, field: usize) -> Next
    requires tables_of { TablesOf cache.now t }
    requires field_in_bounds { field + 4 ≤ length cache.now }
    ensures { result ≡ definition.follow Short cache.now bucket field }
{
    let named = u32_at(cache, field);
    if named == 0xFFFF_FFFF {
        return Next::End;
    }
    let record = named as usize;
    if cache.len() < record + 12 {
        return Next::Broken(7, field);
    }
    match judge(cache, t, bucket, record, false) {
        Ok(()) => Next::Record(record),
        Err(fault) => Next::Broken(fault.number, fault.place),
    }
}

// How many records are opened to see what comes next: the one that is named, if it lies inside.
pub fn opens(next: Next) -> usize
    ensures { result ≡ definition.opens next }
{
    match next {
        Next::End => 0,
        Next::Broken(number, _) => { if number == 7 { 0 } else { 1 } }
        Next::Record(_) => 1,
    }
}

// The walk along the chain of `bucket` from `field` on, where it stands after `opened` records,
// past at most `most` in all: `opened` is stepped for each record, and stops an endless chain. Called,
// not inlined, it costs the check of a small cache a third more instructions.
#[inline(always)]
fn pass(
    cache: &[u8],
    t: Tables,
    bucket: u32,
    mut field: usize,
    mut opened: usize,
    most: usize,
) -> Walked
    requires tables_of { TablesOf cache.now t }
    requires stands { Stands cache.now bucket field opened }
    requires opened_le_most { (opened ≤ most) × (most < length cache.now) }
    ensures { result ≡ walked (chain_of Short cache.now bucket most) }
{
    loop {
        let after = follow(cache, t, bucket, field);
        opened += opens(after);
        let Next::Record(record) = after else {
            return Walked { opened, after };
        };
        if most < opened {
            return Walked { opened, after };
        }
        field = record;
    }
}

// The walk along the chain of `bucket`, past at most `most` records, each judged as often as it is
// met: so callers pass no more than `at_first` records by it, and then call `go_on`. The two are
// apart so that the judging is inlined into the loop of each.
pub fn walk(cache: &[u8], t: Tables, bucket: u32, most: usize) -> Walked
    requires tables_of { TablesOf cache.now t }
    requires bucket_bound { (bucket < buckets cache.now) × (most < length cache.now) }
    ensures { result ≡ walked (chain_of Short cache.now bucket most) }
{
    let field = bucket_field(t, bucket);
    pass(cache, t, bucket, field, 0, most)
}

// So many records are passed before it is looked ahead whether a chain comes back.
const SHORT: usize = 255;

// So many, or `most` where that is less.
pub fn at_first(most: usize) -> usize
    ensures { result ≤ most }
{
    most.min(SHORT)
}

// So many times as far as it has come a walk looks ahead. A look that sees no end of a chain costs
// no more than so many steps for each record that was opened.
const SIGHT: usize = 16;

// How far a walk looks ahead after `opened` records, and no further than `most`.
pub fn horizon(opened: usize, most: usize) -> usize
    requires { (opened ≤ most) × (most < 2 ^ 32) }
    ensures { Further opened most result }
{
    let far = opened + SIGHT * opened;
    far.min(most)
}

// The rest of a walk that has come back to a record, and so has judged all that it will meet, or
// that may open no more: from `field` on the records are stepped, and opened one by one.
pub fn go_round(cache: &[u8], mut field: usize, mut opened: usize, most: usize) -> Walked
    requires opened_bound { (opened ≤ most + 1) × (most < length cache.now) × (length cache.now ≤ 2 ^ 24) }
    requires inside_below { InsideBelow cache.now field (most + 1 - opened) }
    ensures { result ≡ stepped_to (most + 1) (rounds.ahead cache.now field (most + 1 - opened)) }
{
    while opened <= most {
        field = u32_at(cache, field) as usize;
        opened += 1;
    }
    let after = Next::Record(field);
    Walked { opened, after }
}

// The whole of a walk past at most `most` records that is judged as far as it must be.
pub fn finish(cache: &[u8], chain: Walked, most: usize) -> Walked
    requires most_in_bounds { (most < length cache.now) × (length cache.now ≤ 2 ^ 24) }
    requires by_index { (k : ℕ) × Judged cache.now k most chain }
    ensures { (k : ℕ) → Judged cache.now k most chain → result ≡ walked (chain_of Short cache.now k most) }
{
    let after = chain.after;
    let Next::Record(record) = after else {
        return chain;
    };
    go_round(cache, record, chain.opened, most)
}

// The walk along a chain that goes on after `passed` records, past at most `most` in all: it is
// looked ahead whether the chain comes back, and its records are judged up to there, or as far as
// was looked.
pub fn go_on(cache: &[u8], t: Tables, bucket: u32, passed: usize, most: usize) -> Walked
    requires tables_of { TablesOf cache.now t }
    requires bucket_bound { (bucket < buckets cache.now) × (passed ≤ most) × (most < length cache.now) }
    requires keeps_below { KeepsBelow Short cache.now bucket (passed + 1) }
    ensures { Judged cache.now bucket most result }
{
    let first = bucket_field(t, bucket);
    let mut opened = passed + 1;
    let mut field = ahead(cache, first, opened);
    let mut stop = passed;
    let mut far = passed;
    loop {
        // Judged up to `stop`: no record is to come that was not met, or none may be opened.
        if stop == most || stop < far {
            let after = Next::Record(field);
            return Walked { opened, after };
        }
        far = horizon(opened, most);
        stop = turning(cache, first, opened, field, far);
        let chain = pass(cache, t, bucket, field, opened, stop);
        opened = chain.opened;
        let after = chain.after;
        let Next::Record(record) = after else {
            return chain;
        };
        field = record;
    }
}

// The answer where none of the records before `next` bears the name; `field` is the bucket's.
pub fn unnamed(field: usize, next: Next, opened: usize) -> Found
    ensures { result ≡ calls.unnamed field next opened }
{
    match next {
        Next::End => Found {
            number: 30,
            place: 0,
            opened,
        },
        Next::Broken(number, place) => Found {
            number,
            place,
            opened,
        },
        Next::Record(_) => Found {
            number: 12,
            place: field,
            opened,
        },
    }
}
