// Checks all chains of a cache that keeps the rules 1 to 6, 16 and 17, bucket by bucket, and counts
// the records and the longest chain.
#![tactic(auto)]

ghost use Rattle.std.specs.Prelude.{◌≡◌, ◌+◌, ◌≤◌, ◌<◌, length};
ghost use Rattle.format.specs.Header.{buckets, bucket_field};
ghost use Rattle.format.specs.Chain.{chain_of};
ghost use Rattle.format.specs.Words.{KeepsBelow};
ghost use Rattle.format.specs.Answer as answers;
ghost use Rattle.format.specs.Call.{check_buckets};
ghost use Rattle.format.specs.declared.Reading.TheVariants.{Short};
ghost use Rattle.tables.specs.Tables.{TablesOf};
ghost use Rattle.checking.specs.Buckets.{unnamed_on};

use format::{CheckAnswer, Found, Next};
use tables::Tables;

// The check's answer where the rule `number` is broken at `place`, after `opened` records.
pub fn refused(number: u32, place: usize, opened: usize) -> CheckAnswer
    ensures { result ≡ answers.refused number place opened }
{
    CheckAnswer {
        number,
        place,
        directories: 0,
        icons: 0,
        opened,
        longest: 0,
    }
}

// The answer of a search that finds nothing: `number` at `place`, after `opened` records.
pub fn unfound(number: u32, place: usize, opened: usize) -> Found
    ensures { result ≡ answers.unfound number place opened }
{
    Found {
        number,
        place,
        opened,
    }
}

// What is wrong with a chain that goes on after `passed` records, past at most `most` in all: said
// as by a search that finds nothing, so 30 where it ends.
fn check_long(cache: &[u8], t: Tables, bucket: u32, passed: usize, most: usize) -> Found
    requires tables_of { TablesOf cache.now t }
    requires bucket_bound { (bucket < buckets cache.now) × (passed ≤ most) × (most < length cache.now) }
    requires keeps_below { KeepsBelow Short cache.now bucket (passed + 1) }
    ensures { result ≡ unnamed_on (bucket_field cache.now bucket) (chain_of Short cache.now bucket most) }
{
    let judged = chains::go_on(cache, t, bucket, passed, most);
    let chain = chains::finish(cache, judged, most);
    let after = chain.after;
    let field = tables::bucket_field(t, bucket);
    chains::unnamed(field, after, chain.opened)
}

// The same of any chain, from its front.
fn check_chain(cache: &[u8], t: Tables, bucket: u32, most: usize) -> Found
    requires tables_of { TablesOf cache.now t }
    requires bucket_bound { (bucket < buckets cache.now) × (most < length cache.now) }
    ensures { result ≡ unnamed_on (bucket_field cache.now bucket) (chain_of Short cache.now bucket most) }
{
    let stop = chains::at_first(most);
    let chain = chains::walk(cache, t, bucket, stop);
    let after = chain.after;
    match after {
        Next::Record(_) => check_long(cache, t, bucket, stop, most),
        Next::Broken(number, place) => unfound(number, place, chain.opened),
        Next::End => unfound(30, 0, chain.opened),
    }
}

// The check of all chains, in a cache that keeps the rules 1 to 6, 16 and 17.
pub fn check_buckets(cache: &[u8], t: Tables) -> CheckAnswer
    requires { TablesOf cache.now t }
    ensures { result ≡ check_buckets Short (buckets cache.now) cache.now 0 0 }
{
    let n = t.buckets;
    let most = cache.len() - 11;
    let mut opened = 0;
    let mut longest: usize = 0;
    for bucket in 0..n {
        let chain = check_chain(cache, t, bucket, most - opened);
        opened += chain.opened;
        if chain.number != 30 {
            return refused(chain.number, chain.place, opened);
        }
        longest = longest.max(chain.opened);
    }
    CheckAnswer {
        number: 0,
        place: 0,
        directories: t.directories as usize,
        icons: opened,
        opened,
        longest,
    }
}
