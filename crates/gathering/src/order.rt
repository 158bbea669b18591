// The records of a cache by rising offset: an index of their offsets.
ghost use Rattle.std.specs.Prelude.{List, [], ◌∷◌, ◌++◌, ℕ, suc, ◌≤◌, ◌<◌, length};
ghost use Rattle.format.specs.Header.{buckets};
ghost use Rattle.format.specs.Chain.{records_below, all_records};
ghost use Rattle.format.specs.declared.Reading.TheVariants.{Short};
ghost use Rattle.tables.specs.Tables.{Sound};
ghost use Rattle.gathering.specs.Order.{Gathered, Ordered};

use bigendian::u32_at;
use keys::Kind;
use names::met;
use tables::{Tables, bucket_field};

// Takes `record` into the index of `n` offsets: how many it has then.
fn take_in(cache: &[u8], index: &mut [u32], n: usize, record: u32) -> usize
    requires { n < length index.old }
    ensures { (rs : List ℕ) → Gathered index.old n rs → Gathered index.new result (rs ++ («record» ∷ [])) }
{
    if met(cache, Kind::Offset, index, n, record) {
        return n;
    }
    n + 1
}

// Takes in the records of the chain of `bucket`, behind those of the chains before it: how many the
// index has then. `step` counts those of this chain, which ends.
fn take_chain(cache: &[u8], t: Tables, bucket: u32, index: &mut [u32], n: usize) -> usize
    requires sound { Sound cache.now t × (bucket < buckets cache.now) }
    requires gathered { Gathered index.old n (records_below Short cache.now bucket) }
    requires bucket_in_bounds { length (records_below Short cache.now (suc bucket)) ≤ length index.old }
    ensures { Gathered index.new result (records_below Short cache.now (suc bucket)) }
{
    let mut field = bucket_field(t, bucket);
    let mut count = n;
    let mut step: usize = 0;
    loop {
        let record = u32_at(cache, field);
        if record == 0xFFFF_FFFF {
            return count;
        }
        count = take_in(cache, index, count, record);
        field = record as usize;
        step += 1;
    }
}

// Makes the index of all records: how many they are.
pub fn records(cache: &[u8], t: Tables, index: &mut [u32]) -> usize
    requires { Sound cache.now t × (length (all_records Short cache.now) ≤ length index.old) }
    ensures { Ordered cache.now index.new result }
{
    let mut n = 0;
    for bucket in 0..t.buckets {
        n = take_chain(cache, t, bucket, index, n);
    }
    n
}
