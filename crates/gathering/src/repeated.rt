// The first name of a cache that a record before it has too. Equal names lie on one chain, so each
// chain is looked through by itself.
ghost use Rattle.std.specs.Prelude.{◌≡◌, [], ◌<◌, length};
ghost use Rattle.format.specs.Fault.{verdict};
ghost use Rattle.format.specs.Header.{buckets};
ghost use Rattle.format.specs.Words.{Holds};
ghost use Rattle.format.specs.declared.Reading.TheVariants.{Short};
ghost use Rattle.catalogue.specs.Repeats.{repeat_fault};
ghost use Rattle.catalogue.specs.Listed.{record_uses};
ghost use Rattle.tables.specs.Tables.{Sound};
ghost use Rattle.gathering.specs.Chains.{chain_repeat};

use bigendian::u32_at;
use format::Fault;
use rounds::ahead;
use tables::{Tables, bucket_field};

// How many records the chain of `bucket` has.
pub fn count(cache: &[u8], t: Tables, bucket: u32) -> usize
    requires { Sound cache.now t × (bucket < buckets cache.now) }
    ensures { Holds Short cache.now bucket result }
{
    let mut field = bucket_field(t, bucket);
    let mut n = 0;
    loop {
        let record = u32_at(cache, field);
        if record == 0xFFFF_FFFF {
            return n;
        }
        field = record as usize;
        n += 1;
    }
}

// 20 at the first name on the chain of `bucket` that a record before it has too. `index` may hold
// anything.
fn on_chain(cache: &[u8], t: Tables, bucket: u32, index: &mut [u32]) -> Result<(), Fault>
    requires { Sound cache.now t × (bucket < buckets cache.now) × (0 < length index.old) }
    ensures { result ≡ verdict (chain_repeat cache.now bucket) }
{
    let field = bucket_field(t, bucket);
    let n = count(cache, t, bucket);
    let first = repeats::first(cache, field, n, index);
    if first < n {
        return Err(Fault {
            number: 20,
            place: ahead(cache, field, first + 1) + 4,
        });
    }
    Ok(())
}

// 20 at the first name in the check's order that a record before it has too.
pub fn in_cache(cache: &[u8], t: Tables, index: &mut [u32]) -> Result<(), Fault>
    requires { Sound cache.now t × (0 < length index.old) }
    ensures { result ≡ verdict (repeat_fault [] (record_uses cache.now)) }
{
    for bucket in 0..t.buckets {
        on_chain(cache, t, bucket, index)?;
    }
    Ok(())
}
