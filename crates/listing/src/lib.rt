// Paging through a cache: from a position, which the caller holds, the next record in the check's
// order and the position after it.
#![tactic(auto)]

ghost use Rattle.std.specs.Prelude.{◌≡◌, ◌+◌, ◌-◌, ◌^◌, ◌≤◌, ◌<◌, length, IfErr};
ghost use Rattle.format.specs.Header.{buckets};
ghost use Rattle.format.specs.Chain.{chain_of};
ghost use Rattle.format.specs.Words.{KeepsBelow};
ghost use Rattle.format.specs.declared.Next.TheVariants.{Record};
ghost use Rattle.format.specs.declared.Reading.TheVariants.{Short};
ghost use Rattle.tables.specs.Tables.{TablesOf};
ghost use Rattle.listing.specs.Listing.{position, step_to, step, step_answer};
ghost use Rattle.listing.specs.Reach.{reached};
ghost use Rattle.listing.specs.Listing as definition;

use format::{Fault, Next};
use tables::Tables;

// A bucket, and how many records of its chain are passed. A caller may make one up.
#[derive(Clone, Copy)]
pub struct Position {
    pub bucket: usize,
    pub count: usize,
}

// The next record, and the position after it.
#[derive(Clone, Copy)]
pub struct Step {
    pub record: usize,
    pub next: Position,
}

// The step to `record`, which comes after `passed` records on the chain of `bucket`.
fn step_to(bucket: u32, passed: usize, record: usize) -> Step
    requires { passed < 2 ^ 32 }
    ensures { result ≡ step_to «record» (position bucket (passed + 1)) }
{
    let next = Position {
        bucket: bucket as usize,
        count: passed + 1,
    };
    Step { record, next }
}

// The step past `passed` records of the chain of `bucket`, which is known to go on after `walked`
// of them; none where it ends before.
fn go_further(
    cache: &[u8],
    t: Tables,
    bucket: u32,
    walked: usize,
    passed: usize,
) -> Result<Option<Step>, Fault>
    requires tables_of { TablesOf cache.now t }
    requires bucket_bound { (bucket < buckets cache.now) × (walked ≤ passed) × (passed < length cache.now) }
    requires keeps_below { KeepsBelow Short cache.now bucket (walked + 1) }
    ensures { result ≡ reached bucket passed (chain_of Short cache.now bucket passed).after }
{
    let judged = chains::go_on(cache, t, bucket, walked, passed);
    let chain = chains::finish(cache, judged, passed);
    let after = chain.after;
    match after {
        Next::Record(record) => Ok(Some(step_to(bucket, passed, record))),
        Next::Broken(number, place) => Err(Fault { number, place }),
        Next::End => Ok(None),
    }
}

// The same, where `record` comes after `walked` records.
fn reach(
    cache: &[u8],
    t: Tables,
    bucket: u32,
    walked: usize,
    passed: usize,
    record: usize,
) -> Result<Option<Step>, Fault>
    requires tables_of { TablesOf cache.now t }
    requires bucket_bound { (bucket < buckets cache.now) × (walked ≤ passed) × (passed < length cache.now) }
    requires walked_value { (chain_of Short cache.now bucket walked).after ≡ Record «record» }
    ensures { result ≡ reached bucket passed (chain_of Short cache.now bucket passed).after }
{
    if walked < passed {
        go_further(cache, t, bucket, walked, passed)
    } else {
        Ok(Some(step_to(bucket, passed, record)))
    }
}

impl Position {
    // The position before the first record.
    pub fn start() -> Position
        ensures { result ≡ definition.start }
    {
        Position {
            bucket: 0,
            count: 0,
        }
    }

    // The step from a position that is valid: the chains are tried from its own on, and only on
    // that are records passed. 28 where none has a record more.
    fn onward(self, cache: &[u8], t: Tables) -> Result<Step, Fault>
        requires tables_of { TablesOf cache.now t }
        requires bucket_bound { (self.bucket < buckets cache.now) × (self.count ≤ length cache.now - 11) }
        ensures answer { step_answer self result ≡ definition.onward (buckets cache.now - self.bucket) cache.now self self.bucket self.count }
        ensures refused { IfErr result (λ fault. 0 < fault.number) }
    {
        let n = t.buckets;
        let mut passed = self.count;
        let mut walked = chains::at_first(passed);
        for bucket in self.bucket as u32..n {
            let chain = chains::walk(cache, t, bucket, walked);
            let after = chain.after;
            match after {
                Next::Record(record) => {
                    if let Some(step) = reach(cache, t, bucket, walked, passed, record)? {
                        return Ok(step);
                    }
                }
                Next::Broken(number, place) => {
                    return Err(Fault { number, place });
                }
                Next::End => {}
            }
            passed = 0;
            walked = 0;
        }
        Err(Fault {
            number: 28,
            place: 0,
        })
    }

    // The next record from this position on, in the check's order, and the position after it.
    pub fn next(self, cache: &[u8]) -> Result<Step, Fault>
        ensures answer { step_answer self result ≡ step cache.now self }
        ensures refused { IfErr result (λ fault. 0 < fault.number) }
    {
        tables::header(cache)?;
        let t = tables::read(cache);
        if t.buckets as usize <= self.bucket {
            return Err(Fault {
                number: 26,
                place: 0,
            });
        }
        if cache.len() - 11 < self.count {
            return Err(Fault {
                number: 26,
                place: 0,
            });
        }
        self.onward(cache, t)
    }
}
