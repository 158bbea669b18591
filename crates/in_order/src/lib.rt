// The records of an accepted cache one by one, in the check's order, by their fields alone.
#![tactic(auto)]

ghost use Rattle.std.specs.Prelude.{◌≡◌, ◌+◌};
ghost use Rattle.tables.specs.Tables.{Sound};
ghost use Rattle.in_order.specs.Cursor.{Before, At, Real};

use bigendian::u32_at;
use tables::{Tables, bucket_field};

// The record with this number in the check's order, and the bucket on whose chain it stands. Behind
// the last one `record` is the end value.
#[derive(Clone, Copy)]
pub struct Cursor {
    pub number: usize,
    pub bucket: u32,
    pub record: u32,
}

// The end value: no further record.
const END: u32 = 0xFFFF_FFFF;

// The record that a field of the chain of `bucket` names by `record`; where that is the end value,
// the first record of the buckets behind.
fn settle(cache: &[u8], t: Tables, number: usize, bucket: u32, record: u32) -> Cursor
    requires { Sound cache.now t × Before cache.now number bucket «record» }
    ensures { At cache.now result × (result.number ≡ number) }
{
    if record != END {
        return Cursor {
            number,
            bucket,
            record,
        };
    }
    for k in bucket + 1..t.buckets {
        let named = u32_at(cache, bucket_field(t, k));
        if named != END {
            return Cursor {
                number,
                bucket: k,
                record: named,
            };
        }
    }
    Cursor {
        number,
        bucket: t.buckets,
        record: END,
    }
}

// The first record.
pub fn first(cache: &[u8], t: Tables) -> Cursor
    requires { Sound cache.now t }
    ensures { At cache.now result × (result.number ≡ 0) }
{
    settle(cache, t, 0, 0, u32_at(cache, bucket_field(t, 0)))
}

// The record behind the one at hand.
pub fn next(cache: &[u8], t: Tables, cursor: Cursor) -> Cursor
    requires { Sound cache.now t × At cache.now cursor × Real cursor.«record» }
    ensures { At cache.now result × (result.number ≡ cursor.number + 1) }
{
    let field = cursor.record as usize;
    settle(
        cache,
        t,
        cursor.number + 1,
        cursor.bucket,
        u32_at(cache, field),
    )
}
