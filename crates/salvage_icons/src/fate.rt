// What becomes of a record that is met on a chain.
ghost use Rattle.std.specs.Prelude.{List, ℕ, ◌+◌, ◌≤◌, ◌<◌, length};
ghost use Rattle.keys.specs.Key.{key_at};
ghost use Rattle.keys.specs.declared.Kind.TheVariants.{Ended};
ghost use Rattle.names.specs.Index.{Represents};
ghost use Rattle.tables.specs.Tables.{TablesOf};
ghost use Rattle.salvage_icons.specs.Kept.{Meets};

use bigendian::u32_at;
use format::Fault;
use keys::Kind;
use names::met;
use records::{judge_name, valid_image_list};
use tables::Tables;

// What becomes of `record` on the chain of `bucket`, where the first `n` entries of the index are
// the names kept on it so far: kept, and then its name is one of them, or its row.
pub fn meet(
    cache: &[u8],
    t: Tables,
    bucket: u32,
    record: usize,
    index: &mut [u32],
    n: usize,
) -> Result<(), Fault>
    requires { TablesOf cache.now t × («record» + 12 ≤ length cache.now) × (n < length index.old) }
    ensures { (ts : List (List ℕ)) → Represents (key_at Ended cache.now) index.old n ts → Meets cache.now bucket «record» index.new n ts result }
{
    judge_name(cache, t, bucket, record, false)?;
    let list = u32_at(cache, record + 8) as usize;
    if !valid_image_list(cache, list) {
        return Err(Fault {
            number: 10,
            place: record + 8,
        });
    }
    let name = u32_at(cache, record + 4);
    if met(cache, Kind::Ended, index, n, name) {
        return Err(Fault {
            number: 20,
            place: record + 4,
        });
    }
    Ok(())
}
