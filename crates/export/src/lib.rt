// Lists an accepted cache as a catalogue: its paths by index, its icons by rising record offset.
#![tactic(auto)]

mod parts;
mod putting;
mod sizes;

ghost use Rattle.std.specs.Prelude.{◌≡◌, ◌≤◌, ◌<◌, length, IfErr};
ghost use Rattle.format.specs.Chain.{all_records};
ghost use Rattle.format.specs.declared.Reading.TheVariants.{Short};
ghost use Rattle.catalogue.specs.Call.{write_answer, catalogue_of, catalogue_leaves};
ghost use Rattle.tables.specs.Tables.{Sound};

use format::Fault;
use gathering::{order, repeated};
use tables::Tables;

// The catalogue of an accepted cache with so many icons: 20, 21 and 19, and then its bytes. `index`
// may hold anything. Says how many bytes these are.
fn list(
    cache: &[u8],
    t: Tables,
    icons: usize,
    index: &mut [u32],
    catalogue: &mut [u8],
) -> Result<usize, Fault>
    requires { Sound cache.now t × (icons ≡ length (all_records Short cache.now)) × (65535 ≤ length index.old) }
    ensures answer { write_answer result ≡ catalogue_of cache.now (length catalogue.old) }
    ensures refused { IfErr result (λ fault. 0 < fault.number) }
    ensures lent { catalogue.new ≡ catalogue_leaves cache.now catalogue.old }
{
    repeated::in_cache(cache, t, index)?;
    if 65535 < icons {
        return Err(Fault {
            number: 21,
            place: 0,
        });
    }
    let n = order::records(cache, t, index);
    let size = sizes::whole(cache, t, index, n);
    if catalogue.len() < size {
        return Err(Fault {
            number: 19,
            place: 0,
        });
    }
    putting::whole(cache, t, index, n, catalogue);
    Ok(size)
}

// Lists a cache as a catalogue in `catalogue`, if the check accepts it, no name stands twice, there
// are at most 65,535 icons, and there is room, and says how many bytes that are; with a refusal
// nothing is written. The index, of the names of a chain and then of all records, stands on the
// stack: 256 KiB.
pub fn catalogue_of(cache: &[u8], catalogue: &mut [u8]) -> Result<usize, Fault>
    ensures answer { write_answer result ≡ catalogue_of cache.now (length catalogue.old) }
    ensures refused { IfErr result (λ fault. 0 < fault.number) }
    ensures lent { catalogue.new ≡ catalogue_leaves cache.now catalogue.old }
{
    let check = icon_cache::check_short(cache);
    if check.number != 0 {
        return Err(Fault {
            number: check.number,
            place: check.place,
        });
    }
    let t = tables::read(cache);
    let mut index: [u32; 65536] = [0; 65536];
    list(cache, t, check.icons, &mut index, catalogue)
}
