// Writes a cache from a catalogue: header, hash, records, image lists, directory list and strings,
// in catalogue order without gaps.
#![tactic(auto)]

mod appending;

ghost use Rattle.std.specs.Prelude.{◌≡◌, ◌<◌, length, IfErr};
ghost use Rattle.format.specs.Bytes.{put};
ghost use Rattle.catalogue.specs.Fields.{catalogue_in};
ghost use Rattle.catalogue.specs.Written.{written};
ghost use Rattle.catalogue.specs.Call.{write_answer, write_leaves};
ghost use Rattle.catalogue.specs.Call as calls;
ghost use Rattle.passes.specs.Passes.{Judged};
ghost use Rattle.write_cache.specs.Appending.{Fits};

use format::Fault;
use judging::Parts;
use passes::{head, putting, sizes};

// Puts the cache of a good catalogue into `out`, which has room for it.
fn fill(catalogue: &[u8], parts: Parts, buckets: usize, out: &mut [u8])
    requires judged { Judged catalogue.now parts.paths parts.icons parts.first_icon }
    requires fits { Fits (catalogue_in catalogue.now) buckets out.old }
    ensures { out.new ≡ put out.old 0 (written (catalogue_in catalogue.now) buckets) }
{
    let first = parts.first_icon;
    let icons = parts.icons;
    let n = parts.paths;
    let begins = sizes::arrange(catalogue, parts, buckets);
    let list = begins.directories;
    let strings = begins.paths;
    head::tables(out, buckets, list);
    appending::records(
        catalogue,
        first,
        icons,
        buckets,
        begins.lists,
        begins.names,
        out,
    );
    putting::lists(catalogue, first, icons, out, begins.lists);
    putting::directories(catalogue, n, strings, out, list);
    putting::paths(catalogue, n, out, strings);
    putting::names(catalogue, first, icons, out, begins.names);
}

// Writes the cache of `catalogue` with so many buckets into `cache`, and says how many bytes it has.
// All is judged before the first byte is written.
pub fn write(catalogue: &[u8], buckets: usize, cache: &mut [u8]) -> Result<usize, Fault>
    ensures answer { write_answer result ≡ calls.write catalogue.now buckets (length cache.old) }
    ensures refused { IfErr result (λ fault. 0 < fault.number) }
    ensures lent { cache.new ≡ write_leaves catalogue.now buckets cache.old }
{
    let parts = judging::judge(catalogue)?;
    if buckets == 0 || 4096 < buckets {
        return Err(Fault {
            number: 18,
            place: 0,
        });
    }
    let length = sizes::size(catalogue, parts, buckets);
    if cache.len() < length || 16777216 < length {
        return Err(Fault {
            number: 19,
            place: 0,
        });
    }
    fill(catalogue, parts, buckets, cache);
    Ok(length)
}
