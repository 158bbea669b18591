// Saves what can be saved of a damaged cache: a catalogue of what is sound, and a report of what
// went.
#![tactic(auto)]

ghost use Rattle.std.specs.Prelude.{◌≡◌, ◌≤◌, ◌<◌, length, IfErr};
ghost use Rattle.tables.specs.Tables.{TablesOf};
ghost use Rattle.salvage_spec.specs.Call as calls;
ghost use Rattle.salvage.specs.Pass.{Passes, Measures};
ghost use Rattle.salvage.specs.Answer.{salvage_answer};

use filling::short;
use format::Fault;
use salvage_paths::close_up;
use salvage_walk::{Sums, chains};
use tables::Tables;

// How many bytes the catalogue has that was saved, and how many rows the report.
#[derive(Clone, Copy)]
pub struct Saved {
    pub length: usize,
    pub rows: usize,
}

// Puts the catalogue and the report, each part if there is room for it, and says how large they
// are; the counts of paths and icons are put last. What `closed` and `index` hold before does not
// matter.
fn pass(
    cache: &[u8],
    t: Tables,
    closed: &mut [u16],
    index: &mut [u32],
    catalogue: &mut [u8],
    report: &mut [u32],
) -> Sums
    requires { TablesOf cache.now t × (65536 ≤ length closed.old) × (65536 ≤ length index.old) }
    ensures { Passes cache.now catalogue.old catalogue.new report.old report.new result }
{
    let paths = close_up(cache, t, closed, catalogue, 2, report);
    let start = Sums {
        icons: 0,
        bytes: paths.bytes + 2,
        words: paths.words,
    };
    let sums = chains(cache, t, closed, index, catalogue, report, start);
    if 65535 < sums.icons {
        return sums;
    }
    short(catalogue, paths.bytes, sums.icons as u16);
    short(catalogue, 0, paths.kept);
    sums
}

// How large catalogue and report are: a pass with room for no part.
fn measure(cache: &[u8], t: Tables, closed: &mut [u16], index: &mut [u32]) -> Sums
    requires { TablesOf cache.now t × (65536 ≤ length closed.old) × (65536 ≤ length index.old) }
    ensures { Measures cache.now result }
{
    let mut no_bytes: [u8; 1] = [0; 1];
    let mut no_words: [u32; 1] = [0; 1];
    pass(cache, t, closed, index, &mut no_bytes, &mut no_words)
}

// Salvages a cache whose header breaks no rule: measures, refuses with 21 or 19, and then writes.
fn save(
    cache: &[u8],
    t: Tables,
    closed: &mut [u16],
    index: &mut [u32],
    catalogue: &mut [u8],
    report: &mut [u32],
) -> Result<Saved, Fault>
    requires { TablesOf cache.now t × (65536 ≤ length closed.old) × (65536 ≤ length index.old) }
    ensures answer { salvage_answer result ≡ calls.salvage cache.now (length catalogue.old) (length report.old) }
    ensures refused { IfErr result (λ fault. 0 < fault.number) }
    ensures bytes { catalogue.new ≡ calls.bytes_left_of cache.now catalogue.old report.old }
    ensures words { report.new ≡ calls.words_left_of cache.now catalogue.old report.old }
{
    let sizes = measure(cache, t, closed, index);
    if 65535 < sizes.icons {
        return Err(Fault {
            number: 21,
            place: 0,
        });
    }
    if catalogue.len() < sizes.bytes {
        return Err(Fault {
            number: 19,
            place: 0,
        });
    }
    if report.len() < sizes.words {
        return Err(Fault {
            number: 19,
            place: 0,
        });
    }
    pass(cache, t, closed, index, catalogue, report);
    Ok(Saved {
        length: sizes.bytes,
        rows: sizes.words / 2,
    })
}

// Puts a catalogue of what is sound in a cache into `catalogue`, and a report of what went into
// `report`, two words to a row; with a refusal nothing is written. The names of a chain and the new
// indexes of the directories stand on the stack: 384 KiB.
pub fn salvage(cache: &[u8], catalogue: &mut [u8], report: &mut [u32]) -> Result<Saved, Fault>
    ensures answer { salvage_answer result ≡ calls.salvage cache.now (length catalogue.old) (length report.old) }
    ensures refused { IfErr result (λ fault. 0 < fault.number) }
    ensures bytes { catalogue.new ≡ calls.bytes_left_of cache.now catalogue.old report.old }
    ensures words { report.new ≡ calls.words_left_of cache.now catalogue.old report.old }
{
    tables::header(cache)?;
    let t = tables::read(cache);
    let mut closed: [u16; 65536] = [0; 65536];
    let mut index: [u32; 65536] = [0; 65536];
    save(cache, t, &mut closed, &mut index, catalogue, report)
}
