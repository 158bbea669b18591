// The walk over all chains of a damaged cache: what is kept is put into a catalogue, and what went
// into a report, each as far as there is room.
#![tactic(auto)]

ghost use Rattle.std.specs.Prelude.{◌≡◌, ◌+◌, ◌^◌, ◌≤◌, ◌<◌, length, MatchResult};
ghost use Rattle.format.specs.Header.{buckets};
ghost use Rattle.tables.specs.Tables.{TablesOf};
ghost use Rattle.salvage_paths.specs.Closed.{Closes};
ghost use Rattle.salvage_icons.specs.Kept.{Kept};
ghost use Rattle.salvage_walk.specs.Walk.{Adds, Walks, WalksAll};

use bigendian::u32_at;
use filling::row;
use format::Fault;
use salvage_icons::fate::meet;
use salvage_icons::icon;
use salvage_icons::images::put_rows;
use salvage_reach::reach;
use tables::{Tables, bucket_field};

// How many icons are kept so far, and where the next bytes and words go.
#[derive(Clone, Copy)]
pub struct Sums {
    pub icons: usize,
    pub bytes: usize,
    pub words: usize,
}

// Puts what there is to put for `record`, of which `fate` says what becomes of it: its icon and the
// rows of its images, or its own row.
fn add(
    cache: &[u8],
    t: Tables,
    closed: &[u16],
    record: usize,
    fate: Result<(), Fault>,
    catalogue: &mut [u8],
    report: &mut [u32],
    sums: Sums,
) -> Sums
    requires tables_of { TablesOf cache.now t × Closes cache.now closed.now }
    requires told { MatchResult fate (λ _. Kept cache.now «record») (λ fault. fault.place < 2 ^ 32) }
    requires sums_bound { (sums.icons < 2 ^ 32) × (sums.bytes < 2 ^ 58) × (sums.words < 2 ^ 58) }
    ensures { Adds cache.now «record» fate catalogue.old catalogue.new report.old report.new sums result }
{
    match fate {
        Ok(()) => {
            let bytes = icon::put(cache, t, closed, record, catalogue, sums.bytes);
            let words = put_rows(cache, t, record, report, sums.words);
            Sums {
                icons: sums.icons + 1,
                bytes,
                words,
            }
        }
        Err(fault) => {
            let words = row(report, sums.words, fault.number, fault.place);
            Sums {
                icons: sums.icons,
                bytes: sums.bytes,
                words,
            }
        }
    }
}

// Walks the chain of `bucket`; once more than 65,535 icons are kept it stops. The names kept on the
// chain are in the index, which may hold anything before.
fn chain(
    cache: &[u8],
    t: Tables,
    closed: &[u16],
    bucket: u32,
    index: &mut [u32],
    catalogue: &mut [u8],
    report: &mut [u32],
    sums: Sums,
) -> Sums
    requires tables_of { TablesOf cache.now t × Closes cache.now closed.now × (bucket < buckets cache.now) × (65536 ≤ length index.old) }
    requires icons_bound { (sums.icons ≤ 65535) × (sums.bytes < 2 ^ 57) × (sums.words < 2 ^ 57) }
    ensures { Walks cache.now bucket catalogue.old catalogue.new report.old report.new sums result }
{
    let reached = reach(cache, t, bucket);
    let mut field = bucket_field(t, bucket);
    let mut so_far = sums;
    for _step in 0..reached.met {
        if 65535 < so_far.icons {
            return so_far;
        }
        let record = u32_at(cache, field) as usize;
        let fate = meet(cache, t, bucket, record, index, so_far.icons - sums.icons);
        so_far = add(cache, t, closed, record, fate, catalogue, report, so_far);
        field = record;
    }
    let Some(cut) = reached.cut else {
        return so_far;
    };
    let words = row(report, so_far.words, cut.number, cut.place);
    Sums {
        icons: so_far.icons,
        bytes: so_far.bytes,
        words,
    }
}

// Walks all chains; once more than 65,535 icons are kept it stops.
pub fn chains(
    cache: &[u8],
    t: Tables,
    closed: &[u16],
    index: &mut [u32],
    catalogue: &mut [u8],
    report: &mut [u32],
    sums: Sums,
) -> Sums
    requires tables_of { TablesOf cache.now t × Closes cache.now closed.now × (65536 ≤ length index.old) }
    requires icons_value { (sums.icons ≡ 0) × (sums.bytes < 2 ^ 32) × (sums.words < 2 ^ 32) }
    ensures { WalksAll cache.now catalogue.old catalogue.new report.old report.new sums result }
{
    let mut so_far = sums;
    for bucket in 0..t.buckets {
        if 65535 < so_far.icons {
            return so_far;
        }
        so_far = chain(cache, t, closed, bucket, index, catalogue, report, so_far);
    }
    so_far
}
