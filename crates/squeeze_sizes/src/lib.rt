// How many bytes the image lists of a squeezed cache take, each counted once.
#![tactic(auto)]

ghost use Rattle.std.specs.Prelude.{◌≡◌, ℕ, ◌+◌, ◌*◌, ◌^◌, ◌≤◌, ◌<◌, length, get_or};
ghost use Rattle.tables.specs.Tables.{Sound};
ghost use Rattle.squeeze_names.specs.Repeated.{RepeatsMarked};
ghost use Rattle.squeeze_spec.specs.Packed.{packed_lists};
ghost use Rattle.squeeze_spec.specs.Squeezed.{contents};
ghost use Rattle.squeeze_sizes.specs.Counting.{ListAt, Counts, ComesAgain, Counting, Block};

use bigendian::u32_at;
use keys::Kind;
use names::{find, insert};
use squeeze_icons::{next, nth};
use tables::Tables;

// What is counted from the list of one icon on: up to which icon the lists are in the index, as how
// many entries, and how many bytes those lists take that don't come again behind it.
#[derive(Clone, Copy)]
pub struct Counted {
    pub until: usize,
    pub entries: usize,
    pub bytes: usize,
}

// Counts the list of entry `e` no more, which takes `size` bytes and comes again, unless that was
// done before.
fn come_again(again: &mut [u32], e: usize, size: usize, counted: Counted) -> Counted
    requires { (e < length again.old) × (length again.old < 2 ^ 32) × (get_or again.old e 0 ≡ 0 → size ≤ counted.bytes) }
    ensures { ComesAgain again.old again.new e size counted result }
{
    if again[e] != 0 {
        return counted;
    }
    again[e] = 1;
    Counted {
        bytes: counted.bytes - size,
        ..counted
    }
}

// Counts the list of `icon`, which stands at `list`, from the icon `first` on. As long as there is
// room the lists are taken into the index. Behind that each is looked for; one that is found comes
// again, and counts no more where it was taken in.
fn count(
    cache: &[u8],
    index: &mut [u32],
    again: &mut [u32],
    icon: usize,
    list: u32,
    counted: Counted,
) -> Counted
    requires list_at { ListAt cache.now icon list × (0 < length index.old) × (length index.old ≤ length again.old) × (length again.old < 2 ^ 32) × (icon < 2 ^ 32) × (counted.bytes < 2 ^ 62) }
    requires by_index { (first before : ℕ) × Counts cache.now index.old again.old first icon before counted }
    ensures { (first before : ℕ) → Counts cache.now index.old again.old first icon before counted → Counts cache.now index.new again.new first (icon + 1) before result }
{
    let until = counted.until;
    let entries = counted.entries;
    let bytes = counted.bytes;
    let size = 4 + 8 * u32_at(cache, list as usize) as usize;
    match find(cache, Kind::Images, index, entries, list) {
        Ok(e) => {
            if until == icon {
                return Counted {
                    until: icon + 1,
                    ..counted
                };
            }
            come_again(again, e, size, counted)
        }
        Err(i) => {
            if until == icon {
                if entries < index.len() {
                    insert(index, entries, i, list);
                    // None comes again yet, so there is no word to move.
                    again[entries] = 0;
                    return Counted {
                        until: icon + 1,
                        entries: entries + 1,
                        bytes: bytes + size,
                    };
                }
            }
            counted
        }
    }
}

// Counts the lists of the icons from `from` on, with `bytes` counted before: up to some icon behind
// it, and without those that come again there.
fn block(
    cache: &[u8],
    t: Tables,
    index: &mut [u32],
    again: &mut [u32],
    repeated: &[u32],
    from: usize,
    bytes: usize,
) -> Counted
    requires sound { Sound cache.now t × (0 < length index.old) × (length index.old ≤ length again.old) × (length again.old < 2 ^ 32) × RepeatsMarked cache.now repeated.now }
    requires counting { Counting cache.now from bytes }
    ensures { Block cache.now from bytes result.until result.bytes }
{
    let mut icon = nth(cache, t, repeated, from);
    let mut counted = Counted {
        until: from,
        entries: 0,
        bytes,
    };
    // Behind the last one there is the end value.
    while icon.at.record != 0xFFFF_FFFF {
        let record = icon.at.record as usize;
        let list = u32_at(cache, record + 8);
        counted = count(cache, index, again, icon.icon, list, counted);
        icon = next(cache, t, repeated, icon);
    }
    counted
}

// How many bytes the lists of all `icons` take. `index` and `again` may hold anything, and
// `repeated` marks the records that go.
pub fn measure(
    cache: &[u8],
    t: Tables,
    index: &mut [u32],
    again: &mut [u32],
    repeated: &[u32],
    icons: usize,
) -> usize
    requires sound { Sound cache.now t × (0 < length index.old) × (length index.old ≤ length again.old) × (length again.old < 2 ^ 32) × RepeatsMarked cache.now repeated.now }
    requires icons_value { icons ≡ length (contents cache.now).icons }
    ensures { result ≡ length (packed_lists (contents cache.now)) }
{
    let mut from = 0;
    let mut bytes = 0;
    while from < icons {
        let counted = block(cache, t, index, again, repeated, from, bytes);
        from = counted.until;
        bytes = counted.bytes;
    }
    bytes
}
