// The image lists of a squeezed cache, each stored once, and a table that says where the list of
// each icon is. Where there are more lists than the index has room for, it goes block by block: the
// cells of the table tell which icons are left.
#![tactic(auto)]

ghost use Rattle.std.specs.Prelude.{◌≡◌, List, ℕ, ◌+◌, ◌*◌, ◌^◌, ◌≤◌, ◌<◌, length};
ghost use Rattle.format.specs.Number.{be};
ghost use Rattle.tables.specs.Tables.{Sound};
ghost use Rattle.squeeze_names.specs.Repeated.{RepeatsMarked};
ghost use Rattle.squeeze_sizes.specs.Counting.{ListAt};
ghost use Rattle.squeeze_lists.specs.Shares.{icon_count, Shares, Sharing, Stores, Filled, Begun};

use bigendian::{put_u32, u32_at};
use copying::copy;
use keys::Kind;
use names::find;
use squeeze_icons::{next, nth};
use squeeze_index::add;
use tables::Tables;

// How far the lists are stored: up to which icon, how many of them are in the index, and where the
// next one goes.
#[derive(Clone, Copy)]
pub struct Shared {
    pub until: usize,
    pub entries: usize,
    pub end: usize,
}

// How far the lists are stored after that of `icon`, which was stored before.
fn onward(shared: Shared, icon: usize) -> Shared
    requires { icon < 2 ^ 62 }
    ensures { (result.entries ≡ shared.entries) × (result.end ≡ shared.end) × (shared.until ≡ icon → result.until ≡ icon + 1) × ((shared.until ≡ icon → ⊥) → result.until ≡ shared.until) }
{
    if shared.until == icon {
        return Shared {
            until: icon + 1,
            ..shared
        };
    }
    shared
}

// Stores the list of `icon`, which stands at `list`, as a new one, and where it is into its cell.
fn store(
    cache: &[u8],
    index: &mut [u32],
    places: &mut [u32],
    out: &mut [u8],
    icon: usize,
    list: u32,
    cell: usize,
    i: usize,
    shared: Shared,
) -> Shared
    requires list_at { ListAt cache.now icon list × (i ≤ shared.entries) × (shared.entries < length index.old) × (length index.old ≤ length places.old) × (icon < 2 ^ 32) × (length index.old < 2 ^ 32) }
    requires list_in_bounds { (list + (4 + 8 * be 4 cache.now list) ≤ length cache.now) × (shared.end + (4 + 8 * be 4 cache.now list) ≤ length out.old) × (shared.end ≤ 16777216) × (cell + 4 ≤ length out.old) }
    ensures { Stores cache.now out.old out.new index.old index.new places.old places.new icon list cell i shared result }
{
    let entries = shared.entries;
    let end = shared.end;
    let size = 4 + 8 * u32_at(cache, list as usize) as usize;
    copy(cache, list as usize, size, out, end);
    add(index, places, entries, i, list, end as u32);
    put_u32(out, cell, end as u32);
    Shared {
        until: icon + 1,
        entries: entries + 1,
        end: end + size,
    }
}

// Puts where the list of `icon` is stored into its cell, if that can be told, and stores it first
// if it is new and there is room for it in the index.
fn share(
    cache: &[u8],
    index: &mut [u32],
    places: &mut [u32],
    out: &mut [u8],
    icon: usize,
    list: u32,
    cell: usize,
    shared: Shared,
) -> Shared
    requires list_at { ListAt cache.now icon list × (0 < length index.old) × (length index.old ≤ length places.old) × (length places.old < 2 ^ 32) × (icon < icon_count cache.now) × (icon < 2 ^ 32) }
    requires list_in_bounds { list + (4 + 8 * be 4 cache.now list) ≤ length cache.now }
    requires sharing { Sharing cache.now out.old index.old places.old icon cell shared }
    ensures { (lent : List ℕ) (table at first : ℕ) → Shares cache.now lent out.old index.old places.old table at first icon shared → cell ≡ table + 4 * icon → Shares cache.now lent out.new index.new places.new table at first (icon + 1) result }
{
    let until = shared.until;
    let entries = shared.entries;
    if u32_at(out, cell) != 0xFFFF_FFFF {
        return onward(shared, icon);
    }
    match find(cache, Kind::Images, index, entries, list) {
        Ok(e) => {
            put_u32(out, cell, places[e]);
            onward(shared, icon)
        }
        Err(i) => {
            if until == icon {
                if entries < index.len() {
                    return store(cache, index, places, out, icon, list, cell, i, shared);
                }
            }
            shared
        }
    }
}

// Stores as many lists from the icon `from` on as the index has room for, from `end` on, and puts
// where they are into the cells of all icons that have them.
fn block(
    cache: &[u8],
    t: Tables,
    index: &mut [u32],
    places: &mut [u32],
    repeated: &[u32],
    out: &mut [u8],
    table: usize,
    from: usize,
    end: usize,
) -> Shared
    requires sound { Sound cache.now t × (0 < length index.old) × (length index.old ≤ length places.old) × (length places.old < 2 ^ 32) × RepeatsMarked cache.now repeated.now }
    requires begun { Begun cache.now out.old table from end }
    ensures { ((lent : List ℕ) (at : ℕ) → Filled cache.now lent out.old table at from end → Filled cache.now lent out.new table at result.until result.end) × (from < icon_count cache.now → from < result.until) }
{
    let mut icon = nth(cache, t, repeated, from);
    let mut shared = Shared {
        until: from,
        entries: 0,
        end,
    };
    // Behind the last one there is the end value.
    while icon.at.record != 0xFFFF_FFFF {
        let record = icon.at.record as usize;
        let list = u32_at(cache, record + 8);
        let cell = table + 4 * icon.icon;
        shared = share(cache, index, places, out, icon.icon, list, cell, shared);
        icon = next(cache, t, repeated, icon);
    }
    shared
}

// Stores the lists of all `icons` in `out` from `at` on, and where each icon's list is in the
// table. Its cells have the end value before. `index` and `places` may hold anything, and `repeated`
// marks the records that go.
pub fn lists(
    cache: &[u8],
    t: Tables,
    index: &mut [u32],
    places: &mut [u32],
    repeated: &[u32],
    out: &mut [u8],
    table: usize,
    at: usize,
    icons: usize,
)
    requires sound { Sound cache.now t × (0 < length index.old) × (length index.old ≤ length places.old) × (length places.old < 2 ^ 32) × RepeatsMarked cache.now repeated.now }
    requires icons_value { (icons ≡ icon_count cache.now) × Begun cache.now out.old table 0 at }
    ensures { (lent : List ℕ) (place : ℕ) → Filled cache.now lent out.old table place 0 at → ((end : ℕ) × Filled cache.now lent out.new table place icons end) }
{
    let mut from = 0;
    let mut end = at;
    while from < icons {
        let shared = block(cache, t, index, places, repeated, out, table, from, end);
        from = shared.until;
        end = shared.end;
    }
}
