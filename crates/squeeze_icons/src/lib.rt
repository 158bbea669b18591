// The icons of an accepted cache that stay when it is squeezed, one by one in the check's order:
// the first of each name. The records that have a name of one before them are marked.
#![tactic(auto)]

ghost use Rattle.std.specs.Prelude.{◌≡◌, true, false, not, ◌+◌, ◌≤◌, length};
ghost use Rattle.keys.specs.Key.{key_at};
ghost use Rattle.keys.specs.declared.Kind.TheVariants.{Ended};
ghost use Rattle.tables.specs.Tables.{Sound};
ghost use Rattle.squeeze_spec.specs.Uses.{is_first};
ghost use Rattle.format.specs.Chain.{nth_name};
ghost use Rattle.squeeze_spec.specs.Squeezed.{contents};
ghost use Rattle.in_order.specs.Cursor.{Real, At};
ghost use Rattle.squeeze_names.specs.Repeated.{RepeatsMarked};
ghost use Rattle.squeeze_icons.specs.Staying.{Seeking, Staying};

use bigendian::u32_at;
use in_order::Cursor;
use keys::{Kind, compare};
use marks::is_marked;
use tables::{Tables, bucket_field};

// An icon: its number among those that stay, and its record. Behind the last one the record is the
// end value.
#[derive(Clone, Copy)]
pub struct Icons {
    pub icon: usize,
    pub at: Cursor,
}

// Whether the strings at two offsets are the same.
fn same(cache: &[u8], a: u32, b: u32) -> bool
    ensures { (result ≡ true → key_at Ended cache.now a ≡ key_at Ended cache.now b) × (result ≡ false → key_at Ended cache.now a ≡ key_at Ended cache.now b → ⊥) }
{
    compare(cache, Kind::Ended, a, b).is_eq()
}

// Whether one of the records before the one at hand has its name, by the chain. `passed` shows that
// the walk ends.
fn named_before(cache: &[u8], t: Tables, at: Cursor) -> bool
    requires { Sound cache.now t × At cache.now at × Real at.«record» }
    ensures { result ≡ not (is_first (nth_name cache.now) at.number) }
{
    let name = u32_at(cache, at.record as usize + 4);
    let mut other = u32_at(cache, bucket_field(t, at.bucket));
    let mut passed: usize = 0;
    while other != at.record {
        let before = other as usize;
        if same(cache, u32_at(cache, before + 4), name) {
            return true;
        }
        other = u32_at(cache, before);
        passed += 1;
    }
    false
}

// Whether the record at hand stays: by its mark, or by its chain where there is no word for it.
fn stays(cache: &[u8], t: Tables, repeated: &[u32], at: Cursor) -> bool
    requires { Sound cache.now t × RepeatsMarked cache.now repeated.now × At cache.now at × Real at.«record» }
    ensures { result ≡ is_first (nth_name cache.now) at.number }
{
    let number = at.number;
    if number / 32 < repeated.len() {
        return !is_marked(repeated, number);
    }
    !named_before(cache, t, at)
}

// The first icon from the record at hand on, with number `icon`.
fn seek(cache: &[u8], t: Tables, repeated: &[u32], icon: usize, cursor: Cursor) -> Icons
    requires { Sound cache.now t × RepeatsMarked cache.now repeated.now × Seeking cache.now icon cursor }
    ensures { Staying cache.now result × (result.icon ≡ icon) }
{
    let mut at = cursor;
    // Behind the last one there is the end value.
    while at.record != 0xFFFF_FFFF {
        if stays(cache, t, repeated, at) {
            return Icons { icon, at };
        }
        at = in_order::next(cache, t, at);
    }
    Icons { icon, at }
}

// The first icon.
pub fn first(cache: &[u8], t: Tables, repeated: &[u32]) -> Icons
    requires { Sound cache.now t × RepeatsMarked cache.now repeated.now }
    ensures { Staying cache.now result × (result.icon ≡ 0) }
{
    let cursor = in_order::first(cache, t);
    seek(cache, t, repeated, 0, cursor)
}

// The icon behind the one at hand.
pub fn next(cache: &[u8], t: Tables, repeated: &[u32], icons: Icons) -> Icons
    requires { Sound cache.now t × RepeatsMarked cache.now repeated.now × Staying cache.now icons × Real icons.at.«record» }
    ensures { Staying cache.now result × (result.icon ≡ icons.icon + 1) }
{
    let at = icons.at;
    let cursor = in_order::next(cache, t, at);
    seek(cache, t, repeated, icons.icon + 1, cursor)
}

// The icon with number `n`.
pub fn nth(cache: &[u8], t: Tables, repeated: &[u32], n: usize) -> Icons
    requires { Sound cache.now t × RepeatsMarked cache.now repeated.now × (n ≤ length (contents cache.now).icons) }
    ensures { Staying cache.now result × (result.icon ≡ n) }
{
    let mut icon = first(cache, t, repeated);
    for _passed in 0..n {
        icon = next(cache, t, repeated, icon);
    }
    icon
}
