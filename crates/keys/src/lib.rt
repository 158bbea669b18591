// How the keys of two offsets of a buffer compare, by their kind.
#![tactic(auto)]

ghost use Rattle.std.specs.Prelude.{◌≡◌, take, get_or};
ghost use Rattle.format.specs.String.{string};
ghost use Rattle.keys.specs.Order.{order};
ghost use Rattle.keys.specs.Key.{name_after, list_from, key_at};

use bigendian::u32_at;
use std::cmp::Ordering;
use strings::from;

// What the key of an offset is.
#[derive(Clone, Copy)]
pub enum Kind {
    // The string there, which a zero byte or the buffer's end ends: a name or a path of a cache.
    Ended,
    // The name that follows the byte there, which says how long it is: one of a catalogue.
    Counted,
    // The offset itself: of a record.
    Offset,
    // The image list there, its count and its images: one of a cache.
    Images,
}

// The byte at `i`, and 0 past the end.
fn byte(s: &[u8], i: usize) -> u8
    ensures { result ≡ get_or s.now i 0 }
{
    s.get(i).copied().unwrap_or(0)
}

// The first `n` bytes, and no more than there are.
fn front(s: &[u8], n: usize) -> &[u8]
    ensures { result.now ≡ take n s.now }
{
    &s[..n.min(s.len())]
}

// The name that follows the byte at `at`, which says how long it is.
fn name_after(s: &[u8], at: u32) -> &[u8]
    ensures { result.now ≡ name_after s.now at }
{
    let start = at as usize;
    let n = byte(s, start) as usize;
    front(from(s, start + 1), n)
}

// The image list at `at`: its count and as many images, and no more bytes than there are.
fn list_from(s: &[u8], at: u32) -> &[u8]
    ensures { result.now ≡ list_from s.now at }
{
    let start = at as usize;
    let part = from(s, start);
    if part.len() < 4 {
        return part;
    }
    front(part, 4 + 8 * u32_at(s, start) as usize)
}

// How the strings at the fronts of two parts compare. Neither's end is looked for: a zero byte, as
// which a byte past the end counts, is less than any other.
fn compare_strings(a: &[u8], b: &[u8]) -> Ordering
    ensures { result ≡ order (string a.now) (string b.now) }
{
    for (i, x) in a.iter().enumerate() {
        let y = byte(b, i);
        if *x < y {
            return Ordering::Less;
        }
        if y < *x {
            return Ordering::Greater;
        }
        if *x == 0 {
            return Ordering::Equal;
        }
    }
    if byte(b, a.len()) == 0 {
        Ordering::Equal
    } else {
        Ordering::Less
    }
}

// How the key of `a` compares with that of `b`. Where both are one offset, no key is read.
pub fn compare(s: &[u8], kind: Kind, a: u32, b: u32) -> Ordering
    ensures { result ≡ order (key_at kind s.now a) (key_at kind s.now b) }
{
    if a == b {
        return Ordering::Equal;
    }
    match kind {
        Kind::Ended => compare_strings(from(s, a as usize), from(s, b as usize)),
        Kind::Counted => name_after(s, a).cmp(&name_after(s, b)),
        Kind::Offset => a.cmp(&b),
        Kind::Images => list_from(s, a).cmp(&list_from(s, b)),
    }
}
