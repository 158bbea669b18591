// Strings that end in a zero byte: what one is, and which rule it breaks by that; as a name, its
// hash and its length, whether it is the one asked for, and whether it may be asked for. A string
// is handed over as the part of the buffer from its offset on.
#![tactic(auto)]

ghost use Rattle.std.specs.Prelude.{◌≡◌, ℕ, ◌*◌, ◌%◌, ◌^◌, true, false, List, length, take, drop, Ok, Err, MatchResult, if◌then◌else◌};
ghost use Rattle.format.specs.String.{string, extent, is_whole, string_fault, spells_name, hash, text_within, allowed};
ghost use Rattle.format.specs.String as definition;
ghost use Rattle.format.specs.declared.Extent.TheVariants.{Whole};

use format::{Extent, Fault};
use std::num::{wrapping_add_u8, wrapping_add_u32, wrapping_sub_u32};

// A string as a name, and the hash of its first 255 bytes: of all of them, unless it is too long.
#[derive(Clone, Copy)]
pub struct Name {
    pub extent: Extent,
    pub hash: u32,
}

// The part of `cache` from the offset `at` on, which is empty past the end.
pub fn from(cache: &[u8], at: usize) -> &[u8]
    ensures { result.now ≡ drop at cache.now }
{
    if at <= cache.len() {
        &cache[at..]
    } else {
        &cache[..0]
    }
}

// What a string is that a zero byte ends after `n` bytes.
pub fn ended(n: usize) -> Extent
    ensures { result ≡ definition.ended n }
{
    if n == 0 {
        Extent::Empty
    } else {
        Extent::Whole(n)
    }
}

// How many bytes a whole string has, or the rule that a string breaks by what it is: `rule` where
// it is empty or too long, 17 where it is cut off.
pub fn judge(extent: Extent, rule: u32, place: usize) -> Result<usize, Fault>
    ensures { MatchResult result (λ n. extent ≡ Whole n) (λ fault. (is_whole extent ≡ false) × (fault ≡ string_fault extent rule place)) }
{
    match extent {
        Extent::Whole(n) => Ok(n),
        Extent::Empty | Extent::Long => Err(Fault {
            number: rule,
            place,
        }),
        Extent::Cut => Err(Fault { number: 17, place }),
    }
}

// 31 times `h`, modulo 2^32: the `(h << 5) - h` of the note that `read_name` quotes. Bits that
// leave the 32 are lost, as in C.
fn times31(h: u32) -> u32
    ensures { result ≡ (31 * h) % 2 ^ 32 }
{
    wrapping_sub_u32(h << 5, h)
}

// A byte as a signed number, modulo 2^32. 128 is added within 8 bits, where a byte from 128 on
// wraps, and taken away within 32 bits, where such a byte then wraps below 0. The compiler makes
// one sign extension of it.
fn signed(byte: u8) -> u32
    ensures { result ≡ definition.signed byte }
{
    let raised = wrapping_add_u8(byte, 128) as u32;
    wrapping_sub_u32(raised, 128)
}

// What the string at the front of `part` is as a name, and its hash. One loop serves both: most of
// a lookup is the reading of the names that it passes. No more than 256 bytes are read.
//
// The hash is computed as the freedesktop note (source document 000) prints it under "Notes", in
// `icon_str_hash`, each step modulo 2^32:
//
//     unsigned int h = *p;
//
//     if (h)
//       for (p += 1; *p != '\0'; p++)
//         h = (h << 5) - h + *p;
//
// `times31` is the note's `(h << 5) - h`, and `signed` its `*p`. Here the first byte goes through
// the loop too: from 0, `(0 << 5) - 0 + *p` is `*p`. `if (h)` is left out: the first byte of an
// allowed name is not zero, so the test always holds.
pub fn read_name(part: &[u8]) -> Name
    ensures extent { result.extent ≡ extent 255 part.now }
    ensures hash { result.hash ≡ hash (take 255 (string part.now)) }
{
    let mut hash = 0;
    for (i, &byte) in part.iter().enumerate() {
        if byte == 0 {
            return Name {
                extent: ended(i),
                hash,
            };
        }
        if i == 255 {
            return Name {
                extent: Extent::Long,
                hash,
            };
        }
        // h = (h << 5) - h + *p
        hash = wrapping_add_u32(times31(hash), signed(byte));
    }
    Name {
        extent: Extent::Cut,
        hash,
    }
}

// How many bytes the name at `at` has.
pub fn name_length(cache: &[u8], at: usize) -> usize
    requires { is_whole (extent 255 (drop at cache.now)) ≡ true }
    ensures { result ≡ length (string (drop at cache.now)) }
{
    let part = from(cache, at);
    let read = read_name(part);
    let extent = read.extent;
    match extent {
        Extent::Whole(n) => n,
        _ => 0,
    }
}

// Whether the string at the front of `part` is whole and is `name`, one that may be asked for. Such
// a name has no zero byte, so the part has to begin with the name and a zero byte.
pub fn spells(part: &[u8], name: &[u8]) -> bool
    requires { allowed name.now ≡ true }
    ensures { result ≡ spells_name part.now name.now }
{
    let end = name.len();
    part.len() > end && part[end] == 0 && part.starts_with(name)
}

// Whether a text of `size` bytes has 1 to a limit of them and none is zero, by what the text is as
// a string: it has no zero byte and is not too long just where it is cut off.
pub fn within(size: usize, extent: Extent) -> bool
    ensures { (limit : ℕ) (t : List ℕ) → size ≡ length t → extent ≡ definition.extent limit t → result ≡ text_within limit t }
{
    if size == 0 {
        return false;
    }
    match extent {
        Extent::Cut => true,
        _ => false,
    }
}

// The hash of `name`: `Ok` if it may be asked for, with 1 to 255 bytes and none of them zero, and
// else `Err` of what its first 255 bytes before a zero byte hash to.
pub fn asked(name: &[u8]) -> Result<u32, u32>
    ensures { result ≡ (if allowed name.now then Ok (hash name.now) else Err (hash (take 255 (string name.now)))) }
{
    let read = read_name(name);
    let extent = read.extent;
    if within(name.len(), extent) {
        Ok(read.hash)
    } else {
        Err(read.hash)
    }
}
