// The length of a string and its hash as a name, in one pass: eight bytes at a time, and one by one
// where fewer than eight are left of the part. And the number that eight bytes write.
#![tactic(auto)]

ghost use Rattle.std.specs.Prelude.{◌≡◌, ◌+◌, ◌*◌, ◌%◌, ◌^◌, ◌<◌, ◌≤◌, length};
ghost use Rattle.format.specs.Number.{be};
ghost use Rattle.format.specs.String.{string, hash};
ghost use Rattle.format.specs.String as definition;
ghost use Rattle.name_hash.specs.Reached.{Reached};

use bigendian::u32_at;
use std::num::{wrapping_add_u8, wrapping_add_u32, wrapping_sub_u32};
use zero_bytes::first_zero;

// The number that the eight bytes at `at` write.
pub fn u64_at(s: &[u8], at: usize) -> u64
    requires { at + 8 ≤ length s.now }
    ensures { result ≡ be 8 s.now at }
{
    let high = u32_at(s, at) as u64;
    let low = u32_at(s, at + 4) as u64;
    high * 4294967296 + low
}

// A length and a hash as one number, which a processor's register can hand back.
fn both(length: usize, hash: u32) -> u64
    requires { length < 2 ^ 32 }
    ensures { result ≡ length * 2 ^ 32 + hash }
{
    length as u64 * 4294967296 + hash as u64
}

// 31 times `h`, modulo 2^32: the `(h << 5) - h` of the note that `byte_by_byte` quotes. Bits that
// leave the 32 are lost, as in C.
fn times31(h: u32) -> u32
    ensures { result ≡ (31 * h) % 2 ^ 32 }
{
    wrapping_sub_u32(h << 5, h)
}

// A byte as a signed number, modulo 2^32. 128 is added within 8 bits, where a byte from 128 on
// wraps, and taken away within 32 bits, where such a byte then wraps below 0. The compiler makes
// one sign extension of it.
fn signed(byte: u8) -> u32
    ensures { result ≡ definition.signed byte }
{
    let raised = wrapping_add_u8(byte, 128) as u32;
    wrapping_sub_u32(raised, 128)
}

// The length and the hash of the string at the front of `part`, of which `passed` bytes are passed
// and have the hash `hash`: from there on one byte after the other.
//
// The hash is computed as the freedesktop note (source document 000) prints it under "Notes", in
// `icon_str_hash`, each step modulo 2^32:
//
//     unsigned int h = *p;
//
//     if (h)
//       for (p += 1; *p != '\0'; p++)
//         h = (h << 5) - h + *p;
//
// `times31` is the note's `(h << 5) - h`, and `signed` its `*p`. Here the first byte goes through
// the loop too: from 0, `(0 << 5) - 0 + *p` is `*p`. `if (h)` is left out: the first byte of an
// allowed name is not zero, so the test always holds.
fn byte_by_byte(part: &[u8], passed: usize, mut hash: u32) -> u64
    requires { Reached part.now passed hash × (length part.now < 2 ^ 32) }
    ensures { result ≡ length (string part.now) * 2 ^ 32 + definition.hash (string part.now) }
{
    for i in passed..part.len() {
        let byte = part[i];
        if byte == 0 {
            return both(i, hash);
        }
        // h = (h << 5) - h + *p
        hash = wrapping_add_u32(times31(hash), signed(byte));
    }
    both(part.len(), hash)
}

// The length of the string at the front of `part` times 2^32, plus its hash. What `hash_words` makes
// of eight bytes, and of the first few of eight, is what as many turns of `byte_by_byte` come to.
pub fn measured(part: &[u8]) -> u64
    requires { length part.now < 2 ^ 32 }
    ensures { result ≡ length (string part.now) * 2 ^ 32 + definition.hash (string part.now) }
{
    let mut hash = 0;
    let words = part.len() / 8;
    for k in 0..words {
        let i = 8 * k;
        let word = u64_at(part, i);
        let n = first_zero(word);
        if n < 8 {
            return both(i + n, hash_words::some(hash, word, n as u64));
        }
        hash = hash_words::eight(hash, word);
    }
    byte_by_byte(part, 8 * words, hash)
}
