// Makes caches as the lines of a script say: the commands that write into one, and those that give it
// a length. It stands at the front of a larger buffer. A byte past the buffer's end is left out; the
// stored output of the cases would show that it is missing.
#![tactic(auto)]

pub mod icons;
mod images;
pub mod script;

use script::Words;

// How many bytes the cache has, and the kept one.
#[derive(Clone, Copy)]
pub struct Lengths {
    pub cache: usize,
    pub kept: usize,
}

pub fn put_byte(cache: &mut [u8], at: usize, value: u8) {
    if at < cache.len() {
        cache[at] = value;
    }
}

fn put_bytes(cache: &mut [u8], at: usize, bytes: &[u8]) {
    for (i, byte) in bytes.iter().enumerate() {
        put_byte(cache, at.wrapping_add(i), *byte);
    }
}

// `value` modulo 2^32, in four bytes.
pub fn put_u32(cache: &mut [u8], at: usize, value: usize) {
    put_bytes(cache, at, &((value % 4294967296) as u32).to_be_bytes());
}

// Puts `string` at `at`, and a zero byte after it.
pub fn put_string(cache: &mut [u8], at: usize, string: &[u8]) {
    put_bytes(cache, at, string);
    put_byte(cache, at.wrapping_add(string.len()), 0);
}

// Puts digit `n` of the bytes from `at` on, and counts it; a space counts for none. A digit moves
// into its byte from the right, so that two of them replace it.
fn put_digit(cache: &mut [u8], at: usize, n: usize, c: u8) -> usize {
    if c == b' ' {
        return n;
    }
    let place = at.wrapping_add(n / 2);
    let high = script::byte(cache, place) % 16 * 16;
    put_byte(cache, place, high | script::digit(c));
    n.wrapping_add(1)
}

// Puts the bytes that the digits write.
fn put_hex(cache: &mut [u8], at: usize, hex: &[u8]) {
    let mut n: usize = 0;
    for c in hex {
        n = put_digit(cache, at, n, *c);
    }
}

// Puts the same byte `count` times.
fn fill(cache: &mut [u8], at: usize, count: usize, value: u8) {
    for i in 0..count {
        put_byte(cache, at.wrapping_add(i), value);
    }
}

// The commands that only write.
pub fn write(line: &[u8], w: Words, cache: &mut [u8]) {
    let command = w.command;
    match command {
        b'b' => put_hex(cache, w.a, script::rest(line, w.second)),
        b'f' => fill(cache, w.a, w.b, script::byte(line, w.third)),
        b'u' => put_u32(cache, w.a, w.b),
        b't' => put_string(cache, w.a, script::rest(line, w.second)),
        b'i' => images::put(cache, w.a, w.b),
        b'r' => icons::put(cache),
        _ => {}
    }
}

// Makes a cache of zero bytes.
fn clear(cache: &mut [u8], length: usize, kept: usize) -> Lengths {
    fill(cache, 0, length, 0);
    Lengths {
        cache: length,
        kept,
    }
}

// Copies one cache over another, and a zero byte that counts to neither.
fn copy(to: &mut [u8], from: &[u8], length: usize) -> Lengths {
    put_string(to, 0, script::part(from, 0, length));
    Lengths {
        cache: length,
        kept: length,
    }
}

// The commands that give the cache a length.
pub fn resize(w: Words, cache: &mut [u8], kept: &mut [u8], before: Lengths) -> Lengths {
    let command = w.command;
    match command {
        b'z' => clear(cache, w.a, before.kept),
        b'o' => Lengths {
            cache: w.a,
            kept: before.kept,
        },
        b'k' => copy(kept, cache, before.cache),
        b'a' => copy(cache, kept, before.kept),
        _ => before,
    }
}
