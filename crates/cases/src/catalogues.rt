// Catalogues written as caches, caches listed as catalogues, and caches squeezed. What is to stand in
// the lent bytes stands in the buffer, from 1,024 on.
use crate::answers;
use crate::answers::Tried;
use format::Fault;
use std::fmt::Write;

fn say(
    rt: &impl Print,
    case: &[u8],
    call: &str,
    answer: Result<usize, Fault>,
    lent: &[u8],
    buffer: &[u8],
) {
    let right = cases_lent::count_same(lent, buffer);
    let (number, place, length) = match answer {
        Ok(length) => (0, 0, length),
        Err(fault) => (fault.number, fault.place, 0),
    };
    answers::begin(rt, case, call, number, place);
    let _ = write!(Tried(rt), ", length {length}, bytes right {right}\n");
}

// Writes a cache with `room` bytes lent, at most 256. Each is a dot beforehand, so that an untouched
// one shows.
pub fn write(
    rt: &impl Print,
    case: &[u8],
    catalogue: &[u8],
    buckets: usize,
    room: usize,
    buffer: &[u8],
) {
    let mut bytes = [46u8; 256];
    let lent = cases_lent::front(&mut bytes, room);
    let answer = write_cache::write(catalogue, buckets, lent);
    say(rt, case, ": write ", answer, lent, buffer);
}

// Lists a cache as a catalogue in the same way.
pub fn list(rt: &impl Print, case: &[u8], cache: &[u8], room: usize, buffer: &[u8]) {
    let mut bytes = [46u8; 256];
    let lent = cases_lent::front(&mut bytes, room);
    let answer = export::catalogue_of(cache, lent);
    say(rt, case, ": catalogue ", answer, lent, buffer);
}

// Squeezes a cache in the same way.
pub fn squeeze(rt: &impl Print, case: &[u8], cache: &[u8], room: usize, buffer: &[u8]) {
    let mut bytes = [46u8; 256];
    let lent = cases_lent::front(&mut bytes, room);
    let answer = squeeze::squeeze(cache, lent);
    say(rt, case, ": squeeze ", answer, lent, buffer);
}
