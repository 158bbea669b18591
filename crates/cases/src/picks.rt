// Picks. The words lent for the directories stand in the buffer, from 1,024 on.
use crate::answers;
use cases_made::script::Words;

// The low 32 bits.
fn low(value: usize) -> u32 {
    (value % 4294967296) as u32
}

fn pick_with(
    rt: &impl Print,
    case: &[u8],
    cache: &[u8],
    name: &[u8],
    w: Words,
    directories: &[u32],
) {
    match pick::pick(cache, name, low(w.b), low(w.c), directories) {
        Ok(picked) => answers::begin(rt, case, ": pick ", 0, picked.unwrap_or(0)),
        Err(fault) => answers::begin(rt, case, ": pick ", fault.number, fault.place),
    }
    answers::print(rt, b"\n");
}

// A pick for size `w.b` and scale `w.c` with `w.a` words lent, at most 24.
pub fn pick(rt: &impl Print, case: &[u8], cache: &[u8], name: &[u8], w: Words, buffer: &[u8]) {
    let mut words = [0u32; 24];
    let words = cases_lent::front(&mut words, w.a);
    cases_lent::read(buffer, words);
    pick_with(rt, case, cache, name, w, words);
}
