// Prints one line for each answer: the case, the call, and every number that the call gives.
use format::{CheckAnswer, Fault, LookupAnswer, Reading};
use listing::Position;
use std::fmt;
use std::fmt::Write;

// A write that fails is passed over: the stored output of the cases would show that it is missing.
pub fn print(rt: &impl Print, text: &[u8]) {
    let _ = rt.write_all(text);
}

// What is written to it is printed piece by piece in the same way, and what comes after a write that
// fails is tried all the same.
#[derive(Drop)]
pub struct Tried<'a, P>(pub &'a P);

impl<P: Print> Write for Tried<'_, P> {
    fn write_str(&mut self, text: &str) -> fmt::Result {
        print(self.0, text.as_bytes());
        Ok(())
    }
}

pub fn begin(rt: &impl Print, case: &[u8], call: &str, number: u32, place: usize) {
    print(rt, case);
    let _ = write!(Tried(rt), "{call}{number} at {place}");
}

// The number and the place of an answer, which are 0 where it is no refusal.
pub fn numbers<T>(answer: &Result<T, Fault>) -> (u32, usize) {
    match answer {
        Ok(_) => (0, 0),
        Err(fault) => (fault.number, fault.place),
    }
}

// The line of a check, of which `call` says the reading.
pub fn checked(rt: &impl Print, case: &[u8], call: &str, answer: CheckAnswer) {
    begin(rt, case, call, answer.number, answer.place);
    let _ = write!(
        Tried(rt),
        ", directories {}, icons {}, opened {}, longest {}\n",
        answer.directories,
        answer.icons,
        answer.opened,
        answer.longest
    );
}

pub fn check(rt: &impl Print, case: &[u8], cache: &[u8]) {
    let answer = icon_cache::check(cache, Reading::Short);
    checked(rt, case, ": check ", answer);
}

// The line of a lookup, of which `call` says the way, left open for what is to be said of its words.
pub fn begin_lookup(rt: &impl Print, case: &[u8], call: &str, answer: LookupAnswer) {
    begin(rt, case, call, answer.number, answer.place);
    let _ = write!(
        Tried(rt),
        ", images {}, opened {}",
        answer.images,
        answer.opened
    );
}

// The words, and the end of the line.
pub fn print_words(rt: &impl Print, words: &[u32]) {
    if words.is_empty() {
        print(rt, b", no words");
        print(rt, b"\n");
        return;
    }
    let _ = write!(Tried(rt), ", words");
    for word in words {
        let _ = write!(Tried(rt), " {word}");
    }
    print(rt, b"\n");
}

// A lookup with `room` words lent, at most 6. Each holds 7 beforehand, so that an untouched one
// shows.
pub fn lookup(rt: &impl Print, case: &[u8], cache: &[u8], name: &[u8], room: usize) {
    let mut words = [7u32; 6];
    let lent = cases_lent::front(&mut words, room);
    let answer = icon_cache::lookup(cache, name, lent);
    begin_lookup(rt, case, ": lookup ", answer);
    print_words(rt, lent);
}

// A plain lookup with words lent in the same way.
pub fn plain_lookup(rt: &impl Print, case: &[u8], cache: &[u8], name: &[u8], room: usize) {
    let mut words = [7u32; 6];
    let lent = cases_lent::front(&mut words, room);
    let answer = plain_lookup::plain_lookup(cache, name, lent);
    begin_lookup(rt, case, ": plain lookup ", answer);
    print_words(rt, lent);
}

pub fn directory(rt: &impl Print, case: &[u8], cache: &[u8], index: usize) {
    match icon_cache::directory(cache, index) {
        Ok(()) => begin(rt, case, ": directory ", 0, 0),
        Err(fault) => begin(rt, case, ": directory ", fault.number, fault.place),
    }
    print(rt, b", path \"");
    print(rt, icon_cache::directory_path(cache, index));
    print(rt, b"\"\n");
}

pub fn step(rt: &impl Print, case: &[u8], cache: &[u8], from: Position) {
    let (record, next) = match from.next(cache) {
        Ok(step) => {
            begin(rt, case, ": step ", 0, 0);
            (step.record, step.next)
        }
        Err(fault) => {
            begin(rt, case, ": step ", fault.number, fault.place);
            (0, from)
        }
    };
    let Position { bucket, count } = next;
    let _ = write!(
        Tried(rt),
        ", record {record}, bucket {bucket}, count {count}\n"
    );
}

// The hash of the name at the front of `part`.
pub fn hash(rt: &impl Print, case: &[u8], part: &[u8]) {
    print(rt, case);
    let _ = write!(Tried(rt), ": hash {}\n", strings::read_name(part).hash);
}

// One call for flags; its case is named by what is given.
fn turn(rt: &impl Print, given: u16, numbering: u32, call: &str, answer: Result<u16, Fault>) {
    let _ = write!(Tried(rt), "flags {given} and numbering {numbering}");
    let (number, place) = numbers(&answer);
    begin(rt, b"", call, number, place);
    let _ = write!(Tried(rt), ", flags {}\n", answer.unwrap_or(0));
}

// Both calls for flags, with the low 16 bits of `a` and the low 32 of `b`.
pub fn flags(rt: &impl Print, a: usize, b: usize) {
    let given = (a % 65536) as u16;
    let numbering = (b % 4294967296) as u32;
    let inward = flags::flags_in(given, numbering);
    turn(rt, given, numbering, ": in ", inward);
    let outward = flags::flags_out(given, numbering);
    turn(rt, given, numbering, ": out ", outward);
}
