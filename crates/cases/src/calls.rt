// The commands that ask, and print what is answered.
use crate::{answers, catalogues, icons, image_notes, images, picks, salvages};
use cases_made::script;
use cases_made::script::Words;
use listing::Position;

// The lookups and the picks. A query's name is a part of the buffer.
fn look_up(rt: &impl Print, case: &[u8], line: &[u8], w: Words, buffer: &[u8], cache: &[u8]) {
    let name = script::rest(line, w.second);
    let to = w.b.wrapping_add(w.c);
    let command = w.command;
    match command {
        b'l' => answers::lookup(rt, case, cache, name, w.a),
        b'P' => answers::plain_lookup(rt, case, cache, name, w.a),
        b'p' => picks::pick(rt, case, cache, script::rest(line, w.fourth), w, buffer),
        b'w' => images::lookup(rt, case, cache, name, w.a),
        b'q' => answers::lookup(rt, case, cache, script::part(buffer, w.b, to), w.a),
        _ => {}
    }
}

fn step(rt: &impl Print, case: &[u8], cache: &[u8], bucket: usize, count: usize) {
    answers::step(rt, case, cache, Position { bucket, count });
}

// Asks what the line says of the cache, the first `length` bytes of the buffer.
pub fn ask(rt: &impl Print, case: &[u8], line: &[u8], w: Words, buffer: &[u8], length: usize) {
    let cache = script::part(buffer, 0, length);
    look_up(rt, case, line, w, buffer, cache);
    let command = w.command;
    match command {
        b'c' => answers::check(rt, case, cache),
        b'd' => answers::directory(rt, case, cache, w.a),
        b'e' => icons::ask(rt, case, cache),
        b'g' => catalogues::list(rt, case, cache, w.a, buffer),
        b'h' => answers::hash(rt, case, script::rest(cache, w.a)),
        b'j' => image_notes::check(rt, case, cache),
        b'm' => catalogues::write(rt, case, cache, w.a, w.b, buffer),
        b'n' => answers::flags(rt, w.a, w.b),
        b's' => step(rt, case, cache, w.a, w.b),
        b'v' => image_notes::view(rt, case, cache, w.a, w.b),
        b'x' => catalogues::squeeze(rt, case, cache, w.a, buffer),
        b'y' => salvages::save(rt, case, cache, w.a, w.b, buffer),
        _ => {}
    }
}
