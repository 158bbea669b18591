// The calls by an IMAGE_DATA_OFFSET, which is any number, for what stands behind it: the rectangle,
// an attach point, and the language and the text of a display name. Each judges what it reads on
// its way and nothing beside.
#![tactic(auto)]

ghost use Rattle.std.specs.Prelude.{◌≡◌, ℕ, ◌+◌, ◌≤◌, ◌<◌, length, take, drop, IfOk, IfErr};
ghost use Rattle.format.specs.Number.{be};
ghost use Rattle.format.specs.Fault.{◌or_else◌, outcome};
ghost use Rattle.format.specs.ImageData.{entry_at};
ghost use Rattle.format.specs.Notes.{note_fault};
ghost use Rattle.image_data.specs.Call.{rectangle_answer, point_answer, string_answer, meta_at, rectangle_at, display_name_at, part_fault, meta_fault, entry_fault, rectangle_call_fault, string_of, display_fault, attach_point, display_language, display_text, language_bytes, text_bytes};
ghost use Rattle.image_data.specs.Call as calls;
ghost use Rattle.image_data.specs.Promise.{AfterLong};

use bigendian::{u16_at, u32_at};
use format::{Extent, Fault};

// The two corners of a rectangle.
#[derive(Clone, Copy)]
pub struct Corners {
    pub x0: u16,
    pub y0: u16,
    pub x1: u16,
    pub y1: u16,
}

// An attach point.
#[derive(Clone, Copy)]
pub struct Point {
    pub x: u16,
    pub y: u16,
}

// Where a display name's language or its text stands in the buffer.
#[derive(Clone, Copy)]
pub struct Span {
    pub start: usize,
    pub length: usize,
}

// The way to the part at `at`, whose `size` bytes have to lie inside: else 22 with `place`. `at` is
// any number, so nothing is added to it.
fn part(cache: &[u8], at: usize, size: usize, place: usize) -> Result<usize, Fault>
    requires { size ≤ length cache.now }
    ensures { result ≡ outcome (part_fault cache.now at size place) at }
{
    if at == 0 {
        return Err(Fault {
            number: 33,
            place: 0,
        });
    }
    if cache.len() - size < at {
        return Err(Fault { number: 22, place });
    }
    Ok(at)
}

// The way to the meta data, on which rules 1 and 2 are judged first.
fn meta_data(cache: &[u8], data: usize) -> Result<usize, Fault>
    ensures { result ≡ outcome (meta_fault cache.now «data») (meta_at cache.now «data») }
{
    if cache.len() < 12 {
        return Err(Fault {
            number: 1,
            place: 0,
        });
    }
    if 16777216 < cache.len() {
        return Err(Fault {
            number: 2,
            place: 0,
        });
    }
    part(cache, data, 8, 0)?;
    let field = data + 4;
    part(cache, u32_at(cache, field) as usize, 12, field)
}

// The way to the rectangle.
fn rectangle_part(cache: &[u8], data: usize) -> Result<usize, Fault>
    ensures { result ≡ outcome (rectangle_call_fault cache.now «data») (rectangle_at cache.now «data») }
{
    let field = meta_data(cache, data)?;
    part(cache, u32_at(cache, field) as usize, 8, field)
}

// The way to the entry `entry` of the list that `field` names, where each entry has `size` bytes.
fn listed(cache: &[u8], field: usize, size: usize, entry: usize) -> Result<usize, Fault>
    requires { (field + 4 ≤ length cache.now) × (size ≤ 8) }
    ensures { result ≡ outcome (entry_fault cache.now field size entry) (entry_at (be 4 cache.now field) size entry) }
{
    let list = u32_at(cache, field) as usize;
    if list == 0 {
        return Err(Fault {
            number: 33,
            place: 0,
        });
    }
    if !notes::valid_entries(cache, list, size) {
        return Err(Fault {
            number: 22,
            place: field,
        });
    }
    if u32_at(cache, list) as usize <= entry {
        return Err(Fault {
            number: 33,
            place: 0,
        });
    }
    Ok(list + 4 + size * entry)
}

// The way to an entry of the list that the meta data names in its field at `which`.
fn entry_part(
    cache: &[u8],
    data: usize,
    which: usize,
    size: usize,
    entry: usize,
) -> Result<usize, Fault>
    requires { (which ≤ 8) × (size ≤ 8) }
    ensures { result ≡ outcome (meta_fault cache.now «data» or_else entry_fault cache.now (meta_at cache.now «data» + which) size entry) (entry_at (be 4 cache.now (meta_at cache.now «data» + which)) size entry) }
{
    let at = meta_data(cache, data)?;
    listed(cache, at + which, size, entry)
}

// The rectangle behind the IMAGE_DATA_OFFSET `data`.
pub fn rectangle(cache: &[u8], data: usize) -> Result<Corners, Fault>
    ensures answer { rectangle_answer result ≡ calls.rectangle cache.now «data» }
    ensures refused { IfErr result (λ fault. 0 < fault.number) }
    ensures kept { AfterLong cache.now «data» (rectangle_answer result).number }
{
    let at = rectangle_part(cache, data)?;
    Ok(Corners {
        x0: u16_at(cache, at),
        y0: u16_at(cache, at + 2),
        x1: u16_at(cache, at + 4),
        y1: u16_at(cache, at + 6),
    })
}

// The attach point `entry` behind it.
pub fn attach_point(cache: &[u8], data: usize, entry: usize) -> Result<Point, Fault>
    ensures answer { point_answer result ≡ attach_point cache.now «data» entry }
    ensures refused { IfErr result (λ fault. 0 < fault.number) }
    ensures kept { AfterLong cache.now «data» (point_answer result).number }
{
    let at = entry_part(cache, data, 4, 4, entry)?;
    Ok(Point {
        x: u16_at(cache, at),
        y: u16_at(cache, at + 2),
    })
}

// Rule 24 on the string that `field` names, and where the string stands.
fn string(cache: &[u8], field: usize) -> Result<Span, Fault>
    requires { field + 4 ≤ length cache.now }
    ensures { result ≡ outcome (note_fault cache.now field) (string_of cache.now field) }
{
    let Extent::Whole(length) = notes::extent_at(cache, field) else {
        return Err(Fault {
            number: 24,
            place: field,
        });
    };
    Ok(Span {
        start: u32_at(cache, field) as usize,
        length,
    })
}

// The string that the display name `entry` names in its field at `which`.
fn display(cache: &[u8], data: usize, entry: usize, which: usize) -> Result<Span, Fault>
    requires { which ≤ 4 }
    ensures { result ≡ outcome (display_fault cache.now «data» entry (display_name_at cache.now «data» entry + which)) (string_of cache.now (display_name_at cache.now «data» entry + which)) }
{
    let at = entry_part(cache, data, 8, 8, entry)?;
    string(cache, at + which)
}

// The language of the display name `entry` behind the IMAGE_DATA_OFFSET `data`. It and its text have a
// call each, as in the interface for C.
pub fn display_language(cache: &[u8], data: usize, entry: usize) -> Result<Span, Fault>
    ensures answer { string_answer result ≡ display_language cache.now «data» entry }
    ensures refused { IfErr result (λ fault. 0 < fault.number) }
    ensures kept { AfterLong cache.now «data» (string_answer result).number }
    ensures inside { IfOk result (λ part. part.start + part.length ≤ length cache.now) }
{
    display(cache, data, entry, 0)
}

// Its text.
pub fn display_name(cache: &[u8], data: usize, entry: usize) -> Result<Span, Fault>
    ensures answer { string_answer result ≡ display_text cache.now «data» entry }
    ensures refused { IfErr result (λ fault. 0 < fault.number) }
    ensures kept { AfterLong cache.now «data» (string_answer result).number }
    ensures inside { IfOk result (λ part. part.start + part.length ≤ length cache.now) }
{
    display(cache, data, entry, 4)
}

// The bytes of a part, and none of a refusal.
fn bytes(cache: &[u8], part: Result<Span, Fault>) -> &[u8]
    requires { IfOk part (λ part. part.start + part.length ≤ length cache.now) }
    ensures { result.now ≡ take (string_answer part).length (drop (string_answer part).start cache.now) }
{
    match part {
        Ok(Span { start, length }) => &cache[start..start + length],
        Err(_) => &cache[..0],
    }
}

// The language itself, as a part of `cache`; empty where `display_language` refuses.
pub fn display_language_bytes(cache: &[u8], data: usize, entry: usize) -> &[u8]
    ensures { result.now ≡ language_bytes cache.now «data» entry }
{
    let part = display_language(cache, data, entry);
    bytes(cache, part)
}

// The text itself; empty where `display_name` refuses.
pub fn display_name_bytes(cache: &[u8], data: usize, entry: usize) -> &[u8]
    ensures { result.now ≡ text_bytes cache.now «data» entry }
{
    let part = display_name(cache, data, entry);
    bytes(cache, part)
}
