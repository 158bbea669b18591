// Judges one path and one icon of any bytes taken as a catalogue, field by field: 18. What is judged
// is in the specs/ of `catalogue`.
#![tactic(auto)]

ghost use Rattle.std.specs.Prelude.{◌≡◌, ◌&&◌, ◌+◌, ◌≤◌, ◌<◌, length, leb};
ghost use Rattle.format.specs.Number.{be};
ghost use Rattle.format.specs.Part.{inside};
ghost use Rattle.format.specs.Fault.{outcome};
ghost use Rattle.format.specs.Record.{valid_index};
ghost use Rattle.catalogue.specs.Fields.{path_end, image_end, icon_end};
ghost use Rattle.catalogue.specs.Judgement.{valid_path_length, valid_path_text, valid_image_field, valid_name_length, valid_name_text, path_fields_fault, image_field_fault, icon_fields_fault};
ghost use Rattle.entries.specs.Judged.{row_judged};

use bigendian::{byte, u16_at};
use format::Fault;

// Whether the length of the path at `at` is there, and is 1 to 1,023.
fn valid_path_length(catalogue: &[u8], at: usize) -> bool
    requires { at ≤ length catalogue.now }
    ensures { result ≡ valid_path_length catalogue.now at }
{
    if catalogue.len() - at < 2 {
        return false;
    }
    let length = u16_at(catalogue, at);
    0 < length && length <= 1023
}

// Whether the text of the path at `at`, whose length is there, is there too and allowed.
fn valid_path_text(catalogue: &[u8], at: usize) -> bool
    requires { at + 2 ≤ length catalogue.now }
    ensures { result ≡ valid_path_text catalogue.now at }
{
    let length = u16_at(catalogue, at) as usize;
    let text = at + 2;
    if catalogue.len() - text < length {
        return false;
    }
    let end = text + length;
    paths::allowed_path(&catalogue[text..end])
}

// The path at `at`: its length, then its text. Where it ends.
pub fn path(catalogue: &[u8], at: usize) -> Result<usize, Fault>
    requires { at ≤ length catalogue.now }
    ensures { result ≡ outcome (path_fields_fault catalogue.now at) (path_end catalogue.now at) }
{
    if !valid_path_length(catalogue, at) {
        return Err(Fault {
            number: 18,
            place: at,
        });
    }
    let text = at + 2;
    if !valid_path_text(catalogue, at) {
        return Err(Fault {
            number: 18,
            place: text,
        });
    }
    Ok(text + u16_at(catalogue, at) as usize)
}

// Whether the index of a directory is valid where there are `n`.
fn valid_index(n: usize, index: usize) -> bool
    ensures { result ≡ valid_index n index }
{
    if n == 0 { index == 0xFFFF } else { index < n }
}

// Whether the image at `at` is there and allowed, in a catalogue with `n` directories.
fn valid_image(catalogue: &[u8], n: usize, at: usize) -> bool
    requires { at ≤ length catalogue.now }
    ensures { result ≡ valid_image_field n catalogue.now at }
{
    if catalogue.len() - at < 8 {
        return false;
    }
    let index = u16_at(catalogue, at) as usize;
    let flags = u16_at(catalogue, at + 2);
    valid_index(n, index) && flags <= 15
}

// `m` images from `at` on, in a catalogue with `n` directories: where they end.
fn images(catalogue: &[u8], n: usize, m: usize, at: usize) -> Result<usize, Fault>
    requires { at ≤ length catalogue.now }
    ensures { result ≡ row_judged (image_field_fault n catalogue.now) image_end m at }
{
    for i in 0..m {
        let place = at + 8 * i;
        if !valid_image(catalogue, n, place) {
            return Err(Fault { number: 18, place });
        }
    }
    Ok(at + 8 * m)
}

// Whether the length of the name of the icon at `at` is there, and is not 0.
fn valid_name_length(catalogue: &[u8], at: usize) -> bool
    requires { at ≤ length catalogue.now }
    ensures { result ≡ valid_name_length catalogue.now at }
{
    if catalogue.len() == at {
        return false;
    }
    0 < byte(catalogue, at)
}

// Whether the name of the icon at `at`, whose length is there, is there too and allowed.
fn valid_name_text(catalogue: &[u8], at: usize) -> bool
    requires { at < length catalogue.now }
    ensures { result ≡ valid_name_text catalogue.now at }
{
    let length = byte(catalogue, at) as usize;
    let text = at + 1;
    if catalogue.len() - text < length {
        return false;
    }
    let end = text + length;
    strings::asked(&catalogue[text..end]).is_ok()
}

// Whether the count of images at `at` is there, and not too large.
fn valid_image_count(catalogue: &[u8], at: usize) -> bool
    requires { at ≤ length catalogue.now }
    ensures { result ≡ (inside catalogue.now at 2 && leb (be 2 catalogue.now at) 1024) }
{
    if catalogue.len() - at < 2 {
        return false;
    }
    u16_at(catalogue, at) <= 1024
}

// The icon at `at`, in a catalogue with `n` directories: the length of its name, its name, the
// count of its images, and these. Where it ends.
pub fn icon(catalogue: &[u8], n: usize, at: usize) -> Result<usize, Fault>
    requires { at ≤ length catalogue.now }
    ensures { result ≡ outcome (icon_fields_fault n catalogue.now at) (icon_end catalogue.now at) }
{
    if !valid_name_length(catalogue, at) {
        return Err(Fault {
            number: 18,
            place: at,
        });
    }
    let text = at + 1;
    if !valid_name_text(catalogue, at) {
        return Err(Fault {
            number: 18,
            place: text,
        });
    }
    let count = text + byte(catalogue, at) as usize;
    if !valid_image_count(catalogue, count) {
        return Err(Fault {
            number: 18,
            place: count,
        });
    }
    let m = u16_at(catalogue, count) as usize;
    images(catalogue, n, m, count + 2)
}
