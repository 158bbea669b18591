// Judges what an IMAGE_DATA_OFFSET leads to: rules 22 to 24, part by part. A part is named by a
// field, and one whose field holds 0 is not there. All sums are of 64 bits.
#![tactic(auto)]

ghost use Rattle.std.specs.Prelude.{◌≡◌, ◌+◌, ◌*◌, ◌≤◌, ◌<◌, ◌^◌, length};
ghost use Rattle.format.specs.Fault.{first_fault, step_on, verdict};
ghost use Rattle.format.specs.String.{extent};
ghost use Rattle.format.specs.Notes.{note_part, pixel_data_inside, valid_entries, note_fault, display_name_fault, pixel_data_fault, rectangle_fault, points_fault, names_fault, meta_data_fault, image_data_fault, notes_fault};
ghost use Rattle.notes.specs.Again.{KeptBehind};

use bigendian::u32_at;
use format::{Extent, Fault};
use tables::list_inside;

// What the string is that `field` names.
pub fn extent_at(cache: &[u8], field: usize) -> Extent
    requires { field + 4 ≤ length cache.now }
    ensures { result ≡ extent 255 (note_part cache.now field) }
{
    let at = u32_at(cache, field) as usize;
    let read = strings::read_name(strings::from(cache, at));
    read.extent
}

// Rule 24 on it.
#[tactic(auto, unfolding(format::specs::Notes::note_fault, format::specs::String::is_whole))]
fn note(cache: &[u8], field: usize) -> Result<(), Fault>
    requires { field + 4 ≤ length cache.now }
    ensures { result ≡ verdict (note_fault cache.now field) }
{
    match extent_at(cache, field) {
        Extent::Whole(_) => Ok(()),
        _ => Err(Fault {
            number: 24,
            place: field,
        }),
    }
}

// The same on the display name at `at`: its language, then its text.
fn display_name(cache: &[u8], at: usize) -> Result<(), Fault>
    requires { at + 8 ≤ length cache.now }
    ensures { result ≡ verdict (display_name_fault cache.now at) }
{
    note(cache, at)?;
    note(cache, at + 4)
}

// The same on `count` display names from `at` on.
fn display_names(cache: &[u8], count: u32, at: usize) -> Result<(), Fault>
    requires { at + 8 * count ≤ length cache.now }
    ensures { result ≡ verdict (first_fault (display_name_fault cache.now) (step_on 8) count at) }
{
    for i in 0..count as usize {
        display_name(cache, at + 8 * i)?;
    }
    Ok(())
}

// Whether the list at `at` lies inside, with at most 1,024 entries of `size` bytes.
pub fn valid_entries(cache: &[u8], at: usize, size: usize) -> bool
    requires { (at < 2 ^ 32) × (size ≤ 8) }
    ensures { result ≡ valid_entries cache.now at size }
{
    list_inside(cache, at, size) && u32_at(cache, at) <= 1024
}

// Rule 22 on the rectangle that `field` names.
#[tactic(auto, unfolding(format::specs::Notes::rectangle_fault))]
fn rectangle(cache: &[u8], field: usize) -> Result<(), Fault>
    requires { field + 4 ≤ length cache.now }
    ensures { result ≡ verdict (rectangle_fault cache.now field) }
{
    let at = u32_at(cache, field) as usize;
    if at == 0 {
        return Ok(());
    }
    if cache.len() < at + 8 {
        return Err(Fault {
            number: 22,
            place: field,
        });
    }
    Ok(())
}

// Rule 22 on the attach points that `field` names.
#[tactic(auto, unfolding(format::specs::Notes::points_fault))]
fn points(cache: &[u8], field: usize) -> Result<(), Fault>
    requires { field + 4 ≤ length cache.now }
    ensures { result ≡ verdict (points_fault cache.now field) }
{
    let at = u32_at(cache, field) as usize;
    if at == 0 {
        return Ok(());
    }
    if !valid_entries(cache, at, 4) {
        return Err(Fault {
            number: 22,
            place: field,
        });
    }
    Ok(())
}

// Rules 22 and 24 on the display names that `field` names.
fn names(cache: &[u8], field: usize) -> Result<(), Fault>
    requires { field + 4 ≤ length cache.now }
    ensures { result ≡ verdict (names_fault cache.now field) }
{
    let at = u32_at(cache, field) as usize;
    if at == 0 {
        return Ok(());
    }
    if !valid_entries(cache, at, 8) {
        return Err(Fault {
            number: 22,
            place: field,
        });
    }
    display_names(cache, u32_at(cache, at), at + 4)
}

// Rules 22 and 24 on the meta data that `field` names, and on its parts.
fn meta_data(cache: &[u8], field: usize) -> Result<(), Fault>
    requires { field + 4 ≤ length cache.now }
    ensures { result ≡ verdict (meta_data_fault cache.now field) }
{
    let at = u32_at(cache, field) as usize;
    if at == 0 {
        return Ok(());
    }
    if cache.len() < at + 12 {
        return Err(Fault {
            number: 22,
            place: field,
        });
    }
    rectangle(cache, at)?;
    points(cache, at + 4)?;
    names(cache, at + 8)
}

// Whether the pixel data at `at` lies inside, with its pixels.
fn pixels_inside(cache: &[u8], at: usize) -> bool
    requires { at < 2 ^ 32 }
    ensures { result ≡ pixel_data_inside cache.now at }
{
    if cache.len() < at + 8 {
        return false;
    }
    let pixels = u32_at(cache, at + 4) as usize;
    at + (8 + pixels) <= cache.len()
}

// Rules 22 and 23 on the pixel data that `field` names.
fn pixel_data(cache: &[u8], field: usize) -> Result<(), Fault>
    requires { field + 4 ≤ length cache.now }
    ensures { result ≡ verdict (pixel_data_fault cache.now field) }
{
    let at = u32_at(cache, field) as usize;
    if at == 0 {
        return Ok(());
    }
    if !pixels_inside(cache, at) {
        return Err(Fault {
            number: 22,
            place: field,
        });
    }
    if u32_at(cache, at) != 0 {
        return Err(Fault {
            number: 23,
            place: field,
        });
    }
    Ok(())
}

// Rules 22 to 24 on the image data that `field` names, and on all behind it.
fn image_data(cache: &[u8], field: usize) -> Result<(), Fault>
    requires { field + 4 ≤ length cache.now }
    ensures { result ≡ verdict (image_data_fault cache.now field) }
{
    let data = u32_at(cache, field) as usize;
    if data == 0 {
        return Ok(());
    }
    if cache.len() < data + 8 {
        return Err(Fault {
            number: 22,
            place: field,
        });
    }
    pixel_data(cache, data)?;
    meta_data(cache, data + 4)
}

// The same where the field may hold `last`, an offset that keeps the rules: then it isn't judged
// again.
fn again(cache: &[u8], field: usize, last: u32) -> Result<(), Fault>
    requires field_in_bounds { field + 4 ≤ length cache.now }
    requires kept_behind { KeptBehind cache.now last }
    ensures { result ≡ verdict (image_data_fault cache.now field) }
{
    if u32_at(cache, field) == last {
        Ok(())
    } else {
        image_data(cache, field)
    }
}

// The same behind each of `count` images from `at` on. Where images in a row have one image data,
// it is judged once.
pub fn behind(cache: &[u8], count: u32, at: usize) -> Result<(), Fault>
    requires { at + 8 * count ≤ length cache.now }
    ensures { result ≡ verdict (notes_fault count cache.now at) }
{
    let mut last = 0;
    for i in 0..count as usize {
        let field = at + 8 * i + 4;
        again(cache, field, last)?;
        last = u32_at(cache, field);
    }
    Ok(())
}
