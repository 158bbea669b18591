// The public calls for C: bindings/c/icon_cache.h declares them. Each hands on the library's answer
// whole, the number as its result and the rest through the pointers; but the path call leaves out
// the place, which `icon_cache_directory` gives, and so do the calls for flags, where it is always
// 0.
#![tactic(auto)]

ghost use Rattle.std.specs.Prelude.{◌≡◌, length, MatchResult};
ghost use Rattle.format.specs.Answer.{checked, looked_up, directory_is, part_is};
ghost use Rattle.format.specs.Call.{check, lookup, lookup_words, directory, directory_part};
ghost use Rattle.format.specs.declared.Reading.TheVariants.{Short, Long};
ghost use Rattle.plain_lookup.specs.Plain.{plain_lookup, plain_words};
ghost use Rattle.pick.specs.Pick.{pick_is, pick};
ghost use Rattle.listing.specs.Listing.{position, step, step_is};
ghost use Rattle.flags.specs.Flags.{flags_is, flags_in, flags_out};
ghost use Rattle.image_data.specs.Call.{rectangle_is, point_is, string_is, rectangle, attach_point, display_language, display_text};
ghost use Rattle.catalogue.specs.Call.{write_is, write, write_leaves, catalogue_of, catalogue_leaves};
ghost use Rattle.salvage_spec.specs.Call.{salvage_is, salvage, bytes_left_of, words_left_of};
ghost use Rattle.squeeze_spec.specs.Call.{squeeze, squeeze_leaves};

use format::{CheckAnswer, Fault};
use image_data::{Corners, Point, Span};
use listing::{Position, Step};
use salvage::Saved;

// Hands on an answer of the check.
fn hand_on(
    answer: CheckAnswer,
    place: &mut usize,
    directories: &mut usize,
    icons: &mut usize,
    opened: &mut usize,
    longest: &mut usize,
) -> u32
    ensures { checked result place.new directories.new icons.new opened.new longest.new ≡ answer }
{
    *place = answer.place;
    *directories = answer.directories;
    *icons = answer.icons;
    *opened = answer.opened;
    *longest = answer.longest;
    answer.number
}

// An answer as its number, its place and what it gives: with a refusal that is `none`, and else the
// number and the place are 0.
fn spread<T: Copy>(answer: Result<T, Fault>, none: T) -> (u32, usize, T)
    ensures { MatchResult answer (λ value. result ≡ (0, 0, value)) (λ fault. result ≡ (fault.number, fault.place, none)) }
{
    match answer {
        Ok(value) => (0, 0, value),
        Err(fault) => (fault.number, fault.place, none),
    }
}

#[unsafe(no_mangle)]
pub extern "C" fn icon_cache_check(
    cache: &[u8],
    place: &mut usize,
    directories: &mut usize,
    icons: &mut usize,
    opened: &mut usize,
    longest: &mut usize,
) -> u32
    ensures { checked result place.new directories.new icons.new opened.new longest.new ≡ check Short cache.now }
{
    let answer = icon_cache::check_short(cache);
    hand_on(answer, place, directories, icons, opened, longest)
}

#[unsafe(no_mangle)]
pub extern "C" fn icon_cache_check_long(
    cache: &[u8],
    place: &mut usize,
    directories: &mut usize,
    icons: &mut usize,
    opened: &mut usize,
    longest: &mut usize,
) -> u32
    ensures { checked result place.new directories.new icons.new opened.new longest.new ≡ check Long cache.now }
{
    let answer = icon_cache::check_long(cache);
    hand_on(answer, place, directories, icons, opened, longest)
}

#[unsafe(no_mangle)]
pub extern "C" fn icon_cache_lookup(
    cache: &[u8],
    name: &[u8],
    words: &mut [u32],
    place: &mut usize,
    images: &mut usize,
    opened: &mut usize,
) -> u32
    ensures answer { looked_up result place.new images.new opened.new ≡ lookup cache.now name.now (length words.old) }
    ensures lent { words.new ≡ lookup_words cache.now name.now words.old }
{
    let answer = icon_cache::lookup(cache, name, words);
    *place = answer.place;
    *images = answer.images;
    *opened = answer.opened;
    answer.number
}

#[unsafe(no_mangle)]
pub extern "C" fn icon_cache_plain_lookup(
    cache: &[u8],
    name: &[u8],
    words: &mut [u32],
    place: &mut usize,
    images: &mut usize,
    opened: &mut usize,
) -> u32
    ensures answer { looked_up result place.new images.new opened.new ≡ plain_lookup cache.now name.now (length words.old) }
    ensures lent { words.new ≡ plain_words cache.now name.now words.old }
{
    let tried = plain_lookup::plain_lookup(cache, name, words);
    *place = tried.place;
    *images = tried.images;
    *opened = tried.opened;
    tried.number
}

#[unsafe(no_mangle)]
pub extern "C" fn icon_cache_pick(
    cache: &[u8],
    name: &[u8],
    size: u32,
    scale: u32,
    directories: &[u32],
    place: &mut usize,
) -> u32
    ensures { pick_is result place.new ≡ pick cache.now name.now size scale directories.now }
{
    let answer = pick::pick(cache, name, size, scale, directories);
    let (number, at, picked) = spread(answer, None);
    *place = picked.unwrap_or(at);
    number
}

#[unsafe(no_mangle)]
pub extern "C" fn icon_cache_directory(cache: &[u8], index: usize, place: &mut usize) -> u32
    ensures { directory_is result place.new ≡ directory cache.now index }
{
    let (number, at, _) = spread(icon_cache::directory(cache, index), ());
    *place = at;
    number
}

#[unsafe(no_mangle)]
pub extern "C" fn icon_cache_directory_path(
    cache: &[u8],
    index: usize,
    start: &mut usize,
    path_length: &mut usize,
) -> u32
    ensures { part_is result (directory_part cache.now index).place start.new path_length.new ≡ directory_part cache.now index }
{
    match icon_cache::directory_part(cache, index) {
        Ok(part) => {
            *start = part.start;
            *path_length = part.length;
            0
        }
        Err(fault) => {
            *start = 0;
            *path_length = 0;
            fault.number
        }
    }
}

#[unsafe(no_mangle)]
pub extern "C" fn icon_cache_rectangle(
    cache: &[u8],
    data: usize,
    place: &mut usize,
    x0: &mut u16,
    y0: &mut u16,
    x1: &mut u16,
    y1: &mut u16,
) -> u32
    ensures { rectangle_is result place.new x0.new y0.new x1.new y1.new ≡ rectangle cache.now «data» }
{
    let none = Corners {
        x0: 0,
        y0: 0,
        x1: 0,
        y1: 0,
    };
    let (number, at, corners) = spread(image_data::rectangle(cache, data), none);
    *place = at;
    *x0 = corners.x0;
    *y0 = corners.y0;
    *x1 = corners.x1;
    *y1 = corners.y1;
    number
}

#[unsafe(no_mangle)]
pub extern "C" fn icon_cache_attach_point(
    cache: &[u8],
    data: usize,
    entry: usize,
    place: &mut usize,
    x: &mut u16,
    y: &mut u16,
) -> u32
    ensures { point_is result place.new x.new y.new ≡ attach_point cache.now «data» entry }
{
    let none = Point { x: 0, y: 0 };
    let (number, at, point) = spread(image_data::attach_point(cache, data, entry), none);
    *place = at;
    *x = point.x;
    *y = point.y;
    number
}

#[unsafe(no_mangle)]
pub extern "C" fn icon_cache_display_language(
    cache: &[u8],
    data: usize,
    entry: usize,
    place: &mut usize,
    start: &mut usize,
    text_length: &mut usize,
) -> u32
    ensures { string_is result place.new start.new text_length.new ≡ display_language cache.now «data» entry }
{
    let none = Span {
        start: 0,
        length: 0,
    };
    let (number, at, part) = spread(image_data::display_language(cache, data, entry), none);
    *place = at;
    *start = part.start;
    *text_length = part.length;
    number
}

#[unsafe(no_mangle)]
pub extern "C" fn icon_cache_display_name(
    cache: &[u8],
    data: usize,
    entry: usize,
    place: &mut usize,
    start: &mut usize,
    text_length: &mut usize,
) -> u32
    ensures { string_is result place.new start.new text_length.new ≡ display_text cache.now «data» entry }
{
    let none = Span {
        start: 0,
        length: 0,
    };
    let (number, at, part) = spread(image_data::display_name(cache, data, entry), none);
    *place = at;
    *start = part.start;
    *text_length = part.length;
    number
}

#[unsafe(no_mangle)]
pub extern "C" fn icon_cache_list(
    cache: &[u8],
    bucket: &mut usize,
    count: &mut usize,
    place: &mut usize,
    record: &mut usize,
) -> u32
    ensures { step_is result place.new «record».new (position bucket.new count.new) ≡ step cache.now (position bucket.old count.old) }
{
    let position = Position {
        bucket: *bucket,
        count: *count,
    };
    let none = Step {
        record: 0,
        next: position,
    };
    let (number, at, step) = spread(position.next(cache), none);
    *bucket = step.next.bucket;
    *count = step.next.count;
    *place = at;
    *record = step.record;
    number
}

#[unsafe(no_mangle)]
pub extern "C" fn icon_cache_flags_in(raw: u16, numbering: u32, flags: &mut u16) -> u32
    ensures { flags_is result 0 flags.new ≡ flags_in raw numbering }
{
    let (number, _, renumbered) = spread(flags::flags_in(raw, numbering), 0);
    *flags = renumbered;
    number
}

#[unsafe(no_mangle)]
pub extern "C" fn icon_cache_flags_out(flags: u16, numbering: u32, raw: &mut u16) -> u32
    ensures { flags_is result 0 raw.new ≡ flags_out flags numbering }
{
    let (number, _, renumbered) = spread(flags::flags_out(flags, numbering), 0);
    *raw = renumbered;
    number
}

#[unsafe(no_mangle)]
pub extern "C" fn icon_cache_write(
    catalogue: &[u8],
    buckets: usize,
    cache: &mut [u8],
    place: &mut usize,
    written: &mut usize,
) -> u32
    ensures answer { write_is result place.new written.new ≡ write catalogue.now buckets (length cache.old) }
    ensures lent { cache.new ≡ write_leaves catalogue.now buckets cache.old }
{
    let (number, at, bytes) = spread(write_cache::write(catalogue, buckets, cache), 0);
    *place = at;
    *written = bytes;
    number
}

#[unsafe(no_mangle)]
pub extern "C" fn icon_cache_catalogue(
    cache: &[u8],
    catalogue: &mut [u8],
    place: &mut usize,
    listed: &mut usize,
) -> u32
    ensures answer { write_is result place.new listed.new ≡ catalogue_of cache.now (length catalogue.old) }
    ensures lent { catalogue.new ≡ catalogue_leaves cache.now catalogue.old }
{
    let (number, at, bytes) = spread(export::catalogue_of(cache, catalogue), 0);
    *place = at;
    *listed = bytes;
    number
}

#[unsafe(no_mangle)]
pub extern "C" fn icon_cache_salvage(
    cache: &[u8],
    catalogue: &mut [u8],
    report: &mut [u32],
    place: &mut usize,
    saved: &mut usize,
    rows: &mut usize,
) -> u32
    ensures answer { salvage_is result place.new saved.new rows.new ≡ salvage cache.now (length catalogue.old) (length report.old) }
    ensures bytes { catalogue.new ≡ bytes_left_of cache.now catalogue.old report.old }
    ensures words { report.new ≡ words_left_of cache.now catalogue.old report.old }
{
    let none = Saved { length: 0, rows: 0 };
    let (number, at, parts) = spread(salvage::salvage(cache, catalogue, report), none);
    *place = at;
    *saved = parts.length;
    *rows = parts.rows;
    number
}

#[unsafe(no_mangle)]
pub extern "C" fn icon_cache_squeeze(
    cache: &[u8],
    squeezed: &mut [u8],
    place: &mut usize,
    written: &mut usize,
) -> u32
    ensures answer { write_is result place.new written.new ≡ squeeze cache.now (length squeezed.old) }
    ensures lent { squeezed.new ≡ squeeze_leaves cache.now squeezed.old }
{
    let (number, at, bytes) = spread(squeeze::squeeze(cache, squeezed), 0);
    *place = at;
    *written = bytes;
    number
}
