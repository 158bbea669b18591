// An icon record of a cache: rules 8 to 11 and 17, whether it bears a name, the words of its images,
// and the answer of a lookup that found it.
#![tactic(auto)]

ghost use Rattle.std.specs.Prelude.{◌≡◌, ◌+◌, ◌*◌, ◌^◌, ◌<◌, ◌≤◌, true, ◌++◌, length, drop};
ghost use Rattle.format.specs.Number.{be};
ghost use Rattle.format.specs.Fault.{no_fault, verdict};
ghost use Rattle.format.specs.String.{allowed};
ghost use Rattle.format.specs.Header.{directories};
ghost use Rattle.format.specs.Record.{name_part, bears_name, images_at, images, valid_image_list, valid_image, images_fault, name_fault, list_fault, record_fault, first_word, image_words};
ghost use Rattle.format.specs.Call.{found_answer, answer_words};
ghost use Rattle.format.specs.declared.Reading.TheVariants.{Short};
ghost use Rattle.tables.specs.Tables.{TablesOf};
ghost use Rattle.records.specs.ValidWords.{valid_words};

use bigendian::{u16_at, u32_at};
use format::{Fault, LookupAnswer};
use std::num::wrapping_sub_u32;
use tables::{Tables, list_inside};

// The first words of images with a valid index: `span` of them from `lowest` on. The index is the
// high half of the word, so those words follow one another and one test settles it.
#[derive(Clone, Copy)]
pub struct ValidWords {
    pub lowest: u32,
    pub span: u32,
}

// Those where there are `n` directories.
pub fn valid_words(n: u32) -> ValidWords
    requires { n < 65536 }
    ensures { result ≡ valid_words n }
{
    if n == 0 {
        ValidWords {
            lowest: 0xFFFF_0000,
            span: 0x1_0000,
        }
    } else {
        ValidWords {
            lowest: 0,
            span: n * 0x1_0000,
        }
    }
}

// The first word of the image at `at`: its index times 65,536 plus its flags.
fn first_word(cache: &[u8], at: usize) -> u32
    requires { at + 8 ≤ length cache.now }
    ensures word { result ≡ first_word cache.now at }
    ensures flags { be 2 cache.now (at + 2) < 65536 }
{
    let index = u16_at(cache, at) as u32;
    let flags = u16_at(cache, at + 2) as u32;
    index * 0x1_0000 + flags
}

// Rule 11 on the image at `at`, where `valid` are the valid first words.
pub fn valid_image(cache: &[u8], valid: ValidWords, at: usize) -> bool
    requires cache_bound { (directories cache.now < 65536) × (valid ≡ valid_words (directories cache.now)) }
    requires at_in_bounds { at + 8 ≤ length cache.now }
    ensures { result ≡ valid_image cache.now at }
{
    let word = first_word(cache, at);
    wrapping_sub_u32(word, valid.lowest) < valid.span && word % 0x1_0000 <= 15
}

// The first of `m` images from `at` on that breaks rule 11, if one does, where there are `n`
// directories.
fn images(cache: &[u8], n: u32, m: u32, at: usize) -> Result<(), Fault>
    requires { (n < 65536) × (n ≡ directories cache.now) × (at + 8 * m ≤ length cache.now) }
    ensures { result ≡ verdict (images_fault m cache.now at) }
{
    let valid = valid_words(n);
    for i in 0..m as usize {
        let image = at + 8 * i;
        if !valid_image(cache, valid, image) {
            return Err(Fault {
                number: 11,
                place: image,
            });
        }
    }
    Ok(())
}

// Whether the image list at `at` lies inside and is not too long.
pub fn valid_image_list(cache: &[u8], at: usize) -> bool
    requires { at < 2 ^ 32 }
    ensures { result ≡ valid_image_list cache.now at }
{
    list_inside(cache, at, 8) && u32_at(cache, at) <= 1024
}

// The part of the cache from the name of `record` on.
fn name_part(cache: &[u8], record: usize) -> &[u8]
    requires { «record» + 12 ≤ length cache.now }
    ensures { result.now ≡ name_part cache.now «record» }
{
    let at = u32_at(cache, record + 4) as usize;
    strings::from(cache, at)
}

// Rules 8, 17 and 9 on the name of `record`, on the chain of `bucket`. A name that is `known` to
// keep them isn't read.
pub fn judge_name(
    cache: &[u8],
    t: Tables,
    bucket: u32,
    record: usize,
    known: bool,
) -> Result<(), Fault>
    requires tables_of { TablesOf cache.now t }
    requires record_in_bounds { «record» + 12 ≤ length cache.now }
    requires record_value { known ≡ true → name_fault cache.now bucket «record» ≡ no_fault }
    ensures { result ≡ verdict (name_fault cache.now bucket «record») }
{
    if known {
        return Ok(());
    }
    let name = strings::read_name(name_part(cache, record));
    let extent = name.extent;
    strings::judge(extent, 8, record + 4)?;
    if name.hash % t.buckets != bucket {
        return Err(Fault {
            number: 9,
            place: record + 4,
        });
    }
    Ok(())
}

// Rules 10 and 11 on the images of `record`.
fn judge_images(cache: &[u8], t: Tables, record: usize) -> Result<(), Fault>
    requires tables_of { TablesOf cache.now t }
    requires record_in_bounds { «record» + 12 ≤ length cache.now }
    ensures { result ≡ verdict (list_fault cache.now «record») }
{
    let at = u32_at(cache, record + 8) as usize;
    if !valid_image_list(cache, at) {
        return Err(Fault {
            number: 10,
            place: record + 8,
        });
    }
    let m = u32_at(cache, at);
    let n = t.directories;
    images(cache, n, m, at + 4)
}

// The first of the rules 8 to 11 and 17 that `record` breaks, on the chain of `bucket`. A name that
// is `known` to keep 8, 17 and 9 isn't read.
pub fn judge(cache: &[u8], t: Tables, bucket: u32, record: usize, known: bool) -> Result<(), Fault>
    requires tables_of { TablesOf cache.now t }
    requires record_in_bounds { «record» + 12 ≤ length cache.now }
    requires record_value { known ≡ true → name_fault cache.now bucket «record» ≡ no_fault }
    ensures { result ≡ verdict (record_fault Short cache.now bucket «record») }
{
    judge_name(cache, t, bucket, record, known)?;
    judge_images(cache, t, record)
}

// Whether `record` has a whole name and it is `name`, one that may be asked for.
pub fn bears(cache: &[u8], record: usize, name: &[u8]) -> bool
    requires { («record» + 12 ≤ length cache.now) × (allowed name.now ≡ true) }
    ensures { result ≡ bears_name cache.now «record» name.now }
{
    let part = name_part(cache, record);
    strings::spells(part, name)
}

// Puts the two words of each of `m` images from `at` on into `words`, from the last image to the
// first, and leaves the words beyond as they were.
pub fn write_images(cache: &[u8], at: usize, m: usize, words: &mut [u32])
    requires { (at + 8 * m ≤ length cache.now) × (2 * m ≤ length words.old) }
    ensures { words.new ≡ image_words m cache.now at ++ drop (2 * m) words.old }
{
    for i in (0..m).rev() {
        let image = at + 8 * i;
        words[2 * i] = first_word(cache, image);
        words[2 * i + 1] = u32_at(cache, image + 4);
    }
}

// The answer with the images of `record`, after `opened` records. They go into `words` if there is
// room for all.
pub fn with_images(cache: &[u8], record: usize, opened: usize, words: &mut [u32]) -> LookupAnswer
    requires record_in_bounds { «record» + 12 ≤ length cache.now }
    requires record_in_bounds_2 { images_at cache.now «record» + 4 + 8 * images cache.now «record» ≤ length cache.now }
    ensures answer { result ≡ found_answer cache.now (length words.old) «record» opened }
    ensures lent { words.new ≡ answer_words cache.now words.old result }
{
    let at = u32_at(cache, record + 8) as usize;
    let images = u32_at(cache, at) as usize;
    if words.len() < 2 * images {
        return LookupAnswer {
            number: 14,
            place: at,
            images,
            opened,
        };
    }
    write_images(cache, at + 4, images, words);
    LookupAnswer {
        number: 0,
        place: record,
        images,
        opened,
    }
}
