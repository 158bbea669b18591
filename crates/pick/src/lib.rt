// The image of an icon that serves a screen: a layer above the search for the icon's name. The
// caller lends six words for each directory of the cache, and the images are read where they stand.
#![tactic(auto)]

ghost use Rattle.std.specs.Prelude.{◌≡◌, true, ◌+◌, ◌*◌, ◌≤◌, ◌<◌, length, IfSome, IfOk, IfErr};
ghost use Rattle.format.specs.Number.{be};
ghost use Rattle.format.specs.Fault.{verdict};
ghost use Rattle.format.specs.Header.{header_fault, directories};
ghost use Rattle.format.specs.Record.{valid_index, images_fault};
ghost use Rattle.pick.specs.Pick.{sizes_of, kinds_fault, words_fault, first_image, place_of, pick_answer};
ghost use Rattle.pick.specs.Pick as definition;

use bigendian::{u16_at, u32_at};
use format::Fault;

// The types of directories.
#[derive(Clone, Copy)]
enum Kind {
    Fixed,
    Scalable,
    Threshold,
}

impl Kind {
    // The type that a word names: 0 Fixed, 1 Scalable, 2 Threshold. One above 2 is refused before.
    fn new(word: u32) -> Kind
        ensures { result ≡ definition.kind word }
    {
        match word {
            0 => Kind::Fixed,
            1 => Kind::Scalable,
            _ => Kind::Threshold,
        }
    }
}

// What is lent of one directory: its type, then its keys Size, Scale, MinSize, MaxSize and
// Threshold.
#[derive(Clone, Copy)]
struct Sizes {
    kind: Kind,
    size: u32,
    scale: u32,
    min: u32,
    max: u32,
    threshold: u32,
}

// How far two sizes are apart.
fn distance(a: u32, b: u32) -> u32
    ensures { result ≡ definition.distance a b }
{
    a.abs_diff(b)
}

// Whether an image of a directory serves this size, whatever the scale.
fn serves_size(d: Sizes, size: u32) -> bool
    ensures { result ≡ definition.serves_size d.kind d size }
{
    match d.kind {
        Kind::Fixed => size == d.size,
        Kind::Scalable => d.min <= size && size <= d.max,
        Kind::Threshold => distance(size, d.size) <= d.threshold,
    }
}

// Whether an image of a directory serves this size and scale.
fn serves(d: Sizes, size: u32, scale: u32) -> bool
    ensures { result ≡ definition.serves d size scale }
{
    d.scale == scale && serves_size(d, size)
}

// The six words of directory `i`.
fn sizes_of(words: &[u32], i: usize) -> Sizes
    requires { 6 * i + 6 ≤ length words.now }
    ensures { result ≡ sizes_of words.now i }
{
    let at = 6 * i;
    Sizes {
        kind: Kind::new(words[at]),
        size: words[at + 1],
        scale: words[at + 2],
        min: words[at + 3],
        max: words[at + 4],
        threshold: words[at + 5],
    }
}

// Whether the image at `at` fits.
fn fits(cache: &[u8], at: usize, size: u32, scale: u32, words: &[u32]) -> bool
    requires at_in_bounds { at + 8 ≤ length cache.now }
    requires at_value { valid_index (directories cache.now) (be 2 cache.now at) ≡ true }
    requires words_len { length words.now ≡ 6 * directories cache.now }
    ensures { result ≡ definition.fits words.now size scale cache.now at }
{
    let index = u16_at(cache, at) as usize;
    if index == 0xFFFF {
        return false;
    }
    serves(sizes_of(words, index), size, scale)
}

// The first of `m` images from `at` on that fits.
fn first_image(
    cache: &[u8],
    at: usize,
    m: u32,
    size: u32,
    scale: u32,
    words: &[u32],
) -> Option<usize>
    requires at_some { 0 < at }
    requires m_in_bounds { at + 8 * m ≤ length cache.now }
    requires at_value { (images_fault m cache.now at).number ≡ 0 }
    requires words_len { length words.now ≡ 6 * directories cache.now }
    ensures image { place_of result ≡ first_image (definition.fits words.now size scale cache.now) m at }
    ensures some { IfSome result (λ p. 0 < p) }
{
    for i in 0..m as usize {
        let here = at + 8 * i;
        if fits(cache, here, size, scale, words) {
            return Some(here);
        }
    }
    None
}

// 32 at the first type above 2, of `n` directories.
fn judge_kinds(words: &[u32], n: u32) -> Result<(), Fault>
    requires { length words.now ≡ 6 * n }
    ensures { result ≡ verdict (kinds_fault n words.now) }
{
    for i in 0..n as usize {
        let at = 6 * i;
        if 2 < words[at] {
            return Err(Fault {
                number: 32,
                place: at,
            });
        }
    }
    Ok(())
}

// 31 unless there are six words for each directory, then 32.
fn judge_words(cache: &[u8], words: &[u32]) -> Result<(), Fault>
    requires { (header_fault cache.now).number ≡ 0 }
    ensures { result ≡ verdict (words_fault cache.now words.now) }
{
    let t = tables::read(cache);
    let n = t.directories;
    if words.len() != 6 * n as usize {
        return Err(Fault {
            number: 31,
            place: 0,
        });
    }
    judge_kinds(words, n)
}

// The place of the first image of `name`, in the order of its list, whose directory fits: its scale
// is `scale`, and `size` is its Size (Fixed), from its MinSize to its MaxSize (Scalable), or at
// most its Threshold away from its Size (Threshold). It refuses as the lookup does with room
// enough, then with 31, then with 32, whose place is the index of the word in the slice.
pub fn pick(
    cache: &[u8],
    name: &[u8],
    size: u32,
    scale: u32,
    directories: &[u32],
) -> Result<Option<usize>, Fault>
    ensures answer { pick_answer result ≡ definition.pick cache.now name.now size scale directories.now }
    ensures refused { IfErr result (λ fault. 0 < fault.number) }
    ensures some { IfOk result (λ picked. IfSome picked (λ p. 0 < p)) }
{
    let found = icon_cache::find(cache, name);
    if found.number != 0 {
        return Err(Fault {
            number: found.number,
            place: found.place,
        });
    }
    judge_words(cache, directories)?;
    let at = u32_at(cache, found.place + 8) as usize;
    let images = u32_at(cache, at);
    Ok(first_image(cache, at + 4, images, size, scale, directories))
}
