// The calls of document 01 over one lent buffer that holds an icon theme cache. Each takes any
// buffer, any name and any number, and says its whole answer by a definition of the crate `format`.
#![tactic(auto)]

ghost use Rattle.std.specs.Prelude.{◌≡◌, ◌<◌, length, IfErr};
ghost use Rattle.format.specs.Call.{lookup_words, directory_part, directory_path};
ghost use Rattle.format.specs.Call as calls;
ghost use Rattle.format.specs.Demand.{CheckDemand, LookupKept, LongestDemand, OpensWithin};
ghost use Rattle.format.specs.declared.Reading.TheVariants.{Short, Long};
ghost use Rattle.icon_cache.specs.Answers.{directory_answer, part_answer};

use checking::{check_buckets, refused, unfound};
use format::{CheckAnswer, Fault, Found, LookupAnswer, Reading};
use records::with_images;
use tables::PathPart;

// The check by the short reading. It is a call of its own so that it carries nothing of the long
// one.
pub fn check_short(cache: &[u8]) -> CheckAnswer
    ensures answer { result ≡ calls.check Short cache.now }
    ensures demand { CheckDemand Short cache.now result }
    ensures longest { LongestDemand Short cache.now result }
{
    if let Err(fault) = tables::header(cache) {
        return refused(fault.number, fault.place, 0);
    }
    let t = tables::read(cache);
    if let Err(fault) = tables::paths(cache, t) {
        return refused(fault.number, fault.place, 0);
    }
    check_buckets(cache, t)
}

// The check by the long reading: what the short one found sound is gone over once more.
pub fn check_long(cache: &[u8]) -> CheckAnswer
    ensures answer { result ≡ calls.check Long cache.now }
    ensures demand { CheckDemand Long cache.now result }
    ensures longest { LongestDemand Long cache.now result }
{
    let short = check_short(cache);
    long_check::check(cache, short)
}

// Checks the whole cache by a reading: accepted with its counts, or the first broken rule with its
// place.
pub fn check(cache: &[u8], reading: Reading) -> CheckAnswer
    ensures answer { result ≡ calls.check reading cache.now }
    ensures demand { CheckDemand reading cache.now result }
    ensures longest { LongestDemand reading cache.now result }
{
    match reading {
        Reading::Short => check_short(cache),
        Reading::Long => check_long(cache),
    }
}

// The first record that bears `name` on the chain of the name's bucket alone, without its images.
pub fn find(cache: &[u8], name: &[u8]) -> Found
    ensures { result ≡ calls.find cache.now name.now }
{
    let Ok(hash) = strings::asked(name) else {
        return unfound(13, 0, 0);
    };
    if let Err(fault) = tables::header(cache) {
        return unfound(fault.number, fault.place, 0);
    }
    let t = tables::read(cache);
    let bucket = hash % t.buckets;
    search::search(cache, t, bucket, name)
}

// Looks for the first record that bears `name`, on the chain of the name's bucket alone. Found with
// enough room, its images stand in `words`, two words each, and the words beyond are as they were;
// with any other answer all of them are.
pub fn lookup(cache: &[u8], name: &[u8], words: &mut [u32]) -> LookupAnswer
    ensures answer { result ≡ calls.lookup cache.now name.now (length words.old) }
    ensures lent { words.new ≡ lookup_words cache.now name.now words.old }
    ensures demand { LookupKept Short cache.now name.now result }
    ensures longest { OpensWithin cache.now result }
{
    let found = find(cache, name);
    if found.number != 0 {
        return LookupAnswer {
            number: found.number,
            place: found.place,
            images: 0,
            opened: found.opened,
        };
    }
    with_images(cache, found.place, found.opened, words)
}

// Where the path of directory `index` stands: first the header is judged, then the index, then the
// path.
pub fn directory_part(cache: &[u8], index: usize) -> Result<PathPart, Fault>
    ensures answer { part_answer result ≡ directory_part cache.now index }
    ensures refused { IfErr result (λ fault. 0 < fault.number) }
{
    tables::header(cache)?;
    let t = tables::read(cache);
    if t.directories as usize <= index {
        return Err(Fault {
            number: 15,
            place: 0,
        });
    }
    tables::path(cache, t, index as u32)
}

// Whether there is a directory `index` with a path that keeps the rules.
pub fn directory(cache: &[u8], index: usize) -> Result<(), Fault>
    ensures answer { directory_answer result ≡ calls.directory cache.now index }
    ensures refused { IfErr result (λ fault. 0 < fault.number) }
{
    directory_part(cache, index)?;
    Ok(())
}

// The path of directory `index` as a part of `cache`, without its zero byte; empty where
// `directory` refuses.
pub fn directory_path(cache: &[u8], index: usize) -> &[u8]
    ensures { result.now ≡ directory_path cache.now index }
{
    let Ok(part) = directory_part(cache, index) else {
        return &cache[..0];
    };
    let end = part.start + part.length;
    &cache[part.start..end]
}
