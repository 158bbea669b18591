// A lookup for the classroom: it ignores the hash, and tries the records of all buckets one by one,
// in the check's order.
//
// Ask: why does the ordinary lookup need to try the records of one bucket only? What if a record
// stood in another bucket than its name's? The answer is `own-chain` in proofs/Laws/Same.antt: in a
// cache that the check accepts, each record that bears a name stands on the chain of that name's
// bucket. So both lookups find the same record (`plain-promise`, there too).
#![tactic(auto)]

ghost use Rattle.std.specs.Prelude.{◌≡◌, length};
ghost use Rattle.format.specs.Answer.{looked_up};
ghost use Rattle.plain_lookup.specs.Plain.{plain_lookup, plain_words};

use format::LookupAnswer;
use in_order::{first, next};
use records::{bears, with_images};

// No record: why, where, and after how many records.
fn without(number: u32, place: usize, tried: usize) -> LookupAnswer
    ensures { result ≡ looked_up number place 0 tried }
{
    LookupAnswer {
        number,
        place,
        images: 0,
        opened: tried,
    }
}

// Tries the records one by one until one bears `name`. Found with enough room, its images stand in
// `words`, two words each, and the words beyond are as they were; with any other answer all of them
// are.
pub fn plain_lookup(cache: &[u8], name: &[u8], words: &mut [u32]) -> LookupAnswer
    ensures answer { result ≡ plain_lookup cache.now name.now (length words.old) }
    ensures lent { words.new ≡ plain_words cache.now name.now words.old }
{
    if strings::asked(name).is_err() {
        return without(13, 0, 0);
    }
    let check = icon_cache::check_short(cache);
    if check.number != 0 {
        return without(check.number, check.place, 0);
    }
    let t = tables::read(cache);
    let mut at = first(cache, t);
    // Behind the last record the cursor has the end value.
    while at.record != 0xFFFF_FFFF {
        let record = at.record as usize;
        if bears(cache, record, name) {
            return with_images(cache, record, at.number + 1, words);
        }
        at = next(cache, t, at);
    }
    without(30, 0, at.number)
}
