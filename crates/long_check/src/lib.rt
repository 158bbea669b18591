// What the long reading adds to the check: the records that the short one found sound are gone over
// once more, by their fields alone, for what is behind their images. So the short check's code has
// nothing of the long reading.
#![tactic(auto)]

ghost use Rattle.std.specs.Prelude.{◌≡◌, ◌+◌, ◌*◌, ◌≤◌, length, MatchResult};
ghost use Rattle.format.specs.Fault.{verdict};
ghost use Rattle.format.specs.Layout.{entries_at};
ghost use Rattle.format.specs.Record.{images_at, images};
ghost use Rattle.format.specs.Notes.{notes_fault};
ghost use Rattle.format.specs.Call as calls;
ghost use Rattle.format.specs.declared.Reading.TheVariants.{Short, Long};
ghost use Rattle.tables.specs.Tables.{TablesOf};
ghost use Rattle.long_check.specs.Scan.{SoundTo, BreaksLong, KeepLong};
ghost use Rattle.long_check.specs.Check.{unsound, sound_records};

use bigendian::u32_at;
use checking::refused;
use format::{CheckAnswer, Fault};
use tables::{Tables, bucket_field};

// What is broken first, and how many records were gone over up to there.
#[derive(Clone, Copy)]
struct Broken {
    fault: Fault,
    passed: usize,
}

// Rules 22 to 24 behind the images of `record`.
fn behind_record(cache: &[u8], record: usize) -> Result<(), Fault>
    requires record_in_bounds { «record» + 12 ≤ length cache.now }
    requires record_in_bounds_2 { images_at cache.now «record» + 4 + 8 * images cache.now «record» ≤ length cache.now }
    ensures { result ≡ verdict (notes_fault (images cache.now «record») cache.now (entries_at (images_at cache.now «record»))) }
{
    let at = u32_at(cache, record + 8) as usize;
    let count = u32_at(cache, at);
    notes::behind(cache, count, at + 4)
}

// The first of `sound` records in the check's order, which keep the other rules, that breaks one of
// the rules 22 to 24. One record of the chain is remembered, and a later one takes its place as
// soon as twice as many are gone over (Brent's way): a chain that comes back to it has no record
// that was not judged.
fn scan(cache: &[u8], t: Tables, sound: usize) -> Result<(), Broken>
    requires tables_of { TablesOf cache.now t }
    requires sound_to { SoundTo cache.now sound }
    ensures { MatchResult result (λ _. KeepLong cache.now sound) (λ broken. BreaksLong cache.now broken.fault.number broken.fault.place broken.passed) }
{
    let mut bucket = 0;
    let mut field = bucket_field(t, 0);
    let mut passed = 0;
    let mut mark = 0xFFFF_FFFF;
    let mut limit = 1;
    // No `for`: the walk goes on from chain to chain, and along each by its fields.
    while passed < sound {
        let record = u32_at(cache, field);
        if record == 0xFFFF_FFFF {
            bucket += 1;
            field = bucket_field(t, bucket);
            mark = 0xFFFF_FFFF;
        } else {
            if record == mark {
                return Ok(());
            }
            field = record as usize;
            passed += 1;
            if let Err(fault) = behind_record(cache, field) {
                return Err(Broken { fault, passed });
            }
            if limit <= passed {
                mark = record;
                limit = 2 * passed;
            }
        }
    }
    Ok(())
}

// Of the records that the short check opened where it answers `number`, how many break a rule: the
// last, if there was one to open.
fn unsound(number: u32) -> usize
    ensures { result ≡ unsound number }
{
    match number {
        0 | 7 | 12 => 0,
        _ => 1,
    }
}

// How many keep the rules.
fn sound_records(short: CheckAnswer) -> usize
    ensures { result ≡ sound_records short }
{
    short.opened.saturating_sub(unsound(short.number))
}

// The long check, from the short one's answer.
pub fn check(cache: &[u8], short: CheckAnswer) -> CheckAnswer
    requires { short ≡ calls.check Short cache.now }
    ensures { result ≡ calls.check Long cache.now }
{
    let sound = sound_records(short);
    if sound == 0 {
        return short;
    }
    let t = tables::read(cache);
    match scan(cache, t, sound) {
        Ok(()) => short,
        Err(broken) => refused(broken.fault.number, broken.fault.place, broken.passed),
    }
}
