// How far the walk of a chain goes that salvage makes: to its end, to a record that ends it, or to
// one that it has met before.
#![tactic(auto)]

ghost use Rattle.std.specs.Prelude.{◌≡◌, ◌+◌, ◌^◌, ◌≤◌, ◌<◌, length};
ghost use Rattle.format.specs.Header.{buckets};
ghost use Rattle.tables.specs.Tables.{TablesOf};
ghost use Rattle.salvage_reach.specs.Ways.{Turned, WayOf, Reaches, moved};

use bigendian::u32_at;
use format::Fault;
use records::judge_name;
use rounds::{Round, lead_in};
use tables::{Tables, bucket_field};

// What a field of a chain names.
#[derive(Clone, Copy)]
pub enum Turn {
    // The end value.
    Ended,
    // A record that does not lie inside.
    Outside,
    // A record whose name has a fault, at which the chain ends.
    Misnamed,
    // A record that the walk leaves behind.
    Passes(usize),
}

// A record that stays behind, its step, and the step until which it stays.
#[derive(Clone, Copy)]
pub struct Mark {
    pub behind: usize,
    pub stays: usize,
    pub until: usize,
}

// How many records a walk meets, and what cuts the chain behind them, if anything does.
#[derive(Clone, Copy)]
pub struct Reached {
    pub met: usize,
    pub cut: Option<Fault>,
}

// How a chain goes; neither way is a failure, so it is no `Result`.
#[derive(Clone, Copy)]
pub enum Way {
    // It comes to an end.
    Stops(Reached),
    // It runs in a round.
    Turns(Round),
}

// What `field` names on the chain of `bucket`.
fn look(cache: &[u8], t: Tables, bucket: u32, field: usize) -> Turn
    requires { TablesOf cache.now t × (field + 4 ≤ length cache.now) }
    ensures { Turned cache.now bucket field result }
{
    let named = u32_at(cache, field);
    if named == 0xFFFF_FFFF {
        return Turn::Ended;
    }
    let record = named as usize;
    if cache.len() < record + 12 {
        return Turn::Outside;
    }
    match judge_name(cache, t, bucket, record, false) {
        Ok(()) => Turn::Passes(record),
        Err(_) => Turn::Misnamed,
    }
}

// The mark once `record` is passed at `step`: at the step until which it stays it is moved up to
// this record.
fn move_up(mark: Mark, step: usize, record: usize) -> Mark
    requires { step < 2 ^ 32 }
    ensures { result ≡ moved mark step «record» }
{
    if step == mark.until {
        Mark {
            behind: record,
            stays: step,
            until: 2 * step + 1,
        }
    } else {
        mark
    }
}

// How the chain of `bucket` goes. The mark stays behind while the walk goes on, and is moved up at
// the steps 0, 1, 3, 7, 15 and so on: a round is found soon after it is entered, and no record has
// to be remembered but the marked one (Brent's way).
fn find_way(cache: &[u8], t: Tables, bucket: u32) -> Way
    requires { TablesOf cache.now t × (bucket < buckets cache.now) }
    ensures { WayOf cache.now bucket result }
{
    let mut field = bucket_field(t, bucket);
    let mut mark = Mark {
        behind: 0xFFFF_FFFF,
        stays: 0,
        until: 0,
    };
    let mut step: usize = 0;
    loop {
        let here = look(cache, t, bucket, field);
        match here {
            Turn::Ended => {
                return Way::Stops(Reached {
                    met: step,
                    cut: None,
                });
            }
            Turn::Outside => {
                return Way::Stops(Reached {
                    met: step,
                    cut: Some(Fault {
                        number: 7,
                        place: field,
                    }),
                });
            }
            Turn::Misnamed => {
                return Way::Stops(Reached {
                    met: step + 1,
                    cut: None,
                });
            }
            Turn::Passes(record) => {
                if record == mark.behind {
                    return Way::Turns(Round {
                        start: mark.stays,
                        steps: step - mark.stays,
                    });
                }
                mark = move_up(mark, step, record);
                field = record;
                step += 1;
            }
        }
    }
}

// How far the walk of the chain of `bucket` goes.
pub fn reach(cache: &[u8], t: Tables, bucket: u32) -> Reached
    requires { TablesOf cache.now t × (bucket < buckets cache.now) }
    ensures { Reaches cache.now bucket result }
{
    let way = find_way(cache, t, bucket);
    match way {
        Way::Stops(end) => end,
        Way::Turns(round) => {
            let place = bucket_field(t, bucket);
            let first = u32_at(cache, place) as usize;
            let before = lead_in(cache, first, round);
            Reached {
                met: before + round.steps,
                cut: Some(Fault { number: 12, place }),
            }
        }
    }
}
