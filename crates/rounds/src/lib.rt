// Where a chain comes back to a record that it has met. Only the fields that lead from record to
// record are read, and nothing is judged.
#![tactic(auto)]

ghost use Rattle.std.specs.Prelude.{◌≡◌, ◌+◌, ◌^◌, ◌≤◌, ◌<◌, length, IfSome};
ghost use Rattle.rounds.specs.Stepping.{InsideBelow, Runs, LeadsIn, Turning};
ghost use Rattle.rounds.specs.Stepping as definition;

use bigendian::u32_at;

// A round: `start` steps lead to a field of it, and `steps` more lead back to that field.
#[derive(Clone, Copy)]
pub struct Round {
    pub start: usize,
    pub steps: usize,
}

// The field that `steps` steps from `field` on lead to.
pub fn ahead(cache: &[u8], field: usize, steps: usize) -> usize
    requires { InsideBelow cache.now field steps }
    ensures { result ≡ definition.ahead cache.now field steps }
{
    let mut at = field;
    for _step in 0..steps {
        at = u32_at(cache, at) as usize;
    }
    at
}

// A round that is found within `most` steps from `field` on. One field is remembered; as soon as
// the way from it is longer than the way to it, the one at hand takes its place (Brent's way).
fn find(cache: &[u8], field: usize, most: usize) -> Option<Round>
    requires { (field + 4 ≤ length cache.now) × (most < length cache.now) × (length cache.now ≤ 2 ^ 24) }
    ensures runs { IfSome result (λ round. Runs cache.now field most round) }
    ensures onward { IfSome result (λ round. 0 < round.steps) }
{
    let mut at = field;
    let mut mark = field;
    let mut start = 0;
    for done in 0..most {
        let step = done + 1;
        at = u32_at(cache, at) as usize;
        if cache.len() < at + 12 {
            return None;
        }
        if at == mark {
            return Some(Round {
                start,
                steps: step - start,
            });
        }
        if 2 * start < step {
            mark = at;
            start = step;
        }
    }
    None
}

// The first of the steps from `field` on from which the round runs.
pub fn lead_in(cache: &[u8], field: usize, round: Round) -> usize
    requires { Runs cache.now field (round.start + round.steps) round }
    ensures { LeadsIn cache.now field round result }
{
    let mut slow = field;
    let mut fast = ahead(cache, field, round.steps);
    for step in 0..round.start {
        if slow == fast {
            return step;
        }
        slow = u32_at(cache, slow) as usize;
        fast = u32_at(cache, fast) as usize;
    }
    round.start
}

// After how many steps from `field` on a field is met again, but `done` at least. It is looked from
// `at` on, the field of step `done`, as far as step `far`; that is the answer where none is seen.
pub fn turning(cache: &[u8], field: usize, done: usize, at: usize, far: usize) -> usize
    requires done_le_far { (done ≤ far) × (far < length cache.now) × (length cache.now ≤ 2 ^ 24) }
    requires inside_below { InsideBelow cache.now field (done + 1) × (at ≡ definition.ahead cache.now field done) }
    ensures { Turning cache.now field done far result }
{
    let Some(seen) = find(cache, at, far - done) else {
        return far;
    };
    let steps = seen.steps;
    let round = Round {
        start: done + seen.start,
        steps,
    };
    let back = lead_in(cache, field, round) + steps;
    back.max(done)
}
