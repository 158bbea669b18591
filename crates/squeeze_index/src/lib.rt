// An index of parts that are stored once, and beside it where each is stored.
#![tactic(auto)]

ghost use Rattle.std.specs.Prelude.{◌≤◌, ◌<◌, length};
ghost use Rattle.squeeze_index.specs.Maps.{Adds};

use names::insert;

// Makes `at` the entry `i` of `n` in the index, with `place` beside it.
pub fn add(index: &mut [u32], places: &mut [u32], n: usize, i: usize, at: u32, place: u32)
    requires { (i ≤ n) × (n < length index.old) × (n < length places.old) }
    ensures { Adds index.old index.new places.old places.new n i at place }
{
    insert(index, n, i, at);
    insert(places, n, i, place);
}
