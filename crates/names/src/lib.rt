// Whether a key was met before: a string, a name, an image list or an offset, among as many as the
// caller lends words for. Those met are kept as an index: their offsets, in rising order of the keys, so that
// one is found by halving.
#![tactic(auto)]

ghost use Rattle.std.specs.Prelude.{◌≡◌, List, ℕ, ◌≤◌, ◌<◌, length};
ghost use Rattle.format.specs.String.{among};
ghost use Rattle.keys.specs.Key.{key_at};
ghost use Rattle.names.specs.Index.{Rising, Represents, Within, Spotted, Inserted, Answered};

use keys::{Kind, compare};
use std::cmp::Ordering;

// Which of the first `n` entries has the key of `at`, or where it would stand, by halving.
pub fn find(s: &[u8], kind: Kind, index: &[u32], n: usize, at: u32) -> Result<usize, usize>
    requires { n ≤ length index.now }
    ensures within { Within n result }
    ensures spotted { Rising (key_at kind s.now) index.now n → Spotted (key_at kind s.now) index.now n at result }
{
    let mut low = 0;
    let mut high = n;
    // No `binary_search_by`: the library's goes on after an equal key, and keys may be long and alike.
    while low < high {
        let middle = low + (high - low) / 2;
        match compare(s, kind, index[middle], at) {
            Ordering::Less => {
                low = middle + 1;
            }
            Ordering::Equal => {
                return Ok(middle);
            }
            Ordering::Greater => {
                high = middle;
            }
        }
    }
    Err(low)
}

// Makes `at` the entry `i`; the entries from `i` to `n` move one further.
pub fn insert(index: &mut [u32], n: usize, i: usize, at: u32)
    requires { (i ≤ n) × (n < length index.old) }
    ensures { Inserted index.old index.new n i at }
{
    index.copy_within(i..n, i + 1);
    index[i] = at;
}

// Whether one of the first `n` entries has the key of `at`.
pub fn holds(s: &[u8], kind: Kind, index: &[u32], n: usize, at: u32) -> bool
    requires { n ≤ length index.now }
    ensures { (before : List (List ℕ)) → Represents (key_at kind s.now) index.now n before → result ≡ among (key_at kind s.now at) before }
{
    find(s, kind, index, n, at).is_ok()
}

// Whether the key of `at` was met before: whether one of the first `n` entries has it. If none has,
// `at` becomes an entry.
pub fn met(s: &[u8], kind: Kind, index: &mut [u32], n: usize, at: u32) -> bool
    requires { n < length index.old }
    ensures { (before : List (List ℕ)) → Represents (key_at kind s.now) index.old n before → Answered (key_at kind s.now) index.new n at before result }
{
    match find(s, kind, index, n, at) {
        Ok(_) => true,
        Err(i) => {
            insert(index, n, i, at);
            false
        }
    }
}
