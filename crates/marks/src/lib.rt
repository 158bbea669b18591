// A mark for each number, as bits of as many words as the caller lends: 32 numbers a word.
#![tactic(auto)]

ghost use Rattle.std.specs.Prelude.{◌≡◌};
ghost use Rattle.marks.specs.Marks.{marked, Marks};

// Whether `i` is marked. A number that there is no word for is not.
pub fn is_marked(marks: &[u32], i: usize) -> bool
    ensures { result ≡ marked marks.now i }
{
    let word = i / 32;
    if word < marks.len() {
        return (marks[word] >> (i % 32)) % 2 == 1;
    }
    false
}

// Marks `i`, if there is a word for it.
pub fn mark(marks: &mut [u32], i: usize)
    ensures { Marks marks.old marks.new i }
{
    let word = i / 32;
    if word < marks.len() {
        marks[word] = marks[word] | 1 << (i % 32);
    }
}
