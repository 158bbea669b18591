// Puts parts one behind the other into lent buffers, each if there is room for it, and says in any
// case where the next one goes: with no room at all this only measures.
#![tactic(auto)]

ghost use Rattle.std.specs.Prelude.{[], ◌∷◌, ◌+◌, ◌^◌, ◌≤◌, ◌<◌, length, take, drop};
ghost use Rattle.format.specs.Bytes.{bytes};
ghost use Rattle.filling.specs.Puts.{Puts};

use copying::copy;

// Puts a part.
fn part(out: &mut [u8], at: usize, part: &[u8]) -> usize
    requires { at + length part.now < 2 ^ 63 }
    ensures { Puts out.old out.new at part.now result }
{
    let end = at + part.len();
    if end <= out.len() {
        copy(part, 0, part.len(), out, at);
    }
    end
}

// Puts `n` as one byte.
pub fn byte(out: &mut [u8], at: usize, n: u8) -> usize
    requires { at < 2 ^ 62 }
    ensures { Puts out.old out.new at (bytes 1 n) result }
{
    part(out, at, &[n])
}

// Puts `n` as two bytes.
pub fn short(out: &mut [u8], at: usize, n: u16) -> usize
    requires { at < 2 ^ 62 }
    ensures { Puts out.old out.new at (bytes 2 n) result }
{
    part(out, at, &n.to_be_bytes())
}

// Puts `n` as four bytes.
pub fn long(out: &mut [u8], at: usize, n: u32) -> usize
    requires { at < 2 ^ 62 }
    ensures { Puts out.old out.new at (bytes 4 n) result }
{
    part(out, at, &n.to_be_bytes())
}

// Puts the `n` bytes that stand in `from` at `start`.
pub fn text(from: &[u8], start: usize, n: usize, out: &mut [u8], at: usize) -> usize
    requires { (start + n ≤ length from.now) × (at + n < 2 ^ 63) }
    ensures { Puts out.old out.new at (take n (drop start from.now)) result }
{
    part(out, at, &from[start..start + n])
}

// Puts a row of a report: its number and its place.
pub fn row(report: &mut [u32], at: usize, number: u32, place: usize) -> usize
    requires { (at < 2 ^ 62) × (place < 2 ^ 32) }
    ensures { Puts report.old report.new at (number ∷ place ∷ []) result }
{
    if at + 2 <= report.len() {
        report[at] = number;
        report[at + 1] = place as u32;
    }
    at + 2
}
