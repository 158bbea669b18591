// Reads lines of words, with one space between two words. What lies past the end reads as nothing.
ghost use Rattle.std.specs.Prelude.{◌≤◌};

// The byte at `at`, or 0 past the end.
pub fn byte(line: &[u8], at: usize) -> u8 {
    line.get(at).copied().unwrap_or(0)
}

// The bytes from `from` up to `to`, or none where they do not lie inside.
pub fn part(line: &[u8], from: usize, to: usize) -> &[u8] {
    line.get(from..to).unwrap_or(&[])
}

// The bytes from `from` on.
pub fn rest(line: &[u8], from: usize) -> &[u8] {
    part(line, from, line.len())
}

// Where the byte `stop` comes next, from `at` on, or else the end.
pub fn find(line: &[u8], at: usize, stop: u8) -> usize
    ensures { at ≤ result }
{
    for i in at..line.len() {
        if line[i] == stop {
            return i;
        }
    }
    line.len().max(at)
}

// Where the word after the one at `at` starts.
pub fn next(line: &[u8], at: usize) -> usize {
    find(line, at, b' ').wrapping_add(1)
}

// The value of a digit, also of a hexadecimal one.
pub fn digit(c: u8) -> u8 {
    match c {
        b'0'..=b'9' => c - b'0',
        b'A'..=b'F' => c - b'A' + 10,
        _ => 0,
    }
}

// The number at `at`, in decimal digits up to the next other byte.
pub fn number(line: &[u8], at: usize) -> usize {
    let mut n: usize = 0;
    for i in at..line.len() {
        let c = line[i];
        if c < b'0' {
            break;
        }
        n = n.wrapping_mul(10).wrapping_add(digit(c) as usize);
    }
    n
}

// A line by its words: the command's first letter, up to three numbers, and where the second, the
// third and what follows them stand, for the text that may stand there instead.
#[derive(Clone, Copy)]
pub struct Words {
    pub command: u8,
    pub a: usize,
    pub b: usize,
    pub c: usize,
    pub second: usize,
    pub third: usize,
    pub fourth: usize,
}

pub fn split(line: &[u8]) -> Words {
    let first = next(line, 0);
    let second = next(line, first);
    let third = next(line, second);
    Words {
        command: byte(line, 0),
        a: number(line, first),
        b: number(line, second),
        c: number(line, third),
        second,
        third,
        fourth: next(line, third),
    }
}
