// Reads an icon theme cache from standard input and prints one line: what the check says of it.
#![tactic(auto)]

ghost use Rattle.std.specs.Prelude.{◌≡◌};
ghost use Rattle.check_cache.specs.Line.{line_of, line_for};

use format::{CheckAnswer, Reading};
use std::fmt;
use std::fmt::{Display, Write};

// The largest cache that is judged, in bytes.
const LARGEST: usize = 65536;

// What the program prints.
#[derive(Clone, Copy)]
pub enum Line {
    Accepted {
        icons: usize,
        directories: usize,
        longest: usize,
    },
    Refused {
        number: u32,
        place: usize,
        opened: usize,
    },
    TooLarge,
}

// The line for an answer of the check.
fn line_of(answer: CheckAnswer) -> Line
    ensures { result ≡ line_of answer }
{
    if answer.number == 0 {
        Line::Accepted {
            icons: answer.icons,
            directories: answer.directories,
            longest: answer.longest,
        }
    } else {
        Line::Refused {
            number: answer.number,
            place: answer.place,
            opened: answer.opened,
        }
    }
}

// The line for what was read.
fn line_for(input: &[u8]) -> Line
    ensures { result ≡ line_for input.now }
{
    if LARGEST < input.len() {
        Line::TooLarge
    } else {
        line_of(icon_cache::check(input, Reading::Short))
    }
}

impl Display for Line {
    fn fmt<W: fmt::Write>(&self, f: &mut fmt::Formatter<W>) -> fmt::Result {
        match self {
            Line::Accepted {
                icons,
                directories,
                longest,
            } => write!(
                f,
                "accepted {icons} icons {directories} directories longest {longest}\n"
            ),
            Line::Refused {
                number,
                place,
                opened,
            } => write!(f, "refused {number} at {place} opened {opened}\n"),
            Line::TooLarge => write!(f, "too large for this program\n"),
        }
    }
}

// What is written to it is printed piece by piece: a write that fails is passed over, and what comes
// after it is tried all the same.
#[derive(Drop)]
struct Tried<'a, P>(&'a P);

impl<P: Print> Write for Tried<'_, P> {
    fn write_str(&mut self, text: &str) -> fmt::Result {
        let _ = self.0.write_all(text.as_bytes());
        Ok(())
    }
}

// One byte more than the largest cache is read, so that a larger one shows. Where a read fails,
// what came before it is judged as if the input ended there.
fn main(rt: HostRuntime) {
    let mut input = [0u8; 65537];
    let n = input::read_full(&mut rt.stdin(), &mut input);
    let line = line_for(&input[..n]);
    let _ = write!(Tried(&rt), "{line}");
}
