// Runs the cases of documents 01 and 02, which stand on standard input, and prints a line for each
// call. The stored output was written from the documents, so a run that differs is a fault of the
// code. The head of the file `stdin` says how a case is written.
#![tactic(auto)]

mod answers;
mod calls;
mod catalogues;
mod icons;
mod image_notes;
mod images;
mod picks;
mod salvages;

use cases_made::{Lengths, script};

// Where the name of the case at hand stands in the script.
#[derive(Clone, Copy)]
struct Title {
    from: usize,
    to: usize,
}

// The case that the line at `from` to `to` belongs to: a star starts one.
fn titled(script: &[u8], from: usize, to: usize, before: Title) -> Title {
    if script::byte(script, from) == b'*' {
        Title {
            from: script::next(script, from),
            to,
        }
    } else {
        before
    }
}

// Runs one line: at most one of the three knows its word.
fn run_line(
    rt: &impl Print,
    case: &[u8],
    line: &[u8],
    cache: &mut [u8],
    kept: &mut [u8],
    before: Lengths,
) -> Lengths {
    let words = script::split(line);
    let lengths = cases_made::resize(words, cache, kept, before);
    cases_made::write(line, words, cache);
    calls::ask(rt, case, line, words, cache, lengths.cache);
    lengths
}

// Each line ends with a newline.
fn run(rt: &impl Print, script: &[u8], cache: &mut [u8], kept: &mut [u8]) {
    let mut case = Title { from: 0, to: 0 };
    let mut lengths = Lengths { cache: 0, kept: 0 };
    let mut at = 0;
    while at < script.len() {
        let end = script::find(script, at, b'\n');
        if script.len() <= end {
            return;
        }
        case = titled(script, at, end, case);
        let name = script::part(script, case.from, case.to);
        lengths = run_line(
            rt,
            name,
            script::part(script, at, end),
            cache,
            kept,
            lengths,
        );
        at = end + 1;
    }
}

// The largest cache of the script has 262,190 bytes.
fn main(rt: HostRuntime) {
    let mut script = [0u8; 65536];
    let n = input::read_full(&mut rt.stdin(), &mut script);
    let mut cache = [0u8; 262400];
    let mut kept = [0u8; 256];
    run(&rt, &script[..n], &mut cache, &mut kept);
}
