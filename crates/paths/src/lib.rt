// Paths: a string as a path with its segments, each judged where it ends, and whether a path may
// stand in a catalogue.
#![tactic(auto)]

ghost use Rattle.std.specs.Prelude.{◌≡◌, ◌&&◌, ◌-◌, ◌≤◌, length, take, drop};
ghost use Rattle.format.specs.String.{string, extent};
ghost use Rattle.format.specs.Segments.{valid_segment, valid_segments, allowed_path};

use format::Extent;
use strings::{ended, within};

// A string as a path, and whether the segments of its first 1,023 bytes are valid: of all of them,
// unless it is too long.
#[derive(Clone, Copy)]
pub struct Path {
    pub extent: Extent,
    pub valid_segments: bool,
}

// Whether `segment` is one that a path may have: not empty, "." or "..". Of one with three bytes or
// more no byte is read.
fn valid_segment(segment: &[u8]) -> bool
    ensures { result ≡ valid_segment segment.now }
{
    match segment.len() {
        0 => false,
        1 => segment[0] != b'.',
        2 => segment[0] != b'.' || segment[1] != b'.',
        _ => true,
    }
}

// Whether the segments before are valid, and the one from `start` to `end` too.
fn valid_to(part: &[u8], before: bool, start: usize, end: usize) -> bool
    requires { (start ≤ end) × (end ≤ length part.now) }
    ensures { result ≡ (before && valid_segment (take (end - start) (drop start part.now))) }
{
    before && valid_segment(&part[start..end])
}

// What the string at the front of `part` is as a path, and whether its segments are valid. One loop
// serves both: a segment is judged where it ends. No more than 1,024 bytes are read.
pub fn read_path(part: &[u8]) -> Path
    ensures extent { result.extent ≡ extent 1023 part.now }
    ensures segments { result.valid_segments ≡ valid_segments (take 1023 (string part.now)) }
{
    let mut valid = true;
    let mut start = 0;
    for (i, &byte) in part.iter().enumerate() {
        if byte == 0 {
            let valid_segments = valid_to(part, valid, start, i);
            return Path {
                extent: ended(i),
                valid_segments,
            };
        }
        if i == 1023 {
            return Path {
                extent: Extent::Long,
                valid_segments: valid_to(part, valid, start, i),
            };
        }
        if byte == b'/' {
            valid = valid_to(part, valid, start, i);
            start = i + 1;
        }
    }
    Path {
        extent: Extent::Cut,
        valid_segments: valid_to(part, valid, start, part.len()),
    }
}

// Whether `path` may stand in a catalogue: with 1 to 1,023 bytes and none of them zero, no slash
// first, and valid segments.
pub fn allowed_path(path: &[u8]) -> bool
    ensures { result ≡ allowed_path path.now }
{
    let read = read_path(path);
    let extent = read.extent;
    if !within(path.len(), extent) {
        return false;
    }
    if path[0] == b'/' {
        return false;
    }
    read.valid_segments
}
