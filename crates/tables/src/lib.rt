// The header of a cache, its directory list and its hash: rules 1 to 6, 16 and 17.
#![tactic(auto)]

ghost use Rattle.std.specs.Prelude.{◌≡◌, ◌+◌, ◌^◌, ◌≤◌, ◌<◌, length};
ghost use Rattle.format.specs.Fault.{outcome, verdict};
ghost use Rattle.format.specs.Part.{list_inside};
ghost use Rattle.format.specs.Header.{valid_version, header_fault, directories, path_fault, paths_fault};
ghost use Rattle.tables.specs.Tables.{list_count, TablesOf, bucket_field_of, path_field_of, part_of};

use bigendian::{u16_at, u32_at};
use format::Fault;

// Where the hash and the directory list of a cache stand, and how many entries they have.
#[derive(Clone, Copy)]
pub struct Tables {
    pub buckets_at: u32,
    pub buckets: u32,
    pub directories_at: u32,
    pub directories: u32,
}

// Where a path that keeps the rules stands, and how many bytes it has.
#[derive(Clone, Copy)]
pub struct PathPart {
    pub start: usize,
    pub length: usize,
}

// Whether the list at `at` lies inside: its count, and as many entries of `size` bytes.
pub fn list_inside(cache: &[u8], at: usize, size: usize) -> bool
    requires { (at < 2 ^ 32) × (size ≤ 8) }
    ensures { result ≡ list_inside cache.now at size }
{
    if cache.len() < at + 4 {
        return false;
    }
    let count = u32_at(cache, at) as usize;
    at + (4 + size * count) <= cache.len()
}

// Whether the version is 1.0.
fn valid_version(cache: &[u8]) -> bool
    requires { 12 ≤ length cache.now }
    ensures { result ≡ valid_version cache.now }
{
    u16_at(cache, 0) == 1 && u16_at(cache, 2) == 0
}

// The count of the list whose offset stands at `field`, or `other` where the list doesn't lie
// inside.
fn list_count(cache: &[u8], field: usize, other: u32) -> u32
    requires { field + 4 ≤ length cache.now }
    ensures { result ≡ list_count cache.now field other }
{
    let at = u32_at(cache, field) as usize;
    if list_inside(cache, at, 4) {
        u32_at(cache, at)
    } else {
        other
    }
}

// The first of the rules 1 to 5 that `cache` breaks, if there is one.
pub fn header(cache: &[u8]) -> Result<(), Fault>
    ensures { result ≡ verdict (header_fault cache.now) }
{
    if cache.len() < 12 {
        return Err(Fault {
            number: 1,
            place: 0,
        });
    }
    if 16777216 < cache.len() {
        return Err(Fault {
            number: 2,
            place: 0,
        });
    }
    if !valid_version(cache) {
        return Err(Fault {
            number: 3,
            place: 0,
        });
    }
    if 65535 < list_count(cache, 8, 65536) {
        return Err(Fault {
            number: 4,
            place: 8,
        });
    }
    if list_count(cache, 4, 0) == 0 {
        return Err(Fault {
            number: 5,
            place: 4,
        });
    }
    Ok(())
}

// The tables of a cache whose header breaks no rule.
pub fn read(cache: &[u8]) -> Tables
    requires { (header_fault cache.now).number ≡ 0 }
    ensures { TablesOf cache.now result }
{
    let buckets_at = u32_at(cache, 4);
    let buckets = u32_at(cache, buckets_at as usize);
    let directories_at = u32_at(cache, 8);
    let directories = u32_at(cache, directories_at as usize);
    Tables {
        buckets_at,
        buckets,
        directories_at,
        directories,
    }
}

// The field of bucket `k`.
pub fn bucket_field(t: Tables, k: u32) -> usize
    ensures { result ≡ bucket_field_of t k }
{
    t.buckets_at as usize + 4 + 4 * k as usize
}

// The field of the path of directory `i`.
pub fn path_field(t: Tables, i: u32) -> usize
    ensures { result ≡ path_field_of t i }
{
    t.directories_at as usize + 4 + 4 * i as usize
}

// Where the path of directory `i` stands, in a cache whose header breaks no rule, or the first of
// the rules 6, 17 and 16 that it breaks.
pub fn path(cache: &[u8], t: Tables, i: u32) -> Result<PathPart, Fault>
    requires tables_of { TablesOf cache.now t }
    requires i_bound { i < directories cache.now }
    ensures { result ≡ outcome (path_fault cache.now i) (part_of cache.now i) }
{
    let field = path_field(t, i);
    let start = u32_at(cache, field) as usize;
    let part = strings::from(cache, start);
    let read = paths::read_path(part);
    let extent = read.extent;
    let length = strings::judge(extent, 6, field)?;
    if part[0] == b'/' {
        return Err(Fault {
            number: 6,
            place: field,
        });
    }
    if !read.valid_segments {
        return Err(Fault {
            number: 16,
            place: field,
        });
    }
    Ok(PathPart { start, length })
}

// The rule that the first wrong path breaks, 6, 17 or 16, if there is one, in a cache whose header
// breaks no rule.
pub fn paths(cache: &[u8], t: Tables) -> Result<(), Fault>
    requires { TablesOf cache.now t }
    ensures { result ≡ verdict (paths_fault (directories cache.now) cache.now 0) }
{
    for i in 0..t.directories {
        path(cache, t, i)?;
    }
    Ok(())
}
