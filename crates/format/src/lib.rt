// The types that the calls answer with. What they mean is in specs/.
#![tactic(auto)]

// What the string at the front of a slice is, within a limit.
#[derive(Clone, Copy)]
pub enum Extent {
    // Ended by a zero byte after this many bytes, at least 1 and at most the limit.
    Whole(usize),
    Empty,
    // The limit's bytes and one more lie inside, without a zero byte.
    Long,
    // The buffer ends before a zero byte, within the limit.
    Cut,
}

// Which rule is broken, and where; number 0 where none is.
#[derive(Clone, Copy)]
pub struct Fault {
    pub number: u32,
    pub place: usize,
}

// What a field leads to on a chain.
#[derive(Clone, Copy)]
pub enum Next {
    // The end value: no further record.
    End,
    // A record that breaks a rule: the rule's number and its place.
    Broken(u32, usize),
    // A record that keeps the rules.
    Record(usize),
}

// How much of an image is judged.
#[derive(Clone, Copy)]
pub enum Reading {
    // Its directory index and its flags.
    Short,
    // The same, and all that its IMAGE_DATA_OFFSET leads to.
    Long,
}

#[derive(Clone, Copy)]
pub struct CheckAnswer {
    pub number: u32,
    pub place: usize,
    pub directories: usize,
    pub icons: usize,
    pub opened: usize,
    // How many records the longest chain has; 0 with a refusal.
    pub longest: usize,
}

// The record that bears a name, as the place of number 0, or why there is none.
#[derive(Clone, Copy)]
pub struct Found {
    pub number: u32,
    pub place: usize,
    pub opened: usize,
}

#[derive(Clone, Copy)]
pub struct LookupAnswer {
    pub number: u32,
    pub place: usize,
    pub images: usize,
    pub opened: usize,
}

#[derive(Clone, Copy)]
pub struct DirectoryAnswer {
    pub number: u32,
    pub place: usize,
}

// The number call's answer, and where the path's part stands in the buffer; with a refusal its
// start and its length are 0.
#[derive(Clone, Copy)]
pub struct DirectoryPart {
    pub number: u32,
    pub place: usize,
    pub start: usize,
    pub length: usize,
}
