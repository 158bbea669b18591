// The words and the bytes that the cases lend: as many as are to be lent, what they hold before a
// call, and how much of what they hold after it is right. What they are to hold stands in the
// buffer, from 1,024 on.
#![tactic(auto)]

ghost use Rattle.std.specs.Prelude.{◌<◌};

use cases_made::script;

// One more than `before` if what is counted holds.
pub fn counted(before: usize, holds: bool) -> usize {
    before.wrapping_add(holds as usize)
}

// The front of what there is, as much of it as is to be lent.
pub fn front<T>(all: &mut [T], room: usize) -> &mut [T] {
    let room = room.min(all.len());
    &mut all[..room]
}

// The number that the four bytes at `at` write.
fn word(buffer: &[u8], at: usize) -> u32 {
    u32::from_be_bytes([
        script::byte(buffer, at),
        script::byte(buffer, at.wrapping_add(1)),
        script::byte(buffer, at.wrapping_add(2)),
        script::byte(buffer, at.wrapping_add(3)),
    ])
}

// Puts the words of the buffer into those that are lent.
pub fn read(buffer: &[u8], words: &mut [u32]) {
    for (i, w) in words.iter_mut().enumerate() {
        *w = word(buffer, i.wrapping_mul(4).wrapping_add(1024));
    }
}

// How many of the lent bytes are as those in the buffer.
pub fn count_same(lent: &[u8], buffer: &[u8]) -> usize {
    let mut count: usize = 0;
    for (i, byte) in lent.iter().enumerate() {
        count = counted(count, *byte == script::byte(buffer, i.wrapping_add(1024)));
    }
    count
}

// Whether image i of those that `cases_made` puts stands in the words as document 01 says.
fn image_right(words: &[u32; 2048], i: u32) -> bool
    requires { i < 1024 }
{
    let at = 2 * (i as usize);
    words[at] == 0xFFFF0000 + i % 16 && words[at + 1] == i
}

// How many of the 1,024 images stand so.
pub fn count_right(words: &[u32; 2048]) -> usize {
    let mut count: usize = 0;
    for i in 0..1024 {
        count = counted(count, image_right(words, i));
    }
    count
}

pub fn sum(words: &[u32]) -> usize {
    let mut sum: usize = 0;
    for word in words {
        sum = sum.wrapping_add(*word as usize);
    }
    sum
}
