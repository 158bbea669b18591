// Long image lists.
// The two fields of image i: index 0xFFFF with flags i modulo 16, and the data offset i.
fn put_image(cache: &mut [u8], at: usize, i: usize) {
    crate::put_u32(cache, at, 0xFFFF0000 + i % 16);
    crate::put_u32(cache, at.wrapping_add(4), i);
}

// Puts the images 0 to `count` - 1.
pub fn put(cache: &mut [u8], at: usize, count: usize) {
    for i in 0..count {
        put_image(cache, at.wrapping_add(i.wrapping_mul(8)), i);
    }
}
