// The words that a lookup gives for the long image list of `cases_made::images`.
use crate::answers;
use crate::answers::Tried;
use std::fmt::Write;

// A lookup with `room` words lent, at most 2,048, which are too many to print.
pub fn lookup(rt: &impl Print, case: &[u8], cache: &[u8], name: &[u8], room: usize) {
    let mut words = [7u32; 2048];
    let answer = icon_cache::lookup(cache, name, cases_lent::front(&mut words, room));
    let right = cases_lent::count_right(&words);
    let sum = cases_lent::sum(&words);
    answers::begin_lookup(rt, case, ": lookup ", answer);
    let _ = write!(
        Tried(rt),
        ", images right {right}, sum of the words {sum}\n"
    );
}
