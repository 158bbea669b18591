// What a cache that is written is put together from: where its parts begin and how many bytes it
// has, its header and a hash of empty buckets, a record, and the parts that follow the records, each
// put by one pass over the catalogue.
#![tactic(auto)]

pub mod head;
pub mod putting;
pub mod record;
pub mod sizes;
