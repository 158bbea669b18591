// Goes over the chains of an accepted cache by their fields alone: for the first name that comes
// again, and for its records by rising offset.
#![tactic(auto)]

pub mod order;
pub mod repeated;
