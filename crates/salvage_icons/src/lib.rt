// What becomes of a record that is met, and what is put for it: an icon, or rows.
#![tactic(auto)]

pub mod fate;
pub mod icon;
pub mod images;
