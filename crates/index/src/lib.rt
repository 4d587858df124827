// The index: lent words that hold, for each object, its added records from the newest to the oldest.
#![tactic(auto)]

pub mod additions;
pub mod cells;
pub mod chains;
pub mod list;
pub mod lookups;
pub mod places;
pub mod records;
pub mod runs;
pub mod slots;
pub mod walks;
