// Whole files: where the copy of every chunk is, by one walk down the object's chain.
#![tactic(auto)]

pub mod along;
pub mod answer;
pub mod copies;
pub mod copy;
mod shows;
pub mod table;
