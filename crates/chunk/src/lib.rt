// What a file held last, from the dump alone: newest records, sizes, cuts, chunks and the live list.
#![tactic(auto)]

pub mod answer;
pub mod cut;
pub mod list;
pub mod lookup;
pub mod moment;
pub mod read;
pub mod record;
pub mod scan;
pub mod takes;
