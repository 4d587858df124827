// The report of a dump: what it says, and its text in lent bytes.
#![tactic(auto)]

pub mod figures;
pub mod report;
