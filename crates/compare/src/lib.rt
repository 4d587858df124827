// Two dumps compared: what differs, object by object.
#![tactic(auto)]

pub mod answer;
mod bytes;
mod fields;
mod head;
mod object;
mod order;
mod part;
pub mod prepare;
mod rows;
mod runs;
mod stretches;
pub mod whole;
