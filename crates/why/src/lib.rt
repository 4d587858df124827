// Why each byte of a file is what it is, from the dump alone.
#![tactic(auto)]

pub mod answer;
pub mod byte;
mod marks;
pub mod reason;
mod setter;
pub mod spans;
mod sweep;
