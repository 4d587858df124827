// Open dumps: the bytes of a dump and its geometry, held together, and what is asked of them.
#![tactic(auto)]

pub mod both;
pub mod open;
pub mod prepare;
