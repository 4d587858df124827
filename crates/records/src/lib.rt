// The records of an object: how each stands, and what its file was after each.
#![tactic(auto)]

mod copies;
mod cuts;
pub mod history;
pub mod standing;
pub mod stands;
pub mod written;
