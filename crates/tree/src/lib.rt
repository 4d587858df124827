// The tree of a dump's live objects as the operator saw it: paths from the root, and why an object has none.
#![tactic(auto)]

mod children;
mod climb;
mod heads;
mod list;
mod objects;
mod others;
pub mod reason;
mod row;
mod search;
pub mod texts;
pub mod whole;
