// The pages of a dump: layouts, tags, page kinds, header fields, counts and the finding of the layout.
#![tactic(auto)]

pub mod count;
pub mod fields;
pub mod find;
pub mod geometry;
pub mod header;
pub mod kind;
pub mod layout;
pub mod number;
pub mod record;
pub mod refusal;
pub mod tags;
mod word;
