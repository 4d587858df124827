// The library's calls as C and Rust have them: numbers, slices and plain answers with the refusal's number first, 0 where nothing is refused.
// A layout is given by its number in the table, 0 to 12; any other number is BadLayout. No call has a premise. Crate `capi_c` exports them.
#![tactic(auto)]

pub mod alone;
pub mod answer;
pub mod comparing;
pub mod count;
pub mod header;
pub mod indexed;
pub mod kind;
pub mod layout;
mod moment;
pub mod reasons;
pub mod recording;
pub mod texts;
pub mod trees;
