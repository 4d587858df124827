// What C calls: an export for each call of `capi`, under its name and with its clauses. No call has a premise.
#![tactic(auto)]

mod alone;
mod comparing;
mod count;
mod header;
mod indexed;
mod kind;
mod layout;
mod reasons;
mod recording;
mod texts;
mod trees;
