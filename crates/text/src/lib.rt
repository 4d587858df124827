// Texts in lent bytes. A text is put at a position, piece by piece; a report is measured first and then written whole or not at all.
#![tactic(auto)]

pub mod put;
pub mod written;
