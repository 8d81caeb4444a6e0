//! The table of allowed subsets of a policy's pairs, judged 512 at a time as they are needed: a
//! request to each bit of eight words.
#![tactic(auto)]

mod judge;
mod row;
mod table;
mod words;

pub use table::Table;
pub use words::holding;
