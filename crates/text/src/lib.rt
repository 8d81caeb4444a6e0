//! The written form of a policy: reading a line of words into a policy file, and writing the line of a file.
#![tactic(auto)]

pub mod convert;
pub mod end;
mod fault;
pub mod keyword;
mod line;
pub mod number;
pub mod output;
pub mod sink;
pub mod source;
pub mod words;

pub use fault::{TextError, TextFault};
pub use line::{LONGEST, read_line, write_line};
