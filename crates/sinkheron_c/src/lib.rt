//! Sinkheron for C: a static library of the eight operations, each proved to pack into one word what
//! crate sinkheron answers.
#![tactic(auto)]

mod face;
