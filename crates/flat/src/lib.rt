//! What a policy comes to for a request, without calls that nest: one loop reads the policy and notes the places of its nodes, another goes
//! over these from the last to the first. Each has a stack of its own.
#![tactic(auto)]

mod policy;
mod read;
pub mod walk;

pub use policy::FlatPolicy;
