//! Policy and request files: reading them, with the first refusal in order, and writing a request.
#![tactic(auto)]

mod atoms;
mod fault;
mod frame;
mod pair;
mod pairs;
mod policy;
mod reader;
mod request;
mod tag;
pub mod tags;
mod write;

pub use atoms::Atoms;
pub use fault::{Fault, PolicyError, RequestError, RequestFault};
pub use pair::Pair;
pub use pairs::Pairs;
pub use policy::Policy;
pub use reader::{BEGIN, DEEPEST, Reader, limit};
pub use request::Request;
pub use tag::{NoTag, Shape, Sort, Tag};
pub use write::{put, write_request, write_two};
