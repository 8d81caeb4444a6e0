//! Why an operation gives no answer.

ghost use Rattle.std.specs.Prelude.{◌≡◌, Some};
ghost use Rattle.sinkheron.specs.Refusals.{refusal_number, refusal_place, OfTextError, shown};
ghost use Rattle.sinkheron.specs.declared.refusal.Refusal.TheVariants as V;

use files::{PolicyError, RequestError};
use std::error::Error;
use std::fmt;
use text::{TextError, TextFault};

/// Why an operation gives no answer. Its number and its place, in bytes, tell which it is.
#[derive(Clone, Copy, Debug, PartialEq, Eq)]
pub enum Refusal {
    /// The policy file is none, or is beyond the limits; a line's policy is beyond the limits.
    Policy(PolicyError),
    /// The request file is none, or is beyond the limits.
    Request(RequestError),
    /// The text is no policy's line.
    Text { fault: TextFault, place: usize },
    /// A search of more than 16 pairs.
    TooManyPairs,
    /// The lent memory is shorter than what is to be written.
    NoSpace,
    /// The set that the policy comes to has no member.
    EmptySet,
}

impl Refusal {
    /// The number that answers carry.
    pub fn number(self) -> u8
        ensures { result ≡ refusal_number self }
    {
        match self {
            Refusal::Policy(error) => error.fault.number(),
            Refusal::Request(error) => error.fault.number(),
            Refusal::Text { fault, place: _ } => fault.number(),
            Refusal::TooManyPairs => 12,
            Refusal::NoSpace => 13,
            Refusal::EmptySet => 14,
        }
    }

    /// The place in the file or text that answers carry, or 0.
    pub fn place(self) -> usize
        ensures { result ≡ refusal_place self }
    {
        match self {
            Refusal::Policy(error) => error.place,
            Refusal::Request(error) => error.place,
            Refusal::Text { fault: _, place } => place,
            Refusal::TooManyPairs | Refusal::NoSpace | Refusal::EmptySet => 0,
        }
    }
}

impl From<PolicyError> for Refusal {
    ghost from_gives = { λ error refusal. refusal ≡ V.Policy error };

    fn from(error: PolicyError) -> Refusal {
        Refusal::Policy(error)
    }
}

impl From<RequestError> for Refusal {
    ghost from_gives = { λ error refusal. refusal ≡ V.Request error };

    fn from(error: RequestError) -> Refusal {
        Refusal::Request(error)
    }
}

impl From<TextError> for Refusal {
    ghost from_gives = { λ error refusal. OfTextError error refusal };

    fn from(error: TextError) -> Refusal {
        match error {
            TextError::Text { fault, place } => Refusal::Text { fault, place },
            TextError::Policy(error) => Refusal::Policy(error),
        }
    }
}

impl fmt::Display for Refusal {
    ghost output = { λ r. Some (shown r) };

    fn fmt<W: fmt::Write>(&self, f: &mut fmt::Formatter<W>) -> fmt::Result {
        write!(f, "refused {} at {}", self.number(), self.place())
    }
}

impl Error for Refusal {}
