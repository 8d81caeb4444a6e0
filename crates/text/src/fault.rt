//! Why a line could not be read.

ghost use Rattle.std.specs.Prelude.{◌≡◌, ◌++◌, Some, codes};
ghost use Rattle.std.specs.Fmt.{decimal};
ghost use Rattle.text.specs.Faults.{text_fault_number, text_number, text_place};

use files::PolicyError;
use std::error::Error;
use std::fmt;

/// What is wrong with a line, apart from the limits of a policy.
#[derive(Clone, Copy, Debug, PartialEq, Eq)]
pub enum TextFault {
    /// No word of a node of the sort that is due, or another byte than the space that is due.
    Word = 51,
    /// No number from 0 to 65,535 in decimal, without leading zeros.
    Number = 52,
    /// The text ends where more of it is due.
    Ends = 53,
    /// Another byte than the line feed that is due, or bytes behind it.
    LineFeed = 54,
}

impl TextFault {
    /// The number that answers carry.
    pub fn number(self) -> u8
        ensures { result ≡ text_fault_number self }
    {
        self as u8
    }
}

/// Where a line is at fault.
#[derive(Clone, Copy, Debug, PartialEq, Eq)]
pub enum TextError {
    Text { fault: TextFault, place: usize },
    /// A policy's own limit: a node at depth 33, or a 256th node.
    Policy(PolicyError),
}

impl TextError {
    /// The number that answers carry.
    pub fn number(self) -> u8
        ensures { result ≡ text_number self }
    {
        match self {
            TextError::Text { fault, .. } => fault.number(),
            TextError::Policy(error) => error.fault.number(),
        }
    }

    /// The place in the text.
    pub fn place(self) -> usize
        ensures { result ≡ text_place self }
    {
        match self {
            TextError::Text { place, .. } => place,
            TextError::Policy(error) => error.place,
        }
    }
}

impl fmt::Display for TextError {
    ghost output = { λ e. Some (codes "refused " ++ decimal (text_number e) ++ codes " at " ++ decimal (text_place e)) };

    fn fmt<W: fmt::Write>(&self, f: &mut fmt::Formatter<W>) -> fmt::Result {
        write!(f, "refused {} at {}", self.number(), self.place())
    }
}

impl Error for TextError {}
