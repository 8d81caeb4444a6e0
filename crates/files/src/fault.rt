//! Why a file could not be read.

ghost use Rattle.std.specs.Prelude.{◌≡◌, ◌++◌, Some, codes};
ghost use Rattle.std.specs.Fmt.{decimal};
ghost use Rattle.files.specs.Faults.{fault_number, request_fault_number};

use std::error::Error;
use std::fmt;

/// What is wrong with a policy file.
#[derive(Clone, Copy, Debug, PartialEq, Eq)]
pub enum Fault {
    /// It is shorter than three bytes.
    Short = 1,
    /// The version byte is not 1.
    Version = 2,
    /// The stated length is not that of the body.
    Length = 3,
    /// The body ends where a node or an atom's numbers are due.
    Ends = 4,
    /// The byte is no tag.
    NoTag = 5,
    /// A node at depth 33.
    TooDeep = 6,
    /// A 256th node.
    TooManyNodes = 7,
    /// Bytes follow the policy.
    Excess = 8,
    /// The byte is a tag of the other sort than the one due.
    OtherSort = 15,
}

impl Fault {
    /// The number that answers carry.
    pub fn number(self) -> u8
        ensures { result ≡ fault_number self }
    {
        self as u8
    }
}

/// Where a policy file is at fault.
#[derive(Clone, Copy, Debug, PartialEq, Eq)]
pub struct PolicyError {
    pub fault: Fault,
    pub place: usize,
}

impl fmt::Display for PolicyError {
    ghost output = { λ e. Some (codes "refused " ++ decimal (fault_number e.fault) ++ codes " at " ++ decimal e.place) };

    fn fmt<W: fmt::Write>(&self, f: &mut fmt::Formatter<W>) -> fmt::Result {
        write!(f, "refused {} at {}", self.fault.number(), self.place)
    }
}

impl Error for PolicyError {}

/// What is wrong with a request file.
#[derive(Clone, Copy, Debug, PartialEq, Eq)]
pub enum RequestFault {
    /// It is shorter than three bytes.
    Short = 21,
    /// The version byte is not 1.
    Version = 22,
    /// The stated length is not that of the body.
    Length = 23,
    /// The body is not a multiple of four bytes.
    Uneven = 24,
    /// There are more than 256 pairs.
    TooManyPairs = 25,
    /// A pair is not above the one before.
    NotAscending = 26,
}

impl RequestFault {
    /// The number that answers carry.
    pub fn number(self) -> u8
        ensures { result ≡ request_fault_number self }
    {
        self as u8
    }
}

/// Where a request file is at fault.
#[derive(Clone, Copy, Debug, PartialEq, Eq)]
pub struct RequestError {
    pub fault: RequestFault,
    pub place: usize,
}

// Prints as a policy's error does: one generic error would need a trait for the number, longer than
// these lines.
impl fmt::Display for RequestError {
    ghost output = { λ e. Some (codes "refused " ++ decimal (request_fault_number e.fault) ++ codes " at " ++ decimal e.place) };

    fn fmt<W: fmt::Write>(&self, f: &mut fmt::Formatter<W>) -> fmt::Result {
        write!(f, "refused {} at {}", self.fault.number(), self.place)
    }
}

impl Error for RequestError {}
