//! The operations, by their numbers and by the letters that stand for them in the fixed cases.

use crate::answer::Reply;
use std::fmt;

/// What the independent evaluator does as well.
#[derive(Clone, Copy, PartialEq, Eq)]
pub enum Operation {
    Decide = 1,
    ListPairs = 2,
    NormalForm = 3,
    Certify = 4,
    Search = 5,
    DecideFlat = 6,
}

impl Operation {
    pub const ALL: [Operation; 6] = [
        Operation::Decide,
        Operation::ListPairs,
        Operation::NormalForm,
        Operation::Certify,
        Operation::Search,
        Operation::DecideFlat,
    ];

    /// The operation of a line's first letter.
    pub fn of_letter(letter: u8) -> Option<Operation> {
        match letter {
            b'd' => Some(Operation::Decide),
            b'l' => Some(Operation::ListPairs),
            b'n' => Some(Operation::NormalForm),
            b'c' => Some(Operation::Certify),
            b's' => Some(Operation::Search),
            _ => None,
        }
    }

    /// The reply that one number of a line stands for.
    pub fn reply(self, value: usize) -> Reply {
        match self {
            Operation::Decide | Operation::DecideFlat => Reply::Set(value),
            Operation::ListPairs | Operation::Search => Reply::Pairs(value),
            Operation::NormalForm => Reply::Written(value),
            Operation::Certify => Reply::Rule(value),
        }
    }
}

/// What leads from one form of a policy to the other.
#[derive(Clone, Copy, PartialEq, Eq)]
pub enum Conversion {
    ReadText = 7,
    WriteText = 8,
}

impl Conversion {
    /// The conversion of a line's first letter.
    pub fn of_letter(letter: u8) -> Option<Conversion> {
        match letter {
            b'f' => Some(Conversion::ReadText),
            b'w' => Some(Conversion::WriteText),
            _ => None,
        }
    }
}

/// What a case is tried on.
#[derive(Clone, Copy)]
pub enum Trial {
    Operation(Operation),
    Conversion(Conversion),
}

impl fmt::Display for Trial {
    fn fmt<W: fmt::Write>(&self, f: &mut fmt::Formatter<W>) -> fmt::Result {
        // No plainer form: the other is a match that writes all the numbers again.
        let number = match self {
            Trial::Operation(operation) => *operation as u8,
            Trial::Conversion(conversion) => *conversion as u8,
        };
        write!(f, "operation {number}")
    }
}
