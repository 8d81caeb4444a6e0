//! An answer in the operations' numbers, whoever gives it.

/// A refusal's number and its place in the file or text.
// A number, as the lines of the fixed cases give it, and no enum: the library's own is what is put
// to the test, and another would only be turned into numbers and back.
#[derive(Clone, Copy, PartialEq, Eq)]
pub struct Refused {
    pub number: usize,
    pub place: usize,
}

/// What an operation answers where it is not refused.
#[derive(Clone, Copy, PartialEq, Eq)]
pub enum Reply {
    /// The code of a set: 1 for allow, 2 for deny, 4 for undefined, added up.
    Set(usize),
    /// A number of pairs; from a search also that the policy is resistant.
    Pairs(usize),
    /// How many bytes were written.
    Written(usize),
    /// The number of a structural rule, or 0.
    Rule(usize),
    /// The first exposure: of how many pairs, the subset, the pair that it hides, and how many
    /// bytes were written.
    Exposed {
        pairs: usize,
        m: usize,
        i: usize,
        bytes: usize,
    },
}

pub type Answer = Result<Reply, Refused>;

impl Refused {
    pub fn new(number: usize, place: usize) -> Refused {
        Refused { number, place }
    }
}
