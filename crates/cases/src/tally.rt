//! What was run, what agreed, and what was met.

use crate::answer::{Answer, Refused, Reply};
use crate::compare::Case;
use crate::operation::{Operation, Trial};
use std::fmt;

/// The first case of a group that did not agree, counted from 1, and on what.
#[derive(Clone, Copy)]
pub struct Disagreement {
    case: usize,
    trial: Trial,
}

// Like `Group`'s it is one `write!` of its own words: there is no less to write.
impl fmt::Display for Disagreement {
    fn fmt<W: fmt::Write>(&self, f: &mut fmt::Formatter<W>) -> fmt::Result {
        write!(f, "{} {}", self.case, self.trial)
    }
}

/// A group of cases: how many were run, and how many agreed.
#[derive(Clone, Copy)]
pub struct Group {
    run: usize,
    right: usize,
    first: Option<Disagreement>,
}

impl fmt::Display for Group {
    fn fmt<W: fmt::Write>(&self, f: &mut fmt::Formatter<W>) -> fmt::Result {
        write!(f, "{} of {}", self.right, self.run)
    }
}

impl Group {
    const EMPTY: Group = Group {
        run: 0,
        right: 0,
        first: None,
    };

    /// Counts a case of which this was the first trial to disagree.
    pub fn record(&mut self, disagreed: Option<Trial>) {
        self.run = self.run.saturating_add(1);
        let Some(trial) = disagreed else {
            self.right = self.right.saturating_add(1);
            return;
        };
        let case = self.run;
        self.first = self.first.or(Some(Disagreement { case, trial }));
    }

    pub fn first(&self) -> Option<Disagreement> {
        self.first
    }
}

/// A set of numbers below 64, as the bits of a word.
#[derive(Clone, Copy)]
pub struct Numbers {
    bits: u64,
}

impl Numbers {
    const NONE: Numbers = Numbers { bits: 0 };

    /// The bit of a number; beyond 63 there is none.
    fn bit(number: usize) -> u64 {
        u32::try_from(number)
            .ok()
            .and_then(|number| 1u64.checked_shl(number))
            .unwrap_or(0)
    }

    fn insert(&mut self, number: usize) {
        self.bits |= Numbers::bit(number);
    }

    pub fn contains(self, number: usize) -> bool {
        self.bits & Numbers::bit(number) != 0
    }
}

/// The fixed and the generated cases, and what the evaluator answered: refusals by number, sets by
/// code, certificates by rule, and how many searches found a policy resistant or exposed.
#[derive(Clone, Copy)]
pub struct Tally {
    pub fixed: Group,
    pub generated: Group,
    pub refusals: Numbers,
    pub sets: Numbers,
    pub rules: Numbers,
    pub resistant: usize,
    pub exposed: usize,
}

impl Tally {
    pub const EMPTY: Tally = Tally {
        fixed: Group::EMPTY,
        generated: Group::EMPTY,
        refusals: Numbers::NONE,
        sets: Numbers::NONE,
        rules: Numbers::NONE,
        resistant: 0,
        exposed: 0,
    };

    /// Counts what an operation answered.
    fn meet(&mut self, operation: Operation, answer: Answer) {
        match answer {
            Err(Refused { number, .. }) => self.refusals.insert(number),
            Ok(Reply::Set(code)) if operation == Operation::Decide => self.sets.insert(code),
            Ok(Reply::Rule(number)) => self.rules.insert(number),
            Ok(Reply::Exposed { .. }) => self.exposed = self.exposed.saturating_add(1),
            Ok(Reply::Pairs(_)) if operation == Operation::Search => {
                self.resistant = self.resistant.saturating_add(1);
            }
            Ok(_) => {}
        }
    }

    /// Runs all operations on a case, and gives the first to disagree.
    pub fn first_to_disagree(&mut self, case: &Case) -> Option<Operation> {
        let mut first = None;
        for operation in Operation::ALL {
            let both = case.run(operation);
            self.meet(operation, both.model);
            if !both.agree {
                first = first.or(Some(operation));
            }
        }
        first
    }
}
