//! The structural rules, by facts of each policy in a policy.

use crate::term::{Node, Parts, Policy, next_part};
use arrayvec::ArrayVec;

/// The structural rules, by their numbers.
#[derive(Clone, Copy, PartialEq, Eq)]
pub enum Rule {
    NeverAllows = 1,
    NoTarget = 2,
    NoNotInTargetsAndNoDefault = 3,
    NoNotAtAll = 4,
    DefaultOfCertified = 5,
    AndOfCertified = 6,
    OrOfCertified = 7,
}

/// The structural rules' numbers, which the operation answers.
impl From<Rule> for usize {
    fn from(rule: Rule) -> usize {
        // No plainer form: the other is a match that writes all the numbers again.
        rule as usize
    }
}

/// Which decisions a policy never comes to, as the rules find it by its parts.
// Two facts of their own, neither a flag beside a value.
#[derive(Clone, Copy, Default)]
struct Never {
    allows: bool,
    denies: bool,
}

impl Never {
    fn opposite(self) -> Never {
        Never {
            allows: self.denies,
            denies: self.allows,
        }
    }

    fn and(self, other: Never) -> Never {
        Never {
            allows: self.allows || other.allows,
            denies: self.denies && other.denies,
        }
    }

    // As `Values::or`: a trait of both types for this one line would be no plainer.
    fn or(self, other: Never) -> Never {
        self.opposite().and(other.opposite()).opposite()
    }
}

/// What is known of a policy: what it never comes to, what stands in it, and its rule. Of a target
/// it counts alone whether it has a not.
// Each a fact of its own, none a flag beside a value.
#[derive(Clone, Copy, Default)]
struct Facts {
    never: Never,
    has_target: bool,
    has_target_not: bool,
    has_default: bool,
    /// Outside its targets.
    has_not: bool,
    /// The smallest rule that applies.
    rule: Option<Rule>,
}

impl Facts {
    /// A policy without parts.
    fn of_leaf(is_allow: bool) -> Facts {
        Facts {
            never: Never {
                allows: !is_allow,
                denies: is_allow,
            },
            has_target: false,
            has_target_not: false,
            has_default: false,
            has_not: false,
            rule: None,
        }
        .judged(None)
    }

    /// The facts with their rule, where `by_parts` is the rule that the parts' certificates give.
    fn judged(self, by_parts: Option<Rule>) -> Facts {
        let rule = if self.never.allows {
            Some(Rule::NeverAllows)
        } else if !self.has_target {
            Some(Rule::NoTarget)
        } else if !self.has_target_not && !self.has_default {
            Some(Rule::NoNotInTargetsAndNoDefault)
        } else if !self.has_target_not && !self.has_not {
            Some(Rule::NoNotAtAll)
        } else {
            by_parts
        };
        Facts { rule, ..self }
    }

    fn not(self) -> Facts {
        Facts {
            never: self.never.opposite(),
            has_not: true,
            ..self
        }
        .judged(None)
    }

    fn by_default(self) -> Facts {
        Facts {
            never: Never {
                denies: false,
                ..self.never
            },
            has_default: true,
            ..self
        }
        .judged(self.rule.map(|_| Rule::DefaultOfCertified))
    }

    /// A policy of two parts, which `rule` certifies where both are certified.
    fn with(self, other: Facts, never: Never, rule: Rule) -> Facts {
        Facts {
            never,
            has_target: self.has_target || other.has_target,
            has_target_not: self.has_target_not || other.has_target_not,
            has_default: self.has_default || other.has_default,
            has_not: self.has_not || other.has_not,
            rule: None,
        }
        .judged(self.rule.and(other.rule).map(|_| rule))
    }

    fn and(self, other: Facts) -> Facts {
        self.with(other, self.never.and(other.never), Rule::AndOfCertified)
    }

    fn or(self, other: Facts) -> Facts {
        self.with(other, self.never.or(other.never), Rule::OrOfCertified)
    }

    fn guarding(self, body: Facts) -> Facts {
        Facts {
            has_target: true,
            has_target_not: body.has_target_not || self.has_not,
            ..body
        }
        .judged(None)
    }

    fn of_node(node: Node, parts: &mut Parts<Facts>) -> Facts {
        match node {
            Node::Deny | Node::Atom(_) => Facts::of_leaf(false),
            Node::Allow => Facts::of_leaf(true),
            Node::Not => next_part(parts).not(),
            Node::Default => next_part(parts).by_default(),
            Node::And => next_part(parts).and(next_part(parts)),
            Node::Or => next_part(parts).or(next_part(parts)),
            Node::Targeted => next_part(parts).guarding(next_part(parts)),
        }
    }
}

impl Policy {
    /// The smallest structural rule that applies to the policy.
    pub fn certificate(&self) -> Option<Rule> {
        self.fold(ArrayVec::new(), Facts::of_node).rule
    }
}
