//! What a policy comes to, by goal: which of the three values each of its terms may come to. A
//! target may come to one value only.

use crate::pair::Pair;
use crate::term::{Node, Parts, Policy, next_part};
use arrayvec::ArrayVec;

/// The values that a term may come to.
// A set of the three values, each a fact of its own; the library's `DecisionSet` is what this is
// compared with.
#[derive(Clone, Copy, Default)]
pub struct Values {
    zero: bool,
    one: bool,
    undefined: bool,
}

impl Values {
    const ZERO: Values = Values {
        zero: true,
        one: false,
        undefined: false,
    };

    const ONE: Values = Values {
        zero: false,
        one: true,
        undefined: false,
    };

    const UNDEFINED: Values = Values {
        zero: false,
        one: false,
        undefined: true,
    };

    /// 1 where the pair is held, 0 where another value of its name is.
    fn of_atom(pair: Pair, held: &[Pair]) -> Values {
        if held.contains(&pair) {
            Values::ONE
        } else if held.iter().any(|other| other.name == pair.name) {
            Values::ZERO
        } else {
            Values::UNDEFINED
        }
    }

    fn opposite(self) -> Values {
        Values {
            zero: self.one,
            one: self.zero,
            undefined: self.undefined,
        }
    }

    fn by_default(self) -> Values {
        Values {
            zero: self.zero || self.undefined,
            one: self.one,
            undefined: false,
        }
    }

    /// A side that may be 1 leaves the other side's value, except that 0 wins over all.
    fn and(self, other: Values) -> Values {
        Values {
            zero: self.zero || other.zero,
            one: self.one && other.one,
            undefined: self.undefined && (other.one || other.undefined)
                || self.one && other.undefined,
        }
    }

    /// A side that may be 0 leaves the other side's value, except that 1 wins over all.
    fn or(self, other: Values) -> Values {
        self.opposite().and(other.opposite()).opposite()
    }

    /// The body's value unless the target is 0, and undefined unless it is 1.
    fn guarding(self, body: Values) -> Values {
        Values {
            zero: !self.zero && body.zero,
            one: !self.zero && body.one,
            undefined: !self.zero && body.undefined || !self.one,
        }
    }

    /// What a node may come to by its parts, for a request that holds these pairs.
    fn of_node(node: Node, parts: &mut Parts<Values>, held: &[Pair]) -> Values {
        match node {
            Node::Deny => Values::ZERO,
            Node::Allow => Values::ONE,
            Node::Atom(pair) => Values::of_atom(pair, held),
            Node::Not => next_part(parts).opposite(),
            Node::Default => next_part(parts).by_default(),
            Node::And => next_part(parts).and(next_part(parts)),
            Node::Or => next_part(parts).or(next_part(parts)),
            Node::Targeted => next_part(parts).guarding(next_part(parts)),
        }
    }

    /// The code of the set: 1 for allow, 2 for deny, 4 for undefined, added up.
    pub fn code(self) -> usize {
        usize::from(self.one) | usize::from(self.zero) << 1 | usize::from(self.undefined) << 2
    }
}

impl Policy {
    /// What the policy may come to for a request that holds these pairs.
    pub fn values(&self, held: &[Pair]) -> Values {
        self.fold(ArrayVec::new(), |node, parts: &mut Parts<Values>| {
            Values::of_node(node, parts, held)
        })
    }
}
