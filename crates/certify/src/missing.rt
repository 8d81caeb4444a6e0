//! Which nodes a term has not.

ghost use Rattle.std.specs.Prelude.{◌≡◌};
ghost use Rattle.certify.specs.Missing.{missing_at, missing_both, missing_with, rule_by_missing};
ghost use Rattle.certify.specs.Numbers.{number_of};

use crate::rule::Rule;
use files::Tag;

/// Which of the nodes that the rules 2, 3 and 4 ask about are nowhere in a term.
#[derive(Clone, Copy, Debug, PartialEq, Eq)]
pub struct Missing {
    targeted: bool,
    target_not: bool,
    deny_by_default: bool,
    policy_not: bool,
}

impl Missing {
    /// What nothing has.
    pub const ALL: Missing = Missing {
        targeted: true,
        target_not: true,
        deny_by_default: true,
        policy_not: true,
    };

    /// What a node alone has not.
    #[inline]
    pub fn at(tag: Tag) -> Missing
        ensures { result ≡ missing_at tag }
    {
        Missing {
            targeted: !matches!(tag, Tag::Targeted),
            target_not: !matches!(tag, Tag::TargetNot),
            deny_by_default: !matches!(tag, Tag::DenyByDefault),
            policy_not: !matches!(tag, Tag::PolicyNot),
        }
    }

    /// What neither has.
    #[inline]
    pub fn and(self, other: Missing) -> Missing
        ensures { result ≡ missing_both self other }
    {
        Missing {
            targeted: self.targeted && other.targeted,
            target_not: self.target_not && other.target_not,
            deny_by_default: self.deny_by_default && other.deny_by_default,
            policy_not: self.policy_not && other.policy_not,
        }
    }

    /// What neither this has nor a target, which has a not unless it is plain, and no other of these
    /// nodes.
    #[inline]
    pub fn with_target(self, is_plain: bool) -> Missing
        ensures { result ≡ missing_with is_plain self }
    {
        Missing {
            target_not: is_plain && self.target_not,
            ..self
        }
    }

    /// The first of the rules 2, 3 and 4 that applies to a policy of which this is missing.
    #[inline]
    pub fn rule(self) -> Option<Rule>
        ensures { number_of result ≡ rule_by_missing self }
    {
        if self.targeted {
            Some(Rule::Untargeted)
        } else if self.target_not && self.deny_by_default {
            Some(Rule::PlainWithoutDefault)
        } else if self.target_not && self.policy_not {
            Some(Rule::WithoutNot)
        } else {
            None
        }
    }
}
