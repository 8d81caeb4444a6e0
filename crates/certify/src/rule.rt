//! The rules by which a policy's structure shows it resistant.

ghost use Rattle.std.specs.Prelude.{◌≡◌};
ghost use Rattle.ptacl.specs.Rules.{given};
ghost use Rattle.certify.specs.Numbers.{rule_number, number_of};

/// A rule, and what it asks of a policy.
#[derive(Clone, Copy, Debug, PartialEq, Eq)]
pub enum Rule {
    /// It never allows.
    NeverAllows = 1,
    /// It has no targeted node.
    Untargeted = 2,
    /// It has no not in a target, and no deny-by-default.
    PlainWithoutDefault = 3,
    /// It has no not, in a target or of a policy.
    WithoutNot = 4,
    /// It is the deny-by-default of a certified policy.
    DefaultOfCertified = 5,
    /// It is the and of two certified policies.
    AndOfCertified = 6,
    /// It is the or of two certified policies.
    OrOfCertified = 7,
}

impl Rule {
    /// The number that answers carry.
    pub fn number(self) -> u8
        ensures { result ≡ rule_number self }
    {
        self as u8
    }

    /// This rule, if both of two policies are certified.
    #[tactic(auto, using(crate::proofs::Given::rule_given))]
    pub(crate) fn by_both(self, first: Option<Rule>, second: Option<Rule>) -> Option<Rule>
        ensures { number_of result ≡ given (number_of first) (given (number_of second) (rule_number self)) }
    {
        first.and(second).and(Some(self))
    }
}
