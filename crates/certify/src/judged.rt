//! What is judged of a policy.

ghost use Rattle.std.specs.Prelude.{◌≡◌};
ghost use Rattle.certify.specs.Judged.{seen, decided};
ghost use Rattle.certify.specs.Numbers.{number_of};

use crate::missing::Missing;
use crate::rule::Rule;
use files::Tag;

/// What a policy has not, and the first rule that applies to it.
#[derive(Clone, Copy, Debug, PartialEq, Eq)]
pub struct Judged {
    pub missing: Missing,
    pub rule: Option<Rule>,
}

impl Judged {
    /// Of a node, by whether it never allows, what is missing below it, and the rule that applies by
    /// the policies below it.
    // Always inlined: most callers know the node.
    #[inline(always)]
    pub fn new(tag: Tag, never: bool, below: Missing, rule: Option<Rule>) -> Judged
        ensures { seen never result ≡ decided tag never below (number_of rule) }
    {
        let missing = Missing::at(tag).and(below);
        let first = if never {
            Some(Rule::NeverAllows)
        } else {
            missing.rule()
        };
        Judged {
            missing,
            rule: first.or(rule),
        }
    }
}

impl Default for Judged {
    fn default() -> Judged {
        Judged {
            missing: Missing::ALL,
            rule: None,
        }
    }
}
