//! PTaCL: the three values of a target, and decision sets.
#![tactic(auto)]

ghost use Rattle.std.specs.Prelude.{◌≡◌};
ghost use Rattle.ptacl.specs.Value.{not_v, default_v, and_v, or_v};
ghost use Rattle.ptacl.specs.Values.{single, union, each, each2, code, set_of};
ghost use Rattle.ptacl.specs.Cases.{value_of, Targeted};

/// What a target comes to.
#[derive(Clone, Copy, Debug, PartialEq, Eq)]
pub enum TargetValue {
    One,
    Zero,
    Undefined,
}

/// What a policy comes to, a set of the three values as its code: 1 for allow, plus 2 for deny, plus
/// 4 for undefined. A code above 7 stands for the set of its last three bits.
#[derive(Clone, Copy, Debug, PartialEq, Eq)]
pub struct DecisionSet {
    pub code: u8,
}

// The conjunction of the sets with the codes left and right stands at left * 8 + right.
const CONJUNCTION: [u8; 64] = [
    0, 0, 0, 0, 0, 0, 0, 0, // left 0
    0, 1, 2, 3, 4, 5, 6, 7, // left 1
    0, 2, 2, 2, 2, 2, 2, 2, // left 2
    0, 3, 2, 3, 6, 7, 6, 7, // left 3
    0, 4, 2, 6, 4, 4, 6, 6, // left 4
    0, 5, 2, 7, 4, 5, 6, 7, // left 5
    0, 6, 2, 6, 6, 6, 6, 6, // left 6
    0, 7, 2, 7, 6, 7, 6, 7, // left 7
];

// What a not makes of the set with each code.
const NEGATION: [u8; 8] = [0, 2, 1, 3, 4, 6, 5, 7];

// What a deny by default makes of it.
const DEFAULTED: [u8; 8] = [0, 1, 2, 3, 2, 3, 2, 3];

impl DecisionSet {
    /// Allow alone.
    pub const ALLOW: DecisionSet = DecisionSet { code: 1 };

    /// Deny alone.
    pub const DENY: DecisionSet = DecisionSet { code: 2 };

    /// Undefined alone.
    pub const UNDEFINED: DecisionSet = DecisionSet { code: 4 };

    /// The set of one member.
    pub fn single(member: TargetValue) -> DecisionSet
        ensures { result.code ≡ code (single (value_of member)) }
    {
        match member {
            TargetValue::One => DecisionSet::ALLOW,
            TargetValue::Zero => DecisionSet::DENY,
            TargetValue::Undefined => DecisionSet::UNDEFINED,
        }
    }

    /// The set of all that is in either.
    pub fn union(self, other: DecisionSet) -> DecisionSet
        ensures { result.code ≡ code (union (set_of self.code) (set_of other.code)) }
    {
        DecisionSet {
            code: (self.code % 8) | (other.code % 8),
        }
    }

    /// What an and comes to, whose sides come to these.
    pub fn and(self, other: DecisionSet) -> DecisionSet
        ensures { result.code ≡ code (each2 and_v (set_of self.code) (set_of other.code)) }
    {
        let at = self.code % 8 * 8 + other.code % 8;
        DecisionSet {
            code: CONJUNCTION[usize::from(at)],
        }
    }

    /// What an or comes to: it is not(and(not, not)), so the one table serves it too.
    pub fn or(self, other: DecisionSet) -> DecisionSet
        ensures { result.code ≡ code (each2 or_v (set_of self.code) (set_of other.code)) }
    {
        self.not().and(other.not()).not()
    }

    /// What a not comes to, whose part comes to this.
    pub fn not(self) -> DecisionSet
        ensures { result.code ≡ code (each not_v (set_of self.code)) }
    {
        DecisionSet {
            code: NEGATION[usize::from(self.code % 8)],
        }
    }

    /// What a deny by default comes to, and an optional target.
    pub fn deny_by_default(self) -> DecisionSet
        ensures { result.code ≡ code (each default_v (set_of self.code)) }
    {
        DecisionSet {
            code: DEFAULTED[usize::from(self.code % 8)],
        }
    }

    /// What a policy that is targeted comes to: `self` is its body's set, `target` the set of its
    /// target's value alone.
    pub fn targeted(self, target: DecisionSet) -> DecisionSet
        ensures { Targeted target.code self.code result.code }
    {
        // 1 is the code of allow alone, 2 of deny alone: a match on a constant tells the checker nothing.
        match target.code {
            1 => DecisionSet {
                code: self.code % 8,
            },
            2 => DecisionSet::UNDEFINED,
            _ => self.union(DecisionSet::UNDEFINED),
        }
    }
}
