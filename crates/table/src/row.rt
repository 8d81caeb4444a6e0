//! What targets and policies come to in 512 requests at once, a request to each bit of eight words.

ghost use Rattle.std.specs.Prelude.{◌≡◌, map, length};
ghost use Rattle.std.specs.Simd.Lanes.{zip2};
ghost use Rattle.ptacl.specs.Value.{v1, v0, v_u};
ghost use Rattle.ptacl.specs.Values.{single};
ghost use Rattle.ptacl.specs.Meaning.{atom_at};
ghost use Rattle.ptacl.specs.Exposure.{strict};
ghost use Rattle.table.specs.Rows.{lanes, lane, requests, targets, sets, every_lane};
ghost use Rattle.table.specs.Outcomes.{not_target, optional_target, and_target, or_target};
ghost use Rattle.table.specs.Outcomes.{not_set, default_set, targeted_set, and_set, or_set};

use files::Pair;
use std::simd::prelude::*;

/// A pair, and which of the 512 requests hold it.
#[derive(Clone, Copy, Debug, Default, PartialEq, Eq)]
pub(crate) struct PairRow {
    pub(crate) pair: Pair,
    pub(crate) held: u64x8,
}

impl PairRow {
    /// Which of the requests hold the pair. Taken by value, so that its eight words are known.
    fn held(self) -> u64x8
        ensures held { result ≡ self.held }
        ensures words { length result ≡ 8 }
    {
        self.held
    }
}

/// Where a target is 1, and where it is 0.
#[derive(Clone, Copy, Debug, PartialEq, Eq)]
pub(crate) struct TargetRow {
    pub(crate) is1: u64x8,
    pub(crate) is0: u64x8,
}

impl TargetRow {
    /// Undefined in all requests.
    #[tactic(auto, using(crate::proofs::Lanes::undefined_is))]
    pub(crate) fn undefined() -> TargetRow
        ensures { targets result ≡ every_lane (single v_u) }
    {
        TargetRow {
            is1: u64x8::splat(0),
            is0: u64x8::splat(0),
        }
    }

    /// The atom of a pair.
    pub(crate) fn atom(rows: &[PairRow], atom: Pair) -> TargetRow
        ensures { targets result
            ≡ map (λ q. single (atom_at q atom.name atom.value)) (requests rows.now) }
    {
        let mut held = u64x8::splat(0);
        let mut named = u64x8::splat(0);
        for row in rows {
            if row.pair.name == atom.name {
                let requests = row.held();
                named |= requests;
                if row.pair.value == atom.value {
                    held |= requests;
                }
            }
        }
        TargetRow {
            is1: held,
            is0: named & !held,
        }
    }

    /// 1 becomes 0, and 0 becomes 1; undefined stays.
    #[tactic(auto, using(crate::proofs::Lanes::not_is))]
    pub(crate) fn not(self) -> TargetRow
        ensures { targets result ≡ map not_target (targets self) }
    {
        TargetRow {
            is1: self.is0,
            is0: self.is1,
        }
    }

    /// Undefined becomes 0: what is not 1 is 0.
    pub(crate) fn optional(self) -> TargetRow
        ensures { targets result ≡ map optional_target (targets self) }
    {
        TargetRow {
            is1: self.is1,
            is0: !self.is1,
        }
    }

    /// 1 where both are 1, and 0 where either is 0.
    #[tactic(auto, using(crate::proofs::Lanes::and_is))]
    pub(crate) fn and(self, other: TargetRow) -> TargetRow
        ensures { targets result ≡ zip2 and_target (targets self) (targets other) }
    {
        TargetRow {
            is1: self.is1 & other.is1,
            is0: self.is0 | other.is0,
        }
    }

    /// 1 where either is 1, and 0 where both are 0.
    #[tactic(auto, using(crate::proofs::Lanes::or_is))]
    pub(crate) fn or(self, other: TargetRow) -> TargetRow
        ensures { targets result ≡ zip2 or_target (targets self) (targets other) }
    {
        TargetRow {
            is1: self.is1 | other.is1,
            is0: self.is0 & other.is0,
        }
    }
}

/// Where a policy's set holds allow, deny and undefined.
#[derive(Clone, Copy, Debug, PartialEq, Eq)]
pub(crate) struct PolicyRow {
    pub(crate) allow: u64x8,
    pub(crate) deny: u64x8,
    pub(crate) undefined: u64x8,
}

impl PolicyRow {
    /// Allow in all requests.
    #[tactic(auto, using(crate::proofs::Lanes::allow_is))]
    pub(crate) fn allow() -> PolicyRow
        ensures { sets result ≡ every_lane (single v1) }
    {
        PolicyRow {
            allow: u64x8::splat(u64::MAX),
            deny: u64x8::splat(0),
            undefined: u64x8::splat(0),
        }
    }

    /// Deny in all requests.
    #[tactic(auto, using(crate::proofs::Lanes::deny_is))]
    pub(crate) fn deny() -> PolicyRow
        ensures { sets result ≡ every_lane (single v0) }
    {
        PolicyRow {
            allow: u64x8::splat(0),
            deny: u64x8::splat(u64::MAX),
            undefined: u64x8::splat(0),
        }
    }

    /// Allow becomes deny, and deny becomes allow; undefined stays.
    #[tactic(auto, using(crate::proofs::Lanes::set_not_is))]
    pub(crate) fn not(self) -> PolicyRow
        ensures { sets result ≡ map not_set (sets self) }
    {
        PolicyRow {
            allow: self.deny,
            deny: self.allow,
            undefined: self.undefined,
        }
    }

    /// Undefined becomes deny.
    #[tactic(auto, using(crate::proofs::Lanes::default_is))]
    pub(crate) fn deny_by_default(self) -> PolicyRow
        ensures { sets result ≡ map default_set (sets self) }
    {
        PolicyRow {
            allow: self.allow,
            deny: self.deny | self.undefined,
            undefined: u64x8::splat(0),
        }
    }

    /// What a policy that is targeted comes to: `self` is its body's sets.
    pub(crate) fn targeted(self, target: TargetRow) -> PolicyRow
        ensures { sets result ≡ zip2 targeted_set (targets target) (sets self) }
    {
        PolicyRow {
            allow: self.allow & !target.is0,
            deny: self.deny & !target.is0,
            undefined: self.undefined | !target.is1,
        }
    }

    /// Every pair of members: deny with anything is deny, since no set is empty.
    #[tactic(auto, using(crate::proofs::Lanes::set_and_is))]
    pub(crate) fn and(self, other: PolicyRow) -> PolicyRow
        ensures { sets result ≡ zip2 and_set (sets self) (sets other) }
    {
        let left = self.allow | self.undefined;
        let right = other.allow | other.undefined;
        PolicyRow {
            allow: self.allow & other.allow,
            deny: self.deny | other.deny,
            undefined: (self.undefined & right) | (other.undefined & left),
        }
    }

    /// An or is not(and(not, not)).
    #[tactic(auto, using(crate::proofs::Lanes::set_or_is))]
    pub(crate) fn or(self, other: PolicyRow) -> PolicyRow
        ensures { sets result ≡ zip2 or_set (sets self) (sets other) }
    {
        self.not().and(other.not()).not()
    }

    /// Where the set is allow alone.
    pub(crate) fn only_allow(self) -> u64x8
        ensures { lanes (lane result) ≡ map strict (sets self) }
    {
        self.allow & !self.deny & !self.undefined
    }
}
