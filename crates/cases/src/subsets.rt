//! The search: every subset of the pairs is judged by itself.

use crate::pair::Pair;
use crate::term::Policy;
use arrayvec::ArrayVec;
use std::ops::Range;

/// The subset m, at which the policy is not at {1}, and its pair i, without which it is.
#[derive(Clone, Copy)]
pub struct Exposure {
    pub m: usize,
    pub i: usize,
}

/// The bit that stands for pair i in the number of a subset, and for one subset of 64. There are never
/// 64 pairs.
fn bit(i: usize) -> usize {
    1 << (i % 64)
}

fn has(m: usize, i: usize) -> bool {
    m & bit(i) != 0
}

/// For each subset of at most 16 pairs whether the policy is at {1}: a bit of 64 to a number.
#[derive(Clone, Copy)]
struct Judged {
    pairs: usize,
    allowed: [usize; 1024],
}

impl Judged {
    /// The numbers of the subsets.
    fn subsets(&self) -> Range<usize> {
        0..bit(self.pairs)
    }

    fn is_allowed(&self, m: usize) -> bool {
        self.allowed
            .get(m / 64)
            .is_some_and(|bits| has(*bits, m % 64))
    }

    fn allow(&mut self, m: usize) {
        if let Some(bits) = self.allowed.get_mut(m / 64) {
            *bits |= bit(m % 64);
        }
    }

    /// The smallest pair that the subset m may hide.
    fn hidden(&self, m: usize) -> Option<usize> {
        (0..self.pairs).find(|i| has(m, *i) && self.is_allowed(m ^ bit(*i)))
    }

    fn first(&self) -> Option<Exposure> {
        self.subsets()
            .filter(|m| !self.is_allowed(*m))
            .find_map(|m| self.hidden(m).map(|i| Exposure { m, i }))
    }

    /// By the definition of resistance: whether a subset at {1} lies within one that is not, with
    /// any number of pairs to spare.
    fn is_exposed(&self) -> bool {
        self.subsets().any(|larger| {
            !self.is_allowed(larger)
                && self.subsets().any(|smaller| smaller & larger == smaller
                    && self.is_allowed(smaller))
        })
    }
}

/// The subsets of a policy's pairs, each by its number. There are at most 16 pairs.
#[derive(Clone, Copy)]
pub struct Subsets<'a> {
    pairs: &'a [Pair],
}

impl<'a> Subsets<'a> {
    pub fn of(pairs: &'a [Pair]) -> Subsets<'a> {
        Subsets { pairs }
    }

    /// The pairs of the subset m.
    fn subset(self, m: usize) -> ArrayVec<Pair, 16> {
        let mut held = ArrayVec::<Pair, 16>::new();
        for (i, pair) in self.pairs.iter().enumerate() {
            if has(m, i) {
                let _ = held.try_push(*pair);
            }
        }
        held
    }

    fn judge(self, policy: &Policy) -> Judged {
        let mut judged = Judged {
            pairs: self.pairs.len(),
            allowed: [0; 1024],
        };
        for m in judged.subsets() {
            if policy.values(self.subset(m).as_slice()).code() == 1 {
                judged.allow(m);
            }
        }
        judged
    }

    /// The first exposure of a policy by these pairs. Where there are few the verdict is taken from
    /// the definition of resistance: if it is not that of the first exposure then the answer names
    /// no subset, which no library answers.
    pub fn search(self, policy: &Policy) -> Option<Exposure> {
        let judged = self.judge(policy);
        let first = judged.first();
        if self.pairs.len() <= 8 && judged.is_exposed() != first.is_some() {
            return Some(Exposure { m: 0, i: 0 });
        }
        first
    }

    /// The two requests of an exposure: without the pair, and with it.
    pub fn requests(self, exposure: Exposure) -> [ArrayVec<Pair, 16>; 2] {
        let Exposure { m, i } = exposure;
        [self.subset(m ^ bit(i)), self.subset(m)]
    }
}
