//! The pairs of a policy, and the normal form of a request.

use crate::pair::Pair;
use crate::term::Policy;
use arrayvec::ArrayVec;

impl Policy {
    /// The pairs of the policy's atoms and their names' fresh pairs, in order and each once.
    pub fn pairs(&self) -> ArrayVec<Pair, 510> {
        let named = self.named.as_slice();
        let mut pairs = ArrayVec::<Pair, 510>::new();
        for pair in named {
            for pair in [*pair, pair.unlisted(named)] {
                if !pairs.contains(&pair) {
                    // There is room for two pairs of each atom.
                    let _ = pairs.try_push(pair);
                }
            }
        }
        pairs.sort_unstable();
        pairs
    }

    /// Whether a pair of the policy is in the normal form of a request that holds these pairs: a
    /// named one if it is held, a fresh one if a value of its name is held that the policy does not
    /// name.
    fn is_kept(&self, pair: Pair, held: &[Pair]) -> bool {
        if self.named.contains(&pair) {
            held.contains(&pair)
        } else {
            held.iter().any(|other| other.name == pair.name && !self.named.contains(other))
        }
    }

    /// The policy's pairs in the normal form of a request that holds these pairs.
    pub fn normal_form(&self, held: &[Pair]) -> ArrayVec<Pair, 510> {
        let mut pairs = self.pairs();
        pairs.retain(|pair| self.is_kept(*pair, held));
        pairs
    }
}
