//! The pairs of a request that was read, one by one.

ghost use Rattle.std.specs.Prelude.{map};
ghost use Rattle.std.specs.Iterator.{YieldsFirstBy, item_count};
ghost use Rattle.files.specs.Tags.{pair_of, pair_in};

use crate::pair::Pair;

/// The pairs of a request that are still to come, ascending.
#[derive(Clone, Copy, Debug)]
pub struct Pairs<'a> {
    pub(crate) rest: &'a [[u8; 4]],
}

impl<'a> Iterator for Pairs<'a> {
    type Item = Pair;

    ghost next_gives = { YieldsFirstBy pair_of (λ p. map pair_in p.rest.now) };

    ghost remaining = { item_count (λ p. map pair_in p.rest.now) };

    fn next(&mut self) -> Option<Pair> {
        let (first, rest) = self.rest.split_first()?;
        self.rest = rest;
        Some(Pair::from(*first))
    }
}
