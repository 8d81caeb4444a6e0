//! The atoms of a policy that was read.

ghost use Rattle.std.specs.Iterator.{YieldsFirstBy, item_count};
ghost use Rattle.files.specs.AtomsIn.{atoms_in};
ghost use Rattle.files.specs.Tags.{pair_of};

use crate::pair::Pair;
use crate::tag::Tag;

/// The pairs of a policy's atoms that are still to come, from left to right.
#[derive(Clone, Copy, Debug)]
pub struct Atoms<'a> {
    pub(crate) rest: &'a [u8],
}

impl<'a> Iterator for Atoms<'a> {
    type Item = Pair;

    ghost next_gives = { YieldsFirstBy pair_of (λ a. atoms_in a.rest.now) };

    ghost remaining = { item_count (λ a. atoms_in a.rest.now) };

    fn next(&mut self) -> Option<Pair> {
        let at = self
            .rest
            .iter()
            .position(|byte| *byte == Tag::TargetAtom as u8)?;
        let (numbers, rest) = self.rest[at + 1..].split_first_chunk::<4>()?;
        self.rest = rest;
        Some(Pair::from(*numbers))
    }
}
