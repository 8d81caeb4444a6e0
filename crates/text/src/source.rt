//! What a policy is read from: the body of a policy file, or a line.

ghost use Rattle.std.specs.Prelude.{◌≡◌, ℕ, ◌+◌, ◌<◌, List, IfOk, OnOk, refl};
ghost use Rattle.files.specs.Prefix.{Reader as Reading};
ghost use Rattle.files.specs.ReadPolicy.{in_bytes};
ghost use Rattle.files.specs.Faults.{fault_number};
ghost use Rattle.files.specs.Reading.{told};
ghost use Rattle.files.specs.Tags.{sort_of, tag_sort, pair_of};
ghost use Rattle.text.specs.Line.{End as Due, space};
ghost use Rattle.text.specs.Nodes.{end_of};
ghost use Rattle.text.specs.Converting.{met, Gives};

use crate::end::End;
use files::{Pair, PolicyError, Reader, Sort, Tag};

/// What a policy is read from, node by node.
pub trait Source {
    type Error;

    // how the form is read, by what it tells of what follows a term
    ghost Follows: { Type 0 };

    ghost follows: { Due → Follows };

    ghost reader: { List ℕ → Reading Follows };

    // what is read, the place in it, and the nodes up to there
    ghost bytes: { Self → List ℕ };

    ghost at: { Self → ℕ };

    ghost nodes: { Self → ℕ };

    // of an error
    ghost number: { Self.Error → ℕ };

    ghost place: { Self.Error → ℕ };

    /// Reads a node of a sort, with this much depth left, in a term that `end` follows.
    fn next_node(&mut self, sort: Sort, left: usize, end: End) -> Result<Tag, Self::Error>
        ensures gives { Gives number place (λ tag. (tag, at self.new)) result
            (met ((reader (bytes self.old)).head (sort_of sort) left (follows (end_of end))
            (at self.old) (nodes self.old))) }
        ensures sort { IfOk result (λ tag. tag_sort tag ≡ sort) }
        ensures limits { OnOk result
            ((0 < left) × (nodes self.old < 255) × (nodes self.new ≡ nodes self.old + 1)) }
        ensures same { bytes self.new ≡ bytes self.old };

    /// Reads an atom's numbers.
    fn next_pair(&mut self, end: End) -> Result<Pair, Self::Error>
        ensures gives { Gives number place (λ pair. (pair_of pair, at self.new, nodes self.new)) result
            (told (λ x. x) ((reader (bytes self.old)).pair (follows (end_of end))
            (at self.old) (nodes self.old))) }
        ensures nodes { OnOk result (nodes self.new ≡ nodes self.old) }
        ensures same { bytes self.new ≡ bytes self.old };

    ghost between: { (b : List ℕ) → (reader b).form.between ≡ follows space };
}

impl<'a> Source for Reader<'a> {
    type Error = PolicyError;

    ghost Follows = { Unit {0} };

    ghost follows = { λ e. tt };

    ghost reader = { λ b. in_bytes 255 b };

    ghost bytes = { λ r. r.bytes };

    ghost at = { λ r. r.at };

    ghost nodes = { λ r. r.nodes };

    ghost number = { λ e. fault_number e.fault };

    ghost place = { λ e. e.place };

    ghost between = { λ b. refl };

    // `map_err` here and below was tried: its closures prove, but `search` leaves gives, limits and
    // nodes open, as goals about the closure's result and not by Ok and Err.
    fn next_node(&mut self, sort: Sort, left: usize, _end: End) -> Result<Tag, PolicyError> {
        match self.node(sort, left) {
            Ok(tag) => Ok(tag),
            Err(fault) => Err(self.error(fault)),
        }
    }

    #[tactic(auto, using(crate::proofs::Bytes::pair_counted))]
    fn next_pair(&mut self, _end: End) -> Result<Pair, PolicyError> {
        match self.pair() {
            Ok(pair) => Ok(pair),
            Err(fault) => Err(self.error(fault)),
        }
    }
}
