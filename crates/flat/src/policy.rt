//! Policy files that were read, with the places of their nodes.

ghost use Rattle.std.specs.Prelude.{◌≡◌};
ghost use Rattle.ptacl.specs.Meaning.{eval};
ghost use Rattle.ptacl.specs.Values.{code};
ghost use Rattle.files.specs.ReadPolicy.{read_policy};
ghost use Rattle.files.specs.Faults.{PolicyGives};
ghost use Rattle.files.specs.Encoding.{policy_file};
ghost use Rattle.flat.specs.Places.{Noted};

use crate::read::read_nodes;
use crate::walk::walk;
use files::{PolicyError, Reader, Request};
use ptacl::DecisionSet;
use std::marker::Model;

/// A policy, in the bytes of its file, and where its nodes stand in them, from left to right.
// Not Copy: the kit has none for a struct with a lifetime and a model.
#[derive(Drop)]
pub struct FlatPolicy<'a> {
    file: &'a [u8],

    // Lent: the bar of decide_flat is 1.4 times careful C, and an `ArrayVec` in here, which is handed on by value, misses it (27 nodes: 1.7 times,
    // for 1.3 as it is).
    places: &'a [u16],
}

impl<'a> Model for FlatPolicy<'a> {
    ghost use Rattle.ptacl.specs.Term.{Policy as PolicyTerm};
    ghost use Rattle.files.specs.Codes.{policy_code};

    ghost Value = { PolicyTerm };

    ghost coded = { policy_code };

    ghost use Rattle.files.specs.Views.{policy_in};
    ghost use Rattle.flat.specs.Places.{Noted};

    ghost view = { λ p. policy_in p.file.now };

    ghost invariant = { λ p. Noted p.file.now p.places.now };
}

impl<'a> FlatPolicy<'a> {
    /// Reads a policy file, and notes the places of its nodes in the memory that is lent.
    #[inline]
    pub fn read(file: &'a [u8], places: &'a mut [u16; 255]) -> Result<FlatPolicy<'a>, PolicyError>
        ensures { PolicyGives (λ p. p) result (read_policy file.now) }
    {
        let mut reader = Reader::open(file)?;
        let nodes = match read_nodes(&mut reader, places) {
            Ok(nodes) => nodes,
            Err(fault) => return Err(reader.error(fault)),
        };
        reader.finish()?;
        Ok(FlatPolicy {
            file,
            places: &places[..nodes],
        })
    }

    /// Where its nodes stand in its file, from left to right: one place for each.
    pub fn places(&self) -> &'a [u16]
        ensures { Noted (policy_file self.now) result.now }
    {
        self.places
    }

    /// The set that the policy comes to.
    #[inline]
    pub fn evaluate(&self, request: &Request<'_>) -> DecisionSet
        ensures { result.code ≡ code (eval self.now request.now) }
    {
        walk(self.file, self.places, request)
    }
}
