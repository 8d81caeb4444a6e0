//! Policy files that were read.

ghost use Rattle.std.specs.Prelude.{◌≡◌, ◌≤◌, length};
ghost use Rattle.ptacl.specs.Term.{policy, nodes, atoms};
ghost use Rattle.files.specs.Prefix.{scan, done};
ghost use Rattle.files.specs.ReadPolicy.{in_bytes, read_policy};
ghost use Rattle.files.specs.Encoding.{enc};
ghost use Rattle.files.specs.Faults.{PolicyGives};
ghost use Rattle.files.specs.AtomsIn.{atoms_in};

use crate::atoms::Atoms;
use crate::fault::{Fault, PolicyError};
use crate::reader::{BEGIN, DEEPEST, Reader};
use crate::tag::Sort;
use std::marker::Model;

/// A policy, in the bytes of its file.
// Not Copy: the kit has none for a struct with a lifetime and a model.
#[derive(Drop)]
pub struct Policy<'a> {
    file: &'a [u8],
}

impl<'a> Model for Policy<'a> {
    ghost use Rattle.ptacl.specs.Term.{Policy as PolicyTerm};
    ghost use Rattle.files.specs.Codes.{policy_code};

    ghost Value = { PolicyTerm };

    ghost coded = { policy_code };

    ghost use Rattle.files.specs.Encoding.{IsPolicy};
    ghost use Rattle.files.specs.Views.{policy_in};

    ghost view = { λ p. policy_in p.file.now };

    ghost invariant = { λ p. IsPolicy p.file.now (policy_in p.file.now) };
}

impl<'a> Policy<'a> {
    /// Reads a policy file.
    pub fn read(file: &'a [u8]) -> Result<Policy<'a>, PolicyError>
        ensures { PolicyGives (λ p. p) result (read_policy file.now) }
    {
        let mut reader = Reader::open(file)?;
        if let Err(fault) = reader.term(Sort::Policy, DEEPEST) {
            return Err(reader.error(fault));
        }
        reader.finish()?;
        Ok(Policy { file })
    }

    /// A reader at the policy's first node, which meets no fault in the policy and ends behind it.
    #[tactic(auto, using(crate::proofs::Whole::file_long, crate::proofs::PolicyComplete::policy_scanned))]
    pub fn reader(&self) -> Reader<'a>
        ensures { scan (in_bytes 255 result.bytes) 32 policy tt result.at result.nodes
            ≡ done self.now (length result.bytes) (nodes self.now) }
    {
        Reader::new(self.file, BEGIN, 0)
    }

    /// The bytes behind the frame: those of at most 255 nodes.
    #[tactic(auto, using(crate::proofs::Whole::body_laws))]
    pub fn body(&self) -> &'a [u8]
        ensures bytes { result.now ≡ enc self.now }
        ensures few { nodes self.now ≤ 255 }
    {
        &self.file[BEGIN..]
    }

    /// The pairs of the atoms, from left to right.
    #[tactic(auto, using(crate::proofs::AtomsIn::atoms_laws))]
    pub fn atoms(&self) -> Atoms<'a>
        ensures all { atoms_in result.rest.now ≡ atoms self.now }
        ensures few { length (atoms self.now) ≤ 127 }
    {
        Atoms { rest: self.body() }
    }
}
