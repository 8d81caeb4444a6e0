//! What a policy file comes to for a request, found while it is read: one walk over the bytes does both.
#![tactic(auto)]

ghost use Rattle.std.specs.Prelude.{◌≡◌};
ghost use Rattle.ptacl.specs.Meaning.{eval};
ghost use Rattle.ptacl.specs.Values.{code};
ghost use Rattle.files.specs.Faults.{PolicyGives};
ghost use Rattle.files.specs.ReadPolicy.{read_policy};
ghost use Rattle.files.specs.Reading.{TellsTerm, read_map};
ghost use Rattle.files.specs.Tags.{sort_of};
ghost use Rattle.evaluate.specs.Worth.{worth};

use files::{DEEPEST, Fault, PolicyError, Reader, Request, Sort, Tag};
use ptacl::DecisionSet;

/// Reads a term of at most `left` levels. A target's value is told as the set of that value alone.
#[tactic(auto, using(crate::proofs::Worth::worth_more))]
pub fn value(
    reader: &mut Reader<'_>,
    sort: Sort,
    left: usize,
    request: &Request<'_>,
) -> Result<DecisionSet, Fault>
    ensures { TellsTerm {s = sort_of sort} (λ set. set.code) (worth request.now) left result reader.old reader.new }
{
    match reader.node(sort, left)? {
        Tag::TargetAtom => {
            let pair = reader.pair()?;
            Ok(DecisionSet::single(request.value_of(pair)))
        }
        Tag::Deny => Ok(DecisionSet::DENY),
        Tag::Allow => Ok(DecisionSet::ALLOW),
        Tag::TargetNot | Tag::PolicyNot => Ok(value(reader, sort, left - 1, request)?.not()),
        Tag::TargetOptional | Tag::DenyByDefault => {
            Ok(value(reader, sort, left - 1, request)?.deny_by_default())
        }
        Tag::Targeted => {
            let target = value(reader, Sort::Target, left - 1, request)?;
            Ok(value(reader, sort, left - 1, request)?.targeted(target))
        }
        Tag::TargetAnd | Tag::PolicyAnd => {
            let first = value(reader, sort, left - 1, request)?;
            Ok(first.and(value(reader, sort, left - 1, request)?))
        }
        Tag::TargetOr | Tag::PolicyOr => {
            let first = value(reader, sort, left - 1, request)?;
            Ok(first.or(value(reader, sort, left - 1, request)?))
        }
    }
}

/// The set that the policy of a file comes to.
pub fn evaluate(file: &[u8], request: &Request<'_>) -> Result<DecisionSet, PolicyError>
    ensures { PolicyGives (λ set. set.code) result (read_map (λ p. code (eval p request.now)) (read_policy file.now)) }
{
    let mut reader = Reader::open(file)?;
    let set = match value(&mut reader, Sort::Policy, DEEPEST, request) {
        Ok(set) => set,
        Err(fault) => return Err(reader.error(fault)),
    };
    reader.finish()?;
    Ok(set)
}
