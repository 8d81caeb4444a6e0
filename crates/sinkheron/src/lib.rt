//! Sinkheron: whether a batch may be released, and whether leaving a fact out of a request can open
//! a release. Every operation takes byte blocks and lent memory, as its C export does, and answers for
//! every input; a refusal alters no lent memory.
#![tactic(auto)]

ghost use Rattle.std.specs.Prelude.{◌≡◌, ◌≤◌, map, length};
ghost use Rattle.ptacl.specs.Pairs.{packed};
ghost use Rattle.files.specs.Memory.{over};
ghost use Rattle.files.specs.Tags.{pair_of};
ghost use Rattle.sinkheron.specs.Decide as D;
ghost use Rattle.sinkheron.specs.ListPairs as L;
ghost use Rattle.sinkheron.specs.Output as O;
ghost use Rattle.sinkheron.specs.NormalForm as N;
ghost use Rattle.sinkheron.specs.ReadText as R;
ghost use Rattle.sinkheron.specs.WriteText as W;
ghost use Rattle.sinkheron.specs.Certify as C;
ghost use Rattle.sinkheron.specs.Search as S;
ghost use Rattle.sinkheron.specs.Ways.{Writes};

mod refusal;

use arrayvec::ArrayVec;
use certify::Rule;
use files::{Pair, Policy, Request};
use flat::FlatPolicy;
use ptacl::DecisionSet;
pub use refusal::Refusal;
use search::Subsets;

/// Whether leaving a fact out of a request can open a release.
#[derive(Clone, Copy, Debug, PartialEq, Eq)]
pub enum Verdict {
    /// It cannot. The policy has so many pairs.
    Resistant {
        pairs: usize,
    },
    /// It can: the subset of the pairs that m numbers is the first that is held, and yet released
    /// without its pair i. The request files of both have so many bytes.
    Exposed {
        pairs: usize,
        m: usize,
        i: usize,
        bytes: usize,
    },
}

/// The answer for the set that a policy comes to.
#[tactic(auto, using(crate::proofs::Written::code_laws))]
fn decided(set: DecisionSet) -> Result<DecisionSet, Refusal>
    ensures { D.OfSet set.code (D.answer_of result) tt }
{
    if set.code == 0 {
        return Err(Refusal::EmptySet);
    }
    Ok(set)
}

/// What the policy comes to for the request. Only allow alone, the set's code 1, releases.
#[tactic(auto, using(crate::proofs::Taken::file_laws, crate::proofs::Written::decide_laws))]
pub fn decide(policy: &[u8], request: &[u8]) -> Result<DecisionSet, Refusal>
    ensures { D.Decides policy.now request.now (D.answer_of result) tt }
{
    // With the request read first, the policy is evaluated while it is read. Its refusals still
    // come before the request's.
    let request = match Request::read(request) {
        Ok(request) => request,
        Err(error) => {
            Policy::read(policy)?;
            return Err(Refusal::Request(error));
        }
    };
    decided(evaluate::evaluate(policy, &request)?)
}

/// The same without calls that nest: one loop reads the policy, another evaluates it.
#[tactic(auto, using(crate::proofs::Taken::file_laws, crate::proofs::Written::decide_laws))]
pub fn decide_flat(policy: &[u8], request: &[u8]) -> Result<DecisionSet, Refusal>
    ensures { D.Decides policy.now request.now (D.answer_of result) tt }
{
    let mut places = [0; 255];
    let policy = FlatPolicy::read(policy, &mut places)?;
    let request = Request::read(request)?;
    decided(policy.evaluate(&request))
}

/// Writes pairs at the front of `space`, each as name * 65536 + value.
#[tactic(auto, using(crate::proofs::Listed::listing_laws))]
fn write_pairs(pairs: &[Pair], space: &mut [u32])
    requires { length pairs.now ≤ length space.old }
    ensures { space.new ≡ over (map packed (map pair_of pairs.now)) space.old }
{
    // Not `iter_mut().zip(..)`: the kit tells nothing of what is written through an adapter of it.
    for (i, pair) in pairs.iter().enumerate() {
        space[i] = u32::from(*pair);
    }
}

/// The policy's pairs at the front of `space`, each name * 65536 + value: how many they are.
#[tactic(auto, using(crate::proofs::Taken::file_laws, crate::proofs::Written::list_laws))]
pub fn list_pairs(policy: &[u8], space: &mut [u32]) -> Result<usize, Refusal>
    ensures { L.Lists policy.now space.old (L.answer_of result) space.new }
{
    let policy = Policy::read(policy)?;
    let mut pairs = ArrayVec::new();
    pairs::pairs_of(&policy, &mut pairs);
    if space.len() < pairs.len() {
        return Err(Refusal::NoSpace);
    }
    write_pairs(&pairs, space);
    Ok(pairs.len())
}

/// The normal form of a request, as a request file at the front of `space`: how many bytes it has.
#[tactic(auto, using(crate::proofs::Taken::file_laws, crate::proofs::Written::form_laws))]
pub fn normal_form(policy: &[u8], request: &[u8], space: &mut [u8]) -> Result<usize, Refusal>
    ensures { N.Normalises policy.now request.now space.old (O.answer_of result) space.new }
{
    let (policy, request) = (Policy::read(policy)?, Request::read(request)?);
    let mut form = ArrayVec::new();
    pairs::normal_form_of(&policy, &request, &mut form);
    if space.len() < 3 + 4 * form.len() {
        return Err(Refusal::NoSpace);
    }
    Ok(files::write_request(&form, space))
}

/// What was made of a policy, at the front of `space` if it fits whole: how many bytes it has.
#[tactic(auto, using(crate::proofs::Written::memory_laws))]
fn hand_over(made: &[u8], space: &mut [u8]) -> Result<usize, Refusal>
    ensures { Writes made.now space.old (O.answer_of result) space.new }
{
    if space.len() < made.len() {
        return Err(Refusal::NoSpace);
    }
    Ok(files::put(space, 0, made))
}

/// The policy file of the line that `text` is, at the front of `space`: how many bytes it has.
#[tactic(auto, using(crate::proofs::Taken::text_handed, crate::proofs::Texts::line_written))]
pub fn read_text(text: &[u8], space: &mut [u8]) -> Result<usize, Refusal>
    ensures { R.ReadsText text.now space.old (O.answer_of result) space.new }
{
    let mut file = [0u8; text::LONGEST];
    let bytes = text::read_line(text, &mut file)?;
    hand_over(&file[..bytes], space)
}

// Like `read_text`: what makes the bytes and its error differ, and the rest is `hand_over`.
/// The line of the policy, at the front of `space`: how many bytes it has.
#[tactic(auto, using(crate::proofs::Taken::policy_handed, crate::proofs::Texts::file_written))]
pub fn write_text(policy: &[u8], space: &mut [u8]) -> Result<usize, Refusal>
    ensures { W.WritesText policy.now space.old (O.answer_of result) space.new }
{
    let mut line = [0u8; text::LONGEST];
    let bytes = text::write_line(policy, &mut line)?;
    hand_over(&line[..bytes], space)
}

/// The structural rule with the smallest number that applies to the policy.
#[tactic(auto, using(crate::proofs::Taken::file_laws, crate::proofs::Written::rule_answers))]
pub fn certify(policy: &[u8]) -> Result<Option<Rule>, Refusal>
    ensures { C.Certifies policy.now (C.answer_of result) tt }
{
    Ok(certify::certificate(policy)?)
}

/// The first exposure of a policy of at most 16 pairs, its two request files at the front of
/// `space`; or that it is resistant.
#[tactic(auto, using(crate::proofs::Taken::file_laws, crate::proofs::Written::search_laws))]
pub fn search(policy: &[u8], space: &mut [u8]) -> Result<Verdict, Refusal>
    ensures { S.Searches policy.now space.old (S.answer_of result) space.new }
{
    let policy = Policy::read(policy)?;
    let mut pairs = ArrayVec::new();
    pairs::pairs_of(&policy, &mut pairs);
    let Some(subsets) = Subsets::new(&policy, &pairs) else {
        return Err(Refusal::TooManyPairs);
    };
    if space.len() < 130 {
        return Err(Refusal::NoSpace);
    }
    match subsets.search(space) {
        None => Ok(Verdict::Resistant { pairs: pairs.len() }),
        Some(found) => Ok(Verdict::Exposed {
            pairs: pairs.len(),
            m: found.m,
            i: found.i,
            bytes: found.bytes,
        }),
    }
}
