//! The C face: byte blocks and lengths in, one packed word out. The word's bits and the blocks beside
//! each other are the C interface, so they stay as they are, shifts and `as` with them.

ghost use Rattle.std.specs.Prelude.{◌≡◌, ◌+◌, ◌*◌, ◌^◌, ◌<◌, ◌≤◌};
ghost use Rattle.sinkheron.specs.Decide as D;
ghost use Rattle.sinkheron.specs.ListPairs as L;
ghost use Rattle.sinkheron.specs.Output as O;
ghost use Rattle.sinkheron.specs.NormalForm as N;
ghost use Rattle.sinkheron.specs.ReadText as R;
ghost use Rattle.sinkheron.specs.WriteText as W;
ghost use Rattle.sinkheron.specs.Certify as C;
ghost use Rattle.sinkheron.specs.Search as S;
ghost use Rattle.sinkheron.specs.Answer.{place, word, Says};
ghost use Rattle.sinkheron.specs.Refusals.{refusal_number, refusal_place};

use ptacl::DecisionSet;
use sinkheron::{Refusal, Verdict};

/// A refusal's number, and its place from bit 8 on.
fn refused(refusal: Refusal) -> u64
    requires { refusal_place refusal ≤ 65538 }
    ensures { result ≡ refusal_number refusal + refusal_place refusal * 2 ^ 8 }
{
    u64::from(refusal.number()) + ((refusal.place() as u64) << 8)
}

/// A set, by its code.
fn decision(answer: Result<DecisionSet, Refusal>) -> u64
    requires { place (D.answer_of answer) ≤ 65538 }
    ensures { result ≡ word D.bits (D.answer_of answer) }
{
    match answer {
        Ok(set) => u64::from(set.code) << 8,
        Err(refusal) => refused(refusal),
    }
}

/// What was written, by its length.
fn output(written: Result<usize, Refusal>) -> u64
    requires { O.Small (O.answer_of written) }
    ensures { result ≡ word O.bits (O.answer_of written) }
{
    match written {
        Ok(bytes) => (bytes as u64) << 32,
        Err(refusal) => refused(refusal),
    }
}

/// How many pairs there are, from bit 16 on.
fn counted(pairs: usize) -> u64
    requires { pairs ≤ 254 }
    ensures { result ≡ pairs * 2 ^ 16 }
{
    (pairs as u64) << 16
}

/// An exposure's pairs, bytes, m and i, below the verdict's bit.
fn exposure(pairs: usize, bytes: usize, m: usize, i: usize) -> u64
    requires { (pairs ≤ 16) × (bytes ≤ 130) × (m < 65536) × (i < 16) }
    ensures { result ≡ 1 * 2 ^ 8 + pairs * 2 ^ 16 + bytes * 2 ^ 24 + m * 2 ^ 32 + i * 2 ^ 48 }
{
    (1 << 8) + counted(pairs) + ((bytes as u64) << 24) + ((m as u64) << 32) + ((i as u64) << 48)
}

#[tactic(auto, using(sinkheron::proofs::Ranges::decision_laws))]
#[unsafe(no_mangle)]
pub extern "C" fn sinkheron_decide(policy: &[u8], request: &[u8]) -> u64
    ensures { Says D.answer_of D.bits (D.Decides policy.now request.now) result tt }
{
    decision(sinkheron::decide(policy, request))
}

#[tactic(auto, using(sinkheron::proofs::Ranges::decision_laws))]
#[unsafe(no_mangle)]
pub extern "C" fn sinkheron_decide_flat(policy: &[u8], request: &[u8]) -> u64
    ensures { Says D.answer_of D.bits (D.Decides policy.now request.now) result tt }
{
    decision(sinkheron::decide_flat(policy, request))
}

#[unsafe(no_mangle)]
pub extern "C" fn sinkheron_list_pairs(policy: &[u8], pairs: &mut [u32]) -> u64
    ensures { Says L.answer_of L.bits (L.Lists policy.now pairs.old) result pairs.new }
{
    match sinkheron::list_pairs(policy, pairs) {
        Ok(count) => counted(count),
        Err(refusal) => refused(refusal),
    }
}

#[unsafe(no_mangle)]
pub extern "C" fn sinkheron_normal_form(policy: &[u8], request: &[u8], space: &mut [u8]) -> u64
    ensures { Says O.answer_of O.bits (N.Normalises policy.now request.now space.old) result space.new }
{
    output(sinkheron::normal_form(policy, request, space))
}

#[unsafe(no_mangle)]
pub extern "C" fn sinkheron_read_text(text: &[u8], space: &mut [u8]) -> u64
    ensures { Says O.answer_of O.bits (R.ReadsText text.now space.old) result space.new }
{
    output(sinkheron::read_text(text, space))
}

#[unsafe(no_mangle)]
pub extern "C" fn sinkheron_write_text(policy: &[u8], space: &mut [u8]) -> u64
    ensures { Says O.answer_of O.bits (W.WritesText policy.now space.old) result space.new }
{
    output(sinkheron::write_text(policy, space))
}

#[unsafe(no_mangle)]
pub extern "C" fn sinkheron_certify(policy: &[u8]) -> u64
    ensures { Says C.answer_of C.bits (C.Certifies policy.now) result tt }
{
    match sinkheron::certify(policy) {
        Ok(None) => 0,
        Ok(Some(rule)) => u64::from(rule.number()) << 12,
        Err(refusal) => refused(refusal),
    }
}

#[unsafe(no_mangle)]
pub extern "C" fn sinkheron_search(policy: &[u8], space: &mut [u8]) -> u64
    ensures { Says S.answer_of S.bits (S.Searches policy.now space.old) result space.new }
{
    match sinkheron::search(policy, space) {
        Ok(Verdict::Resistant { pairs }) => counted(pairs),
        Ok(Verdict::Exposed { pairs, m, i, bytes }) => exposure(pairs, bytes, m, i),
        Err(refusal) => refused(refusal),
    }
}
