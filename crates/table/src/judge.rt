//! Judging a policy in 512 requests at once, by one walk over its bytes.

ghost use Rattle.std.specs.Prelude.{◌≡◌, map};
ghost use Rattle.ptacl.specs.Term.{target, policy};
ghost use Rattle.ptacl.specs.Meaning.{eval};
ghost use Rattle.ptacl.specs.Exposure.{strict};
ghost use Rattle.files.specs.Reading.{TellsTerm};
ghost use Rattle.table.specs.Rows.{lanes, lane, requests, targets, sets};
ghost use Rattle.table.specs.Outcomes.{outcomes};

use crate::row::{PairRow, PolicyRow, TargetRow};
use files::{DEEPEST, Fault, Policy, Reader, Sort, Tag};
use std::simd::prelude::*;

/// Reads a target of at most `left` levels, and says in `row` what it comes to.
// The row is lent, as a `Result` may not hold one: the checker refuses "a vector in an enum, or in
// a struct that holds a reference". Two functions, each with its own arms of not, and, or: a trait
// of rows is no shorter, since it would state the law of each operation once more for either type.
#[tactic(auto, using(crate::proofs::Laws::rows_more))]
fn judge_target(
    reader: &mut Reader<'_>,
    left: usize,
    rows: &[PairRow],
    row: &mut TargetRow,
) -> Result<(), Fault>
    ensures { TellsTerm {s = target} (λ x. targets row.new) (outcomes (requests rows.now)) left
        result reader.old reader.new }
{
    match reader.node(Sort::Target, left)? {
        Tag::TargetAtom => {
            let pair = reader.pair()?;
            *row = TargetRow::atom(rows, pair);
        }
        Tag::TargetNot => {
            judge_target(reader, left - 1, rows, row)?;
            *row = row.not();
        }
        Tag::TargetOptional => {
            judge_target(reader, left - 1, rows, row)?;
            *row = row.optional();
        }
        Tag::TargetAnd => {
            let mut second = TargetRow::undefined();
            judge_target(reader, left - 1, rows, row)?;
            judge_target(reader, left - 1, rows, &mut second)?;
            *row = row.and(second);
        }
        // An or: `node` gives a target's tag.
        _ => {
            let mut second = TargetRow::undefined();
            judge_target(reader, left - 1, rows, row)?;
            judge_target(reader, left - 1, rows, &mut second)?;
            *row = row.or(second);
        }
    }
    Ok(())
}

/// Reads a policy of at most `left` levels, and says in `row` what it comes to.
#[tactic(auto, using(crate::proofs::Laws::rows_more))]
fn judge_policy(
    reader: &mut Reader<'_>,
    left: usize,
    rows: &[PairRow],
    row: &mut PolicyRow,
) -> Result<(), Fault>
    ensures { TellsTerm {s = policy} (λ x. sets row.new) (outcomes (requests rows.now)) left
        result reader.old reader.new }
{
    match reader.node(Sort::Policy, left)? {
        Tag::Deny => *row = PolicyRow::deny(),
        Tag::Allow => *row = PolicyRow::allow(),
        Tag::Targeted => {
            let mut over = TargetRow::undefined();
            judge_target(reader, left - 1, rows, &mut over)?;
            judge_policy(reader, left - 1, rows, row)?;
            *row = row.targeted(over);
        }
        Tag::PolicyNot => {
            judge_policy(reader, left - 1, rows, row)?;
            *row = row.not();
        }
        Tag::DenyByDefault => {
            judge_policy(reader, left - 1, rows, row)?;
            *row = row.deny_by_default();
        }
        Tag::PolicyAnd => {
            let mut second = PolicyRow::deny();
            judge_policy(reader, left - 1, rows, row)?;
            judge_policy(reader, left - 1, rows, &mut second)?;
            *row = row.and(second);
        }
        // An or: `node` gives a policy's tag.
        _ => {
            let mut second = PolicyRow::deny();
            judge_policy(reader, left - 1, rows, row)?;
            judge_policy(reader, left - 1, rows, &mut second)?;
            *row = row.or(second);
        }
    }
    Ok(())
}

/// In which of the 512 requests a policy comes to allow alone.
pub(crate) fn judge(policy: &Policy<'_>, rows: &[PairRow]) -> u64x8
    ensures { lanes (lane result) ≡ map (λ q. strict (eval policy.now q)) (requests rows.now) }
{
    let mut reader = policy.reader();
    let mut row = PolicyRow::deny();
    match judge_policy(&mut reader, DEEPEST, rows, &mut row) {
        Ok(()) => row.only_allow(),
        // A policy that was read has no fault.
        Err(_) => unreachable!(),
    }
}
