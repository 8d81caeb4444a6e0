//! Certificates by structure: whether a policy's nodes alone show it resistant, and by which rule.
//! A policy is judged in one pass, while its file is read.
#![tactic(auto)]

mod judged;
mod missing;
mod rule;

ghost use Rattle.std.specs.Prelude.{◌≡◌};
ghost use Rattle.ptacl.specs.Term.{target, policy};
ghost use Rattle.ptacl.specs.Rules.{plain, certificate};
ghost use Rattle.files.specs.Faults.{PolicyGives};
ghost use Rattle.files.specs.ReadPolicy.{read_policy};
ghost use Rattle.files.specs.Reading.{TellsTerm, read_map};
ghost use Rattle.certify.specs.Judged.{allowing, denying, seen, allowing_two, never_denies_two};
ghost use Rattle.certify.specs.Numbers.{number_of};

use files::{DEEPEST, Fault, PolicyError, Reader, Sort, Tag};
use judged::Judged;
use missing::Missing;
pub use rule::Rule;

/// Whether there is no not in a target.
#[tactic(auto, using(crate::proofs::Plain::plain_more))]
fn is_plain(reader: &mut Reader<'_>, left: usize) -> Result<bool, Fault>
    ensures { TellsTerm {s = target} (λ x. x) plain left result reader.old reader.new }
{
    match reader.node(Sort::Target, left)? {
        Tag::TargetAtom => {
            reader.pair()?;
            Ok(true)
        }
        Tag::TargetNot => {
            is_plain(reader, left - 1)?;
            Ok(false)
        }
        Tag::TargetOptional => is_plain(reader, left - 1),
        Tag::TargetAnd | Tag::TargetOr => {
            let first = is_plain(reader, left - 1)?;
            let second = is_plain(reader, left - 1)?;
            Ok(first && second)
        }
        _ => unreachable!(), // a policy's node
    }
}

/// Whether the and, or else the or, of two policies never allows; and what else the rules ask of it, in
/// place of what they ask of its first side.
#[inline(always)]
fn never_allows_two(
    tag: Tag,
    first_never: bool,
    judged: &mut Judged,
    second_never: bool,
    second: Judged,
) -> bool
    ensures { seen result judged.new ≡ allowing_two tag (seen first_never judged.old) (seen second_never second) }
{
    let (never, rule) = match tag {
        // An and allows only if both sides do.
        Tag::PolicyAnd => (first_never | second_never, Rule::AndOfCertified),
        // An or allows if one side does.
        _ => (first_never & second_never, Rule::OrOfCertified),
    };
    let rule = rule.by_both(judged.rule, second.rule);
    *judged = Judged::new(tag, never, judged.missing.and(second.missing), rule);
    never
}

/// Whether the and, or else the or, of two policies never denies.
#[inline]
fn never_denies_two(tag: Tag, first_never: bool, second_never: bool) -> bool
    ensures { result ≡ never_denies_two tag first_never second_never }
{
    match tag {
        Tag::PolicyAnd => first_never && second_never, // an and denies if one side does
        _ => first_never || second_never, // an or denies only if both sides do
    }
}

// The depth left falls from call to call and is not the reader's, so it stays beside it. What else
// the rules ask is lent, not returned: it would be copied at every node.
/// Whether the policy never allows; and what else the rules ask of it, with the first that applies.
#[cycle(never_allows_never_denies)]
#[tactic(auto, using(crate::proofs::Never::allowing_more))]
fn never_allows(reader: &mut Reader<'_>, left: usize, judged: &mut Judged) -> Result<bool, Fault>
    ensures { TellsTerm {s = policy} (λ never. seen never judged.new) allowing left result reader.old reader.new }
{
    let never = match reader.node(Sort::Policy, left)? {
        tag @ (Tag::Deny | Tag::Allow) => {
            let never = tag == Tag::Deny;
            *judged = Judged::new(tag, never, Missing::ALL, None);
            never
        }
        Tag::Targeted => {
            let is_plain = is_plain(reader, left - 1)?;
            let never = never_allows(reader, left - 1, judged)?;
            let below = judged.missing.with_target(is_plain);
            *judged = Judged::new(Tag::Targeted, never, below, None);
            never
        }
        Tag::PolicyNot => {
            let never = never_denies(reader, left - 1, &mut judged.missing)?;
            *judged = Judged::new(Tag::PolicyNot, never, judged.missing, None);
            never
        }
        Tag::DenyByDefault => {
            let never = never_allows(reader, left - 1, judged)?;
            let rule = judged.rule.and(Some(Rule::DefaultOfCertified));
            *judged = Judged::new(Tag::DenyByDefault, never, judged.missing, rule);
            never
        }
        tag @ (Tag::PolicyAnd | Tag::PolicyOr) => {
            let mut second = Judged::default();
            let first_never = never_allows(reader, left - 1, judged)?;
            let second_never = never_allows(reader, left - 1, &mut second)?;
            never_allows_two(tag, first_never, judged, second_never, second)
        }
        _ => unreachable!(), // a target's node
    };
    Ok(never)
}

// Not one function with `never_allows`: that the two call each other is the form that is asked for.
/// Whether the policy never denies; and what is missing in it.
#[cycle(never_allows_never_denies)]
#[tactic(auto, using(crate::proofs::Never::denying_more))]
fn never_denies(reader: &mut Reader<'_>, left: usize, missing: &mut Missing) -> Result<bool, Fault>
    ensures { TellsTerm {s = policy} (λ never. (never, missing.new)) denying left result reader.old reader.new }
{
    let never = match reader.node(Sort::Policy, left)? {
        tag @ (Tag::Deny | Tag::Allow) => {
            *missing = Missing::at(tag);
            tag == Tag::Allow
        }
        Tag::Targeted => {
            let is_plain = is_plain(reader, left - 1)?;
            let never = never_denies(reader, left - 1, missing)?;
            *missing = Missing::at(Tag::Targeted).and(missing.with_target(is_plain));
            never
        }
        Tag::PolicyNot => {
            let mut judged = Judged::default();
            let never = never_allows(reader, left - 1, &mut judged)?;
            *missing = Missing::at(Tag::PolicyNot).and(judged.missing);
            never
        }
        Tag::DenyByDefault => {
            never_denies(reader, left - 1, missing)?;
            *missing = Missing::at(Tag::DenyByDefault).and(*missing);
            false // what is undefined comes to deny
        }
        tag @ (Tag::PolicyAnd | Tag::PolicyOr) => {
            let mut second = Missing::ALL;
            let first_never = never_denies(reader, left - 1, missing)?;
            let second_never = never_denies(reader, left - 1, &mut second)?;
            *missing = Missing::at(tag).and(missing.and(second));
            never_denies_two(tag, first_never, second_never)
        }
        _ => unreachable!(), // a target's node
    };
    Ok(never)
}

/// The first rule that applies to the policy of a file.
pub fn certificate(file: &[u8]) -> Result<Option<Rule>, PolicyError>
    ensures { PolicyGives number_of result (read_map certificate (read_policy file.now)) }
{
    let mut reader = Reader::open(file)?;
    let mut judged = Judged::default();
    if let Err(fault) = never_allows(&mut reader, DEEPEST, &mut judged) {
        return Err(reader.error(fault));
    }
    reader.finish()?;
    Ok(judged.rule)
}
