//! Reading the body of a policy file, node by node.

ghost use Rattle.std.specs.Prelude.{◌≡◌, ◌+◌, ◌<◌, ◌≤◌, min, length, IfOk, IfErr, OnOk, OnErr, IsTrue, IsFalse, Ok, Err};
ghost use Rattle.ptacl.specs.Term.{target, policy};
ghost use Rattle.files.specs.Prefix.{scan};
ghost use Rattle.files.specs.ReadPolicy.{limit_of, head_at, pair_at, in_bytes, read_policy};
ghost use Rattle.files.specs.Refusal.{unframed, refused, accepted};
ghost use Rattle.files.specs.Faults.{fault_number, PolicyGives};
ghost use Rattle.files.specs.Tags.{sort_of, tag_sort, pair_of, byte_of};
ghost use Rattle.files.specs.declared.tag.Tag.{Tag};
ghost use Rattle.files.specs.Reading.{Place, Limits, Opened, StandsAt, GoesOn, TellsTerm, node_in, told, nothing, ended};

use crate::fault::{Fault, PolicyError};
use crate::pair::Pair;
use crate::tag::{Sort, Tag};
use crate::{frame, tags};
use std::marker::Model;

/// How deep a policy may be.
pub const DEEPEST: usize = 32;

/// Where a policy begins in its file, behind the frame.
pub const BEGIN: usize = 3;

/// Whether a node is within the limits, with this much depth left and so many nodes before it.
pub fn limit(left: usize, nodes: usize) -> Result<(), Fault>
    ensures { Limits result (limit_of 255 left nodes) }
{
    if left == 0 {
        return Err(Fault::TooDeep);
    }
    if nodes >= 255 {
        return Err(Fault::TooManyNodes);
    }
    Ok(())
}

/// The bytes that stand for nodes, by the bits that they number: five of targets, seven of policies.
const TAGS: u64 = (0x1f << tags::TARGET_ATOM) | (0x7f << tags::DENY);

// Not by `Tag::try_from`: the two tests of a node's byte would become one table of jumps, slower where the byte is a tag.
#[tactic(auto, using(crate::proofs::Nodes::tag_by_bit))]
fn is_tag(byte: u8) -> bool
    ensures yes { IsTrue result → (tag : Tag) × (byte ≡ byte_of tag) }
    ensures no { IsFalse result → (tag : Tag) → byte ≡ byte_of tag → ⊥ }
{
    byte < 64 && (TAGS >> byte) % 2 == 1
}

/// How far a policy file has been read. A fault stands where the reader then is.
// Not Copy: the kit has none for a struct with a lifetime and a model; `again` stands for it.
#[derive(Drop)]
pub struct Reader<'a> {
    bytes: &'a [u8],
    at: usize,
    nodes: usize,
}

impl<'a> Model for Reader<'a> {
    ghost use Rattle.std.specs.Prelude.{◌≤◌, length};
    ghost use Rattle.files.specs.Reading.{Place};

    ghost Value = { Place };

    ghost view = { λ r. record { bytes = r.bytes.now; at = r.at; nodes = r.nodes } };

    ghost invariant = { λ r. r.at ≤ length r.bytes.now };
}

impl<'a> Reader<'a> {
    /// Stands at a place, or at the end if that comes first, with so many nodes before it.
    pub fn new(bytes: &'a [u8], at: usize, nodes: usize) -> Reader<'a>
        ensures { result ≡ record { bytes = bytes.now; at = min at (length bytes.now); nodes = nodes } }
    {
        Reader {
            bytes,
            at: at.min(bytes.len()),
            nodes,
        }
    }

    /// Stands at the body of a file whose frame is right.
    pub fn open(file: &'a [u8]) -> Result<Reader<'a>, PolicyError>
        ensures opened { IfOk result (Opened file.now) }
        ensures refused { IfErr result (λ e. read_policy file.now ≡ refused (fault_number e.fault) e.place) }

        // So a whole frame is opened, whatever stands in it.
        ensures framed { IfErr result (λ e. unframed 1 file.now (accepted (tt {0})) ≡ refused (fault_number e.fault) e.place) }
    {
        frame::body_of(file)?;
        Ok(Reader::new(file, BEGIN, 0))
    }

    /// Another reader that stands where this one does, to read the same bytes once more.
    pub fn again(&self) -> Reader<'a>
        ensures { result ≡ self.now }
    {
        Reader {
            bytes: self.bytes,
            at: self.at,
            nodes: self.nodes,
        }
    }

    /// Where the reader stands.
    pub fn at(&self) -> usize
        ensures { result ≡ self.now.at }
    {
        self.at
    }

    /// The error of a fault that stands here.
    pub fn error(&self, fault: Fault) -> PolicyError
        ensures { result ≡ record { fault = fault; place = self.now.at } }
    {
        PolicyError {
            fault,
            place: self.at,
        }
    }

    /// Reads the tag of a node of a sort, with this much depth left.
    #[tactic(auto, using(crate::proofs::Nodes::node_laws))]
    pub fn node(&mut self, sort: Sort, left: usize) -> Result<Tag, Fault>
        ensures gives { StandsAt (λ tag. tag) result self.new.at
            (node_in (head_at 255 self.old.bytes (sort_of sort) left self.old.at self.old.nodes)) }
        ensures sort { IfOk result (λ tag. tag_sort tag ≡ sort) }
        ensures ok { OnOk result ((self.new ≡ record self.old { at = self.old.at + 1; nodes = self.old.nodes + 1 }) × (0 < left)) }
        ensures err { OnErr result (self.new ≡ self.old) }
    {
        let Some(&byte) = self.bytes.get(self.at) else {
            return Err(Fault::Ends);
        };
        let tag = match Tag::try_from(byte) {
            Ok(tag) if tag.is_of(sort) => tag,
            _ => {
                if is_tag(byte) {
                    return Err(Fault::OtherSort);
                }
                return Err(Fault::NoTag);
            }
        };
        limit(left, self.nodes)?;
        self.at += 1;
        self.nodes += 1;
        Ok(tag)
    }

    /// Reads an atom's numbers.
    #[tactic(auto, unfolding(crate::specs::ReadPolicy::pair_at))]
    pub fn pair(&mut self) -> Result<Pair, Fault>
        ensures { GoesOn pair_of result self.old self.new (told (λ x. x) (pair_at self.old.bytes self.old.at self.old.nodes)) }
    {
        let Some(bytes) = self.bytes[self.at..].first_chunk::<4>() else {
            self.at = self.bytes.len();
            return Err(Fault::Ends);
        };
        let pair = Pair::from(*bytes);
        self.at += 4;
        Ok(pair)
    }

    /// Goes past a term of at most `left` levels.
    pub fn term(&mut self, sort: Sort, left: usize) -> Result<(), Fault>
        ensures { TellsTerm {s = sort_of sort} (λ x. x) nothing left result self.old self.new }
    {
        let mut fault = Fault::Ends;
        let is_whole = match sort {
            Sort::Target => self.target(left, &mut fault),
            Sort::Policy => self.policy(left, &mut fault),
        };
        if is_whole { Ok(()) } else { Err(fault) }
    }

    // Each sort has a function of its own, in which the test of a node's sort is one of a constant. A bool with the fault
    // lent, and no Result: of a last call that returns one number the compiler makes a loop, and of one that returns two
    // it makes none, which takes longer where nots are nested.
    #[tactic(auto, using(crate::proofs::Terms::term_more))]
    fn target(&mut self, left: usize, fault: &mut Fault) -> bool
        ensures whole { IsTrue result → TellsTerm {s = target} (λ x. x) nothing left (Ok tt) self.old self.new }
        ensures cut { IsFalse result → TellsTerm {s = target} (λ x. x) nothing left (Err fault.new) self.old self.new }
    {
        match self.node(Sort::Target, left) {
            Ok(Tag::TargetAtom) => match self.pair() {
                Ok(_) => true,
                Err(met) => {
                    *fault = met;
                    false
                }
            },
            Ok(Tag::TargetNot | Tag::TargetOptional) => self.target(left - 1, fault),
            Ok(_) => self.target(left - 1, fault) && self.target(left - 1, fault),
            Err(met) => {
                *fault = met;
                false
            }
        }
    }

    #[tactic(auto, using(crate::proofs::Terms::term_more))]
    fn policy(&mut self, left: usize, fault: &mut Fault) -> bool
        ensures whole { IsTrue result → TellsTerm {s = policy} (λ x. x) nothing left (Ok tt) self.old self.new }
        ensures cut { IsFalse result → TellsTerm {s = policy} (λ x. x) nothing left (Err fault.new) self.old self.new }
    {
        match self.node(Sort::Policy, left) {
            Ok(Tag::Deny | Tag::Allow) => true,
            Ok(Tag::PolicyNot | Tag::DenyByDefault) => self.policy(left - 1, fault),
            Ok(Tag::Targeted) => self.target(left - 1, fault) && self.policy(left - 1, fault),
            Ok(_) => self.policy(left - 1, fault) && self.policy(left - 1, fault),
            Err(met) => {
                *fault = met;
                false
            }
        }
    }

    /// Whether the file ends here, as it must behind the policy.
    pub fn end(&self) -> Result<(), Fault>
        ensures { StandsAt (λ x. x) result self.now.at (ended self.now) }
    {
        if self.at < self.bytes.len() {
            return Err(Fault::Excess);
        }
        Ok(())
    }

    /// The same, with the place.
    pub fn finish(&self) -> Result<(), PolicyError>
        ensures { PolicyGives (λ x. x) result (ended self.now) }
    {
        match self.end() {
            Ok(()) => Ok(()),
            Err(fault) => Err(self.error(fault)),
        }
    }
}
