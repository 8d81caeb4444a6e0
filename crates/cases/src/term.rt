//! Policies as lists of nodes, read from their files from left to right.

use crate::answer::Refused;
use crate::pair::Pair;
use arrayvec::ArrayVec;

/// What is due at a node.
#[derive(Clone, Copy, Default, PartialEq, Eq)]
pub enum Sort {
    #[default]
    Policy,
    Target,
}

/// The byte at the front of a node.
#[derive(Clone, Copy, PartialEq, Eq)]
pub enum Tag {
    Atom = 0x10,
    TargetNot = 0x11,
    Optional = 0x12,
    TargetAnd = 0x13,
    TargetOr = 0x14,
    Deny = 0x20,
    Allow = 0x21,
    Targeted = 0x22,
    PolicyNot = 0x23,
    DenyByDefault = 0x24,
    PolicyAnd = 0x25,
    PolicyOr = 0x26,
}

impl From<Tag> for u8 {
    fn from(tag: Tag) -> u8 {
        // No plainer form: the other is a match that writes all the numbers again.
        tag as u8
    }
}

impl Tag {
    /// The tag of a byte, unless it is none.
    pub fn of(byte: u8) -> Option<Tag> {
        match byte {
            0x10 => Some(Tag::Atom),
            0x11 => Some(Tag::TargetNot),
            0x12 => Some(Tag::Optional),
            0x13 => Some(Tag::TargetAnd),
            0x14 => Some(Tag::TargetOr),
            0x20 => Some(Tag::Deny),
            0x21 => Some(Tag::Allow),
            0x22 => Some(Tag::Targeted),
            0x23 => Some(Tag::PolicyNot),
            0x24 => Some(Tag::DenyByDefault),
            0x25 => Some(Tag::PolicyAnd),
            0x26 => Some(Tag::PolicyOr),
            _ => None,
        }
    }

    pub fn sort(self) -> Sort {
        match self {
            Tag::Atom | Tag::TargetNot | Tag::Optional | Tag::TargetAnd | Tag::TargetOr => {
                Sort::Target
            }
            _ => Sort::Policy,
        }
    }
}

/// A node of a policy or of a target. Not, default, and and or mean the same of both.
#[derive(Clone, Copy, Default)]
pub enum Node {
    #[default]
    Deny,
    Allow,
    Atom(Pair),
    Not,
    /// Deny by default, and an optional target.
    Default,
    And,
    Or,
    /// A target, and behind it the policy that it guards.
    Targeted,
}

/// What the terms come to that are done and not yet part of another, the first of them on top. Of a
/// policy of 32 levels there are never more than 32.
pub type Parts<V> = ArrayVec<V, 32>;

/// What the next part of a node comes to, from left to right.
pub fn next_part<V: Copy + Default>(parts: &mut Parts<V>) -> V {
    parts.pop().unwrap_or_default()
}

/// A policy that was read, with the pairs of its atoms from left to right.
// Its nodes are a list as in the file, and no tree in boxes: the program asks the system for no
// memory, so that it runs where there is none to be had.
#[derive(Drop)]
pub struct Policy {
    nodes: ArrayVec<Node, 255>,
    pub named: ArrayVec<Pair, 255>,
}

/// The numbers of the refusals of a file that is short, of another version, of another length than
/// it says.
#[derive(Clone, Copy)]
pub struct Frame {
    pub short: usize,
    pub version: usize,
    pub length: usize,
}

impl Frame {
    /// The body of a file: what stands behind the version and the length.
    pub fn body_of(self, file: &[u8]) -> Result<&[u8], Refused> {
        let [version, high, low, body @ ..] = file else {
            return Err(Refused::new(self.short, file.len()));
        };
        if *version != 1 {
            return Err(Refused::new(self.version, 0));
        }
        if usize::from(u16::from_be_bytes([*high, *low])) != body.len() {
            return Err(Refused::new(self.length, 1));
        }
        Ok(body)
    }
}

/// A policy file, what is left of it, and the policy as far as it was read.
// It owns lists: nothing copies or compares it.
#[derive(Drop)]
struct Reader<'a> {
    file: &'a [u8],
    rest: &'a [u8],
    policy: Policy,
}

impl<'a> Reader<'a> {
    fn place(&self) -> usize {
        self.file.len().saturating_sub(self.rest.len())
    }

    fn refused(&self, number: usize) -> Refused {
        Refused::new(number, self.place())
    }

    /// The tag that comes next, where a node of this sort is due. It stays to be read.
    fn tag(&self, sort: Sort) -> Result<Tag, Refused> {
        let Some(byte) = self.rest.first() else {
            return Err(Refused::new(4, self.file.len()));
        };
        let Some(tag) = Tag::of(*byte) else {
            return Err(self.refused(5));
        };
        if tag.sort() != sort {
            return Err(self.refused(15));
        }
        Ok(tag)
    }

    /// Reads N bytes, which are a part of a node: an array by a const parameter, no buffer.
    fn take<const N: usize>(&mut self) -> Result<[u8; N], Refused> {
        let Some((bytes, rest)) = self.rest.split_first_chunk::<N>() else {
            return Err(Refused::new(4, self.file.len()));
        };
        self.rest = rest;
        Ok(*bytes)
    }

    /// The node of this tag, of which the byte was read. Of an atom the numbers are read, too.
    fn node(&mut self, tag: Tag) -> Result<Node, Refused> {
        Ok(match tag {
            Tag::Deny => Node::Deny,
            Tag::Allow => Node::Allow,
            Tag::Atom => {
                let pair = Pair::from(self.take::<4>()?);
                // There is room for a pair of each node.
                let _ = self.policy.named.try_push(pair);
                Node::Atom(pair)
            }
            Tag::TargetNot | Tag::PolicyNot => Node::Not,
            Tag::Optional | Tag::DenyByDefault => Node::Default,
            Tag::TargetAnd | Tag::PolicyAnd => Node::And,
            Tag::TargetOr | Tag::PolicyOr => Node::Or,
            Tag::Targeted => Node::Targeted,
        })
    }

    /// Reads a term of this sort, of at most so many levels. At a node the tag is judged first, then
    /// the depth, then the number of nodes, and then an atom's length.
    fn term(&mut self, sort: Sort, levels: usize) -> Result<(), Refused> {
        let tag = self.tag(sort)?;
        let Some(levels) = levels.checked_sub(1) else {
            return Err(self.refused(6));
        };
        // The list has room for as many nodes as a policy may have, 255.
        if self.policy.nodes.is_full() {
            return Err(self.refused(7));
        }
        self.take::<1>()?;
        let node = self.node(tag)?;
        let _ = self.policy.nodes.try_push(node);
        match node {
            Node::Deny | Node::Allow | Node::Atom(_) => Ok(()),
            Node::Not | Node::Default => self.term(sort, levels),
            Node::And | Node::Or => {
                self.term(sort, levels)?;
                self.term(sort, levels)
            }
            Node::Targeted => {
                self.term(Sort::Target, levels)?;
                self.term(Sort::Policy, levels)
            }
        }
    }
}

impl Policy {
    pub fn read(file: &[u8]) -> Result<Policy, Refused> {
        let frame = Frame {
            short: 1,
            version: 2,
            length: 3,
        };
        let mut reader = Reader {
            file,
            rest: frame.body_of(file)?,
            policy: Policy {
                nodes: ArrayVec::new(),
                named: ArrayVec::new(),
            },
        };
        reader.term(Sort::Policy, 32)?;
        if !reader.rest.is_empty() {
            return Err(reader.refused(8));
        }
        let Reader { policy, .. } = reader;
        Ok(policy)
    }

    /// What the policy comes to, where `rule` tells what a node does by what its parts come to, which
    /// stand in `parts`. The nodes are gone over from the last to the first, so that a node's parts are
    /// done before it.
    // It begins with the caller's empty list: how large a V is, which `new` must know, is known there.
    pub fn fold<V: Copy + Default, F: Fn(Node, &mut Parts<V>) -> V>(
        &self,
        mut parts: Parts<V>,
        rule: F,
    ) -> V
        requires { F.IsAlwaysCallable rule }
    {
        for node in self.nodes.iter().rev() {
            let value = rule(*node, &mut parts);
            let _ = parts.try_push(value);
        }
        next_part(&mut parts)
    }
}
