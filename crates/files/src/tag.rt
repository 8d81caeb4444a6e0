//! The nodes of a policy, by the bytes that stand for them in a file.

ghost use Rattle.std.specs.Prelude.{◌≡◌, ◌↔◌, IsTrue};
ghost use Rattle.files.specs.Tags.{byte_of, tag_sort, tag_shape, Decodes};

use crate::tags;

/// A term is a target or a policy.
#[derive(Clone, Copy, Debug, PartialEq, Eq)]
pub enum Sort {
    Target,
    Policy,
}

/// What is below a node: an atom's numbers, nothing, a term of the node's own sort, or a term of a sort and then one of the node's own.
#[derive(Clone, Copy, Debug, PartialEq, Eq)]
pub enum Shape {
    Numbers,
    Leaf,
    One,
    Two(Sort),
}

/// A node, by the byte that stands for it.
#[derive(Clone, Copy, Debug, PartialEq, Eq)]
pub enum Tag {
    TargetAtom = tags::TARGET_ATOM as isize,
    TargetNot = tags::TARGET_NOT as isize,
    TargetOptional = tags::TARGET_OPTIONAL as isize,
    TargetAnd = tags::TARGET_AND as isize,
    TargetOr = tags::TARGET_OR as isize,
    Deny = tags::DENY as isize,
    Allow = tags::ALLOW as isize,
    Targeted = tags::TARGETED as isize,
    PolicyNot = tags::POLICY_NOT as isize,
    DenyByDefault = tags::DENY_BY_DEFAULT as isize,
    PolicyAnd = tags::POLICY_AND as isize,
    PolicyOr = tags::POLICY_OR as isize,
}

/// A byte that stands for no node.
#[derive(Clone, Copy, Debug, PartialEq, Eq)]
pub struct NoTag;

impl TryFrom<u8> for Tag {
    type Error = NoTag;

    ghost try_from_gives = { Decodes };

    fn try_from(byte: u8) -> Result<Tag, NoTag> {
        match byte {
            tags::TARGET_ATOM => Ok(Tag::TargetAtom),
            tags::TARGET_NOT => Ok(Tag::TargetNot),
            tags::TARGET_OPTIONAL => Ok(Tag::TargetOptional),
            tags::TARGET_AND => Ok(Tag::TargetAnd),
            tags::TARGET_OR => Ok(Tag::TargetOr),
            tags::DENY => Ok(Tag::Deny),
            tags::ALLOW => Ok(Tag::Allow),
            tags::TARGETED => Ok(Tag::Targeted),
            tags::POLICY_NOT => Ok(Tag::PolicyNot),
            tags::DENY_BY_DEFAULT => Ok(Tag::DenyByDefault),
            tags::POLICY_AND => Ok(Tag::PolicyAnd),
            tags::POLICY_OR => Ok(Tag::PolicyOr),
            _ => Err(NoTag),
        }
    }
}

impl From<Tag> for u8 {
    ghost from_gives = { λ tag b. b ≡ byte_of tag };

    fn from(tag: Tag) -> u8 {
        tag as u8
    }
}

impl Tag {
    /// What it is a node of.
    pub fn sort(self) -> Sort
        ensures { result ≡ tag_sort self }
    {
        match self {
            Tag::TargetAtom
            | Tag::TargetNot
            | Tag::TargetOptional
            | Tag::TargetAnd
            | Tag::TargetOr => Sort::Target,
            _ => Sort::Policy,
        }
    }

    /// Whether it is a node of this sort.
    pub fn is_of(self, sort: Sort) -> bool
        ensures { IsTrue result ↔ (tag_sort self ≡ sort) }
    {
        self.sort() == sort
    }

    /// What is below the node.
    pub fn shape(self) -> Shape
        ensures { result ≡ tag_shape self }
    {
        match self {
            Tag::TargetAtom => Shape::Numbers,
            Tag::Deny | Tag::Allow => Shape::Leaf,
            Tag::TargetNot | Tag::TargetOptional | Tag::PolicyNot | Tag::DenyByDefault =>
                Shape::One,
            Tag::TargetAnd | Tag::TargetOr | Tag::Targeted => Shape::Two(Sort::Target),
            Tag::PolicyAnd | Tag::PolicyOr => Shape::Two(Sort::Policy),
        }
    }
}
