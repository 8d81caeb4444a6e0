//! The twelve words.

ghost use Rattle.std.specs.Prelude.{◌≡◌, Some, IfSome, IfNone};
ghost use Rattle.text.specs.Nodes.{word_of};

use files::Tag;

/// The word of a node.
pub fn word(tag: Tag) -> &'static [u8]
    ensures { result.now ≡ word_of tag }
{
    match tag {
        Tag::TargetAtom => b"tatom",
        Tag::TargetNot => b"tnot",
        Tag::TargetOptional => b"topt",
        Tag::TargetAnd => b"tand",
        Tag::TargetOr => b"tor",
        Tag::Deny => b"pzero",
        Tag::Allow => b"pone",
        Tag::Targeted => b"ptar",
        Tag::PolicyNot => b"pnot",
        Tag::DenyByDefault => b"pdbd",
        Tag::PolicyAnd => b"pand",
        Tag::PolicyOr => b"por",
    }
}

/// The node whose word this is.
pub fn node_of(run: &[u8]) -> Option<Tag>
    ensures found { IfSome result (λ tag. run.now ≡ word_of tag) }
    ensures back { (tag : _) → run.now ≡ word_of tag → result ≡ Some tag }
    ensures none { IfNone result ((tag : _) → run.now ≡ word_of tag → ⊥) }
{
    match run {
        b"tatom" => Some(Tag::TargetAtom),
        b"tnot" => Some(Tag::TargetNot),
        b"topt" => Some(Tag::TargetOptional),
        b"tand" => Some(Tag::TargetAnd),
        b"tor" => Some(Tag::TargetOr),
        b"pzero" => Some(Tag::Deny),
        b"pone" => Some(Tag::Allow),
        b"ptar" => Some(Tag::Targeted),
        b"pnot" => Some(Tag::PolicyNot),
        b"pdbd" => Some(Tag::DenyByDefault),
        b"pand" => Some(Tag::PolicyAnd),
        b"por" => Some(Tag::PolicyOr),
        _ => None,
    }
}
