//! What follows a word or a number.

ghost use Rattle.std.specs.Prelude.{◌≡◌};
ghost use Rattle.text.specs.Line.{byte_of};
ghost use Rattle.text.specs.ReadText as R;
ghost use Rattle.text.specs.Nodes.{end_of, follows};
ghost use Rattle.text.specs.Faults.{text_fault_number, text_number, text_place};
ghost use Rattle.text.specs.Converting.{Gives};

use crate::fault::{TextError, TextFault};
use files::Shape;

/// The byte that is due behind a word or a number.
#[derive(Clone, Copy, Debug, PartialEq, Eq)]
pub enum End {
    /// Where the line goes on.
    Space,
    /// Behind the last word or number of the line.
    LineFeed,
}

impl End {
    /// That byte.
    pub fn byte(self) -> u8
        ensures { result ≡ byte_of (end_of self) }
    {
        match self {
            End::Space => b' ',
            End::LineFeed => b'\n',
        }
    }

    /// What refuses another byte in its place.
    pub fn fault(self) -> TextFault
        ensures { text_fault_number result ≡ R.another (end_of self) }
    {
        match self {
            End::Space => TextFault::Word,
            End::LineFeed => TextFault::LineFeed,
        }
    }

    /// What follows the word of a node of that shape, in a term that this follows.
    pub fn behind(self, shape: Shape) -> End
        ensures { result ≡ follows shape self }
    {
        match shape {
            Shape::Leaf => self,
            _ => End::Space,
        }
    }
}

/// The place behind the byte that is due at `at`, which may be any place: at the text's end and past
/// it the refusal stands at the end.
#[tactic(auto, unfolding(crate::specs::ReadText::past))]
pub fn past(text: &[u8], end: End, at: usize) -> Result<usize, TextError>
    ensures { Gives text_number text_place (λ x. x) result (R.past text.now (end_of end) at) }
{
    let (fault, place) = match text.get(at) {
        None => (TextFault::Ends, text.len()),
        Some(&byte) if byte == end.byte() => return Ok(at + 1),
        Some(_) => (end.fault(), at),
    };
    Err(TextError::Text { fault, place })
}
