//! Reading a line.

ghost use Rattle.std.specs.Prelude.{◌≡◌, ◌+◌, ◌≤◌, length, refl};
ghost use Rattle.files.specs.Reading.{Place};
ghost use Rattle.files.specs.Faults.{fault_number};
ghost use Rattle.text.specs.Line.{End as Due};
ghost use Rattle.std.specs.List.{position};
ghost use Rattle.text.specs.ReadText as R;
ghost use Rattle.text.specs.ReadText.{ends, run_at, number_at, in_words};
ghost use Rattle.text.specs.Nodes.{end_of};
ghost use Rattle.text.specs.Faults.{text_fault_number, text_number, text_place, ended_at};
ghost use Rattle.text.specs.Converting.{Gives};

use crate::end::{End, past};
use crate::fault::{TextError, TextFault};
use crate::source::Source;
use crate::{keyword, number};
use files::{Fault, Pair, PolicyError, Sort, Tag, limit};
use std::marker::Model;

/// How far a line has been read.
// A type of its own beside files' Reader: here the byte that follows a node is read with it, and
// the faults are a text's, each told by its own number; what both do alike is the trait Source.
// Not Copy: the kit has none for a struct with a lifetime and a model.
#[derive(Drop)]
pub struct Words<'a> {
    text: &'a [u8],
    at: usize,
    nodes: usize,
}

impl<'a> Model for Words<'a> {
    ghost use Rattle.std.specs.Prelude.{◌≤◌, length};
    ghost use Rattle.files.specs.Reading.{Place};

    ghost Value = { Place };

    ghost view = { λ w. record { bytes = w.text.now; at = w.at; nodes = w.nodes } };

    ghost invariant = { λ w. w.at ≤ length w.text.now };
}

/// How many bytes come before a space or a line feed.
fn run_len(text: &[u8]) -> Option<usize>
    ensures { result ≡ position ends text.now }
{
    text.iter().position(|&byte| byte == b' ' || byte == b'\n')
}

impl<'a> Words<'a> {
    /// Stands at the beginning of a text.
    pub fn new(text: &'a [u8]) -> Words<'a>
        ensures { result ≡ record { bytes = text.now; at = 0; nodes = 0 } }
    {
        Words::at(text, 0)
    }

    /// Stands at a place of a text, its end at most, and counts nodes from there.
    pub fn at(text: &'a [u8], at: usize) -> Words<'a>
        requires { at ≤ length text.now }
        ensures { result ≡ record { bytes = text.now; at = at; nodes = 0 } }
    {
        Words { text, at, nodes: 0 }
    }

    /// The error of a fault that stands here.
    fn fault(&self, fault: TextFault) -> TextError
        ensures number { text_number result ≡ text_fault_number fault }
        ensures place { text_place result ≡ self.now.at }
    {
        TextError::Text {
            fault,
            place: self.at,
        }
    }

    /// The error of a policy's limit that is passed here.
    fn beyond(&self, fault: Fault) -> TextError
        ensures number { text_number result ≡ fault_number fault }
        ensures place { text_place result ≡ self.now.at }
    {
        TextError::Policy(PolicyError {
            fault,
            place: self.at,
        })
    }

    /// The bytes from here up to a space, a line feed or the end.
    pub fn run(&self) -> &'a [u8]
        ensures run { result.now ≡ run_at self.now.bytes self.now.at }
        ensures inside { self.now.at + length result.now ≤ length self.now.bytes }
    {
        let rest = &self.text[self.at..];
        match run_len(rest) {
            Some(len) => &rest[..len],
            None => rest,
        }
    }

    /// Goes past a run, and past the byte that is due behind it.
    #[tactic(auto, using(crate::proofs::Runs::past_inside))]
    pub fn pass(&mut self, run: &[u8], end: End) -> Result<(), TextError>
        requires { self.old.at + length run.now ≤ length self.old.bytes }
        ensures gives { Gives text_number text_place (λ _. self.new.at) result
            (R.past self.old.bytes (end_of end) (self.old.at + length run.now)) }
        ensures same { (self.new.bytes ≡ self.old.bytes) × (self.new.nodes ≡ self.old.nodes) }
    {
        self.at = past(self.text, end, self.at + run.len())?;
        Ok(())
    }

    /// Reads a number that `end` follows.
    #[tactic(auto, unfolding(crate::specs::ReadText::number_at))]
    pub fn number(&mut self, end: End) -> Result<u16, TextError>
        ensures gives { Gives text_number text_place (λ number. (number, self.new.at)) result
            (number_at self.old.bytes (end_of end) self.old.at) }
        ensures same { (self.new.bytes ≡ self.old.bytes) × (self.new.nodes ≡ self.old.nodes) }
    {
        let run = self.run();
        let Some(number) = number::number_of(run) else {
            return Err(self.fault(TextFault::Number));
        };
        self.pass(run, end)?;
        Ok(number)
    }

    /// Whether the text ends here, as it must behind the line feed.
    // Like Reader's `end`, but of a text's fault: one for both would take the fault as a parameter,
    // no plainer than these three lines.
    pub fn end(&self) -> Result<(), TextError>
        ensures { Gives text_number text_place (λ x. x) result (ended_at self.now) }
    {
        if self.at < self.text.len() {
            return Err(self.fault(TextFault::LineFeed));
        }
        Ok(())
    }
}

impl<'a> Source for Words<'a> {
    type Error = TextError;

    ghost Follows = { Due };

    ghost follows = { λ e. e };

    ghost reader = { λ b. in_words 255 b };

    ghost bytes = { λ w. w.bytes };

    ghost at = { λ w. w.at };

    ghost nodes = { λ w. w.nodes };

    ghost number = { text_number };

    ghost place = { text_place };

    ghost between = { λ b. refl };

    #[tactic(auto, using(crate::proofs::Heads::word_laws, files::proofs::Nodes::kept_deep, files::proofs::Nodes::kept_few))]
    fn next_node(&mut self, sort: Sort, left: usize, end: End) -> Result<Tag, TextError> {
        if self.at == self.text.len() {
            return Err(self.fault(TextFault::Ends));
        }
        let run = self.run();
        let Some(tag) = keyword::node_of(run) else {
            return Err(self.fault(TextFault::Word));
        };
        if !tag.is_of(sort) {
            return Err(self.fault(TextFault::Word));
        }
        // `map_err` was tried: `search` leaves the refusal open, as a goal about its closure.
        if let Err(fault) = limit(left, self.nodes) {
            return Err(self.beyond(fault));
        }
        self.pass(run, end.behind(tag.shape()))?;
        self.nodes += 1;
        Ok(tag)
    }

    #[tactic(auto, unfolding(crate::specs::ReadText::pair_at))]
    fn next_pair(&mut self, end: End) -> Result<Pair, TextError> {
        let name = self.number(End::Space)?;
        let value = self.number(end)?;
        Ok(Pair { name, value })
    }
}
