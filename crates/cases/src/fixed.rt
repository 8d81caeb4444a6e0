//! Fixed cases, from lines of text: a policy, a request, a text and how much memory is lent, and
//! then operations with the answers that they must give.

use crate::answer::{Answer, Refused, Reply};
use crate::compare::{Case, Rooms};
use crate::line::Line;
use crate::operation::{Conversion, Operation, Trial};
use crate::tally::Tally;

/// The answer on a line: refused and exposed say so, and a policy that is not exposed has its pairs
/// only.
fn answer_of<F: FnOnce(usize) -> Reply>(line: Line<'_>, reply: F) -> Answer
    requires { F.IsAlwaysCallable reply }
{
    let first = line.number(0);
    let second = line.number(1);
    match line.kind() {
        Some(b'r') => Err(Refused {
            number: first,
            place: second,
        }),
        Some(b'e') => Ok(Reply::Exposed {
            pairs: first,
            m: second,
            i: line.number(2),
            bytes: line.number(3),
        }),
        _ => Ok(reply(first)),
    }
}

/// The case that the lines have set up, and the tally of what was tried on it.
// It owns files: nothing copies or compares it.
#[derive(Drop)]
struct Fixed {
    case: Case,
    tally: Tally,
}

impl Fixed {
    fn record(&mut self, disagreed: Option<Trial>) {
        self.tally.fixed.record(disagreed);
    }

    /// The answer of the library must be that of the line, and all operations must agree.
    fn expect(&mut self, operation: Operation, line: Line<'_>) {
        let both = self.case.run(operation);
        let first = self.tally.first_to_disagree(&self.case);
        let wanted = answer_of(line, |value| operation.reply(value));
        let disagreed = if both.library == wanted {
            first
        } else {
            Some(operation)
        };
        self.record(disagreed.map(Trial::Operation));
    }

    /// The other form must be that of the case, with the answer of the line.
    fn convert(&mut self, conversion: Conversion, line: Line<'_>) {
        let is_right = self
            .case
            .converts(conversion, answer_of(line, Reply::Written));
        self.record((!is_right).then_some(Trial::Conversion(conversion)));
    }

    /// The space lent to a search must begin with the bytes of the line.
    fn begins(&mut self, line: Line<'_>) {
        let is_right = self.case.search_begins(line.bytes().bytes());
        self.record((!is_right).then_some(Trial::Operation(Operation::Search)));
    }

    /// A line sets a part of the case or is tried on it, by its first letter.
    fn run(&mut self, line: Line<'_>) {
        match line.letter() {
            b'p' => self.case.policy = line.bytes(),
            b'r' => self.case.request = line.bytes(),
            b'm' => self.case.rooms = Rooms::of(line.number(0)),
            b't' => self.case.text = line.typed(),
            b'h' => self.case.text = line.bytes(),
            b'b' => self.begins(line),
            letter => {
                if let Some(operation) = Operation::of_letter(letter) {
                    self.expect(operation, line);
                } else if let Some(conversion) = Conversion::of_letter(letter) {
                    self.convert(conversion, line);
                }
            }
        }
    }
}

/// The tally of the cases of this text.
pub fn all(text: &[u8]) -> Tally {
    let mut fixed = Fixed {
        case: Case::new(),
        tally: Tally::EMPTY,
    };
    for line in text.split_inclusive(|byte| *byte == b'\n') {
        // A last line without its line feed is none.
        if line.ends_with(b"\n") {
            fixed.run(Line::new(line));
        }
    }
    fixed.tally
}
