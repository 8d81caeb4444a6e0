//! How a policy is written: as the body of a policy file, or as a line.

ghost use Rattle.std.specs.Prelude.{◌≡◌, ◌≤◌, refl};
ghost use Rattle.files.specs.Prefix.{Form};
ghost use Rattle.files.specs.Encoding.{bytes};
ghost use Rattle.text.specs.Line.{End as Due, space, words, digits, decimal, ended};
ghost use Rattle.text.specs.Nodes.{end_of, marked};
ghost use Rattle.text.specs.Written.{AppendsFew, room};

use crate::end::End;
use crate::output::Output;
use crate::{keyword, number};
use files::{Pair, Tag};

/// How a policy is written into lent memory, node by node.
pub trait Sink {
    // the form, by what it tells of what follows a term
    ghost Follows: { Type 0 };

    ghost follows: { Due → Follows };

    ghost form: { Form Follows };

    /// Writes a node, in at most six bytes.
    fn put_node(output: &mut Output<'_>, tag: Tag, end: End)
        requires { 6 ≤ room output.old }
        ensures { AppendsFew 6 output.old output.new (marked form tag (follows (end_of end))) };

    /// Writes an atom's numbers, in at most twelve bytes.
    fn put_pair(output: &mut Output<'_>, pair: Pair, end: End)
        requires { 12 ≤ room output.old }
        ensures { AppendsFew 12 output.old output.new
            (form.pair pair.name pair.value (follows (end_of end))) };

    ghost between: { form.between ≡ follows space };
}

/// As the body of a policy file.
pub struct Body;

impl Sink for Body {
    ghost Follows = { Unit {0} };

    ghost follows = { λ e. tt };

    ghost form = { bytes };

    ghost between = { refl };

    #[tactic(auto, using(crate::proofs::Named::byte_named))]
    fn put_node(output: &mut Output<'_>, tag: Tag, _end: End) {
        output.push(u8::from(tag));
    }

    #[tactic(auto, unfolding(files::specs::Encoding::pair_bytes))]
    fn put_pair(output: &mut Output<'_>, pair: Pair, _end: End) {
        output.extend(&<[u8; 4]>::from(pair));
    }
}

/// As a line of words.
pub struct Line;

impl Sink for Line {
    ghost Follows = { Due };

    ghost follows = { λ e. e };

    ghost form = { words };

    ghost between = { refl };

    #[tactic(auto, using(crate::proofs::Named::word_behind))]
    fn put_node(output: &mut Output<'_>, tag: Tag, end: End) {
        output.extend(keyword::word(tag));
        output.push(end.behind(tag.shape()).byte());
    }

    fn put_pair(output: &mut Output<'_>, pair: Pair, end: End) {
        put_number(output, u32::from(pair.name), End::Space);
        put_number(output, u32::from(pair.value), end);
    }
}

/// Writes at most so many digits of a number, the last of it, without leading zeros.
#[tactic(auto, using(crate::proofs::Decimal::digits_short))]
pub fn put_digits(output: &mut Output<'_>, number: u32, most: usize)
    requires { most ≤ room output.old }
    ensures { AppendsFew most output.old output.new (digits most number) }
{
    output.extend(number::digits(number, most, &mut itoa::Buffer::new()));
}

/// Writes a number, its last five digits at most, and the byte behind it.
#[tactic(auto, using(crate::proofs::Written::appends_twice), unfolding(crate::specs::Line::ended))]
pub fn put_number(output: &mut Output<'_>, number: u32, end: End)
    requires { 6 ≤ room output.old }
    ensures { AppendsFew 6 output.old output.new (ended (decimal number) (end_of end)) }
{
    put_digits(output, number, 5);
    output.push(end.byte());
}
