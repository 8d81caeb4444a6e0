//! A policy from one form into the other.

ghost use Rattle.std.specs.Prelude.{◌≡◌, ◌+◌, ◌*◌, ◌≤◌, OnOk};
ghost use Rattle.files.specs.Prefix.{scan};
ghost use Rattle.files.specs.Reading.{told};
ghost use Rattle.files.specs.Tags.{sort_of};
ghost use Rattle.text.specs.Nodes.{end_of};
ghost use Rattle.text.specs.Converting.{Gives, behind};
ghost use Rattle.text.specs.Written.{written, room, Keeps};

use crate::end::End;
use crate::output::Output;
use crate::sink::Sink;
use crate::source::Source;
use files::{Shape, Sort};

// Sort, depth left and end are three parameters: a struct of them would be taken apart at each
// call, and built anew for the next, so it is no plainer.
/// Reads a term of at most `left` levels, which `end` follows, and writes it behind what is written.
/// There is room for 18 bytes for each node up to the 255th, and what lies past what is written is
/// kept, on an error too.
#[tactic(auto, using(crate::proofs::Terms::behind_more, crate::proofs::Terms::behind_refused))]
pub fn convert<S: Source, T: Sink>(
    source: &mut S,
    output: &mut Output<'_>,
    sort: Sort,
    left: usize,
    end: End,
) -> Result<(), S::Error>
    requires { 4590 ≤ room output.old + 18 * S.nodes source.old }
    ensures gives { Gives S.number S.place
        (λ _. (written output.new, S.at source.new, S.nodes source.new)) result
        (told (behind T.form (T.follows (end_of end)) (written output.old))
        (scan (S.reader (S.bytes source.old)) left (sort_of sort) (S.follows (end_of end))
        (S.at source.old) (S.nodes source.old))) }
    ensures room { OnOk result (4590 ≤ room output.new + 18 * S.nodes source.new) }
    ensures same_bytes { S.bytes source.new ≡ S.bytes source.old }
    ensures kept { Keeps output.old output.new }
    ensures same_memory { output.new.space.ghost_name ≡ output.old.space.ghost_name }
{
    let tag = source.next_node(sort, left, end)?;
    T::put_node(output, tag, end);
    match tag.shape() {
        Shape::Numbers => {
            let pair = source.next_pair(end)?;
            T::put_pair(output, pair, end);
            Ok(())
        }
        Shape::Leaf => Ok(()),
        Shape::One => convert::<S, T>(source, output, sort, left - 1, end),
        Shape::Two(first) => {
            convert::<S, T>(source, output, first, left - 1, End::Space)?;
            convert::<S, T>(source, output, sort, left - 1, end)
        }
    }
}
