//! Reading a policy without calls that nest: what is still due stands on a stack, and the places of the nodes are noted.

ghost use Rattle.std.specs.Prelude.{◌≡◌, ◌-◌, ◌<◌, ◌≤◌, ◌++◌, length, take, IfOk, IsSome};
ghost use Rattle.std.specs.Option.{option_to_list};
ghost use Rattle.ptacl.specs.Term.{policy};
ghost use Rattle.files.specs.Reading.{TellsTerm, nothing};
ghost use Rattle.flat.specs.Places.{PlacesTo};

use files::{Fault, Reader, Shape, Sort};
use std::marker::Model;

/// A term that is due, and how deep it may be.
#[derive(Clone, Copy, Debug, PartialEq, Eq)]
pub struct Due {
    // Twice the depth, and one more for a policy. One byte, since host/test/stack.c holds `decide_flat` to the 624 bytes of stack that its header
    // states: with a sort and a depth beside each other it takes 32 bytes more.
    byte: u8,
}

impl Model for Due {
    ghost use Rattle.std.specs.Prelude.{refl};
    ghost use Rattle.flat.specs.Due.{DueTerm, due_in, byte_for, byte_for-due_in};

    ghost Value = { DueTerm };

    ghost view = { λ d. due_in d.byte };

    ghost inverse = { λ d. record { byte = byte_for d } };

    ghost inverse_ok = { λ d h. rw (byte_for-due_in d.byte) refl };
}

impl Due {
    fn new(sort: Sort, left: u8) -> Due
        requires { left < 128 }
        ensures { result ≡ record { sort = sort; left = left } }
    {
        let more = match sort {
            Sort::Target => 0,
            Sort::Policy => 1,
        };
        Due {
            byte: 2 * left + more,
        }
    }

    fn sort(self) -> Sort
        ensures { result ≡ self.sort }
    {
        if self.byte % 2 == 0 {
            Sort::Target
        } else {
            Sort::Policy
        }
    }

    fn left(self) -> u8
        ensures { result ≡ self.left }
    {
        self.byte / 2
    }

    /// A term of that sort, right below a node where this one is due.
    fn below(self, sort: Sort) -> Due
        requires { 0 < self.left }
        ensures { result ≡ record { sort = sort; left = self.left - 1 } }
    {
        Due::new(sort, self.byte / 2 - 1)
    }
}

/// What is due in the beginning: a policy, with all the depth that there is.
impl Default for Due {
    ghost use Rattle.files.specs.declared.tag.Sort.TheVariants.{Policy as PolicySort};

    ghost is_default = { λ due. due ≡ record { sort = PolicySort; left = 32 } };

    fn default() -> Due {
        Due::new(Sort::Policy, 32)
    }
}

/// Takes the topmost of so many terms off the stack, if there is one.
#[inline]
fn pop(later: &[Due], top: &mut usize) -> Option<Due>
    requires { top.old ≤ length later.now }
    ensures items { take top.old later.now ≡ take top.new later.now ++ option_to_list result }
    ensures variant { 0 < top.old → IsSome result }
    ensures low { top.new ≤ top.old }
{
    if *top == 0 {
        return None;
    }
    *top -= 1;
    Some(later[*top])
}

/// Reads the policy behind the frame, node by node, and notes the places of its nodes: tells how many there are. Behind the term at hand those
/// are due that stand on the stack, the next on top.
pub fn read_nodes(reader: &mut Reader<'_>, places: &mut [u16]) -> Result<usize, Fault>
    requires start { (reader.old.at ≡ 3) × (reader.old.nodes ≡ 0) }
    requires room { length places.old ≡ 255 }
    ensures goes_on { TellsTerm {s = policy} nothing nothing 32 result reader.old reader.new }
    ensures noted { IfOk result (λ count. (count ≤ 255) × PlacesTo reader.old.bytes reader.new.nodes (take count places.new)) }
{
    // Counted, in memory that is lent: the bar of decide_flat is 1.4 times careful C, and `ArrayVec`s of the places and of what is due miss it (1.6
    // to 1.8 times, from 27 nodes on).
    let mut count = 0;

    // An array with a count: an `ArrayVec` here alone misses the same bar (251 nodes: 1.49 to 1.69 times, for 1.30 to 1.45 as it is).
    let mut later = [Due::default(); 32];
    let mut top = 0;
    let mut due = Some(Due::default());
    while let Some(term) = due {
        let at = reader.at();
        let sort = term.sort();
        let tag = reader.node(sort, usize::from(term.left()))?;

        // A node takes five bytes at most, so of 255 nodes the last stands at 1,273 at most.
        places[count] = at as u16;
        count += 1;
        match tag.shape() {
            Shape::Numbers => {
                reader.pair()?;
                due = pop(&later, &mut top);
            }
            Shape::Leaf => due = pop(&later, &mut top),
            Shape::One => due = Some(term.below(sort)),
            Shape::Two(first) => {
                later[top] = term.below(sort);
                top += 1;
                due = Some(term.below(first));
            }
        }
    }
    Ok(count)
}
