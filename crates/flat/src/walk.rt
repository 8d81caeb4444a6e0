//! The nodes of a policy that was read, from the last to the first, with the sets of the finished subterms on a stack.

ghost use Rattle.std.specs.Prelude.{◌≡◌, ◌+◌, ◌<◌, ◌≤◌, [], ◌∷◌, length, drop, slice_index};
ghost use Rattle.ptacl.specs.Term.{Policy};
ghost use Rattle.ptacl.specs.Meaning.{eval};
ghost use Rattle.ptacl.specs.Values.{single, code};
ghost use Rattle.files.specs.Encoding.{IsPolicy};
ghost use Rattle.files.specs.Tags.{byte_of, tag_shape};
ghost use Rattle.files.specs.declared.tag.Tag.TheVariants.{Targeted};
ghost use Rattle.evaluate.specs.Worth.{member};
ghost use Rattle.flat.specs.Places.{behind, Noted};
ghost use Rattle.flat.specs.Taken.{terms_of, bytes_of, taken};
ghost use Rattle.flat.specs.Finished.{Finished, Next};

use files::{Pair, Request, Tag};
use ptacl::DecisionSet;
use std::marker::Model;

/// Where the stack of finished subterms stands: the topmost set, and where the others begin in the memory that is lent with it.
#[derive(Clone, Copy, Debug, PartialEq, Eq)]
pub struct Stack {
    pub own: DecisionSet,
    pub top: usize,
}

/// The sets that the finished subterms come to, the one that was finished last on top. There are at most 32.
// Not Copy: it lends memory to write.
#[derive(Drop)]
struct Sets<'a> {
    // Its topmost set is apart from the others, which are lent: most nodes replace it, and so it need not pass through memory.
    stack: Stack,

    // The others stand from `stack.top` on; the last is what `stack.own` was before the first.
    others: &'a mut [DecisionSet],
}

impl<'a> Model for Sets<'a> {
    ghost use Rattle.std.specs.Prelude.{ℕ, ◌≡◌, ◌≤◌, ◌-◌, List, ◌∷◌, length, map, take, drop};

    ghost Value = { List ℕ };

    ghost view = { λ s. map (λ set. set.code) (take (32 - s.stack.top) (s.stack.own ∷ drop s.stack.top s.others.now)) };

    ghost invariant = { λ s. (s.stack.top ≤ 32) × (length s.others.now ≡ 32) };
}

impl<'a> Sets<'a> {
    /// An empty stack over memory for 32 sets.
    fn new(others: &'a mut [DecisionSet]) -> Sets<'a>
        requires { length others.old ≡ 32 }
        ensures { result ≡ [] }
    {
        Sets {
            stack: Stack {
                own: DecisionSet::UNDEFINED,
                top: 32,
            },
            others,
        }
    }

    /// The topmost set.
    fn first(&self) -> DecisionSet
        requires { 0 < length self.now }
        ensures { result.code ≡ slice_index self.now 0 }
    {
        self.stack.own
    }

    /// The set below the topmost.
    fn second(&self) -> DecisionSet
        requires { 1 < length self.now }
        ensures { result.code ≡ slice_index self.now 1 }
    {
        self.others[self.stack.top]
    }

    /// A set goes onto the stack.
    fn push(&mut self, set: DecisionSet)
        requires { length self.old < 32 }
        ensures { self.new ≡ set.code ∷ self.old }
    {
        self.stack.top -= 1;
        self.others[self.stack.top] = self.stack.own;
        self.stack.own = set;
    }

    /// The topmost set gives way to another.
    fn replace(&mut self, set: DecisionSet)
        requires { 0 < length self.old }
        ensures { self.new ≡ set.code ∷ drop 1 self.old }
    {
        self.stack.own = set;
    }

    /// The two topmost sets give way to one.
    fn join(&mut self, set: DecisionSet)
        requires { 1 < length self.old }
        ensures { self.new ≡ set.code ∷ drop 2 self.old }
    {
        self.stack.own = set;
        self.stack.top += 1;
    }
}

// The file, a place in it and the request stay three parameters of these private functions: the place is another one at each call, no request is
// needed to tell a tag, and a struct of the three would be taken apart again in `take`.
/// The node at `at`.
fn tag_at(file: &[u8], at: usize) -> Tag
    requires { Next file.now at }
    ensures { slice_index file.now at ≡ byte_of result }
{
    let Ok(tag) = Tag::try_from(file[at]) else {
        unreachable!();
    };
    tag
}

/// The sets of the terms right below a node come off the stack, and its own goes on.
fn take(tag: Tag, file: &[u8], at: usize, request: &Request<'_>, stack: &mut Sets<'_>)
    requires inside { at + bytes_of (tag_shape tag) ≤ length file.now }
    requires below { terms_of (tag_shape tag) ≤ length stack.old }
    requires room { length stack.old < 32 + terms_of (tag_shape tag) }
    requires aimed { tag ≡ Targeted → slice_index stack.old 0 ≡ code (single (member (slice_index stack.old 0))) }
    ensures { stack.new ≡ taken file.now at request.now tag stack.old }
{
    match tag {
        Tag::TargetAtom => {
            let pair = Pair::from([file[at + 1], file[at + 2], file[at + 3], file[at + 4]]);
            stack.push(DecisionSet::single(request.value_of(pair)));
        }
        Tag::Deny => stack.push(DecisionSet::DENY),
        Tag::Allow => stack.push(DecisionSet::ALLOW),
        Tag::TargetNot | Tag::PolicyNot => stack.replace(stack.first().not()),
        Tag::TargetOptional | Tag::DenyByDefault => stack.replace(stack.first().deny_by_default()),
        Tag::Targeted => stack.join(stack.second().targeted(stack.first())),
        Tag::TargetAnd | Tag::PolicyAnd => stack.join(stack.first().and(stack.second())),
        Tag::TargetOr | Tag::PolicyOr => stack.join(stack.first().or(stack.second())),
    }
}

/// One step takes one node, at `at`.
fn step(file: &[u8], at: usize, request: &Request<'_>, stack: &mut Sets<'_>)
    requires node { Next file.now at }
    requires before { Finished file.now (behind file.now at) request.now stack.old }
    ensures { Finished file.now at request.now stack.new }
{
    take(tag_at(file, at), file, at, request, stack);
}

/// The set that the policy comes to whose nodes stand at these places.
pub fn walk(file: &[u8], places: &[u16], request: &Request<'_>) -> DecisionSet
    requires { Noted file.now places.now }
    ensures { (p : Policy) → IsPolicy file.now p → result.code ≡ code (eval p request.now) }
{
    let mut others = [DecisionSet::UNDEFINED; 32];
    let mut stack = Sets::new(&mut others);
    for at in places.iter().rev() {
        step(file, usize::from(*at), request, &mut stack);
    }
    stack.first()
}
