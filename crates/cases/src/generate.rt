//! Cases from a small generator of numbers: policies, requests, damage to both, and memory of
//! several lengths.

use crate::compare::{Case, Rooms};
use crate::file::File;
use crate::pair::Pair;
use crate::random::Random;
use crate::term::{Sort, Tag};
use arrayvec::ArrayVec;

/// What a policy's nodes are picked from. The first four are the leaves. In this table and the two
/// below, what stands there more often is picked more often.
const POLICY_TAGS: [Tag; 16] = [
    Tag::Deny,
    Tag::Allow,
    Tag::Allow,
    Tag::Allow,
    Tag::Targeted,
    Tag::Targeted,
    Tag::Targeted,
    Tag::PolicyOr,
    Tag::PolicyNot,
    Tag::PolicyNot,
    Tag::PolicyNot,
    Tag::DenyByDefault,
    Tag::DenyByDefault,
    Tag::PolicyAnd,
    Tag::PolicyAnd,
    Tag::PolicyOr,
];

/// What a target's nodes are picked from. The first is the leaf.
const TARGET_TAGS: [Tag; 8] = [
    Tag::Atom,
    Tag::Atom,
    Tag::Atom,
    Tag::TargetNot,
    Tag::TargetNot,
    Tag::Optional,
    Tag::TargetAnd,
    Tag::TargetOr,
];

/// Most names are small; some are 0 or beyond a byte.
// A table of constants, no buffer.
const BASES: [u16; 8] = [0, 1, 1, 1, 1, 1, 1, 255];

/// The shape of a policy: whether it is allowed by default, how deep and how large it grows, its
/// first name, and of how many names and values its pairs are.
// `by_default` is a fact of its own, no flag beside a value: it picks the nodes near the root.
#[derive(Clone, Copy)]
struct Plan {
    by_default: bool,
    deepest: usize,
    most: usize,
    base: u16,
    names: usize,
    values: usize,
}

/// A node that is due, by its sort and how deep it stands; the root is at depth 1.
#[derive(Clone, Copy, Default)]
struct Due {
    sort: Sort,
    depth: usize,
}

impl Due {
    /// A part of a node that was due.
    fn part(self, sort: Sort) -> Due {
        let depth = self.depth.saturating_add(1);
        Due { sort, depth }
    }
}

/// What makes cases, from numbers.
#[derive(Clone, Copy)]
pub struct Generator {
    random: Random,
}

impl Generator {
    pub const FIRST: Generator = Generator {
        random: Random::FIRST,
    };

    /// One plan in ten is large.
    fn plan(&mut self) -> Plan {
        let (deeper, more) = if self.random.below(10) == 9 {
            (32, 256)
        } else {
            (0, 0)
        };
        let by_default = self.random.below(2) == 0;
        let deepest = self.random.below(8) + 2 + deeper;
        let most = self.random.below(24) + more;
        let base = BASES[self.random.below(8)];
        Plan {
            by_default,
            deepest,
            most,
            base,
            names: self.random.below(4) + 1,
            values: self.random.below(3) + 1,
        }
    }

    /// The tag of a node that is due, where so many are written. Near the root there are no leaves.
    fn tag(&mut self, plan: Plan, due: Due, written: usize) -> Tag {
        if plan.by_default && due.depth < 4 {
            return if due.depth == 2 {
                Tag::DenyByDefault
            } else {
                Tag::PolicyNot
            };
        }
        let is_leaf = plan.deepest <= due.depth || plan.most <= written;
        if due.sort == Sort::Target {
            return if is_leaf {
                Tag::Atom
            } else {
                TARGET_TAGS[self.random.below(8)]
            };
        }
        let i = self.random.below(16);
        if is_leaf {
            POLICY_TAGS[i % 4]
        } else if due.depth < 4 {
            POLICY_TAGS[(i | 4) % 16]
        } else {
            POLICY_TAGS[i]
        }
    }

    fn pair(&mut self, plan: Plan) -> Pair {
        let name = plan.base.wrapping_add(self.random.small(plan.names));
        let value = self.random.small(plan.values);
        Pair { name, value }
    }

    /// A policy file of at most 320 nodes: a policy that has more to come by then is cut.
    fn policy(&mut self, plan: Plan) -> File {
        let mut file = File::with_frame();
        // Each node takes one away and adds two at most.
        let mut due = ArrayVec::<Due, 321>::new();
        let _ = due.try_push(Due {
            sort: Sort::Policy,
            depth: 1,
        });
        // It counts the nodes up to the limit, and indexes nothing.
        for written in 0..320 {
            let Some(node) = due.pop() else {
                break;
            };
            let tag = self.tag(plan, node, written);
            owe_parts(&mut due, node, tag);
            file.push(u8::from(tag));
            if tag == Tag::Atom {
                file.push_pair(self.pair(plan));
            }
        }
        file.state();
        file
    }

    /// A request file of pairs in order, one in so many of those of six names from the policy's
    /// first on.
    fn request(&mut self, plan: Plan, one_in: usize) -> File {
        let mut file = File::with_frame();
        // They are names and values themselves, and index nothing.
        for name in 0..6 {
            for value in 0..4 {
                if self.random.below(one_in) == 0 {
                    let name = plan.base.wrapping_add(name);
                    file.push_pair(Pair { name, value });
                }
            }
        }
        file.state();
        file
    }

    /// Damages one file in three.
    fn damage(&mut self, file: &mut File) {
        let place = self.random.below(file.bytes().len());
        let byte = self.random.byte();
        match self.random.below(24) {
            0 => file.alter(place, byte),
            1 => file.alter(place, 16 + byte % 24),
            2 => file.cut(place),
            3 => {
                file.cut(place);
                file.state();
            }
            4 => {
                file.push(byte);
                file.state();
            }
            5 => file.push(byte),
            6 => file.alter(0, byte),
            7 => file.cut(usize::from(byte % 3)),
            _ => {}
        }
    }

    fn rooms(&mut self) -> Rooms {
        Rooms {
            list: self.random.below(24),
            normal: self.random.below(72),
            search: self.random.below(10) + 128,
            fill: self.random.byte(),
        }
    }

    pub fn case(&mut self) -> Case {
        let plan = self.plan();
        let one_in = self.random.below(8) + 1;
        let mut policy = self.policy(plan);
        let mut request = self.request(plan, one_in);
        self.damage(&mut policy);
        self.damage(&mut request);
        Case {
            policy,
            request,
            text: File::new(),
            rooms: self.rooms(),
        }
    }
}

/// Adds a node's parts to what is due, the first on top.
fn owe_parts(due: &mut ArrayVec<Due, 321>, node: Due, tag: Tag) {
    let part = node.part(node.sort);
    let (first, second) = match tag {
        Tag::Atom | Tag::Deny | Tag::Allow => return,
        Tag::TargetNot | Tag::Optional | Tag::PolicyNot | Tag::DenyByDefault => (part, None),
        Tag::TargetAnd | Tag::TargetOr | Tag::PolicyAnd | Tag::PolicyOr => (part, Some(part)),
        Tag::Targeted => (node.part(Sort::Target), Some(part)),
    };
    if let Some(second) = second {
        let _ = due.try_push(second);
    }
    let _ = due.try_push(first);
}
