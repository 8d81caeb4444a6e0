//! The pairs of a policy, and the normal form of a request.
#![tactic(auto)]

ghost use Rattle.std.specs.Prelude.{◌≡◌, ◌==◌, ◌+◌, ◌<◌, ◌≤◌, true, not, ◌&&◌, List, [], ◌∷◌, ◌++◌, map, length, insert, is_ok, IfErr, IsTrue};
ghost use Rattle.std.specs.Ordering.{nat_cmp, ordering_then};
ghost use Rattle.arrayvec.specs.ArrayVec.{array_vec_len};
ghost use Rattle.ptacl.specs.Request.{holds, below, ascending};
ghost use Rattle.ptacl.specs.Term.{atoms};
ghost use Rattle.ptacl.specs.Pairs.{unnamed, IsPairs, IsNormal};
ghost use Rattle.files.specs.Tags.{pair_of};
ghost use Rattle.pairs.specs.Lists.{PutIn, Named, FreshOf, kept};

use arrayvec::ArrayVec;
use files::{Pair, Policy, Request};
use ptacl::TargetValue;
use std::cmp::Ordering;

/// How a pair stands to another, by the number of each: the derived order costs more.
#[tactic(auto, using(crate::proofs::Placed::by_number))]
fn compare(pair: Pair, other: Pair) -> Ordering
    ensures { result
        ≡ ordering_then (nat_cmp pair.name other.name) (nat_cmp pair.value other.value) }
{
    u32::from(pair).cmp(&u32::from(other))
}

/// The place of a pair among ascending ones, or the place that it would take.
#[inline(always)]
fn place_of(pairs: &[Pair], pair: Pair) -> Result<usize, usize>
    requires { ascending (map pair_of pairs.now) ≡ true }
    ensures there { is_ok result ≡ holds (map pair_of pairs.now) (pair_of pair) }
    ensures bound { IfErr result (λ i. i ≤ length pairs.now) }
    ensures place { IfErr result (λ i. PutIn (pair_of pair) (map pair_of pairs.now)
        (map pair_of (insert pairs.now i pair))) }
{
    pairs.binary_search_by(|held| compare(*held, pair))
}

/// Moves the last pair to a place, and those from there on up.
// By swaps, of which most calls need none: the library's `insert` would need memmove from outside.
fn last_to(pairs: &mut [Pair], place: usize)
    requires { place < length pairs.old }
    ensures { (front : List Pair) (last : Pair) → pairs.old ≡ front ++ last ∷ [] → pairs.new ≡ insert front place last }
{
    let mut at = pairs.len() - 1;
    while at > place {
        pairs.swap(at - 1, at);
        at -= 1;
    }
}

/// Puts a pair into its place, once.
#[inline(always)]
fn insert(pairs: &mut ArrayVec<Pair, 254>, pair: Pair)
    requires room { array_vec_len pairs.old < 254 }
    requires ordered { ascending (map pair_of pairs.old.items) ≡ true }
    ensures put { PutIn (pair_of pair) (map pair_of pairs.old.items) (map pair_of pairs.new.items) }
    ensures most { array_vec_len pairs.new ≤ array_vec_len pairs.old + 1 }
{
    match place_of(pairs.as_slice(), pair) {
        Ok(_) => {}
        Err(place) => {
            pairs.push(pair);
            last_to(pairs.as_mut_slice(), place);
        }
    }
}

/// Whether a pair is below another.
#[tactic(auto, using(files::proofs::Numbers::below_packed))]
fn is_below(pair: Pair, other: Pair) -> bool
    ensures { result ≡ below (pair_of pair) (pair_of other) }
{
    u32::from(pair) < u32::from(other)
}

/// Whether a pair belongs behind all others, so that its place need not be sought.
fn is_last(pairs: &[Pair], pair: Pair) -> bool
    requires { ascending (map pair_of pairs.now) ≡ true }
    ensures { IsTrue result → PutIn (pair_of pair) (map pair_of pairs.now)
        (map pair_of (pairs.now ++ pair ∷ [])) }
{
    match pairs.last() {
        Some(last) => is_below(*last, pair),
        None => true,
    }
}

/// The same as `insert`, for a pair that mostly is the last.
#[inline(always)]
fn append(pairs: &mut ArrayVec<Pair, 254>, pair: Pair)
    requires room { array_vec_len pairs.old < 254 }
    requires ordered { ascending (map pair_of pairs.old.items) ≡ true }
    ensures put { PutIn (pair_of pair) (map pair_of pairs.old.items) (map pair_of pairs.new.items) }
    ensures most { array_vec_len pairs.new ≤ array_vec_len pairs.old + 1 }
{
    if is_last(pairs.as_slice(), pair) {
        pairs.push(pair);
    } else {
        insert(pairs, pair);
    }
}

// A list is lent here and below, for one that is returned is copied: a kilobyte each time.
/// The named pairs of a policy, ascending.
#[inline(always)]
fn named_of(policy: &Policy<'_>, pairs: &mut ArrayVec<Pair, 254>)
    ensures few { array_vec_len pairs.new ≤ 127 }
    ensures named { Named (atoms policy.now) (map pair_of pairs.new.items) }
{
    pairs.clear();
    for pair in policy.atoms() {
        insert(pairs, pair);
    }
}

/// Whether the request holds the pair.
fn is_held(request: &Request<'_>, pair: Pair) -> bool
    ensures { result ≡ holds request.now (pair_of pair) }
{
    matches!(request.value_of(pair), TargetValue::One)
}

/// The named pairs of a policy, ascending, on which the fresh ones and the normal form depend.
#[derive(Clone, Copy)]
struct NamedPairs<'a> {
    pairs: &'a [Pair],
    ghost few: { length pairs.now ≤ 127 },
    ghost ordered: { ascending (map pair_of pairs.now) ≡ true },
}

impl<'a> NamedPairs<'a> {
    /// Whether the pair is one of them.
    fn has(&self, pair: Pair) -> bool
        ensures { result ≡ holds (map pair_of self.now.pairs.now) (pair_of pair) }
    {
        place_of(self.pairs, pair).is_ok()
    }

    /// The fresh pair of a name: since they ascend, one pass finds the first value that is free.
    #[tactic(auto, using(crate::proofs::Fresh::fresh_laws))]
    fn fresh_of(&self, name: u16) -> Pair
        ensures { FreshOf (map pair_of self.now.pairs.now) name (pair_of result) }
    {
        let mut fresh = Pair { name, value: 0 };
        for pair in self.pairs {
            if *pair == fresh {
                fresh.value += 1;
            }
        }
        fresh
    }

    /// They, and the fresh pair of each of their names, ascending.
    #[inline(always)]
    fn with_fresh(&self, pairs: &mut ArrayVec<Pair, 254>)
        ensures pairs { IsPairs (map pair_of self.now.pairs.now) (map pair_of pairs.new.items) }
        ensures most { array_vec_len pairs.new ≤ 254 }
    {
        pairs.clear();
        // The pairs of a name stand together, so its fresh pair is sought once.
        let mut last = None;
        for pair in self.pairs {
            if last != Some(pair.name) {
                let fresh = self.fresh_of(pair.name);
                append(pairs, fresh);
                last = Some(pair.name);
            }
            append(pairs, *pair);
        }
    }

    /// Whether the pair has the name and is not one of them.
    fn is_unnamed(&self, name: u16, pair: Pair) -> bool
        ensures { result ≡
            (pair.name == name && not (holds (map pair_of self.now.pairs.now) (pair_of pair))) }
    {
        pair.name == name && !self.has(pair)
    }

    /// Whether the request holds a value of the name that is not named.
    fn holds_unnamed(&self, request: &Request<'_>, name: u16) -> bool
        ensures { result ≡ unnamed (map pair_of self.now.pairs.now) request.now name }
    {
        request.pairs().any(|held| self.is_unnamed(name, held))
    }

    /// Whether one of the policy's pairs is in the normal form.
    fn is_kept(&self, request: &Request<'_>, pair: Pair) -> bool
        ensures { result ≡ kept (map pair_of self.now.pairs.now) request.now (pair_of pair) }
    {
        if self.has(pair) {
            return is_held(request, pair);
        }
        self.holds_unnamed(request, pair.name)
    }
}

/// The pairs of a policy, ascending: at most two for each of its 127 atoms.
pub fn pairs_of(policy: &Policy<'_>, pairs: &mut ArrayVec<Pair, 254>)
    ensures pairs { IsPairs (atoms policy.now) (map pair_of pairs.new.items) }
    ensures most { array_vec_len pairs.new ≤ 254 }
{
    let mut named = ArrayVec::new();
    named_of(policy, &mut named);
    let named = NamedPairs {
        pairs: named.as_slice(),
    };
    named.with_fresh(pairs);
}

/// The normal form of a request for a policy, ascending.
pub fn normal_form_of(policy: &Policy<'_>, request: &Request<'_>, kept: &mut ArrayVec<Pair, 254>)
    ensures normal { IsNormal (atoms policy.now) request.now (map pair_of kept.new.items) }
    ensures most { array_vec_len kept.new ≤ 254 }
{
    let mut pairs = ArrayVec::new();
    named_of(policy, &mut pairs);
    let named = NamedPairs {
        pairs: pairs.as_slice(),
    };
    named.with_fresh(kept);
    kept.retain(|pair| named.is_kept(request, *pair));
}
