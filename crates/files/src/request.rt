//! Request files that were read.

ghost use Rattle.std.specs.Prelude.{◌≡◌, ◌<◌, ◌/◌, ◌↔◌, [], map, length, Some, slice_get, IsTrue};
ghost use Rattle.ptacl.specs.Meaning.{atom_at};
ghost use Rattle.ptacl.specs.Cases.{value_of};
ghost use Rattle.ptacl.specs.Request.{below};
ghost use Rattle.ptacl.specs.Pairs.{packed};
ghost use Rattle.files.specs.ReadRequest.{pairs_at, read_request};
ghost use Rattle.files.specs.Faults.{RequestGives};
ghost use Rattle.files.specs.Ordered.{PlaceOf};
ghost use Rattle.files.specs.Tags.{pair_of, pair_in};
ghost use Rattle.files.specs.Views.{Ascends, OrderTells, IsFirstFault, IsPairAt, IsNameAt};

use crate::fault::{RequestError, RequestFault};
use crate::frame;
use crate::pair::Pair;
use crate::pairs::Pairs;
use ptacl::TargetValue;
use std::marker::Model;

/// A request: its pairs, ascending, in the bytes of its file.
// Not Copy: the kit has none for a struct with a lifetime and a model.
#[derive(Drop)]
pub struct Request<'a> {
    pairs: &'a [[u8; 4]],
}

impl<'a> Model for Request<'a> {
    ghost use Rattle.std.specs.Prelude.{map};
    ghost use Rattle.ptacl.specs.Request.{Request as RequestPairs};
    ghost use Rattle.files.specs.Tags.{pair_in};
    ghost use Rattle.files.specs.Views.{Ascends};

    ghost Value = { RequestPairs };

    ghost view = { λ r. map pair_in r.pairs.now };

    ghost invariant = { λ r. Ascends (map pair_in r.pairs.now) };
}

/// Whether a pair is above another, which its bytes tell as one number.
#[tactic(auto, using(crate::proofs::Lookup::above_number))]
fn is_above(pair: [u8; 4], other: [u8; 4]) -> bool
    ensures { result ≡ below (pair_in other) (pair_in pair) }
{
    u32::from_be_bytes(pair) > u32::from_be_bytes(other)
}

/// The place of the first pair that is not above the one before.
fn first_fault(pairs: &[[u8; 4]]) -> Option<usize>
    ensures { IsFirstFault pairs.now result }
{
    // Not `array_windows` with `position`: the proof of its clause did not close (the check: "`search`
    // did not prove `returns`").
    for i in 1..pairs.len() {
        if !is_above(pairs[i], pairs[i - 1]) {
            return Some(i);
        }
    }
    None
}

impl<'a> Request<'a> {
    /// The request whose pairs stand in these bytes, four for each, of any number; or the number of
    /// the first that is not above the one before.
    pub fn in_bytes(bytes: &'a [u8]) -> Result<Request<'a>, usize>
        ensures { OrderTells (pairs_at (length bytes.now / 4) bytes.now 0) result }
    {
        let (pairs, _) = bytes.as_chunks::<4>();
        match first_fault(pairs) {
            Some(i) => Err(i),
            None => Ok(Request { pairs }),
        }
    }

    /// Reads a request file.
    #[tactic(auto, using(crate::proofs::RequestFile::request_laws, crate::proofs::RequestBody::pairs_length))]
    pub fn read(file: &'a [u8]) -> Result<Request<'a>, RequestError>
        ensures { RequestGives (λ r. r) result (read_request file.now) }
    {
        let body = frame::body_of(file)?;
        if body.len() % 4 != 0 {
            return Err(RequestError {
                fault: RequestFault::Uneven,
                place: 3,
            });
        }
        if body.len() / 4 > 256 {
            return Err(RequestError {
                fault: RequestFault::TooManyPairs,
                place: 1027,
            });
        }
        // Not `map_err`: in its closure nothing would bound the place.
        match Request::in_bytes(body) {
            Ok(request) => Ok(request),
            Err(i) => Err(RequestError {
                fault: RequestFault::NotAscending,
                place: 3 + 4 * i,
            }),
        }
    }

    /// The pairs, one by one.
    pub fn pairs(&self) -> Pairs<'a>
        ensures { map pair_in result.rest.now ≡ self.now }
    {
        Pairs { rest: self.pairs }
    }

    /// The number of the first pair that is not below this one.
    fn place_of(&self, pair: Pair) -> usize
        ensures place { PlaceOf (map packed self.now) (packed (pair_of pair)) result }

        // So a caller knows that the pairs are in order.
        ensures ascends { Ascends self.now }
    {
        let number = u32::from(pair);
        self.pairs
            .partition_point(|bytes| u32::from_be_bytes(*bytes) < number)
    }

    /// Whether the pair with this number is there and is this one.
    fn is_at(&self, i: usize, pair: Pair) -> bool
        ensures { IsTrue result ↔ IsPairAt self.now i (pair_of pair) }
    {
        match self.pairs.get(i) {
            Some(bytes) => Pair::from(*bytes) == pair,
            None => false,
        }
    }

    // Like `is_at`, but asked of the name alone: one function with the test passed in is no plainer,
    // for each caller's fact would then speak of a closure.
    /// Whether the pair with this number is there and has this name.
    fn is_named_at(&self, i: usize, name: u16) -> bool
        ensures { IsTrue result ↔ IsNameAt self.now i name }
    {
        match self.pairs.get(i) {
            Some(bytes) => Pair::from(*bytes).name == name,
            None => false,
        }
    }

    /// What the target that is this pair alone comes to.
    #[tactic(auto, using(crate::proofs::Lookup::value_laws))]
    pub fn value_of(&self, pair: Pair) -> TargetValue
        ensures { value_of result ≡ atom_at self.now pair.name pair.value }
    {
        let place = self.place_of(pair);
        if self.is_at(place, pair) {
            return TargetValue::One;
        }
        if self.is_named_at(place, pair.name) {
            return TargetValue::Zero;
        }
        if place > 0 && self.is_named_at(place - 1, pair.name) {
            return TargetValue::Zero;
        }
        TargetValue::Undefined
    }
}
