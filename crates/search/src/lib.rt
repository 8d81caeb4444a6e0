//! The first exposure of a policy of at most 16 pairs.
#![tactic(auto)]

ghost use Rattle.std.specs.Prelude.{◌≡◌, map, ◌+◌, ◌*◌, ◌^◌, ◌<◌, ◌≤◌, length, IfNone, IfSome};
ghost use Rattle.ptacl.specs.Exposure.{subset, one_pair};
ghost use Rattle.files.specs.Tags.{pair_of};
ghost use Rattle.files.specs.Memory.{over};
ghost use Rattle.search.specs.Hits.{Room, FindsIn, LessWord, HitWord, QuietIf};
ghost use Rattle.search.specs.Found.{two_files, Found};

use arrayvec::ArrayVec;
use files::{Pair, Policy};
use table::Table;

/// The subset numbered m is not allowed, and less pair i it is.
#[derive(Clone, Copy, Debug, PartialEq, Eq)]
pub struct Exposure {
    pub m: usize,
    pub i: usize,
}

/// An exposure, and how many bytes its two request files have.
#[derive(Clone, Copy, Debug, PartialEq, Eq)]
pub struct Exposed {
    pub m: usize,
    pub i: usize,
    pub bytes: usize,
}

fn pow2(k: usize) -> usize
    requires { k ≤ 16 }
    ensures { result ≡ 2 ^ k }
{
    1 << k
}

/// The 64 subsets from 64 * w on, in a table that has their word.
#[derive(Clone, Copy)]
struct Word<'t, 'a> {
    table: &'t Table<'a>,
    w: usize,
    ghost there: { w < length table.now.words.now },
}

impl<'t, 'a> Word<'t, 'a> {
    fn new(table: &'t Table<'a>, w: usize) -> Word<'t, 'a>
        requires { w < length table.now.words.now }
        ensures { (result.table.now.words.now ≡ table.now.words.now) × (result.w ≡ w) }
    {
        Word { table, w }
    }

    /// For each that holds pair i: whether the subset without it is allowed.
    #[tactic(auto, using(crate::proofs::Hits::less_laws))]
    fn less(&self, i: usize) -> u64
        requires { i < 16 }
        ensures { LessWord self.now.table.now.words.now one_pair self.now.w i result }
    {
        let p = pow2(i);
        if i < 6 {
            return self.table.word(self.w) << p;
        }
        let d = p / 64;
        if d <= self.w {
            self.table.word(self.w - d)
        } else {
            0
        }
    }

    /// Which subsets m are an exposure (m, i).
    fn hits(&self, i: usize) -> u64
        requires { i < 16 }
        ensures { HitWord self.now.table.now.words.now one_pair self.now.w i result }
    {
        table::holding(self.w, i) & self.less(i) & !self.table.word(self.w)
    }

    /// Whether none is an exposure at one of k pairs: then the search need not look at each.
    #[tactic(auto, using(crate::proofs::Hits::quiet_laws))]
    fn is_quiet(&self, k: usize) -> bool
        requires { k ≤ 16 }
        ensures { QuietIf self.now.table.now.words.now one_pair k self.now.w result }
    {
        for i in 0..k {
            if self.hits(i) != 0 {
                return false;
            }
        }
        true
    }
}

/// The subsets of at most 16 pairs, each with a number, as requests to a policy.
#[derive(Clone, Copy)]
pub struct Subsets<'a> {
    pub policy: &'a Policy<'a>,
    pub pairs: &'a [Pair],
    pub ghost few: { length pairs.now ≤ 16 },
}

impl<'a> Subsets<'a> {
    /// None if the pairs are too many.
    pub fn new(policy: &'a Policy<'a>, pairs: &'a [Pair]) -> Option<Subsets<'a>>
        ensures few { IfNone result (16 < length pairs.now) }
        ensures these { IfSome result
            (λ s. (s.policy.now ≡ policy.now) × (s.pairs.now ≡ pairs.now)) }
    {
        if 16 < pairs.len() {
            return None;
        }
        Some(Subsets { policy, pairs })
    }

    /// The smallest m of an exposure, and for it the smallest i. The next 512 subsets are judged
    /// when the first of them is met, in a table that has room for all.
    fn find_in(&self, words: &mut [u64]) -> Option<Exposure>
        requires { Room (length self.now.pairs.now) words.old }
        ensures { FindsIn self.now.policy.now (map pair_of self.now.pairs.now) result }
    {
        let (policy, pairs) = (self.policy, self.pairs);
        let mut table = Table { words };
        let end = pow2(pairs.len());
        let mut m = 0;
        // Two loops, as the form asks for: subsets outside, pairs inside. Not a `for m`, for 64 quiet
        // subsets are passed at once (without that a search takes more than 0.35 of plain C).
        'subsets: loop {
            if m >= end {
                break 'subsets None;
            }
            if m % 512 == 0 {
                table.fill_row(policy, pairs, m / 512);
            }
            if m % 64 == 0 && Word::new(&table, m / 64).is_quiet(pairs.len()) {
                m += 64;
                continue 'subsets;
            }
            if !table.allows(m) {
                for i in 0..pairs.len() {
                    if (m >> i) % 2 == 1 && table.allows(m - pow2(i)) {
                        break 'subsets Some(Exposure { m, i });
                    }
                }
            }
            m += 1;
        }
    }

    /// The first exposure.
    pub fn find(&self) -> Option<Exposure>
        ensures { FindsIn self.now.policy.now (map pair_of self.now.pairs.now) result }
    {
        // Up to 12 pairs a table of 64 words suffices: to clear a larger one would cost more than
        // the search of a small policy (11 nodes: 10,976 instructions for 2,852).
        if self.pairs.len() <= 12 {
            let mut small = [0; 64];
            return self.find_in(&mut small);
        }
        let mut large = [0; 1024];
        self.find_in(&mut large)
    }

    /// The pairs of the subset numbered m.
    fn choose(&self, m: usize) -> ArrayVec<Pair, 16>
        ensures { result.items ≡ subset self.now.pairs.now m }
    {
        let mut chosen = ArrayVec::new();
        // No `filter` with `collect`, which gives an error that cannot occur here.
        for (i, pair) in self.pairs.iter().enumerate() {
            if (m >> i) % 2 == 1 {
                chosen.push(*pair);
            }
        }
        chosen
    }

    /// Writes the files of two subsets, the larger straight behind the smaller: how many bytes
    /// they have.
    fn write(&self, smaller: usize, larger: usize, space: &mut [u8]) -> usize
        requires { length (two_files (map pair_of self.now.pairs.now) smaller larger)
            ≤ length space.old }
        ensures bytes { result
            ≡ length (two_files (map pair_of self.now.pairs.now) smaller larger) }
        ensures written { space.new
            ≡ over (two_files (map pair_of self.now.pairs.now) smaller larger) space.old }
    {
        let first = self.choose(smaller);
        let second = self.choose(larger);
        files::write_two(first.as_slice(), second.as_slice(), space)
    }

    /// The first exposure; its files go into the space, which has at least 130 bytes.
    pub fn search(&self, space: &mut [u8]) -> Option<Exposed>
        requires { 130 ≤ length space.old }
        ensures { Found self.now.policy.now (map pair_of self.now.pairs.now)
            space.old result space.new }
    {
        let Exposure { m, i } = self.find()?;
        let bytes = self.write(m - pow2(i), m, space);
        Some(Exposed { m, i, bytes })
    }
}
