//! The table itself, in words that are lent.

ghost use Rattle.std.specs.Prelude.{◌≡◌, map, ◌+◌, ◌*◌, ◌<◌, ◌≤◌, length, get_or};
ghost use Rattle.ptacl.specs.Exposure.{strict};
ghost use Rattle.files.specs.Tags.{pair_of};
ghost use Rattle.table.specs.Allowed.{bit_at, Filled};

use crate::judge::judge;
use crate::row::PairRow;
use crate::words::holding_row;
use arrayvec::ArrayVec;
use files::{Pair, Policy};
use std::simd::prelude::*;

/// A bit for each subset of a policy's pairs: whether it is allowed. 512 subsets are a row.
// Not Copy: it lends memory to write.
#[derive(Drop)]
pub struct Table<'a> {
    pub words: &'a mut [u64],
}

impl<'a> Table<'a> {
    /// Judges the subsets of row w.
    pub fn fill_row(&mut self, policy: &Policy<'_>, pairs: &[Pair], w: usize)
        requires few { length pairs.now ≤ 16 }
        requires row { (w < 128) × (w * 8 + 8 ≤ length self.old.words.now) }
        requires filled { Filled strict policy.now (map pair_of pairs.now) self.old.words.now w }
        ensures filled { Filled strict policy.now (map pair_of pairs.now) self.new.words.now
            (w + 1) }
        ensures len { length self.new.words.now ≡ length self.old.words.now }
    {
        let mut rows = ArrayVec::<PairRow, 16>::new();
        for (i, pair) in pairs.iter().enumerate() {
            rows.push(PairRow {
                pair: *pair,
                held: holding_row(w, i),
            });
        }
        let words = &mut *self.words;
        judge(policy, &rows).copy_to_slice(&mut words[w * 8..]);
    }

    /// Whether the subset numbered m is allowed.
    #[tactic(auto, unfolding(crate::specs::Allowed::bit_at))]
    pub fn allows(&self, m: usize) -> bool
        requires { m < 64 * length self.now.words.now }
        ensures { result ≡ bit_at self.now.words.now m }
    {
        (self.word(m / 64) >> (m % 64)) % 2 == 1
    }

    /// Whether they are allowed, of the 64 subsets from 64 * w on.
    pub fn word(&self, w: usize) -> u64
        requires { w < length self.now.words.now }
        ensures { result ≡ get_or self.now.words.now w 0 }
    {
        let words = &*self.words;
        words[w]
    }
}
