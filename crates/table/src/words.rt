//! Which subsets hold a pair, 64 and 512 subsets at a time.

ghost use Rattle.std.specs.Prelude.{◌<◌, ◌+◌, ◌*◌};
ghost use Rattle.ptacl.specs.Exposure.{bit};
ghost use Rattle.table.specs.Rows.{RowIs, PairWord};

use std::simd::prelude::*;

/// The first six pairs, by their bits in the numbers from 0 to 63.
const LOW: [u64; 6] = [
    0xAAAA_AAAA_AAAA_AAAA,
    0xCCCC_CCCC_CCCC_CCCC,
    0xF0F0_F0F0_F0F0_F0F0,
    0xFF00_FF00_FF00_FF00,
    0xFFFF_0000_FFFF_0000,
    0xFFFF_FFFF_0000_0000,
];

/// Which of the 64 subsets from 64 * w on hold pair i.
#[tactic(auto, using(crate::proofs::Bits::pair_laws))]
pub fn holding(w: usize, i: usize) -> u64
    requires { i < 16 }
    ensures { PairWord w i result }
{
    if i < 6 {
        return LOW[i];
    }
    if (w >> (i - 6)) % 2 == 1 { u64::MAX } else { 0 }
}

// A loop: `std::array::from_fn` was tried and proves, but is no plainer, since its closure needs a
// `requires` and an `ensures` of its own, and a lemma that each call keeps w and i.
/// Which of the 512 subsets from 512 * w on hold pair i.
pub(crate) fn holding_row(w: usize, i: usize) -> u64x8
    requires { (w < 128) × (i < 16) }
    ensures { RowIs result (λ j. bit (512 * w + j) i) }
{
    let mut words = [0; 8];
    for k in 0..8 {
        words[k] = holding(8 * w + k, i);
    }
    u64x8::from_array(words)
}
