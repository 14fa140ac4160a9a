//! The set bits of a list of words.
ghost use Rattle.std.specs.Prelude.{◌≡◌, ◌≤◌, ◌^◌, ◌+◌, ◌<◌, ℕ, length, slice_index, count_by, position};
ghost use Rattle.std.specs.Simd.Lanes.{chunk};
ghost use Rattle.lane_scan.specs.Bits.{bits_of};

use std::simd::prelude::*;

// How many words are read at a time.
const LANES: usize = 8;

/// The place of the lowest set bit, where bit `k` of word `j` has the place `64 * j + k`. `None` where no bit is
/// set. There are at most 2^20 words.
pub fn lowest_set(words: &[u64]) -> Option<u32>
    requires { length words.now ≤ 2 ^ 20 }
    ensures { result ≡ position (λ bit. bit) (bits_of words.now) }
{
    for i in zero_blocks(words)..words.len() {
        if words[i] != 0 {
            return Some(64 * i as u32 + words[i].trailing_zeros());
        }
    }
    None
}

// How many words the blocks before the first one with a set bit have.
fn zero_blocks(words: &[u64]) -> usize
    ensures within { result ≤ length words.now }
    ensures zero { (k : ℕ) → k < result → slice_index words.now k ≡ 0 }
{
    let zero = u64x8::splat(0);
    let mut at = 0;
    while words.len() - at >= LANES {
        if u64x8::from_slice(&words[at..]).simd_ne(zero).to_bitmask() != 0 {
            return at;
        }
        at += LANES;
    }
    at
}

/// How many bits are set. There are at most 2^20 words.
pub fn count_set(words: &[u64]) -> u32
    requires { length words.now ≤ 2 ^ 20 }
    ensures { result ≡ count_by (λ bit. bit) (bits_of words.now) }
{
    let mut count = 0;
    let mut at = 0;
    while at < words.len() {
        if words.len() - at >= LANES {
            count += block_ones(words, at);
            at += LANES;
        } else {
            count += words[at].count_ones();
            at += 1;
        }
    }
    count
}

// How many bits are set in the words of one block.
#[inline(always)]
fn block_ones(words: &[u64], at: usize) -> u32
    requires { at + LANES ≤ length words.now }
    ensures { result ≡ count_by (λ bit. bit) (bits_of (chunk at LANES words.now)) }
{
    let ones = u64x8::from_slice(&words[at..]).count_ones();
    ones.strict_reduce_sum() as u32
}
