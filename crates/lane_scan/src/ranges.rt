//! Values in a range, and spans that meet a span.
ghost use Rattle.std.specs.Prelude.{◌≡◌, ◌≤◌, ◌^◌, ◌*◌, ◌+◌, ◌-◌, ◌<◌, ◌++◌, ℕ, false, length, map, nat_le, nat_lt, replicate, slice_index};
ghost use Rattle.std.specs.List.{list_any, zip};
ghost use Rattle.std.specs.Simd.Lanes.{Each1, chunk, mask_l};
ghost use Rattle.lane_scan.specs.Bits.{bits_of};
ghost use Rattle.lane_scan.specs.Ranges.{is_inside, meets};

use std::simd::prelude::*;

// How many values, or pairs, are compared at a time.
const LANES: usize = 16;

// The top bit of a word.
const TOP: u64 = 1 << 63;

/// Sets bit `i` of `out` exactly where `lo <= values[i] < hi`, and clears all its other bits. Bit `k` of word `j`
/// is bit `64 * j + k`, and `out` has a bit for each value.
pub fn mark_inside(values: &[u64], lo: u64, hi: u64, out: &mut [u64])
    requires { length values.now ≤ 64 * length out.old }
    ensures { bits_of out.new
        ≡ map (is_inside lo hi) values.now
        ++ replicate (64 * length out.old - length values.now) false }
{
    let mut rest = values;
    for word in out.iter_mut() {
        let (piece, after) = rest.split_at(rest.len().min(64));
        *word = marks_of(piece, lo, hi);
        rest = after;
    }
}

// The word whose bit k tells whether value k lies inside.
fn marks_of(values: &[u64], lo: u64, hi: u64) -> u64
    requires { length values.now ≤ 64 }
    ensures { result ≡ mask_l (map (is_inside lo hi) values.now) }
{
    let mut word = 0;
    let mut at = 0;
    while at < values.len() {
        if values.len() - at >= LANES {
            word |= lane_marks(values, at, lo, hi) << at;
            at += LANES;
        } else {
            word |= u64::from(is_inside(values[at], lo, hi)) << at;
            at += 1;
        }
    }
    word
}

fn is_inside(value: u64, lo: u64, hi: u64) -> bool
    ensures { result ≡ is_inside lo hi value }
{
    lo <= value && value < hi
}

// The marks of one block, by how far each value lies above the first one inside.
#[inline(always)]
fn lane_marks(values: &[u64], at: usize, lo: u64, hi: u64) -> u64
    requires { at + LANES ≤ length values.now }
    ensures { result ≡ mask_l (map (is_inside lo hi) (chunk at LANES values.now)) }
{
    let offsets = u64x16::from_slice(&values[at..]) - u64x16::splat(lo);
    offsets
        .simd_lt(u64x16::splat(hi.saturating_sub(lo)))
        .to_bitmask()
}

/// Whether some `firsts[i] < hi` has `lo < ends[i]`. Both lists have the same length.
pub fn meets_any(lo: u64, hi: u64, firsts: &[u64], ends: &[u64]) -> bool
    requires { length firsts.now ≡ length ends.now }
    ensures { result ≡ list_any (meets lo hi) (zip firsts.now ends.now) }
{
    let at = blocks_apart(lo, hi, firsts, ends);
    plain_meets(lo, hi, &firsts[at..], &ends[at..])
}

// The plain scan.
fn plain_meets(lo: u64, hi: u64, firsts: &[u64], ends: &[u64]) -> bool
    ensures { result ≡ list_any (meets lo hi) (zip firsts.now ends.now) }
{
    firsts
        .iter()
        .zip(ends)
        .any(|(first, end)| *first < hi && lo < *end)
}

// How many pairs stand in the blocks before the first block that meets. The lanes compare with bounds up to 2^63.
fn blocks_apart(lo: u64, hi: u64, firsts: &[u64], ends: &[u64]) -> usize
    requires { length firsts.now ≡ length ends.now }
    ensures within { result ≤ length firsts.now }
    ensures apart { (k : ℕ) → k < result
        → meets lo hi (slice_index firsts.now k, slice_index ends.now k) ≡ false }
{
    if lo >= TOP || hi > TOP {
        return 0;
    }
    let mut at = 0;
    while firsts.len() - at >= LANES {
        if block_meets(lo, hi, firsts, ends, at) {
            return at;
        }
        at += LANES;
    }
    at
}

// False only where no pair of one block meets.
#[inline(always)]
fn block_meets(lo: u64, hi: u64, firsts: &[u64], ends: &[u64], at: usize) -> bool
    requires firsts { at + LANES ≤ length firsts.now }
    requires ends { at + LANES ≤ length ends.now }
    requires low { lo < 2 ^ 63 }
    requires high { hi ≤ 2 ^ 63 }
    ensures { result ≡ false → (k : ℕ) → at ≤ k → k < at + LANES
        → meets lo hi (slice_index firsts.now k, slice_index ends.now k) ≡ false }
{
    let begins = below(u64x16::from_slice(&firsts[at..]), hi);
    let ended = below(u64x16::from_slice(&ends[at..]), lo + 1);
    (begins & !ended).reduce_or() >= TOP
}

// Each lane's top bit is set exactly where that lane is below the bound. This takes less time than to compare
// unsigned lanes.
#[inline(always)]
fn below(lanes: u64x16, bound: u64) -> u64x16
    requires { bound ≤ 2 ^ 63 }
    ensures tops { map (nat_le (2 ^ 63)) result ≡ map (λ lane. nat_lt lane bound) lanes }
    ensures words { Each1 (λ lane. lane < 2 ^ 64) result }
{
    (lanes - u64x16::splat(bound)) & !lanes
}

#[cfg(test)]
mod tests {
    use super::*;
    use std::test::Fail;

    // Lengths on both sides of a block of lanes and of a word.
    const LENGTHS: [usize; 9] = [0, 1, 7, 8, 9, 63, 64, 65, 200];

    // Value i of a list that rises and falls, with some values above 2^63.
    fn value(i: usize) -> u64 {
        (i as u64 % 1_000).wrapping_mul(0x9e37_79b9_7f4a_7c15)
    }

    #[test]
    fn lanes_and_plain_loops_agree(rt: HostRuntime) -> Result<(), Fail> {
        let bounds: [(u64, u64); 5] = [
            (0, 0),
            (1 << 62, 1 << 63),
            (5, u64::MAX),
            (1 << 63, u64::MAX),
            (u64::MAX, 0),
        ];
        for len in LENGTHS {
            let mut values = Vec::new(rt.alloc());
            let mut ends = Vec::new(rt.alloc());
            for i in 0..len {
                values.push(value(i))?;
                ends.push(value(i + 500))?;
            }
            for (lo, hi) in bounds {
                let mut marks = [u64::MAX; 4];
                assert!(rt; values.len() <= 256);
                mark_inside(&values, lo, hi, &mut marks);
                for i in 0..256 {
                    let inside = i < values.len() && lo <= values[i] && values[i] < hi;
                    assert_eq!(rt; marks[i / 64] >> (i % 64) & 1 == 1, inside);
                }
                assert_eq!(rt; values.len(), ends.len());
                let mut meets = false;
                for i in 0..values.len() {
                    meets |= values[i] < hi && lo < ends[i];
                }
                assert_eq!(rt; meets_any(lo, hi, &values, &ends), meets);
            }
        }
        Ok(())
    }
}
