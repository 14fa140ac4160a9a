//! The words of a slab, and their lowest bit.
ghost use Rattle.std.specs.Prelude.{◌≡◌, ◌&&◌, ℕ, ◌≤◌, false, length, nat_le, nat_lt, position, slice_index_or};
ghost use Rattle.lane_scan.specs.Bits.{bits_of};
ghost use Rattle.slab_bits.specs.Words.{OnesBelow};

/// How many words a slab has, for at most 512 regions.
pub const WORDS: usize = 8;

// A word whose lowest bits, so many, are 1.
fn ones_below(count: u32) -> u64
    ensures { OnesBelow count result }
{
    if count >= 64 {
        u64::MAX
    } else {
        (1 << count) - 1
    }
}

/// Words whose bits from `from` up to but not including `to` are 1.
pub fn fill_between(from: u32, to: u32) -> [u64; WORDS]
    requires { to ≤ 512 }
    ensures long { length result ≡ 8 }
    ensures bits { (i : ℕ) → slice_index_or (bits_of result) i false ≡ (nat_le from i && nat_lt i to) }
{
    let mut words = [0; WORDS];
    for i in 0..WORDS {
        let start = 64 * i as u32;
        words[i] = ones_below(to.saturating_sub(start)) & !ones_below(from.saturating_sub(start));
    }
    words
}

/// The lowest bit that is 1. `None` where none is.
pub fn lowest_bit(words: &[u64; WORDS]) -> Option<u32>
    ensures { result ≡ position (λ bit. bit) (bits_of words.now) }
{
    for i in 0..WORDS {
        if words[i] != 0 {
            return Some(64 * i as u32 + words[i].trailing_zeros());
        }
    }
    None
}
