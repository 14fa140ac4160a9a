//! Single bits of a list of words, where bit `k` of word `j` has the place `64 * j + k`.
ghost use Rattle.std.specs.Prelude.{◌≡◌, ◌<◌, ◌*◌, false, true, length, slice_index_or, slice_set};
ghost use Rattle.lane_scan.specs.Bits.{bits_of};

/// Whether the bit at a place is 1.
#[inline(always)]
pub fn has_bit(words: &[u64], place: usize) -> bool
    requires { place < 64 * length words.now }
    ensures { result ≡ slice_index_or (bits_of words.now) place false }
{
    words[place / 64] >> (place % 64) & 1 == 1
}

/// Makes the bit at a place 0.
#[inline(always)]
pub fn clear_bit(words: &mut [u64], place: usize)
    requires { place < 64 * length words.old }
    ensures { bits_of words.new ≡ slice_set (bits_of words.old) place false }
{
    words[place / 64] &= !(1 << (place % 64));
}

/// Makes the bit at a place 1.
#[inline(always)]
pub fn set_bit(words: &mut [u64], place: usize)
    requires { place < 64 * length words.old }
    ensures { bits_of words.new ≡ slice_set (bits_of words.old) place true }
{
    words[place / 64] |= 1 << (place % 64);
}

#[cfg(test)]
mod tests {
    use super::*;

    #[test]
    fn one_bit_changes(rt: HostRuntime) {
        let mut words = [0, 1 << 5, u64::MAX];
        set_bit(&mut words, 64);
        clear_bit(&mut words, 191);
        assert_eq!(rt; words, [0, 1 << 5 | 1, u64::MAX >> 1]);
        assert!(rt; has_bit(&words, 69) && !has_bit(&words, 70));
    }
}
