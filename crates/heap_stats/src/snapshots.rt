//! The counts as they were at the last refresh.

ghost use Rattle.std.specs.Prelude.{◌≡◌, ◌≤◌, ◌^◌, length, map, replicate, slice_get, slice_index};
ghost use Rattle.std.specs.List.{All, sum_by};
ghost use Rattle.std.specs.Option.{option_map_or};
ghost use Rattle.heap_stats.specs.Stats.{AreSmall, AreSmallWhereLive, count_in, counts_or_none, no_counts, stat_of};

use space_model::Counts;
use std::marker::Model;

/// How many arenas a heap has.
const ARENAS: usize = 32;

/// Whose counts are asked for.
#[derive(Clone, Copy, Debug, PartialEq, Eq)]
pub enum Whose {
    /// Those of the arena with the index, which are 0 where the index isn't below 32.
    Arena(u32),
    /// The sums over all arenas (`MALLCTL_ARENAS_ALL` in the manual).
    All,
    /// Those of arenas that were destroyed (`MALLCTL_ARENAS_DESTROYED`): 0, since no counts of the past are kept.
    Destroyed,
}

/// One number of an arena's counts.
#[derive(Clone, Copy, Debug, PartialEq, Eq)]
pub enum Count {
    /// The sizes of all regions, in bytes.
    Allocated,
    /// The bytes of the extents that serve regions.
    Active,
    /// The bytes of the retained extents.
    Retained,
    /// The pages of the extents that serve regions.
    ActivePages,
    /// The pages of the dirty extents.
    DirtyPages,
    /// The pages of the muzzy extents.
    MuzzyPages,
    /// The sizes of the small regions, in bytes.
    Small,
    /// The sizes of the large regions, in bytes.
    Large,
    /// How many regions there are of a small class, which is below 36. There are none of another.
    Regions(u8),
    /// How many slabs there are of a small class, which is below 36. There are none of another.
    Slabs(u8),
    /// How many regions there are of a large class, counted from 0 at class 36, below 85. There are none of another.
    LargeRegions(u8),
}

/// The counts of 32 arenas as they were when they were last taken, all 0 of one that wasn't live then.
#[derive(Drop)]
pub struct Snapshot {
    counts: [Counts; ARENAS],
}

impl Model for Snapshot {
    ghost use Rattle.std.specs.Prelude.{List};
    ghost use Rattle.space_model.specs.declared.Counts.{Counts};
    ghost use Rattle.heap_stats.specs.Stats.{IsSnapshot};

    ghost Value = { List Counts };

    ghost view = { λ s. s.counts };

    ghost invariant = { λ s. IsSnapshot s.counts };
}

/// The counts of an arena that isn't live.
fn no_counts() -> Counts
    ensures { result ≡ no_counts }
{
    Counts {
        allocated: 0,
        active: 0,
        dirty: 0,
        muzzy: 0,
        retained: 0,
        flight: 0,
        mapped: 0,
        small: 0,
        large: 0,
        regs: [0; 36],
        slabs: [0; 36],
        lextents: [0; 85],
    }
}

/// The number at a place, or 0 where there is no such place.
fn number_at(numbers: &[u64], place: u8) -> u64
    ensures { result ≡ slice_index numbers.now place }
{
    numbers.get(place as usize).copied().unwrap_or(0)
}

/// One number of an arena's counts.
fn count_in(count: Count, counts: &Counts) -> u64
    requires { AreSmall counts.now }
    ensures number { result ≡ count_in count counts.now }
    ensures small { result ≤ 2 ^ 58 }
{
    match count {
        Count::Allocated => counts.allocated,
        Count::Active => counts.active,
        Count::Retained => counts.retained,
        Count::ActivePages => counts.active / 4096,
        Count::DirtyPages => counts.dirty / 4096,
        Count::MuzzyPages => counts.muzzy / 4096,
        Count::Small => counts.small,
        Count::Large => counts.large,
        Count::Regions(class) => number_at(&counts.regs, class),
        Count::Slabs(class) => number_at(&counts.slabs, class),
        Count::LargeRegions(class) => number_at(&counts.lextents, class),
    }
}

impl Snapshot {
    /// The snapshot before the first refresh: all counts are 0.
    pub fn zero() -> Snapshot
        ensures { result ≡ replicate 32 no_counts }
    {
        Snapshot {
            counts: [no_counts(); ARENAS],
        }
    }

    /// Takes the counts of 32 arenas, by index; a member is `None` where its arena isn't live. No number is above 2^58.
    pub fn refresh(&mut self, counts: &[Option<Counts>])
        requires arenas { length counts.now ≡ 32 }
        requires small { All AreSmallWhereLive counts.now }
        ensures { self.new ≡ map counts_or_none counts.now }
    {
        for index in 0..ARENAS {
            self.counts[index] = counts[index].unwrap_or(no_counts());
        }
    }

    /// One number of the counts that were last taken: of one arena, or the sum over all.
    pub fn stat(&self, whose: Whose, count: Count) -> u64
        ensures { result ≡ stat_of whose count self.now }
    {
        match whose {
            Whose::Arena(index) => self.count_of(index, count),
            Whose::All => self.sum(count),
            Whose::Destroyed => 0,
        }
    }

    /// One number of an arena's counts.
    fn count_of(&self, index: u32, count: Count) -> u64
        ensures { result ≡ option_map_or (count_in count) (slice_get self.now index) 0 }
    {
        match self.counts.get(index as usize) {
            Some(counts) => count_in(count, counts),
            None => 0,
        }
    }

    /// The sum of a number over all arenas.
    fn sum(&self, count: Count) -> u64
        ensures { result ≡ sum_by (count_in count) self.now }
    {
        let mut sum = 0;
        for counts in &self.counts {
            sum += count_in(count, counts);
        }
        sum
    }
}
