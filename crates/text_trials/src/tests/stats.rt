//! The text of counts, and what a snapshot gives of them.

ghost use Rattle.std.specs.Prelude.{◌≤◌, ◌^◌};
ghost use Rattle.std.specs.List.{All};
ghost use Rattle.heap_stats.specs.Stats.{AreSmall, AreSmallWhereLive};

use heap_stats::{Count, Snapshot, Whose, json};
use space_model::Counts;
use std::alloc::Global;
use std::test::Fail;

/// The counts of an arena with a slab of the least class, in which so many regions are out, and one large region of 40960
/// bytes.
fn counts(regions: u64) -> Counts
    requires few { regions ≤ 2 ^ 58 }
    ensures { AreSmall result }
{
    let mut counts = Counts {
        allocated: 40960,
        active: 45056,
        dirty: 8192,
        muzzy: 4096,
        retained: 2039808,
        flight: 0,
        mapped: 57344,
        small: 0,
        large: 40960,
        regs: [0; 36],
        slabs: [0; 36],
        lextents: [0; 85],
    };
    counts.regs[0] = regions;
    counts.slabs[0] = 1;
    counts.lextents[5] = 1;
    counts
}

/// The counts of 32 arenas of which those with the indices 1 and 31 are live.
fn two_live() -> [Option<Counts>; 32]
    ensures { All AreSmallWhereLive result }
{
    let mut arenas = [None; 32];
    arenas[1] = Some(counts(3));
    arenas[31] = Some(counts(4));
    arenas
}

#[test]
fn live_arenas_are_printed(rt: HostRuntime) -> Result<(), Fail> {
    let alloc = rt.alloc();
    let mut arenas = [None; 32];
    arenas[0] = Some(counts(3));
    arenas[2] = Some(counts(3));
    let text = json(alloc, &arenas)?;
    let first =
        r#"{"active":45056,"allocated":40960,"dirty":8192,"flight":0,"index":0,"mapped":57344,"muzzy":4096,"retained":2039808}"#;
    let last =
        r#"{"active":45056,"allocated":40960,"dirty":8192,"flight":0,"index":2,"mapped":57344,"muzzy":4096,"retained":2039808}"#;
    assert_eq!(rt; text, format!(in alloc; "{{\"arenas\":[{first},{last}]}}")?);
    Ok(())
}

#[test]
fn a_new_snapshot_has_nothing(rt: HostRuntime) {
    let snapshot = Snapshot::zero();
    for whose in [
        Whose::Arena(0),
        Whose::Arena(32),
        Whose::All,
        Whose::Destroyed,
    ] {
        assert_eq!(rt; snapshot.stat(whose, Count::Allocated), 0, "{whose:?}");
    }
}

#[test]
fn a_snapshot_keeps_what_it_took(rt: HostRuntime) {
    let mut snapshot = Snapshot::zero();
    assert_eq!(rt; snapshot.stat(Whose::All, Count::Active), 0);
    let mut arenas = two_live();
    snapshot.refresh(&arenas);
    arenas[31] = Some(counts(5));
    let stats = [
        (Whose::Arena(1), Count::ActivePages, 11),
        (Whose::Arena(1), Count::DirtyPages, 2),
        (Whose::Arena(1), Count::MuzzyPages, 1),
        (Whose::Arena(31), Count::Regions(0), 4),
        (Whose::Arena(31), Count::Regions(36), 0),
        (Whose::Arena(31), Count::Slabs(0), 1),
        (Whose::Arena(31), Count::LargeRegions(5), 1),
        (Whose::Arena(0), Count::Allocated, 0),
        (Whose::Arena(32), Count::Allocated, 0),
        (Whose::All, Count::Regions(0), 7),
        (Whose::All, Count::Retained, 4079616),
        (Whose::All, Count::Large, 81920),
        (Whose::All, Count::Small, 0),
        (Whose::Destroyed, Count::Allocated, 0),
    ];
    for (whose, count, want) in stats {
        assert_eq!(rt; snapshot.stat(whose, count), want, "{whose:?} {count:?}");
    }
}
