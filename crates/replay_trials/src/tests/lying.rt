//! Hooks that place ranges which are wrong.

use super::runs::{SOUND, replayed};
use addr_space::{LyingHooks, Places};
use hook_api::{ExtentHooks, HookShelf, Placed};
use std::alloc::Global;
use std::process::Abort;
use std::test::Fail;

/// A committed range that begins at this page.
fn placed(first: u64) -> Placed {
    Placed {
        first,
        committed: true,
        zeroed: false,
    }
}

/// A shelf whose boxes place every range at this page.
fn lying(rt: &impl Abort, alloc: Global, first: u64) -> Result<HookShelf<LyingHooks>, Fail> {
    let mut boxes = Vec::new(alloc);
    for _ in 0..32 {
        boxes.push(LyingHooks::new(placed(first)))?;
    }
    assert_eq!(rt; boxes.len(), 32);
    Ok(HookShelf::new(boxes))
}

/// A shelf each of whose boxes places a range off the space, then one that is fine, then one that meets it, and no more.
fn listed(rt: &impl Abort, alloc: Global) -> Result<HookShelf<LyingHooks>, Fail> {
    let mut boxes = Vec::new(alloc);
    for _ in 0..32 {
        let places = [placed(0), placed(512), placed(512)].to_vec(alloc)?;
        boxes.push(LyingHooks::listed(Places::from_vec(places)))?;
    }
    assert_eq!(rt; boxes.len(), 32);
    Ok(HookShelf::new(boxes))
}

/// Replays a trace over a shelf: this is its report, and each line was carried out.
fn reports<H: ExtentHooks>(
    rt: &impl Abort,
    alloc: Global,
    trace: &str,
    shelf: HookShelf<H>,
    report: &str,
) -> Result<(), Fail> {
    let run = replayed(alloc, trace, SOUND, shelf)?;
    let told = String::from_utf8_lossy(alloc, &run.report)?;
    assert_eq!(rt; (run.status, told.as_str()), (0, report));
    Ok(())
}

#[test]
fn far_ranges_are_told(rt: HostRuntime) -> Result<(), Fail> {
    // The page at which each range is placed, and what a malloc of a chunk answers then.
    let rows = [
        (33_554_176, "@1ffff00000+512 unaligned"),
        // Half of this one lies behind the end of the space.
        (536_870_656, "@1fffff00000+512 off space"),
        (u64::MAX, "@ffffffffffffffff000+512 off space"),
    ];
    for (first, answer) in rows {
        let report = format!(in rt.alloc();
            "t0 malloc a bad answer {answer}\n\
            arena 0 allocated 0 active 0 dirty 0 muzzy 0 retained 0 flight 0 mapped 0\n"
        )?;
        let shelf = lying(&rt, rt.alloc(), first)?;
        reports(
            &rt,
            rt.alloc(),
            "t0 malloc a 2097152\n",
            shelf,
            report.as_str(),
        )?;
    }
    Ok(())
}

#[test]
fn a_range_meets_that_of_another_arena(rt: HostRuntime) -> Result<(), Fail> {
    let shelf = lying(&rt, rt.alloc(), 512)?;
    reports(
        &rt,
        rt.alloc(),
        "t0 malloc a 2097152\nt0 create 1\nt0 arena 1\nt0 malloc b 2097152\n",
        shelf,
        "t0 malloc a @200000 2097152\nt0 create 1\nt0 arena ok\n\
         t0 malloc b bad answer @200000+512 meets @200000+512\n\
         arena 0 allocated 2097152 active 2097152 dirty 0 muzzy 0 retained 0 flight 0 mapped 2097152\n\
         arena 1 allocated 0 active 0 dirty 0 muzzy 0 retained 0 flight 0 mapped 0\n",
    )
}

#[test]
fn each_range_of_a_list_is_looked_at(rt: HostRuntime) -> Result<(), Fail> {
    let shelf = listed(&rt, rt.alloc())?;
    reports(
        &rt,
        rt.alloc(),
        "t0 malloc a 2097152\nt0 malloc b 2097152\nt0 malloc c 2097152\nt0 malloc d 2097152\n",
        shelf,
        "t0 malloc a bad answer @0+512 off space\nt0 malloc b @200000 2097152\n\
         t0 malloc c bad answer @200000+1024 meets @200000+512\nt0 malloc d refused alloc\n\
         arena 0 allocated 2097152 active 2097152 dirty 0 muzzy 0 retained 0 flight 0 mapped 2097152\n",
    )
}
