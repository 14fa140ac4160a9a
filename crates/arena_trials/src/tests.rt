//! An arena beside a space that is moved by scans: scripts, random operations, and what is read of it.

mod asks;
mod bins;
mod decays;
mod draws;
mod entries;
mod ops;
mod parts;
mod regions;
mod rows;
mod scripts;
mod texts;
mod threads;
mod trials;

use arena_core::Arena;
use space_model::Life;
use std::alloc::Global;
use std::process::Abort;
use trials::Trial;

/// An arena as a script leaves it.
fn after(rt: &impl Abort, alloc: Global, script: &str) -> Trial {
    let mut trial = Trial::of_script(rt, alloc, script);
    scripts::carry_out(rt, alloc, &mut trial, script);
    trial
}

#[test]
fn scripts_are_followed(rt: HostRuntime) {
    for script in rows::ALL {
        drop(after(&rt, rt.alloc(), script));
    }
}

/// Checks what an arena holds that was granted a chunk, of which client 0 has a piece in flight.
fn holds_a_chunk(rt: &impl Abort, arena: &Arena) {
    assert!(rt; arena.owns_chunk(1) && !arena.owns_chunk(2));
    assert!(rt; arena.holds_page(1023) && !arena.holds_page(1024));
    assert!(rt; arena.next_flight(0).is_some() && arena.next_flight(1).is_none());
}

#[test]
fn an_arena_tells_what_it_holds(rt: HostRuntime) {
    let trial = after(&rt, rt.alloc(), rows::GRANTED);
    holds_a_chunk(&rt, trial.arena());
    drop(trial);
}

/// Checks the box, the limit and the times of an arena as a script made it.
fn was_made(rt: &impl Abort, arena: &Arena) {
    assert_eq!(rt; arena.life(), Life::Live);
    assert!(rt; arena.box_no() == 7 && arena.grow_limit() == 16384);
    assert!(rt; arena.times() == (-1, 5000));
}

#[test]
fn an_arena_tells_how_it_was_made(rt: HostRuntime) {
    let trial = after(&rt, rt.alloc(), rows::MADE);
    was_made(&rt, trial.arena());
    drop(trial);
}

#[test]
fn random_operations_are_carried_out_as_by_scans(rt: HostRuntime) {
    let mut stood: u64 = 0;
    for seed in 1..6 {
        stood = stood.saturating_add(draws::turns_of(&rt, rt.alloc(), seed));
    }
    assert!(rt; stood >= 100000, "{stood} stood");
}

#[test]
fn operations_stand_as_by_scans(rt: HostRuntime) {
    let mut trial = Trial::of_first(&rt, rt.alloc());
    let stood = asks::ask_on(&rt, rt.alloc(), &mut trial, 3, 3000);
    drop(trial);
    assert!(rt; stood >= 800, "{stood} may stand");
}
