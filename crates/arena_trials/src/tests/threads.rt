//! Arenas that go to threads, are granted a chunk there, and come back.

use super::ops::grown;
use super::trials::Trial;
use std::process::Abort;
use std::test::Fail;
use std::thread;

/// The arena after the first chunk was granted.
fn granted(rt: &impl Abort, mut trial: Trial) -> Trial {
    trial.attempt(rt, 0, grown(512, true));
    trial
}

/// Checks that all arenas own the first chunk and no other.
fn own_a_chunk(rt: &impl Abort, trials: &[Trial]) {
    for trial in trials {
        assert!(rt; trial.arena().owns_chunk(1) && !trial.arena().owns_chunk(2));
    }
}

#[test]
fn arenas_go_to_threads_and_come_back(rt: HostRuntime) -> Result<(), Fail> {
    let mut trials = Vec::new(rt.alloc());
    for _ in 0..3 {
        trials.push(Trial::of_first(&rt, rt.alloc()))?;
    }
    let back = thread::map_vec(&rt, trials, &|trial| granted(&rt, trial))?;
    assert_eq!(rt; back.len(), 3);
    own_a_chunk(&rt, back.as_slice());
    Ok(())
}
