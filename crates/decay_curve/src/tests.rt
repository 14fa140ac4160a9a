//! Weights and limits that were worked out by hand.

use super::{Decay, weight};
use std::test::Fail;

#[test]
fn weights_are_those_of_the_formula(rt: HostRuntime) -> Result<(), Fail> {
    assert_eq!(rt; weight(1), 20);
    assert_eq!(rt; weight(2), 165);
    assert_eq!(rt; weight(50), 1736704);
    assert_eq!(rt; weight(100), 8388608);
    assert_eq!(rt; weight(199), 16777195);
    assert_eq!(rt; weight(200), 16777216);
    Ok(())
}

#[test]
fn half_of_the_pages_stay_after_half_of_the_time(rt: HostRuntime) -> Result<(), Fail> {
    let mut decay = Decay::new(rt.alloc(), 10000, 0)?;
    assert_eq!(rt; decay.advance(49_999_999, 512), None);
    assert_eq!(rt; decay.advance(50_000_000, 512), Some(512));
    assert_eq!(rt; decay.advance(50_000_000, 512), None);
    assert_eq!(rt; decay.advance(5_050_000_000, 512), Some(256));
    assert_eq!(rt; decay.advance(10_049_999_999, 256), Some(0));
    assert_eq!(rt; decay.advance(1 << 60, 7), Some(7));
    Ok(())
}

#[test]
fn all_may_stay_for_ever_or_none_at_once(rt: HostRuntime) -> Result<(), Fail> {
    let mut decay = Decay::new(rt.alloc(), -1, 0)?;
    assert_eq!(rt; decay.advance(1 << 60, 512), None);
    decay.restart(0, 5);
    assert_eq!(rt; decay.ms(), 0);
    assert_eq!(rt; decay.advance(3, 512), Some(0));
    Ok(())
}
