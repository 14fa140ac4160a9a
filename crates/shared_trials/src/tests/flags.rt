//! Flags by which a box waits for a client.

use std::sync::atomic::{AtomicBool, Ordering};
use std::thread;

/// How often a flag is looked at before its reader gives up.
const LOOKS: u32 = 100_000_000;

/// Two flags that threads share: a box was entered, and somebody has seen that.
#[derive(Drop)]
pub(crate) struct Gate {
    entered: AtomicBool,
    seen: AtomicBool,
}

impl Gate {
    /// No flag is raised.
    pub(crate) fn new() -> Gate {
        Gate {
            entered: AtomicBool::new(false),
            seen: AtomicBool::new(false),
        }
    }

    /// Tells that the box was entered. The answer is whether somebody saw it in time.
    pub(crate) fn pass(&self) -> bool {
        self.entered.store(true, Ordering::SeqCst);
        is_raised(&self.seen)
    }

    /// Waits for the box to be entered. The answer is whether it was in time.
    pub(crate) fn is_entered(&self) -> bool {
        is_raised(&self.entered)
    }

    /// Tells that it was seen that the box was entered.
    pub(crate) fn see(&self) {
        self.seen.store(true, Ordering::SeqCst);
    }
}

/// Waits for a flag. The answer is whether it was raised in time.
fn is_raised(flag: &AtomicBool) -> bool {
    for look in 0..LOOKS {
        if flag.load(Ordering::SeqCst) {
            return true;
        }
        if look % 1024 == 0 {
            thread::yield_now();
        }
    }
    false
}
