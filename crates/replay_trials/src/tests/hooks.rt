//! Boxes of two kinds on one shelf.

ghost use Rattle.addr_space.specs.Nth.{nth_account};
ghost use Rattle.hook_api.specs.Rising.{rising_account};
ghost use Rattle.replay_trials.specs.declared.tests.hooks.Hooks.TheVariants.{Refusing as IsRefusing, Rising as IsRising};

use addr_space::NthHooks;
use hook_api::{ExtentHooks, Placed, RisingHooks, Said};
use space_model::Span;

/// A box of either kind.
#[derive(Drop)]
pub(super) enum Hooks {
    /// It takes ranges back, and one of its calls is refused.
    Refusing(NthHooks),
    /// It places each range behind the one before.
    Rising(RisingHooks),
}

impl ExtentHooks for Hooks {
    ghost account = { λ h. elim h [ IsRefusing hooks ↦ nth_account hooks | IsRising hooks ↦ rising_account hooks ] };

    fn alloc(&mut self, at: Option<u64>, pages: u64, align: u64, commit: bool) -> Option<Placed> {
        match self {
            Hooks::Refusing(hooks) => hooks.alloc(at, pages, align, commit),
            Hooks::Rising(hooks) => hooks.alloc(at, pages, align, commit),
        }
    }

    fn dalloc(&mut self, span: Span, committed: bool) -> Said {
        match self {
            Hooks::Refusing(hooks) => hooks.dalloc(span, committed),
            Hooks::Rising(hooks) => hooks.dalloc(span, committed),
        }
    }

    fn destroy(&mut self, span: Span, committed: bool) {
        match self {
            Hooks::Refusing(hooks) => hooks.destroy(span, committed),
            Hooks::Rising(hooks) => hooks.destroy(span, committed),
        }
    }

    fn commit(&mut self, span: Span) -> Said {
        match self {
            Hooks::Refusing(hooks) => hooks.commit(span),
            Hooks::Rising(hooks) => hooks.commit(span),
        }
    }

    fn decommit(&mut self, span: Span) -> Said {
        match self {
            Hooks::Refusing(hooks) => hooks.decommit(span),
            Hooks::Rising(hooks) => hooks.decommit(span),
        }
    }

    fn purge_lazy(&mut self, span: Span) -> Said {
        match self {
            Hooks::Refusing(hooks) => hooks.purge_lazy(span),
            Hooks::Rising(hooks) => hooks.purge_lazy(span),
        }
    }

    fn purge_forced(&mut self, span: Span) -> Said {
        match self {
            Hooks::Refusing(hooks) => hooks.purge_forced(span),
            Hooks::Rising(hooks) => hooks.purge_forced(span),
        }
    }

    fn split(&mut self, span: Span, left: u64) -> Said {
        match self {
            Hooks::Refusing(hooks) => hooks.split(span, left),
            Hooks::Rising(hooks) => hooks.split(span, left),
        }
    }

    fn merge(&mut self, low: Span, high: Span) -> Said {
        match self {
            Hooks::Refusing(hooks) => hooks.merge(low, high),
            Hooks::Rising(hooks) => hooks.merge(low, high),
        }
    }

    fn refusals(&self) -> u64 {
        match self {
            Hooks::Refusing(hooks) => hooks.refusals(),
            Hooks::Rising(hooks) => hooks.refusals(),
        }
    }
}
