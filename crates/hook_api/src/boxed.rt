//! Hooks on the heap, which are those of what lies there.

use crate::hooks::{ExtentHooks, Placed, Said};
use space_model::Span;

impl ExtentHooks for Box<dyn ExtentHooks + Send> {
    ghost account = { λ b. (ExtentHooks-box b).account b.value };

    fn alloc(&mut self, at: Option<u64>, pages: u64, align: u64, commit: bool) -> Option<Placed> {
        (**self).alloc(at, pages, align, commit)
    }

    fn dalloc(&mut self, span: Span, committed: bool) -> Said {
        (**self).dalloc(span, committed)
    }

    fn destroy(&mut self, span: Span, committed: bool) {
        (**self).destroy(span, committed)
    }

    fn commit(&mut self, span: Span) -> Said {
        (**self).commit(span)
    }

    fn decommit(&mut self, span: Span) -> Said {
        (**self).decommit(span)
    }

    fn purge_lazy(&mut self, span: Span) -> Said {
        (**self).purge_lazy(span)
    }

    fn purge_forced(&mut self, span: Span) -> Said {
        (**self).purge_forced(span)
    }

    fn split(&mut self, span: Span, left: u64) -> Said {
        (**self).split(span, left)
    }

    fn merge(&mut self, low: Span, high: Span) -> Said {
        (**self).merge(low, high)
    }

    fn refusals(&self) -> u64 {
        (**self).refusals()
    }
}
