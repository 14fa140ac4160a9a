//! The texts of pages and spans.

ghost use Rattle.std.specs.Prelude.{Some};
ghost use Rattle.report_text.specs.Places.{page_text, span_text};

use space_model::Span;
use std::fmt;

/// The address of a page's first byte. It may pass 2^64, so it is printed from the page's own digits.
#[derive(Drop)]
pub(crate) struct PageText(pub(crate) u64);

impl fmt::Display for PageText {
    ghost output = { λ page. Some (page_text page.0) };

    fn fmt<W: fmt::Write>(&self, f: &mut fmt::Formatter<W>) -> fmt::Result {
        if self.0 == 0 {
            return f.write_str("@0");
        }
        write!(f, "@{:x}000", self.0)
    }
}

/// A span of pages.
#[derive(Drop)]
pub(crate) struct SpanText(pub(crate) Span);

impl fmt::Display for SpanText {
    ghost output = { λ span. Some (span_text span.0) };

    fn fmt<W: fmt::Write>(&self, f: &mut fmt::Formatter<W>) -> fmt::Result {
        write!(f, "{}+{}", PageText(self.0.first), self.0.pages)
    }
}
