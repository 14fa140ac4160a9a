//! Where spans of pages end, and where they lie.

ghost use Rattle.std.specs.Prelude.{◌≡◌, ◌≤◌, ◌<◌, ◌^◌};
ghost use Rattle.space_model.specs.Span.{chunk_span, end_of, run_start};
ghost use Rattle.space_model.specs.Step.{is_in_space};

use crate::{CHUNK_PAGES, CHUNKS, Span};

impl Span {
    /// The pages of a chunk.
    pub fn of_chunk(chunk: u64) -> Span
        requires { chunk < 2 ^ 32 }
        ensures { result ≡ chunk_span chunk }
    {
        Span {
            first: CHUNK_PAGES * chunk,
            pages: CHUNK_PAGES,
        }
    }

    /// The page after its last one.
    pub fn end(self) -> u128
        ensures { result ≡ end_of self }
    {
        u128::from(self.first) + u128::from(self.pages)
    }

    /// The first multiple of `align` that isn't below its first page.
    pub fn run_start(self, align: u64) -> u128
        requires { 1 ≤ align }
        ensures start { result ≡ run_start align self }
        ensures bound { result < 2 ^ 65 }
    {
        let align = u128::from(align);
        (u128::from(self.first) + (align - 1)) / align * align
    }

    /// Whether all its pages are in the space of addresses.
    pub fn is_in_space(self) -> bool
        ensures { result ≡ is_in_space self }
    {
        CHUNK_PAGES <= self.first && self.end() <= u128::from(CHUNK_PAGES * (CHUNKS + 1))
    }
}
