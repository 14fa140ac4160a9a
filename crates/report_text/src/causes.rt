//! Why a line of the input is bad.

ghost use Rattle.std.specs.Prelude.{Some};
ghost use Rattle.report_text.specs.Causes.{cause_text};

use std::fmt;

/// Why a line of the input is bad, which is printed behind its number.
#[derive(Clone, Copy, Debug, PartialEq, Eq)]
pub enum Cause {
    /// It stands behind the last line that an input may have.
    LimitLines,
    /// It has more bytes than a line may have.
    LimitBytes,
    /// The input ended before its newline.
    Cut,
    /// It has a byte that no line may have.
    Bytes,
    /// Its words are those of no line.
    Words,
    /// A number in it is too large to be read, or has a leading zero.
    Number,
    /// Its client is above the last one.
    LimitThreads,
    /// A number in it is outside the range of its place.
    Range,
    /// Its moment is before the one that was told last.
    Clock,
    /// It can't stand in this phase.
    Phase,
}

impl fmt::Display for Cause {
    ghost output = { λ cause. Some (cause_text cause) };

    fn fmt<W: fmt::Write>(&self, f: &mut fmt::Formatter<W>) -> fmt::Result {
        match *self {
            Cause::LimitLines => f.write_str("limit lines"),
            Cause::LimitBytes => f.write_str("limit bytes"),
            Cause::Cut => f.write_str("cut"),
            Cause::Bytes => f.write_str("bytes"),
            Cause::Words => f.write_str("words"),
            Cause::Number => f.write_str("number"),
            Cause::LimitThreads => f.write_str("limit threads"),
            Cause::Range => f.write_str("range"),
            Cause::Clock => f.write_str("clock"),
            Cause::Phase => f.write_str("phase"),
        }
    }
}
