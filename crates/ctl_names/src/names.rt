//! Reads names.

ghost use Rattle.std.specs.Prelude.{◌≡◌, ◌<◌, ◌≤◌, ◌^◌, true, length, map, IfOk, Ok};
ghost use Rattle.std.specs.Option.{ok_or};
ghost use Rattle.std.specs.Str.{bytes_eq};
ghost use Rattle.text_words.specs.Words.{words_of};
ghost use Rattle.ctl_names.specs.Rows.{shown};
ghost use Rattle.ctl_names.specs.Names.{IsName, IsOfRow, first_row, index_of, is_class, marker_of, match_parts, may_be, name_of, with_index, with_part};

use crate::rows::{Row, table};
use text_words::{Words, number};

/// Why a control can't be read or written.
#[derive(Clone, Copy, Debug, PartialEq, Eq)]
pub enum CtlError {
    /// `EINVAL`: the value is none of its kind.
    Einval,
    /// `ENOENT`: there is no such name.
    Enoent,
    /// `EPERM`: nothing may be written to it.
    Eperm,
}

/// A name that was read: its row of the table, and the indexes in it.
#[derive(Clone, Copy, Debug, PartialEq, Eq)]
pub struct CtlName {
    /// The number of its row, below 43.
    pub row: u8,
    /// The index of an arena, or 4096 for all, or 4097 for those that were destroyed; 0 where the name has none.
    pub i: u32,
    /// The number of a small class, or of a large one counted from 0; 0 where the name has none.
    pub j: u32,
}

/// Which numbers a part of a pattern stands for.
#[derive(Clone, Copy)]
enum Marker {
    /// The index of an arena.
    Arena,
    /// The index of an arena, or 4096 for all.
    Arenas,
    /// The index of an arena, 4096, or 4097.
    Counted,
    /// The number of a small class.
    Bin,
    /// The number of a large class, counted from 0.
    Large,
}

/// Which numbers a part of a pattern stands for, if it stands for any.
fn numbers_of(part: &[u8]) -> Option<Marker>
    ensures { result ≡ marker_of part.now }
{
    if is(part, "<arena>") {
        Some(Marker::Arena)
    } else if is(part, "<arenas>") {
        Some(Marker::Arenas)
    } else if is(part, "<counted>") {
        Some(Marker::Counted)
    } else if is(part, "<bin>") {
        Some(Marker::Bin)
    } else if is(part, "<large>") {
        Some(Marker::Large)
    } else {
        None
    }
}

/// Whether a part is this text.
fn is(part: &[u8], text: &str) -> bool
    ensures { result ≡ bytes_eq part.now text.now }
{
    part == text.as_bytes()
}

impl Marker {
    /// Whether a number is one of those.
    fn may_be(self, number: u64) -> bool
        ensures may { result ≡ may_be self number }
        ensures small { result ≡ true → number < 2 ^ 32 }
    {
        match self {
            Marker::Arena => number < 32,
            Marker::Arenas => number < 32 || number == 4096,
            Marker::Counted => number < 32 || number == 4096 || number == 4097,
            Marker::Bin => number < 36,
            Marker::Large => number < 85,
        }
    }

    /// Whether it stands for numbers of classes.
    fn is_class(self) -> bool
        ensures { result ≡ is_class self }
    {
        matches!(self, Marker::Bin | Marker::Large)
    }
}

/// The number that a word is, where it is one of those.
fn number_of(marker: Marker, word: &[u8]) -> Option<u32>
    ensures { result ≡ index_of marker word.now }
{
    let number = number(word)?;
    if marker.may_be(number) {
        Some(number as u32)
    } else {
        None
    }
}

impl CtlName {
    /// The name with an index more.
    fn with_index(self, marker: Marker, index: u32) -> CtlName
        ensures { result ≡ with_index self marker index }
    {
        if marker.is_class() {
            CtlName { j: index, ..self }
        } else {
            CtlName { i: index, ..self }
        }
    }

    /// The name with what a word is, by the part of the pattern.
    #[tactic(auto, unfolding(crate::specs::Names::with_part))]
    fn with_part(self, part: &[u8], word: &[u8]) -> Option<CtlName>
        ensures { result ≡ with_part self part.now word.now }
    {
        if let Some(marker) = numbers_of(part) {
            let index = number_of(marker, word)?;
            Some(self.with_index(marker, index))
        } else if part == word {
            Some(self)
        } else {
            None
        }
    }

    /// The name that matches a pattern, with all its indexes.
    fn matched(self, pattern: &[u8], name: &[u8]) -> Option<CtlName>
        ensures { result ≡ match_parts self (words_of 46 pattern.now) (words_of 46 name.now) }
    {
        let mut parts = Words::new(pattern, b'.');
        let mut words = Words::new(name, b'.');
        let mut found = self;
        loop {
            match (parts.next(), words.next()) {
                (None, None) => return Some(found),
                (Some(part), Some(word)) => found = found.with_part(part, word)?,
                _ => return None,
            }
        }
    }
}

/// The first of these rows whose pattern the name matches, with the indexes in it.
fn first(rows: &[Row], name: &[u8]) -> Option<CtlName>
    requires { length rows.now ≤ 256 }
    ensures { result ≡ first_row 0 (map shown rows.now) name.now }
{
    for number in 0..rows.len() {
        let unindexed = CtlName {
            row: number as u8,
            i: 0,
            j: 0,
        };
        if let Some(found) = unindexed.matched(rows[number].0.as_bytes(), name) {
            return Some(found);
        }
    }
    None
}

/// What a name is, if it is any.
#[tactic(auto, unfolding(crate::specs::Names::name_of))]
fn found(name: &[u8]) -> Option<CtlName>
    ensures { result ≡ name_of name.now }
{
    first(&table(), name)
}

/// The row whose pattern the name matches, with the indexes in it. There is one such row at most, and `Enoent` is
/// answered exactly where there is none: the name is unknown, or a number in it is out of its row.
pub fn read(name: &[u8]) -> Result<CtlName, CtlError>
    ensures said { result ≡ ok_or (name_of name.now) CtlError.Enoent }
    ensures row { IfOk result (λ found. IsOfRow name.now found) }
    ensures only { (found : CtlName) → found.row < 43 → IsOfRow name.now found → result ≡ Ok found }
    ensures named { IfOk result IsName }
{
    match found(name) {
        Some(found) => Ok(found),
        None => Err(CtlError::Enoent),
    }
}
