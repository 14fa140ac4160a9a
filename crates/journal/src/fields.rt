//! The fields of entries, read one behind the other.

ghost use Rattle.journal.specs.Codec.{Reads};
ghost use Rattle.journal.specs.Fields.{byte, flag, int, long, many, maybe, signed, span};
ghost use Rattle.journal.specs.Labels.{label_at};

use crate::labels::Label;
use crate::{ReadFault, values};
use size_classes::Addrs;
use space_model::{Addresses, Span};
use std::alloc::Global;
use text_words::{Words, number};

/// Reads a word that isn't a number.
pub fn label(words: &mut Words) -> Result<Label, ReadFault>
    ensures { Reads label_at words.old result words.new }
{
    let word = words.next().ok_or(ReadFault::NotEntry)?;
    Label::of(word).ok_or(ReadFault::NotEntry)
}

/// Reads a number of 64 bits.
pub fn long(words: &mut Words) -> Result<u64, ReadFault>
    ensures { Reads long.reads words.old result words.new }
{
    let word = words.next().ok_or(ReadFault::NotEntry)?;
    number(word).ok_or(ReadFault::NotEntry)
}

/// Reads a number of 32 bits.
pub fn int(words: &mut Words) -> Result<u32, ReadFault>
    ensures { Reads int.reads words.old result words.new }
{
    let word = words.next().ok_or(ReadFault::NotEntry)?;
    values::int(word).ok_or(ReadFault::NotEntry)
}

/// Reads a number of 8 bits.
pub fn byte(words: &mut Words) -> Result<u8, ReadFault>
    ensures { Reads byte.reads words.old result words.new }
{
    let word = words.next().ok_or(ReadFault::NotEntry)?;
    values::byte(word).ok_or(ReadFault::NotEntry)
}

/// Reads a truth value.
pub fn flag(words: &mut Words) -> Result<bool, ReadFault>
    ensures { Reads flag.reads words.old result words.new }
{
    let word = words.next().ok_or(ReadFault::NotEntry)?;
    values::flag(word).ok_or(ReadFault::NotEntry)
}

/// Reads a number that may be absent.
pub fn maybe(words: &mut Words) -> Result<Option<u64>, ReadFault>
    ensures { Reads maybe.reads words.old result words.new }
{
    let word = words.next().ok_or(ReadFault::NotEntry)?;
    values::maybe(word).ok_or(ReadFault::NotEntry)
}

/// Reads a time in milliseconds.
pub fn time(words: &mut Words) -> Result<i64, ReadFault>
    ensures { Reads signed.reads words.old result words.new }
{
    let word = words.next().ok_or(ReadFault::NotEntry)?;
    values::time(word).ok_or(ReadFault::NotEntry)
}

/// Reads a span of pages.
pub fn span(words: &mut Words) -> Result<Span, ReadFault>
    ensures { Reads span.reads words.old result words.new }
{
    let first = long(words)?;
    let pages = long(words)?;
    Ok(Span { first, pages })
}

/// Reads how many addresses there are, and the addresses.
pub fn many(alloc: Global, words: &mut Words) -> Result<Addresses, ReadFault>
    ensures { Reads many.reads words.old result words.new }
{
    let count = long(words)?;
    let mut list = Addrs::new(alloc);
    let mut left = count;
    while left > 0 {
        let addr = long(words)?;
        list.reserve(1)?;
        list.push(addr);
        left -= 1;
    }
    Ok(Addresses::new(list))
}
