//! Printing entries and journals.

ghost use Rattle.std.specs.Prelude.{◌≡◌, ◌++◌, Some, OnOk};
ghost use Rattle.std.specs.List.{AllByRecursion};
ghost use Rattle.journal.specs.Entries.{IsOneLine, entry_of, entry_text};
ghost use Rattle.journal.specs.Texts.{AreReadAgain, IsReadAgain, entries_text, journals_text};

use crate::tokens::{Token, put, put_number};
use crate::widths::{is_int, known};
use crate::writing::put_op;
use hook_api::{Journal, Kept};
use space_model::Entry;
use std::alloc::{AllocError as NoMemory, Global};

/// Puts the text of an entry of an arena's journal behind what is there: one line, without its newline. After an `Err`,
/// which is want of memory, a part of it may stand there.
#[tactic(auto)]
pub fn print(index: u32, kept: &Kept, out: &mut Vec<u8>) -> Result<(), NoMemory>
    ensures text { OnOk result (out.new.items ≡ out.old.items ++ entry_text index kept.now.entry) }
    ensures again { entry_of (entry_text index kept.now.entry) ≡ Some (index, kept.now.entry) }
    ensures line { IsOneLine (entry_text index kept.now.entry) }
{
    let entry = kept.entry();
    reads_again(index, entry);
    put_number(out, u64::from(index))?;
    put(out, Token::Number(u64::from(entry.client)))?;
    put_op(out, &entry.op)
}

/// The text of an entry is read as this entry again, and has no newline.
#[tactic(auto, using(crate::proofs::EntryLaws::entry_again, crate::proofs::EntryLaws::entry_is_line))]
fn reads_again(index: u32, entry: &Entry)
    ensures again { entry_of (entry_text index entry.now) ≡ Some (index, entry.now) }
    ensures line { IsOneLine (entry_text index entry.now) }
{
    is_int(index);
    is_int(entry.client);
    known(&entry.op);
}

/// Puts the text of an arena's entries behind what is there.
fn put_entries(index: u32, entries: &[Kept], out: &mut Vec<u8>) -> Result<(), NoMemory>
    ensures text { OnOk result (out.new.items ≡ out.old.items ++ entries_text index entries.now) }
    ensures again { OnOk result (AllByRecursion (IsReadAgain index) entries.now) }
{
    for kept in entries {
        print(index, kept, out)?;
        out.push(b'\n')?;
    }
    Ok(())
}

/// Puts the text of journals behind what is there: journal by journal, entry by entry, a line each with its newline. After an
/// `Err`, which is want of memory, a part of it may stand there.
pub fn put_journals(alloc: Global, out: &mut Vec<u8>, journals: &[Journal]) -> Result<(), NoMemory>
    ensures text { OnOk result (out.new.items ≡ out.old.items ++ journals_text journals.now) }
    ensures again { OnOk result (AllByRecursion AreReadAgain journals.now) }
{
    for journal in journals {
        let entries = journal.kept.to_list(alloc)?;
        put_entries(journal.index, entries.as_slice(), out)?;
    }
    Ok(())
}
