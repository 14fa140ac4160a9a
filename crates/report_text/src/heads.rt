//! Which call a line is about.

ghost use Rattle.std.specs.Prelude.{◌≡◌, ◌≤◌, ◌++◌, true, length};
ghost use Rattle.report_text.specs.Heads.{head_word, head_name};

use crate::rows::Row;

/// How many bytes a name has at most that is laid in a row.
const SHORT_NAME: usize = 32;

/// What names a call in its line: its first word, and behind it the name that a malloc, a memalign or a realloc binds, or
/// that of a control. It also says how the answer is told.
#[derive(Clone, Copy)]
pub enum Head<'a> {
    /// `malloc NAME`.
    Malloc(&'a [u8]),
    /// `memalign NAME`.
    Memalign(&'a [u8]),
    /// `realloc NAME`.
    Realloc(&'a [u8]),
    /// `free`.
    Free,
    /// `publish`.
    Publish,
    /// `take`.
    Take,
    /// `purge`.
    Purge,
    /// `decay`.
    Decay,
    /// `dirty`.
    Dirty,
    /// `muzzy`.
    Muzzy,
    /// `reset`.
    Reset,
    /// `destroy`.
    Destroy,
    /// `create`.
    Create,
    /// `arena`.
    Arena,
    /// `cache`.
    Cache,
    /// `flush`.
    Flush,
    /// `mallocx NAME`.
    MallocIn(&'a [u8]),
    /// `freex`.
    FreeIn,
    /// `ctl NAME`, of a call that tells what it gives.
    Ctl(&'a [u8]),
    /// `ctl NAME`, of a call that tells `ok` in place of what it gives, as one for all arenas at once.
    CtlDone(&'a [u8]),
}

/// The first word of a call.
pub(crate) fn word(head: Head<'_>) -> &'static str
    ensures { result.now ≡ head_word head.entry }
{
    match head {
        Head::Malloc(_) => "malloc",
        Head::Memalign(_) => "memalign",
        Head::Realloc(_) => "realloc",
        Head::Free => "free",
        Head::Publish => "publish",
        Head::Take => "take",
        Head::Purge => "purge",
        Head::Decay => "decay",
        Head::Dirty => "dirty",
        Head::Muzzy => "muzzy",
        Head::Reset => "reset",
        Head::Destroy => "destroy",
        Head::Create => "create",
        Head::Arena => "arena",
        Head::Cache => "cache",
        Head::Flush => "flush",
        Head::MallocIn(_) => "mallocx",
        Head::FreeIn => "freex",
        Head::Ctl(_) | Head::CtlDone(_) => "ctl",
    }
}

/// Whether a call has no name in its line, or one that is short enough for a row.
#[inline(always)]
pub(crate) fn has_short_name(head: Head<'_>) -> bool
    ensures { result ≡ true → length (head_name head.entry) ≤ 33 }
{
    match head {
        Head::Malloc(name)
        | Head::Memalign(name)
        | Head::Realloc(name)
        | Head::MallocIn(name)
        | Head::Ctl(name)
        | Head::CtlDone(name) => name.len() <= SHORT_NAME,
        _ => true,
    }
}

/// Lays the first word of a call, and its name, if it has one.
#[inline(always)]
pub(crate) fn lay_head(row: &mut Row, head: Head<'_>)
    requires name { length (head_name head) ≤ 33 }
    requires room { length row.old ≤ 40 }
    ensures laid { row.new ≡ head_word head.entry ++ head_name head.entry ++ row.old }
    ensures room { length row.new ≤ 81 }
{
    match head {
        Head::Malloc(name) => {
            row.lay_text(name);
            row.lay_text(b"malloc ");
        }
        Head::Memalign(name) => {
            row.lay_text(name);
            row.lay_text(b"memalign ");
        }
        Head::Realloc(name) => {
            row.lay_text(name);
            row.lay_text(b"realloc ");
        }
        Head::MallocIn(name) => {
            row.lay_text(name);
            row.lay_text(b"mallocx ");
        }
        Head::Ctl(name) | Head::CtlDone(name) => {
            row.lay_text(name);
            row.lay_text(b"ctl ");
        }
        Head::Free => row.lay_text(b"free"),
        _ => row.lay_text(word(head).as_bytes()),
    }
}
