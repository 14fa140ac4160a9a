//! The chunks that two arenas own.

ghost use Rattle.std.specs.Prelude.{◌≡◌, ◌+◌, ◌≤◌, length, MatchOption};
ghost use Rattle.journal_check.specs.Apart.{AreApart, AreLowest, HasOneOwner, IsApart, IsMeeting, IsNextOwned, last_chunk};

use crate::arenas::Replica;
use space_model::CHUNKS;

/// A chunk that two arenas own, and its two lowest owners.
#[derive(Clone, Copy, Debug, PartialEq, Eq)]
pub struct Meeting {
    /// The chunk.
    pub chunk: u64,
    /// The lowest owner.
    pub low: u32,
    /// The second owner.
    pub high: u32,
}

/// The two lowest owners of a chunk, if it has two.
fn lowest_owners(arenas: &[Replica], chunk: u64) -> Option<(u32, u32)>
    requires { length arenas.now ≡ 32 }
    ensures { MatchOption result (HasOneOwner arenas.now chunk) (λ two. AreLowest arenas.now chunk two.0 two.1) }
{
    let mut low = None;
    for index in 0..arenas.len() {
        if arenas[index].owns_chunk(chunk) {
            match low {
                None => low = Some(index as u32),
                Some(low) => return Some((low, index as u32)),
            }
        }
    }
    None
}

/// The first chunk from this one on that an arena owns, or a number past all chunks.
fn next_owned(arena: &Replica, chunk: u64) -> u64
    requires { chunk ≤ last_chunk }
    ensures next { IsNextOwned arena.now chunk result }
    ensures bound { result ≤ last_chunk + 1 }
{
    match arena.next_chunk(chunk) {
        Some(next) => next,
        None => CHUNKS + 1,
    }
}

/// The first chunk from this one on to which two arenas own some, or a number past all chunks: none has two owners before it.
fn second_owned(arenas: &[Replica], chunk: u64) -> u64
    requires number { length arenas.now ≡ 32 }
    requires chunk { chunk ≤ last_chunk }
    ensures above { chunk ≤ result }
    ensures apart { AreApart arenas.now chunk result }
    ensures bound { result ≤ last_chunk + 1 }
{
    let mut least = CHUNKS + 1;
    let mut second = CHUNKS + 1;
    for arena in arenas {
        let next = next_owned(arena, chunk);
        second = second.min(least.max(next));
        least = least.min(next);
    }
    second
}

/// The least chunk that two arenas own, if there is one.
pub fn first_meeting(arenas: &[Replica]) -> Option<Meeting>
    requires { length arenas.now ≡ 32 }
    ensures { MatchOption result (IsApart arenas.now) (λ m. IsMeeting arenas.now m.chunk m.low m.high) }
{
    let mut chunk = 1;
    while chunk <= CHUNKS {
        let second = second_owned(arenas, chunk);
        if second > CHUNKS {
            return None;
        }
        if let Some((low, high)) = lowest_owners(arenas, second) {
            return Some(Meeting {
                chunk: second,
                low,
                high,
            });
        }
        chunk = second + 1;
    }
    None
}
