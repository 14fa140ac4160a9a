//! The arenas of a heap.

ghost use Rattle.std.specs.Prelude.{[], ◌≡◌, ◌≢◌, ◌+◌, ◌<◌, ◌≤◌, ◌^◌, ℕ, false, true, length, map, vec_capacity, IsTrue, IsOk, IfOk, IfSome, OnOk, OnErr};
ghost use Rattle.heap_core.specs.Words.{list_any, position, has_page, stands, mine, IsKept, all_rooms, entry_of, opens, record_at, reply_in, room_in, records_turned, IsReplayed, most_room};
ghost use Rattle.heap_core.specs.Arenas.{IsArenas, journal_of, opening_records, spaces_of};
ghost use Rattle.heap_core.specs.Chunks.{Apart, met_by_alloc, met_by_dalloc, met_in, others_of, owns_chunk, with_chunk_found};

use arena_core::Arena;
use hook_api::{Asked, Journal, Journals};
use recorded_arena::Recorded;
use space_model::{Answer, Ask, CHUNK_PAGES, Heard, Op, Reply, Span};
use std::alloc::{AllocError as NoMemory, Global};
use std::marker::Model;

/// How many arenas there are.
pub const ARENAS: u32 = 32;

/// The 32 arenas of a heap, each with its journal, and a list with places for the journals, which are put there at the end.
/// Contracts see the arenas as their list.
#[derive(Drop)]
pub struct Arenas {
    records: Vec<Recorded>,
    journals: Vec<Journal>,
    ghost places: { (journals.items ≡ []) × (32 ≤ vec_capacity journals) },
}

impl Model for Arenas {
    ghost use Rattle.std.specs.Prelude.{List};
    ghost use Rattle.recorded_arena.specs.Records.{Record};
    ghost use Rattle.heap_core.specs.Arenas.{AreRecorded};

    ghost Value = { List Record };

    ghost view = { λ arenas. arenas.records.items };

    ghost invariant = { λ arenas. AreRecorded arenas.records.items };
}

/// Whether some of the arenas owns a chunk.
fn any_owns(records: &[Recorded], chunk: u64) -> bool
    ensures { result ≡ list_any (λ r. owns_chunk chunk r.space) records.now }
{
    records
        .iter()
        .any(|record| record.arena().owns_chunk(chunk))
}

/// Whether some arena owns a chunk.
fn is_owned(records: &[Recorded], chunk: u64) -> bool
    ensures { result ≡ list_any (owns_chunk chunk) (spaces_of records.now) }
{
    any_owns(records, chunk)
}

/// Whether some arena but one owns a chunk.
fn is_owned_elsewhere(records: &[Recorded], arena: u32, chunk: u64) -> bool
    requires { arena < length records.now }
    ensures { result ≡ list_any (owns_chunk chunk) (others_of arena (spaces_of records.now)) }
{
    let arena = arena as usize;
    any_owns(&records[..arena], chunk) || any_owns(&records[arena + 1..], chunk)
}

/// The least chunk of a span that some arena owns.
fn met_in(records: &[Recorded], span: Span) -> Option<u64>
    ensures { result ≡ met_in (spaces_of records.now) span }
{
    let low = span.first / CHUNK_PAGES;
    let high = span.end().div_ceil(u128::from(CHUNK_PAGES)) as u64;
    (low..high).find(|chunk| is_owned(records, *chunk))
}

/// The least chunk of a span that some arena but one owns.
fn met_elsewhere(records: &[Recorded], arena: u32, span: Span) -> Option<u64>
    requires { arena < length records.now }
    ensures { result ≡ met_in (others_of arena (spaces_of records.now)) span }
{
    let low = span.first / CHUNK_PAGES;
    let high = span.end().div_ceil(u128::from(CHUNK_PAGES)) as u64;
    (low..high).find(|chunk| is_owned_elsewhere(records, arena, *chunk))
}

/// The place of the first arena of which an extent has a page.
fn place_of(records: &[Recorded], page: u64) -> Option<usize>
    ensures place { result ≡ position (λ r. list_any (λ p. has_page page p.span) r.space.parts) records.now }
    ensures within { IfSome result (λ place. place < length records.now) }
{
    records
        .iter()
        .position(|record| record.arena().holds_page(page))
}

/// The chunk that speaks against the answer to an alloc.
fn met_by_alloc(records: &[Recorded], heard: Heard) -> Option<u64>
    ensures { result ≡ met_by_alloc (spaces_of records.now) heard.ask heard.answer }
{
    let (Ask::Alloc { pages, align, .. }, Answer::Placed { first, .. }) = (heard.ask, heard.answer)
    else {
        return None;
    };
    let span = Span { first, pages };
    if span.is_in_space() && align != 0 && first % align == 0 {
        met_in(records, span)
    } else {
        None
    }
}

/// The chunk that speaks against a dalloc of an arena that was refused.
fn met_by_dalloc(records: &[Recorded], arena: u32, heard: Heard) -> Option<u64>
    requires { arena < length records.now }
    ensures { result ≡ met_by_dalloc (others_of arena (spaces_of records.now)) heard.ask heard.answer }
{
    match (heard.ask, heard.answer) {
        (Ask::Dalloc { span, .. }, Answer::Refused) => met_elsewhere(records, arena, span),
        _ => None,
    }
}

/// Puts the chunk that speaks against the answer which an operation of an arena carries into it, as it enters the journal.
fn settle(records: &[Recorded], arena: u32, op: &mut Op)
    requires { arena < length records.now }
    ensures { op.new ≡ with_chunk_found (spaces_of records.now) arena op.old }
{
    match op {
        Op::GrowDone { heard, found } => *found = met_by_alloc(records, *heard),
        Op::OfferDone { heard, found } => *found = met_by_dalloc(records, arena, *heard),
        _ => (),
    }
}

impl Arenas {
    /// The arenas of a new heap: arena 0 is there, and no other. Their journals are empty.
    pub fn new(alloc: Global) -> Result<Arenas, NoMemory>
        ensures { IfOk result (λ arenas. arenas ≡ opening_records) }
    {
        let journals = Vec::with_capacity(alloc, ARENAS as usize)?;
        let mut records = Vec::with_capacity(alloc, ARENAS as usize)?;
        for index in 0..ARENAS {
            records.push(Recorded::new(alloc, index)?)?;
        }
        Ok(Arenas { records, journals })
    }

    /// A turn of a client in an arena, whose entry joins the journal beside the ask that it carries, and may be taken out of its
    /// place for that. The chunk that speaks against that ask's answer is looked for among all arenas in this very turn. The
    /// reply is written into the place for it.
    /// Where memory is wanting, nothing changes in the arenas; that comes at the first turn of a unit alone.
    #[inline(always)]
    pub fn turn(
        &mut self,
        arena: u32,
        client: u32,
        op: &mut Op,
        asked: &Option<Asked>,
        reply: &mut Reply,
    ) -> Result<(), NoMemory>
        requires arena { arena < 32 }
        requires stands { IsTrue (stands (record_at self.old arena).space (entry_of client (with_chunk_found (spaces_of self.old) arena op.old))) }
        requires room { opens op.old ≡ false → 0 < room_in self.old arena client }
        requires kept { IsKept (entry_of client op.old) asked.now }
        ensures after { OnOk result (self.new ≡ records_turned self.old arena client (with_chunk_found (spaces_of self.old) arena op.old) asked.now) }
        ensures reply { OnOk result (reply.new ≡ reply_in self.old arena client (with_chunk_found (spaces_of self.old) arena op.old)) }
        ensures room { OnOk result (room_in self.new arena client ≤ all_rooms (record_at self.old arena).rooms + most_room op.old) }
        ensures err { OnErr result (self.new ≡ self.old) }
        ensures sure { opens op.old ≡ false → IsOk result }
        ensures others { (other : ℕ) → other ≢ client → (i : ℕ) → mine other (record_at self.new i).space ≡ mine other (record_at self.old i).space }
    {
        settle(&self.records, arena, op);
        self.records[arena as usize].turn(client, op, asked, reply)
    }

    /// What is always so: no chunk is met by extents of two arenas, so no page is in two of them, and each arena is what its
    /// journal leaves of its opening, where every entry could stand when it came. A journal has fewer than 2^64 entries.
    #[tactic(auto, using(crate::proofs::Turned::one_owner))]
    pub fn are_apart(&self)
        ensures arenas { IsArenas self.now }
        ensures apart { Apart (spaces_of self.now) }
        ensures pages { (page i j : ℕ) → list_any (λ p. has_page page p.span) (record_at self.now i).space.parts ≡ true
            → list_any (λ p. has_page page p.span) (record_at self.now j).space.parts ≡ true → i ≡ j }
        ensures replayed { (i : ℕ) → i < 32 → IsReplayed i (record_at self.now i).kept (record_at self.now i).space }
        ensures few { (i : ℕ) → i < 32 → length (record_at self.now i).kept < 2 ^ 64 }
    {
        let _records = &self.records;
    }

    /// The index of the arena of which an extent has a page, if there is one; no other arena has the page's chunk.
    pub fn arena_of(&self, page: u64) -> Option<u32>
        ensures { result ≡ position (λ r. list_any (λ p. has_page page p.span) r.space.parts) self.now }
    {
        let index = place_of(&self.records, page)?;
        Some(index as u32)
    }

    /// The arena with an index.
    pub fn at(&self, arena: u32) -> &Arena
        requires { arena < 32 }
        ensures space { result.now.space ≡ (record_at self.now arena).space }
        ensures rooms { result.now.rooms ≡ (record_at self.now arena).rooms }
    {
        self.records[arena as usize].arena()
    }

    /// The journals of all arenas, once no turn is to come: each leaves the space of its arena. Takes no memory.
    #[tactic(auto, using(crate::proofs::Turned::stand_by_index))]
    pub fn into_journals(self) -> Journals
        ensures journals { result ≡ map journal_of self }
        ensures replayed { (i : ℕ) → i < 32 → IsReplayed i (record_at self i).kept (record_at self i).space }
    {
        let Arenas {
            records,
            mut journals,
        } = self;
        for record in records {
            journals.push_reserved(record.into_journal());
        }
        Journals::from_vec(journals)
    }
}
