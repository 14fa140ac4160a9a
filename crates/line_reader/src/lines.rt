//! Lines from a source.

ghost use Rattle.std.specs.Prelude.{◌≡◌, ◌++◌, ◌+◌, ◌<◌, ◌≤◌, List, [], drop, false, length, take, true, None, IfErr, IfOk, IfSome, OnErr, OnOk};
ghost use Rattle.line_reader.specs.Lines.{HasNoNewline, HasStopCause, IsFirst, IsMore, MetEnd, SameUnread, is_whole_line};

use crate::Stop;
use edge_io::{Sink, Source};
use memchr::memchr;
use std::alloc::{AllocError as NoMemory, Global};
use std::marker::Model;

/// How many bytes are read at once.
const READ_BYTES: usize = 4096;

/// What stands first among the bytes of an input.
#[derive(Clone, Copy, Debug, PartialEq, Eq)]
pub enum Found {
    /// A line of so many bytes, behind which its newline stands.
    Line(usize),
    /// A line of more bytes than it may have.
    TooLong,
    /// The last line, behind which no newline stands.
    Cut,
    /// Nothing: the input has ended.
    End,
}

/// Bytes that were read and aren't used yet, seen as their list.
#[derive(Drop)]
pub struct Pending {
    bytes: Vec<u8>,
    at: usize,
}

impl Model for Pending {
    ghost use Rattle.std.specs.Prelude.{ℕ, ◌≤◌, List, drop, length};

    ghost Value = { List ℕ };

    ghost view = { λ p. drop p.at p.bytes.items };

    ghost invariant = { λ p. p.at ≤ length p.bytes.items };
}

impl Pending {
    /// No bytes. Takes no memory.
    pub fn new(alloc: Global) -> Pending
        ensures { result ≡ [] }
    {
        Pending {
            bytes: Vec::new(alloc),
            at: 0,
        }
    }

    /// The bytes, in order.
    pub fn as_slice(&self) -> &[u8]
        ensures { result.now ≡ self.now }
    {
        &self.bytes[self.at..]
    }

    /// Drops the first bytes, so many.
    pub fn skip(&mut self, count: usize)
        requires { count ≤ length self.old }
        ensures { self.new ≡ drop count self.old }
    {
        self.at += count;
    }

    /// Moves the bytes to the front, so that there is room behind them.
    fn compact(&mut self)
        ensures { self.new ≡ self.old }
    {
        if self.at > 0 {
            let count = self.bytes.len() - self.at;
            self.bytes.copy_within(self.at.., 0);
            self.bytes.truncate(count);
            self.at = 0;
        }
    }

    /// Puts bytes at the end. After an `Err` they are as they were.
    pub fn extend(&mut self, piece: &[u8]) -> Result<(), NoMemory>
        ensures ok { OnOk result (self.new ≡ self.old ++ piece.now) }
        ensures err { OnErr result (self.new ≡ self.old) }
    {
        self.compact();
        self.bytes.extend_from_slice(piece)
    }
}

/// Where the first newline stands among bytes, the first of which are known to have none, or that they are too many for a line.
fn line_in(bytes: &[u8], seen: usize, most: u64) -> Option<Found>
    requires seen { seen ≤ length bytes.now }
    requires none { HasNoNewline (take seen bytes.now) }
    ensures first { IfSome result (λ found. IsFirst most found bytes.now) }
    ensures whole { IfSome result (λ found. is_whole_line found ≡ true) }
    ensures none { result ≡ None → (length bytes.now ≤ most) × HasNoNewline bytes.now }
{
    match memchr(b'\n', &bytes[seen..]) {
        Some(place) if (seen + place) as u64 <= most => Some(Found::Line(seen + place)),
        None if bytes.len() as u64 <= most => None,
        _ => Some(Found::TooLong),
    }
}

/// Reads the next bytes of the source behind the pending ones, and gives how many they are: 0 at the end of the input.
fn read_more<S: Source<K>, K: Sink>(
    source: &mut S,
    sink: &K,
    pending: &mut Pending,
) -> Result<usize, Stop>
    ensures same { IfOk result (λ _. SameUnread pending.old (S.left source.old) pending.new (S.left source.new)) }
    ensures more { IfOk result (λ count. IsMore count pending.old pending.new (S.left source.new) (S.ended source.new)) }
    ensures cause { IfErr result (λ stop. HasStopCause stop (S.faults source.old) (S.faults source.new)) }
    ensures patient { K.waits sink.now ≡ false → S.hasty source.new ≡ S.hasty source.old }
    ensures counts { S.faults source.old ≤ S.faults source.new }
{
    let mut buf = [0u8; READ_BYTES];
    let Ok(count) = source.read(sink, &mut buf) else {
        return Err(Stop::ReadFault);
    };
    pending.extend(&buf[..count])?;
    Ok(count)
}

/// Finds what stands first among the bytes of an input: the pending ones and then those that the source has left, of which it
/// reads as many as that takes. Each read is shown the sink.
pub fn find_line<S: Source<K>, K: Sink>(
    source: &mut S,
    sink: &K,
    pending: &mut Pending,
    most: u64,
) -> Result<Found, Stop>
    ensures first { IfOk result (λ found. IsFirst most found pending.new) }
    ensures same { IfOk result (λ _. SameUnread pending.old (S.left source.old) pending.new (S.left source.new)) }
    ensures end { IfOk result (λ found. MetEnd found (S.left source.new) (S.ended source.new)) }
    ensures cause { IfErr result (λ stop. HasStopCause stop (S.faults source.old) (S.faults source.new)) }
    ensures patient { K.waits sink.now ≡ false → S.hasty source.new ≡ S.hasty source.old }
    ensures counts { S.faults source.old ≤ S.faults source.new }
{
    let mut seen = 0;
    loop {
        if let Some(found) = line_in(pending.as_slice(), seen, most) {
            return Ok(found);
        }
        seen = pending.as_slice().len();
        if read_more(source, sink, pending)? == 0 {
            return Ok(if seen == 0 { Found::End } else { Found::Cut });
        }
    }
}
