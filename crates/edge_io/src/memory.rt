//! A source and a sink that live in memory and fail at planned calls.
ghost use Rattle.std.specs.Prelude.{◌≡◌, ◌+◌, ◌-◌, ◌^◌, ◌<◌, ◌≤◌, ◌↔◌, ◌||◌, min, [], ◌++◌, length, take, drop, false, true, Some, IfOk, OnOk, OnErr, IsErr, IsOk, IsTrue};
ghost use Rattle.edge_io.specs.Bytes.{Rose, is_end};
ghost use Rattle.edge_io.specs.Planned.{FailsNext};

use crate::traits::count_fault;
use crate::{Failed, Sink, Source};
use std::alloc::Global;
use std::marker::Model;

/// A source of the bytes that it was made of. Contracts see it as a `PlannedSource`.
#[derive(Drop)]
pub struct MemSource {
    bytes: Vec<u8>,
    at: usize,
    most: u64,
    fail: Vec<u64>,
    calls: u64,
    faults: u64,
    ended: bool,
    hasty: bool,
}

impl Model for MemSource {
    ghost use Rattle.std.specs.Prelude.{◌≡◌, ◌≤◌, ◌<◌, drop, vec_len, true};
    ghost use Rattle.edge_io.specs.Planned.{PlannedSource};

    ghost Value = { PlannedSource };

    ghost view = { λ s. record {
      left = drop s.at s.bytes.items;
      most = s.most;
      fail = s.fail.items;
      calls = s.calls;
      faults = s.faults;
      ended = s.ended;
      hasty = s.hasty;
    } };

    // A read may give a byte, and where the end was met, nothing is left.
    ghost invariant = { λ s. (0 < s.most) × (s.at ≤ vec_len s.bytes) × (s.ended ≡ true → s.at ≡ vec_len s.bytes) };
}

impl MemSource {
    /// A source of these bytes that fails at the calls whose ordinals stand in `fail`, and nowhere
    /// else. The first call of `read` has the ordinal 1.
    pub fn new(bytes: Vec<u8>, fail: Vec<u64>) -> MemSource
        ensures left { result.left ≡ bytes.items }
        ensures most { result.most ≡ 2 ^ 64 - 1 }
        ensures fail { result.fail ≡ fail.items }
        ensures calls { result.calls ≡ 0 }
        ensures faults { result.faults ≡ 0 }
        ensures ended { result.ended ≡ false }
        ensures hasty { result.hasty ≡ false }
    {
        MemSource::pieces(bytes, fail, u64::MAX)
    }

    /// The same, which gives at most so many bytes at a read, one at least.
    pub fn pieces(bytes: Vec<u8>, fail: Vec<u64>, most: u64) -> MemSource
        requires { 1 ≤ most }
        ensures left { result.left ≡ bytes.items }
        ensures most { result.most ≡ most }
        ensures fail { result.fail ≡ fail.items }
        ensures calls { result.calls ≡ 0 }
        ensures faults { result.faults ≡ 0 }
        ensures ended { result.ended ≡ false }
        ensures hasty { result.hasty ≡ false }
    {
        MemSource {
            bytes,
            at: 0,
            most,
            fail,
            calls: 0,
            faults: 0,
            ended: false,
            hasty: false,
        }
    }

    /// Whether a read has begun while bytes waited in the sink that it was shown.
    pub fn was_hasty(&self) -> bool
        ensures { result ≡ self.now.hasty }
    {
        self.hasty
    }

    /// Whether a read has met the end. Nothing is left then.
    pub fn has_ended(&self) -> bool
        ensures mark { result ≡ self.now.ended }
        ensures nothing_left { IsTrue result → self.now.left ≡ [] }
    {
        self.ended
    }
}

impl<K: Sink> Source<K> for MemSource {
    ghost left = { λ s. Some s.left };

    ghost faults = { λ s. s.faults };

    ghost ended = { λ s. s.ended };

    ghost hasty = { λ s. s.hasty };

    fn read(&mut self, sink: &K, buf: &mut [u8]) -> Result<usize, Failed>
        ensures bound { IfOk result (λ n. n ≤ length buf.new) }
        ensures moved { IfOk result (λ n. self.old.left ≡ take n buf.new ++ self.new.left) }
        ensures count { IfOk result (λ n. n ≡ min (min self.old.most (length buf.old)) (length self.old.left)) }
        ensures end { IfOk result (λ n. n ≡ 0 → 0 < length buf.old → self.new.left ≡ []) }
        ensures mark { self.new.ended ≡ (self.old.ended || is_end result (length buf.old)) }
        ensures haste { self.new.hasty ≡ (self.old.hasty || K.waits sink.now) }
        ensures planned { IsErr result ↔ FailsNext self.old.fail self.old.calls }
        ensures failed { OnErr result (Rose self.old.faults self.new.faults) }
        ensures kept { OnErr result (self.new.left ≡ self.old.left) }
        ensures unfailed { OnOk result (self.new.faults ≡ self.old.faults) }
        ensures by_one { self.new.faults ≤ self.old.faults + 1 }
        ensures counts { self.old.faults ≤ self.new.faults }
        ensures plan { self.new.fail ≡ self.old.fail }
        ensures most { self.new.most ≡ self.old.most }
        ensures calls { self.new.calls ≡ min (self.old.calls + 1) (2 ^ 64 - 1) }
    {
        self.hasty |= sink.is_waiting();
        if is_planned(&self.fail, &mut self.calls) {
            count_fault(&mut self.faults);
            return Err(Failed);
        }
        let rest = &self.bytes[self.at..];
        let n = rest.len().min(room_in(self.most, buf.len()));
        buf[..n].copy_from_slice(&rest[..n]);
        self.at += n;
        if n == 0 && !buf.is_empty() {
            self.ended = true;
        }
        Ok(n)
    }
}

// How many bytes a call may move at most: so many at a call, and so many that there is room for.
fn room_in(most: u64, room: usize) -> usize
    ensures { result ≡ min most room }
{
    (room as u64).min(most) as usize
}

// Counts a call, and tells whether it is one that fails.
fn is_planned(fail: &[u64], calls: &mut u64) -> bool
    ensures planned { IsTrue result ↔ FailsNext fail.now calls.old }
    ensures counted { calls.new ≡ min (calls.old + 1) (2 ^ 64 - 1) }
{
    let Some(ordinal) = calls.checked_add(1) else {
        return false;
    };
    *calls = ordinal;
    fail.contains(&ordinal)
}

/// A sink that keeps what is written to it. Contracts see it as a `PlannedSink`.
#[derive(Drop)]
pub struct MemSink {
    bytes: Vec<u8>,
    most: u64,
    fail: Vec<u64>,
    calls: u64,
    faults: u64,
    waits: bool,
}

impl Model for MemSink {
    ghost use Rattle.std.specs.Prelude.{◌<◌};
    ghost use Rattle.edge_io.specs.Planned.{PlannedSink};

    ghost Value = { PlannedSink };

    ghost view = { λ s. record {
      held = s.bytes.items;
      most = s.most;
      fail = s.fail.items;
      calls = s.calls;
      faults = s.faults;
      waits = s.waits;
    } };

    // A write may take a byte.
    ghost invariant = { λ s. 0 < s.most };
}

impl MemSink {
    /// An empty sink that fails at the calls whose ordinals stand in `fail`. The first call of `write`
    /// has the ordinal 1. It may fail at another one too, for want of memory.
    pub fn new(alloc: Global, fail: Vec<u64>) -> MemSink
        ensures held { result.held ≡ [] }
        ensures most { result.most ≡ 2 ^ 64 - 1 }
        ensures fail { result.fail ≡ fail.items }
        ensures calls { result.calls ≡ 0 }
        ensures faults { result.faults ≡ 0 }
        ensures waits { result.waits ≡ false }
    {
        MemSink::pieces(alloc, fail, u64::MAX)
    }

    /// The same, which takes at most so many bytes at a write, one at least.
    pub fn pieces(alloc: Global, fail: Vec<u64>, most: u64) -> MemSink
        requires { 1 ≤ most }
        ensures held { result.held ≡ [] }
        ensures most { result.most ≡ most }
        ensures fail { result.fail ≡ fail.items }
        ensures calls { result.calls ≡ 0 }
        ensures faults { result.faults ≡ 0 }
        ensures waits { result.waits ≡ false }
    {
        MemSink {
            bytes: Vec::new(alloc),
            most,
            fail,
            calls: 0,
            faults: 0,
            waits: false,
        }
    }

    /// The bytes that were written.
    pub fn held(&self) -> &[u8]
        ensures { result.now ≡ self.now.held }
    {
        &self.bytes
    }
}

impl Sink for MemSink {
    ghost held = { λ s. Some s.held };

    ghost faults = { λ s. s.faults };

    ghost waits = { λ s. s.waits };

    fn is_waiting(&self) -> bool {
        self.waits
    }

    fn write(&mut self, piece: &[u8]) -> Result<usize, Failed>
        ensures count { IfOk result (λ n. n ≡ min self.old.most (length piece.now)) }
        ensures some { IfOk result (λ n. 0 < length piece.now → 0 < n) }
        ensures appended { IfOk result (λ n. self.new.held ≡ self.old.held ++ take n piece.now) }
        ensures planned { FailsNext self.old.fail self.old.calls → IsErr result }
        ensures failed { OnErr result (Rose self.old.faults self.new.faults) }
        ensures kept { OnErr result (self.new.held ≡ self.old.held) }
        ensures unfailed { OnOk result (self.new.faults ≡ self.old.faults) }
        ensures waiting { IfOk result (λ n. 0 < n → self.new.waits ≡ true) }
        ensures still_waiting { self.old.waits ≡ true → self.new.waits ≡ true }
        ensures by_one { self.new.faults ≤ self.old.faults + 1 }
        ensures counts { self.old.faults ≤ self.new.faults }
        ensures plan { self.new.fail ≡ self.old.fail }
        ensures most { self.new.most ≡ self.old.most }
        ensures calls { self.new.calls ≡ min (self.old.calls + 1) (2 ^ 64 - 1) }
    {
        let taken = &piece[..room_in(self.most, piece.len())];
        if is_planned(&self.fail, &mut self.calls) || self.bytes.extend_from_slice(taken).is_err() {
            count_fault(&mut self.faults);
            return Err(Failed);
        }
        self.waits |= !taken.is_empty();
        Ok(taken.len())
    }

    fn flush(&mut self) -> Result<(), Failed>
        ensures same { self.new ≡ record self.old { waits = false } }
        ensures ok { IsOk result }
    {
        self.waits = false;
        Ok(())
    }
}
