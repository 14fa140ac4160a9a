//! What a line of a trace says.

use crate::Name;
use hook_api::Kind;
use space_model::Rest;

/// What a call names its region by.
#[derive(Debug, PartialEq, Eq, Drop)]
pub enum Ptr {
    /// The region that a call of its name got.
    Name(Name),
    /// An address, in bytes.
    At(u64),
}

/// A call, with its arguments.
#[derive(Debug, PartialEq, Eq, Drop)]
pub enum Verb {
    /// `malloc NAME N`: a region of at least `size` bytes, which is then known by the name.
    Malloc { name: Name, size: u64 },
    /// `memalign NAME ALIGN N`: the same, at a multiple of `align` bytes.
    Memalign { name: Name, align: u64, size: u64 },
    /// `realloc NAME N`: the region of the name becomes one of at least `size` bytes, where it is or elsewhere.
    Realloc { name: Name, size: u64 },
    /// `free PTR`: gives the region back.
    Free(Ptr),
    /// `publish PTR`: leaves the region to whoever takes it.
    Publish(Ptr),
    /// `take PTR`: takes over a published region.
    Take(Ptr),
    /// `purge I`: gives the unused pages of arena I back.
    Purge(u32),
    /// `decay I`: gives the unused pages of arena I back that may not stay any longer.
    Decay(u32),
    /// `dirty I MS` or `muzzy I MS`: how long unused pages of an arena may stay, in milliseconds, or -1 for ever.
    Time { arena: u32, rest: Rest, ms: i64 },
    /// `reset I`: gives all regions of arena I back.
    Reset(u32),
    /// `destroy I`: ends arena I.
    Destroy(u32),
    /// `create B`: a new arena over box B, from 0 to 31.
    Create(u32),
    /// `arena I`: the client allocates from arena I.
    Bind(u32),
    /// `cache on` or `cache off`: whether the client caches what it frees.
    Cache(bool),
    /// `flush`: gives all back that the client has cached.
    Flush,
    /// `mallocx NAME N K`: as a malloc with the client's cache on, in its explicit cache K, below 2^32.
    MallocIn { name: Name, size: u64, slot: u32 },
    /// `freex PTR K`: gives the region back as with the client's cache on, by its explicit cache K, below 2^32.
    FreeIn { region: Ptr, slot: u32 },
    /// `ctl NAME`: reads a control, or does what it stands for.
    CtlPlain(Name),
    /// `ctl NAME = VALUE`: writes a control.
    CtlWrite { name: Name, value: Name },
}

/// A line.
#[derive(Debug, PartialEq, Eq, Drop)]
pub enum Line {
    /// An empty line, or one that begins with `#`.
    Blank,
    /// `tC CALL`: a call of client C, from 0 to 31, which is run to its end.
    Call { client: u32, verb: Verb },
    /// `tC call CALL`: a call of client C that is only started.
    Start { client: u32, verb: Verb },
    /// `tC step`: one turn or one ask of client C's open call.
    Step(u32),
    /// `tC end`: runs client C's open call to its end.
    End(u32),
    /// `at N`: the moment, in nanoseconds.
    At(u64),
    /// `refuse B KIND N` or `refuse B KIND all`: box B, from 0 to 31, refuses the Nth ask of this kind from here on, or
    /// all of them, where `nth` is 0.
    Refuse { box_no: u32, kind: Kind, nth: u64 },
    /// `counts I`: prints the counts of arena I.
    Counts(u32),
    /// `phase` or `phase background K`: a phase of the clients begins, beside which the background worker makes so many
    /// rounds, from 1 to 1000, or none, which is 0.
    Phase { rounds: u32 },
    /// `join`: it ends.
    Join,
}
