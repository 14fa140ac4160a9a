//! Lines and what they say, and lines with each cause.

use std::alloc::Global;
use std::collections::HashMap;
use std::fmt::Write;
use std::process::Abort;
use trace_text::{LineFault, Name, read};

/// Lines, and below each the text of what it says.
const SAID: &str = "t31 malloc z_9 18446744073709551615
Ok(Call { client: 31, verb: Malloc { name: \"z_9\", size: 18446744073709551615 } })
t2 memalign a_1 64 3
Ok(Call { client: 2, verb: Memalign { name: \"a_1\", align: 64, size: 3 } })
t3 realloc a 0
Ok(Call { client: 3, verb: Realloc { name: \"a\", size: 0 } })
t3 mallocx a 100 4294967295
Ok(Call { client: 3, verb: MallocIn { name: \"a\", size: 100, slot: 4294967295 } })
t3 call freex @a 7
Ok(Start { client: 3, verb: FreeIn { region: At(10), slot: 7 } })
t0 free @a
Ok(Call { client: 0, verb: Free(At(10)) })
t2 publish a
Ok(Call { client: 2, verb: Publish(Name(\"a\")) })
t9 take @200000
Ok(Call { client: 9, verb: Take(At(2097152)) })
t0 decay 3
Ok(Call { client: 0, verb: Decay(3) })
t0 reset 4
Ok(Call { client: 0, verb: Reset(4) })
t0 destroy 5
Ok(Call { client: 0, verb: Destroy(5) })
t0 create 31
Ok(Call { client: 0, verb: Create(31) })
t0 arena 6
Ok(Call { client: 0, verb: Bind(6) })
t0 cache on
Ok(Call { client: 0, verb: Cache(true) })
t0 purge 4294967295
Ok(Call { client: 0, verb: Purge(4294967295) })
t0 dirty 0 -1
Ok(Call { client: 0, verb: Time { arena: 0, rest: Dirty, ms: -1 } })
t0 muzzy 40 1000000000
Ok(Call { client: 0, verb: Time { arena: 40, rest: Muzzy, ms: 1000000000 } })
t0 cache off
Ok(Call { client: 0, verb: Cache(false) })
t2 ctl arena.0.purge
Ok(Call { client: 2, verb: CtlPlain(\"arena.0.purge\") })
t2 ctl 0._ = =@A~8901234567890123
Ok(Call { client: 2, verb: CtlWrite { name: \"0._\", value: \"=@A~8901234567890123\" } })
refuse 31 dalloc all
Ok(Refuse { box_no: 31, kind: Dalloc, nth: 0 })
refuse 0 purge_lazy 2
Ok(Refuse { box_no: 0, kind: PurgeLazy, nth: 2 })
counts 4294967295
Ok(Counts(4294967295))
at 0
Ok(At(0))
t5 call flush
Ok(Start { client: 5, verb: Flush })
t5 step
Ok(Step(5))
t31 end
Ok(End(31))
phase
Ok(Phase { rounds: 0 })
phase background 1000
Ok(Phase { rounds: 1000 })
join
Ok(Join)
#  t0 free  a 
Ok(Blank)";

/// Writes what a line says.
fn tell(rt: &impl Abort, alloc: Global, line: &str, said: &mut String) {
    let read = read(alloc, line.as_bytes());
    write!(said, "{read:?}").expect(rt, "memory for what a line says");
    drop(read);
}

/// Checks what each of these lines says, by the text of that below it.
fn say(rt: &impl Abort, alloc: Global, lines: &str, said: &mut String) {
    for line in lines.lines() {
        if said.is_empty() {
            tell(rt, alloc, line, said);
        } else {
            assert_eq!(rt; said.as_str(), line);
            said.clear();
        }
    }
}

#[test]
fn lines_say_what_is_written(rt: HostRuntime) {
    assert_eq!(rt; SAID.lines().count(), 62);
    let mut said = String::new(rt.alloc());
    say(&rt, rt.alloc(), SAID, &mut said);
    drop(said);
}

/// Checks that each line of a text has this cause.
fn all_have(rt: &impl Abort, alloc: Global, text: &str, fault: LineFault) {
    for line in text.lines() {
        let told = read(alloc, line.as_bytes()).err();
        assert_eq!(rt; told, Some(fault), "{line}");
    }
}

#[test]
fn bad_bytes_clients_and_ranges_are_told(rt: HostRuntime) {
    let bytes = "t0\tfree a\n# \x7f\nt32 malloc A 01\x7f";
    all_have(&rt, rt.alloc(), bytes, LineFault::Bytes);
    let threads = "t32 malloc a 1\nt4294967296 flush\nt32 purge 4294967296";
    all_have(&rt, rt.alloc(), threads, LineFault::Threads);
    let range =
        "t0 purge 4294967296\nt0 create 32\nt0 dirty 0 1000000001\nrefuse 0 alloc 0\nrefuse 32 alloc 1\nphase background 0\nphase background 1001";
    all_have(&rt, rt.alloc(), range, LineFault::Range);
}

#[test]
fn bad_shapes_and_numbers_are_told(rt: HostRuntime) {
    let shapes =
        " \n #\nt0  free a\nt0 free a \nt0\nt0 call step\nt0 ctl a = 1 2\nrefuse 0 destroy 1\nphase background\nphase 1\nphase background 1 1";
    all_have(&rt, rt.alloc(), shapes, LineFault::Words);
    let words =
        "t0 malloc A 1\nt0 malloc a +1\nt0 free @A\nt0 free @00000000000000001\nt0 dirty 0 -2\nt0 realloc @a 1\nt0 mallocx a 1\nt0 freex a";
    all_have(&rt, rt.alloc(), words, LineFault::Words);
    let number =
        "t0 malloc a 01\nt0 malloc a 18446744073709551616\nt0 free @00\nt00 flush\nt32 malloc a 01\nphase background 01";
    all_have(&rt, rt.alloc(), number, LineFault::Number);
}

/// A name.
fn name(rt: &impl Abort, alloc: Global, text: &[u8; 1]) -> Name {
    Name::new(alloc, text).expect(rt, "memory for a name")
}

/// Checks which number a name has.
fn has(
    rt: &impl Abort,
    alloc: Global,
    regions: &HashMap<Name, u64>,
    text: &[u8; 1],
    want: Option<u64>,
) {
    let key = name(rt, alloc, text);
    assert_eq!(rt; regions.get(&key).copied(), want);
    drop(key);
}

#[test]
fn names_are_keys(rt: HostRuntime) {
    let alloc = rt.alloc();
    let mut regions = HashMap::new(alloc);
    let key = name(&rt, alloc, b"a");
    let had: Result<_, _> = regions.insert(key, 4096);
    assert_eq!(rt; had.expect(&rt, "memory for a number"), None);
    has(&rt, alloc, &regions, b"a", Some(4096));
    has(&rt, alloc, &regions, b"b", None);
    drop(regions);
}
