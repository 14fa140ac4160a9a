//! Entries of journals, printed and read again.

ghost use Rattle.std.specs.Prelude.{◌≡◌, Some, None};
ghost use Rattle.hook_api.specs.Asked.{heard_in};
ghost use Rattle.hook_api.specs.Kept.{heard_of};

use hook_api::{Asked, HookShelf, Kept, RisingHooks};
use journal::{ReadFault, print, read};
use size_classes::Addrs;
use space_model::{Addresses, Ask, Entry, Op, Rest, Setting, Span};
use std::alloc::Global;
use std::process::Abort;

/// The first chunk.
const CHUNK: Span = Span {
    first: 512,
    pages: 512,
};

/// The span with the greatest numbers.
const LAST: Span = Span {
    first: 18446744073709551615,
    pages: 18446744073709551615,
};

/// Checks that an entry is printed as this line.
fn is_printed(rt: &impl Abort, alloc: Global, index: u32, kept: &Kept, line: &str) {
    let mut out = Vec::new(alloc);
    print(index, kept, &mut out).expect(rt, "memory for a line");
    assert_eq!(rt; out.as_slice(), line.as_bytes());
    drop(out);
}

/// Checks that an entry is printed as this line, and is read from it again.
fn is_line(rt: &impl Abort, alloc: Global, index: u32, kept: &Kept, line: &str) {
    is_printed(rt, alloc, index, kept, line);
    let found = read(alloc, line.as_bytes());
    assert!(rt; found.is_ok(), "{line}");
    let (at, entry) = found.expect(rt, "an entry");
    assert_eq!(rt; at, index);
    assert!(rt; entry == *kept.entry(), "{line}");
    drop(entry);
}

/// Checks the line of an operation of client 31 on arena 4 that takes in no answer.
fn is_plain(rt: &impl Abort, alloc: Global, op: Op, line: &str)
    requires { heard_of op ≡ None }
{
    let kept = Kept::new(Entry { client: 31, op }, None);
    is_line(rt, alloc, 4, &kept, line);
    drop(kept);
}

/// Checks the line of a setting.
fn is_setting(rt: &impl Abort, alloc: Global, setting: Setting, line: &str) {
    is_plain(rt, alloc, Op::Set(setting), line);
}

/// Two addresses.
fn two_addresses(alloc: Global) -> Addresses {
    let mut list = Addrs::new(alloc);
    list.push(2097152);
    list.push(18446744073709551615);
    Addresses::new(list)
}

#[test]
fn operations_on_extents_and_regions(rt: HostRuntime) {
    let alloc = rt.alloc();
    let (pages, align) = (5, 18446744073709551615);
    let line = "4 31 look 5 18446744073709551615";
    is_plain(&rt, alloc, Op::Look { pages, align }, line);
    let (span, class, count) = (LAST, 255, 4294967295);
    let line = "4 31 land 18446744073709551615 18446744073709551615 255 4294967295";
    is_plain(&rt, alloc, Op::Land { span, class, count }, line);
    let addrs = two_addresses(alloc);
    let line = "4 31 back 2 2097152 18446744073709551615";
    is_plain(&rt, alloc, Op::Back { addrs }, line);
    let (span, tries) = (CHUNK, 3);
    let line = "4 31 putlook 512 512 3";
    is_plain(&rt, alloc, Op::PutLook { span, tries }, line);
    let (class, count) = (7, 64);
    is_plain(&rt, alloc, Op::Fill { class, count }, "4 31 fill 7 64");
    let (rest, keep) = (Rest::Muzzy, 0);
    let line = "4 31 purgetake muzzy 0";
    is_plain(&rt, alloc, Op::PurgeTake { rest, keep }, line);
    is_plain(&rt, alloc, Op::Offer { span }, "4 31 offer 512 512");
    let addr = 2097152;
    is_plain(&rt, alloc, Op::Publish { addr }, "4 31 publish 2097152");
    is_plain(&rt, alloc, Op::TakeOver { addr }, "4 31 takeover 2097152");
    let (pages, line) = (6, "4 31 widen 2097152 6");
    is_plain(&rt, alloc, Op::Widen { addr, pages }, line);
    let class = 36;
    is_plain(&rt, alloc, Op::Trim { addr, class }, "4 31 trim 2097152 36");
}

#[test]
fn operations_on_whole_arenas(rt: HostRuntime) {
    let alloc = rt.alloc();
    let (ms, now) = (-1, 200000000);
    is_plain(&rt, alloc, Op::Advance { now }, "4 31 advance 200000000");
    is_plain(&rt, alloc, Op::Reset { cached: 3 }, "4 31 reset 3");
    is_plain(&rt, alloc, Op::Destroy { cached: 0 }, "4 31 destroy 0");
    is_plain(&rt, alloc, Op::DestroyTake, "4 31 destroytake");
    is_plain(&rt, alloc, Op::Counts, "4 31 counts");
    let line = "4 31 set dirtyms -1 200000000";
    is_setting(&rt, alloc, Setting::DirtyMs { ms, now }, line);
    let line = "4 31 set muzzyms -1 200000000";
    is_setting(&rt, alloc, Setting::MuzzyMs { ms, now }, line);
    is_setting(&rt, alloc, Setting::HookBox(31), "4 31 set hookbox 31");
    is_setting(&rt, alloc, Setting::Bind, "4 31 set bind");
    is_setting(&rt, alloc, Setting::Unbind, "4 31 set unbind");
    let (chunks, line) = (16384, "4 31 set growlimit 16384");
    is_setting(&rt, alloc, Setting::GrowLimit { chunks }, line);
    let live = Setting::Live {
        box_no: 1,
        dirty_ms: 10000,
        muzzy_ms: -9223372036854775808,
        now: 0,
    };
    let line = "4 31 set live 1 10000 -9223372036854775808 0";
    is_setting(&rt, alloc, live, line);
}

/// A shelf of boxes that place one range behind the other, opt out of every dalloc, and accept all else.
fn rising(rt: &impl Abort, alloc: Global) -> HookShelf<RisingHooks> {
    let mut boxes = Vec::new(alloc);
    for _ in 0..32 {
        boxes
            .push(RisingHooks::new())
            .expect(rt, "memory for a box");
    }
    assert_eq!(rt; boxes.len(), 32);
    HookShelf::new(boxes)
}

/// Checks the line of an operation of client 2 on arena 0 that takes in the answer to an ask.
fn is_answered(rt: &impl Abort, alloc: Global, asked: Asked, op: Op, line: &str)
    requires { heard_of op ≡ Some (heard_in asked) }
{
    let kept = Kept::new(Entry { client: 2, op }, Some(asked));
    is_line(rt, alloc, 0, &kept, line);
    drop(kept);
}

/// Checks the lines of operations that take in the answers of a shelf.
fn take_in_answers(rt: &impl Abort, alloc: Global, shelf: &mut HookShelf<RisingHooks>) {
    let alloc_ask = Ask::Alloc {
        at: Some(512),
        pages: 512,
        align: 1024,
        commit: true,
    };
    let asked = shelf.ask(0, alloc_ask);
    let (heard, found) = (asked.heard(), Some(2));
    let line = "0 2 growdone alloc 512 512 1024 1 placed 1024 1 1 2";
    is_answered(rt, alloc, asked, Op::GrowDone { heard, found }, line);
    let (span, left) = (CHUNK, 5);
    let asked = shelf.ask(0, Ask::Split { span, left });
    let (heard, keep_low) = (asked.heard(), true);
    let line = "0 2 cutdone split 512 512 5 done 1";
    is_answered(rt, alloc, asked, Op::CutDone { heard, keep_low }, line);
    let (low, high) = (CHUNK, LAST);
    let asked = shelf.ask(0, Ask::Merge { low, high });
    let (heard, own_low) = (asked.heard(), false);
    let line = "0 2 mergedone merge 512 512 18446744073709551615 18446744073709551615 done 0";
    is_answered(rt, alloc, asked, Op::MergeDone { heard, own_low }, line);
    let committed = false;
    let asked = shelf.ask(0, Ask::Dalloc { span, committed });
    let (heard, found) = (asked.heard(), None);
    let line = "0 2 offerdone dalloc 512 512 0 refused -";
    is_answered(rt, alloc, asked, Op::OfferDone { heard, found }, line);
}

#[test]
fn operations_that_take_in_answers(rt: HostRuntime) {
    let mut shelf = rising(&rt, rt.alloc());
    take_in_answers(&rt, rt.alloc(), &mut shelf);
    drop(shelf);
}

/// Lines that are no entries, the first of which is empty.
const NO_ENTRIES: &str = "
0 0
0 4294967296 look 5 1
0 0 land 512 5 256 1
0 0 look 05 1
0 0 look 5 1 \n0 0  look 5 1
0 0 look 5 18446744073709551616
0 0 Look 5 1
0 0 back 2 4096
0 0 back 1 4096 8192
0 0 set dirtyms -0 0
0 0 set dirtyms 9223372036854775808 0
0 0 cutdone split 512 512 5 done 2
0 0 purgetake active 0
0 0 growdone alloc - - 512 0 placed 512 1 1 -";

#[test]
fn what_is_no_entry(rt: HostRuntime) {
    for line in NO_ENTRIES.lines() {
        let fault = read(rt.alloc(), line.as_bytes()).err();
        assert_eq!(rt; fault, Some(ReadFault::NotEntry), "{line}");
    }
}
