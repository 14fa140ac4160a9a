//! The lines of reports, compared with what they have to say.

use call_plan::{Answered, Given};
use report_text::{
    Cause, CtlAnswer, Head, ask_line, bad_line, call_line, counts_line, ctl_line, entries_line,
    idle_line, no_arena_line, threads_line, turn_line, usage_line,
};
use space_model::{Answer, Ask, Counts, Span, Why};
use std::alloc::Global;
use std::process::Abort;

/// The first chunk.
const CHUNK: Span = Span {
    first: 512,
    pages: 512,
};

/// Checks what was printed, and gives it up.
fn reads(rt: &impl Abort, lines: Vec<u8>, want: &str) {
    assert_eq!(rt; lines.as_slice(), want.as_bytes());
    drop(lines);
}

/// Checks the line of a call of client 7.
fn prints(rt: &impl Abort, alloc: Global, head: Head, answered: Answered, want: &str) {
    let mut line = Vec::new(alloc);
    call_line(&mut line, 7, head, &answered).expect(rt, "memory for a line");
    reads(rt, line, want);
}

/// The answer to a chunk that a hook placed at this page.
fn bad(first: u64, why: Why) -> Answered {
    let span = Span { first, pages: 512 };
    Answered::BadAnswer { span, why }
}

/// The answer of a region.
fn region() -> Answered {
    Answered::Ok(Given::Region {
        addr: 0x20_0000,
        class: 37,
    })
}

/// The answer of the limits of an arena.
fn limits() -> Answered {
    Answered::Ok(Given::Limits {
        dirty: Some(2),
        muzzy: None,
    })
}

#[test]
fn prints_regions(rt: HostRuntime) {
    let alloc = rt.alloc();
    let want = "t7 malloc a_1 @200000 20480\n";
    prints(&rt, alloc, Head::Malloc(b"a_1"), region(), want);
    let long = Head::Memalign(b"a_name_of_three_and_thirty_bytes_");
    let want = "t7 memalign a_name_of_three_and_thirty_bytes_ @200000 20480\n";
    prints(&rt, alloc, long, region(), want);
    prints(&rt, alloc, Head::Take, region(), "t7 take ok\n");
}

#[test]
fn prints_the_first_word_of_each_call(rt: HostRuntime) {
    let heads = [
        (Head::Free, "t7 free ok\n"),
        (Head::Publish, "t7 publish ok\n"),
        (Head::Take, "t7 take ok\n"),
        (Head::Purge, "t7 purge ok\n"),
        (Head::Decay, "t7 decay ok\n"),
        (Head::Dirty, "t7 dirty ok\n"),
        (Head::Muzzy, "t7 muzzy ok\n"),
        (Head::Reset, "t7 reset ok\n"),
        (Head::Destroy, "t7 destroy ok\n"),
        (Head::Create, "t7 create ok\n"),
        (Head::Arena, "t7 arena ok\n"),
        (Head::Cache, "t7 cache ok\n"),
        (Head::Flush, "t7 flush ok\n"),
    ];
    for (head, want) in heads {
        prints(&rt, rt.alloc(), head, Answered::Ok(Given::Done), want);
    }
}

#[test]
fn prints_bad_answers(rt: HostRuntime) {
    let alloc = rt.alloc();
    let off = bad(u64::MAX, Why::OffSpace);
    let far = "t7 memalign b bad answer @ffffffffffffffff000+512 off space\n";
    prints(&rt, alloc, Head::Memalign(b"b"), off, far);
    let crooked = bad(513, Why::Unaligned);
    let between = "t7 malloc a bad answer @201000+512 unaligned\n";
    prints(&rt, alloc, Head::Malloc(b"a"), crooked, between);
    let met = bad(512, Why::Meets(CHUNK));
    let meets = "t7 malloc a bad answer @200000+512 meets @200000+512\n";
    prints(&rt, alloc, Head::Malloc(b"a"), met, meets);
}

#[test]
fn prints_other_answers(rt: HostRuntime) {
    let alloc = rt.alloc();
    let want = "t7 decay dirty 2 muzzy -\n";
    prints(&rt, alloc, Head::Decay, limits(), want);
    let busy = Answered::Busy {
        held: 1,
        flights: 2,
        threads: 3,
    };
    let want = "t7 reset busy held 1 flights 2 threads 3\n";
    prints(&rt, alloc, Head::Reset, busy, want);
    let (unheld, want) = (Answered::NotHeld(0x20_5008), "t7 free not held @205008\n");
    prints(&rt, alloc, Head::Free, unheld, want);
}

#[test]
fn prints_why_nothing_was_done(rt: HostRuntime) {
    let alloc = rt.alloc();
    let memalign = Head::Memalign(b"a");
    let (large, align) = (Answered::TooLarge, Answered::BadAlign);
    prints(&rt, alloc, memalign, large, "t7 memalign a too large\n");
    prints(&rt, alloc, memalign, align, "t7 memalign a bad alignment\n");
    let (gone, full) = (Answered::NoArena(40), Answered::ArenasFull);
    prints(&rt, alloc, Head::Purge, gone, "t7 purge no arena 40\n");
    prints(&rt, alloc, Head::Create, full, "t7 create arenas full\n");
    let (first, made) = (Answered::Automatic, Answered::Ok(Given::Arena(31)));
    prints(&rt, alloc, Head::Reset, first, "t7 reset automatic arena\n");
    prints(&rt, alloc, Head::Create, made, "t7 create 31\n");
}

#[test]
fn prints_calls_of_controls(rt: HostRuntime) {
    let decay = Head::Ctl(b"arena.0.decay");
    let decayed = "t7 ctl arena.0.decay dirty 2 muzzy -\n";
    prints(&rt, rt.alloc(), decay, limits(), decayed);
}

#[test]
fn prints_no_limits_of_all_arenas(rt: HostRuntime) {
    let all = Head::CtlDone(b"arena.4096.decay");
    prints(
        &rt,
        rt.alloc(),
        all,
        limits(),
        "t7 ctl arena.4096.decay ok\n",
    );
}

#[test]
fn prints_writes_of_controls(rt: HostRuntime) {
    let alloc = rt.alloc();
    let create = Head::Ctl(b"arenas.create");
    let made = Answered::Ok(Given::Arena(2));
    prints(&rt, alloc, create, made, "t7 ctl arenas.create 2\n");
    let bind = Head::CtlDone(b"thread.arena");
    let bound = Answered::Ok(Given::Done);
    prints(&rt, alloc, bind, bound, "t7 ctl thread.arena ok\n");
    let limit = Head::CtlDone(b"arena.31.retain_grow_limit.and.more");
    let long = "t7 ctl arena.31.retain_grow_limit.and.more ok\n";
    prints(&rt, alloc, limit, Answered::Ok(Given::Done), long);
}

#[test]
fn prints_refused_calls_of_controls(rt: HostRuntime) {
    let alloc = rt.alloc();
    let bind = Head::CtlDone(b"thread.arena");
    let unbound = "t7 ctl thread.arena EFAULT no arena 40\n";
    prints(&rt, alloc, bind, Answered::NoArena(40), unbound);
    let reset = Head::Ctl(b"arena.0.reset");
    let automatic = "t7 ctl arena.0.reset EFAULT automatic arena\n";
    prints(&rt, alloc, reset, Answered::Automatic, automatic);
}

/// Checks the line of a control of client 3.
fn prints_answer(rt: &impl Abort, alloc: Global, answer: &CtlAnswer, want: &str) {
    let mut line = Vec::new(alloc);
    ctl_line(&mut line, 3, b"epoch", answer).expect(rt, "memory for a line");
    reads(rt, line, want);
}

#[test]
fn prints_answers_of_controls(rt: HostRuntime) {
    let answers = [
        (CtlAnswer::Done, "t3 ctl epoch ok\n"),
        (CtlAnswer::Number(4096), "t3 ctl epoch 4096\n"),
        (CtlAnswer::Truth(true), "t3 ctl epoch true\n"),
        (CtlAnswer::Truth(false), "t3 ctl epoch false\n"),
        (CtlAnswer::Time(10000), "t3 ctl epoch 10000\n"),
        (CtlAnswer::Time(-1), "t3 ctl epoch -1\n"),
        (CtlAnswer::Enoent, "t3 ctl epoch ENOENT\n"),
        (CtlAnswer::Eperm, "t3 ctl epoch EPERM\n"),
        (CtlAnswer::Einval, "t3 ctl epoch EINVAL\n"),
        (CtlAnswer::Gone(40), "t3 ctl epoch EFAULT no arena 40\n"),
    ];
    for (answer, want) in answers {
        prints_answer(&rt, rt.alloc(), &answer, want);
    }
}

/// Prints the lines of two asks, of a turn and of an idle client.
fn print_steps(rt: &impl Abort, lines: &mut Vec<u8>) {
    let placed = Answer::Placed {
        first: 1024,
        committed: true,
        zeroed: false,
    };
    let alloc = Ask::Alloc {
        at: None,
        pages: 512,
        align: 512,
        commit: false,
    };
    ask_line(lines, 3, alloc, placed).expect(rt, "memory for a line");
    ask_line(lines, 3, Ask::Commit(CHUNK), Answer::Refused).expect(rt, "memory for a line");
    turn_line(lines, 0).expect(rt, "memory for a line");
    idle_line(lines, 31).expect(rt, "memory for a line");
}

#[test]
fn prints_steps(rt: HostRuntime) {
    let mut lines = Vec::new(rt.alloc());
    print_steps(&rt, &mut lines);
    let want = "t3 ask alloc placed @400000\nt3 ask commit refused\nt0 turn\nt31 idle\n";
    reads(&rt, lines, want);
}

/// Prints the lines of these counts, of an arena that isn't there, and of threads.
fn print_counts(rt: &impl Abort, lines: &mut Vec<u8>, counts: &Counts) {
    counts_line(lines, 31, counts).expect(rt, "memory for a line");
    no_arena_line(lines, 5).expect(rt, "memory for a line");
    entries_line(lines, 31, 10, counts).expect(rt, "memory for a line");
    threads_line(lines, 4, 2, 10, 1).expect(rt, "memory for a line");
}

#[test]
fn prints_counts(rt: HostRuntime) {
    let counts = Counts {
        allocated: 112,
        active: 28672,
        dirty: 20480,
        muzzy: 4096,
        retained: 2_048_000,
        flight: 8192,
        mapped: 61440,
        small: 0,
        large: 0,
        regs: [0; 36],
        slabs: [0; 36],
        lextents: [0; 85],
    };
    let mut lines = Vec::new(rt.alloc());
    print_counts(&rt, &mut lines, &counts);
    let want =
        "arena 31 allocated 112 active 28672 dirty 20480 muzzy 4096 retained 2048000 flight 8192 mapped 61440\nno arena 5\narena 31 entries 10 allocated 112 active 28672 dirty 20480 muzzy 4096 retained 2048000 flight 8192 mapped 61440\nthreads 4 phases 2 calls 10 failed 1\n";
    reads(&rt, lines, want);
}

/// Checks the line of a bad line.
fn prints_cause(rt: &impl Abort, alloc: Global, cause: Cause, want: &str) {
    let mut line = Vec::new(alloc);
    bad_line(&mut line, 2, cause).expect(rt, "memory for a line");
    reads(rt, line, want);
}

#[test]
fn prints_causes(rt: HostRuntime) {
    let causes = [
        (Cause::LimitLines, "line 2: limit lines\n"),
        (Cause::LimitBytes, "line 2: limit bytes\n"),
        (Cause::Cut, "line 2: cut\n"),
        (Cause::Bytes, "line 2: bytes\n"),
        (Cause::Words, "line 2: words\n"),
        (Cause::Number, "line 2: number\n"),
        (Cause::LimitThreads, "line 2: limit threads\n"),
        (Cause::Range, "line 2: range\n"),
        (Cause::Clock, "line 2: clock\n"),
        (Cause::Phase, "line 2: phase\n"),
    ];
    for (cause, want) in causes {
        prints_cause(&rt, rt.alloc(), cause, want);
    }
}

#[test]
fn the_usage_line_names_the_lists_of_words(rt: HostRuntime) {
    let want = "usage: jarena replay [--json] | threads [--journal] | soak START CALLS | check\n";
    assert_eq!(rt; usage_line(), want);
}
