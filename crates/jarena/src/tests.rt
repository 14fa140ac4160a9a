//! The program over sources and sinks in memory.

mod gates;

use crate::runs::run;
use addr_space::LyingHooks;
use edge_io::{MemSink, MemSource, WriteEdge};
use hook_api::{ExtentHooks, HookShelf, Placed, RisingHooks};
use std::alloc::{AllocError as NoMemory, Global};
use std::io::{self, ErrorKind, Write};
use std::sync::Wait;
use std::test::Fail;
use std::thread::Threads;

const USAGE: &str =
    "usage: jarena replay [--json] | threads [--journal] | soak START CALLS | check\n";

const LINE: &str = "t0 malloc a 20000\n";

const MALLOC: &str = "t0 malloc a @200000 20480\n";

const MAPPED: &str =
    "arena 0 allocated 20480 active 20480 dirty 0 muzzy 0 retained 2076672 flight 0 mapped 20480\n";

const EMPTY: &str = "arena 0 allocated 0 active 0 dirty 0 muzzy 0 retained 0 flight 0 mapped 0\n";

const JOURNAL: &str = "0 0 look 5 1\n\
    0 0 growdone alloc - 512 512 0 placed 512 1 1 -\n\
    0 0 cutdone split 512 512 5 done 1\n\
    0 0 land 512 5 37 1\n";

const ACCEPTED: &str =
    "arena 0 entries 4 allocated 20480 active 20480 dirty 0 muzzy 0 retained 2076672 flight 0 mapped 20480\n\
    accepted 4\n";

const NO_ENTRIES: &str =
    "arena 0 entries 0 allocated 0 active 0 dirty 0 muzzy 0 retained 0 flight 0 mapped 0\naccepted 0\n";

const PHASE: &str = "phase\nt0 malloc a 20000\njoin\n";

const SUMMARY: &str =
    "arena 0 entries 4 allocated 20480 active 20480 dirty 0 muzzy 0 retained 2076672 flight 0 mapped 20480\n\
    threads 1 phases 1 calls 1 failed 0\n";

const WITH_JOURNALS: &str =
    "arena 0 entries 4 allocated 20480 active 20480 dirty 0 muzzy 0 retained 2076672 flight 0 mapped 20480\n\
    threads 1 phases 1 calls 1 failed 0\n\
    0 0 look 5 1\n\
    0 0 growdone alloc - 512 512 0 placed 512 1 1 -\n\
    0 0 cutdone split 512 512 5 done 1\n\
    0 0 land 512 5 37 1\n";

const NO_PHASES: &str =
    "arena 0 entries 0 allocated 0 active 0 dirty 0 muzzy 0 retained 0 flight 0 mapped 0\n\
    threads 0 phases 0 calls 0 failed 0\n";

const MEETING: &str = "0 0 look 5 1\n\
    0 0 growdone alloc - 512 512 0 placed 512 1 1 -\n\
    1 0 set live 1 10000 0 0\n\
    1 0 set bind\n\
    1 0 look 5 1\n\
    1 0 growdone alloc - 512 512 0 placed 512 1 1 -\n";

/// What a run is given: its words, its input, and the ordinals of the reads and the writes that fail.
#[derive(Clone, Copy)]
struct Given<'a> {
    words: &'a [&'a str],
    input: &'a str,
    reads: &'a [u64],
    writes: &'a [u64],
}

/// What came of a run: its status, its output, and how many journals and asks it handed out.
type Outcome = (u8, String, [usize; 2]);

/// A shelf whose boxes place one range behind the other.
fn rising(alloc: Global) -> Result<HookShelf<RisingHooks>, NoMemory> {
    let mut boxes = Vec::new(alloc);
    while boxes.len() < 32 {
        boxes.push(RisingHooks::new())?;
    }
    Ok(HookShelf::new(boxes))
}

/// A shelf whose boxes place every range at this page.
fn lying(alloc: Global, first: u64) -> Result<HookShelf<LyingHooks>, NoMemory> {
    let placed = Placed {
        first,
        committed: true,
        zeroed: true,
    };
    let mut boxes = Vec::new(alloc);
    while boxes.len() < 32 {
        boxes.push(LyingHooks::new(placed))?;
    }
    Ok(HookShelf::new(boxes))
}

/// A writer that takes all, and whose flush with this ordinal fails.
#[derive(Drop)]
struct Flushing {
    flushes: u64,
    failing: u64,
}

impl Write for Flushing {
    fn write(&mut self, buf: &[u8]) -> io::Result<usize> {
        Ok(buf.len())
    }

    fn flush(&mut self) -> io::Result<()> {
        self.flushes = self.flushes.saturating_add(1);
        if self.flushes == self.failing {
            return Err(io::Error::from(ErrorKind::Other));
        }
        Ok(())
    }
}

/// These words as texts.
fn texts(alloc: Global, words: &[&str]) -> Result<Vec<String>, NoMemory> {
    let mut texts = Vec::new(alloc);
    for word in words {
        texts.push(String::from_str(alloc, word)?)?;
    }
    Ok(texts)
}

/// Runs the program over a shelf, and gives what came of that.
fn outcome_over<R: Threads + Wait + Sync, H: ExtentHooks + Send>(
    rt: &R,
    alloc: Global,
    given: Given<'_>,
    shelf: HookShelf<H>,
) -> Result<Outcome, NoMemory> {
    let words = texts(alloc, given.words)?;
    let input = given.input.as_bytes().to_vec(alloc)?;
    let mut source = MemSource::new(input, given.reads.to_vec(alloc)?);
    let mut sink = MemSink::new(alloc, given.writes.to_vec(alloc)?);
    let run = run(rt, alloc, &words, &mut source, &mut sink, shelf);
    let handed = [run.journals.as_slice().len(), run.heard.len()];
    let output = String::from_utf8_lossy(alloc, sink.held())?;
    Ok((run.status, output, handed))
}

/// Runs the program over boxes that place one range behind the other.
fn outcome<R: Threads + Wait + Sync>(
    rt: &R,
    alloc: Global,
    given: Given<'_>,
) -> Result<Outcome, NoMemory> {
    let shelf = rising(alloc)?;
    outcome_over(rt, alloc, given, shelf)
}

#[test]
fn words_in_no_list_get_the_usage_line(rt: HostRuntime) -> Result<(), Fail> {
    let wrong: [&[&str]; 6] = [
        &[],
        &["--json", "replay"],
        &["replay "],
        &["soak", "07", "0"],
        &["soak", "18446744073709551616", "0"],
        &["soak", "7", "1000001"],
    ];
    for words in wrong {
        let given = Given {
            words,
            input: LINE,
            reads: &[],
            writes: &[],
        };
        let (status, output, handed) = outcome(&rt, rt.alloc(), given)?;
        assert_eq!(rt; (status, output.as_str(), handed), (2, USAGE, [0, 0]));
        let failing = Given {
            writes: &[1],
            ..given
        };
        let (status, output, handed) = outcome(&rt, rt.alloc(), failing)?;
        assert_eq!(rt; (status, output.as_str(), handed), (5, "", [0, 0]));
    }
    Ok(())
}

#[test]
fn a_soak_prints_its_counts_alone(rt: HostRuntime) -> Result<(), Fail> {
    let given = Given {
        words: &["soak", "7", "0"],
        input: LINE,
        reads: &[1],
        writes: &[],
    };
    let (status, output, handed) = outcome(&rt, rt.alloc(), given)?;
    assert_eq!(rt; (status, handed), (0, [32, 0]));
    let expected = format!(in rt.alloc(); "{EMPTY}calls 0 ok 0 failed 0\n")?;
    assert_eq!(rt; output.as_str(), expected.as_str());

    // From 0 the first two calls allocate, and one grant of a chunk serves both.
    let given = Given {
        words: &["soak", "0", "2"],
        writes: &[1],
        ..given
    };
    let (status, output, handed) = outcome(&rt, rt.alloc(), given)?;
    assert_eq!(rt; (status, output.as_str(), handed), (5, "", [32, 3]));
    Ok(())
}

#[test]
fn threads_tell_what_their_journals_leave(rt: HostRuntime) -> Result<(), Fail> {
    // The words, the input, the reads and writes that fail; then the status, the output, and how many journals are handed out.
    let rows: [(&[&str], &str, &[u64], &[u64], u8, &str, usize); 9] = [
        (&["threads"], PHASE, &[], &[], 0, SUMMARY, 32),
        (
            &["threads", "--journal"],
            PHASE,
            &[],
            &[],
            0,
            WITH_JOURNALS,
            32,
        ),
        (&["threads"], "", &[], &[], 0, NO_PHASES, 32),
        (&["threads"], LINE, &[], &[], 3, "line 1: phase\n", 0),
        (
            &["threads"],
            "phase\nt32 flush\n",
            &[],
            &[],
            7,
            "line 2: limit threads\n",
            0,
        ),
        (&["threads"], "phase\njoin", &[], &[], 3, "line 2: cut\n", 0),
        (&["threads"], PHASE, &[1], &[], 4, "", 0),
        (&["threads"], PHASE, &[], &[1], 5, "", 32),
        (&["threads"], LINE, &[], &[1], 5, "", 0),
    ];
    for (words, input, reads, writes, status, text, journals) in rows {
        let given = Given {
            words,
            input,
            reads,
            writes,
        };
        let (told, output, handed) = outcome(&rt, rt.alloc(), given)?;
        assert_eq!(rt;
            (told, output.as_str(), handed),
            (status, text, [journals, 0])
        );
    }
    Ok(())
}

#[test]
fn a_check_tells_its_verdict(rt: HostRuntime) -> Result<(), Fail> {
    // The input, the reads and the writes that fail; then the status and the output.
    let rows: [(&str, &[u64], &[u64], u8, &str); 8] = [
        (JOURNAL, &[], &[], 0, ACCEPTED),
        ("", &[], &[], 0, NO_ENTRIES),
        (
            "0 0 look 5 1\n0 0 land 512 5 37 1\n",
            &[],
            &[],
            8,
            "line 2: step\n",
        ),
        (
            "0 0 look 5 1\n0 0 look 05 1\n",
            &[],
            &[],
            8,
            "line 2: entry\n",
        ),
        ("0 0 look 5 1\narena", &[], &[], 8, "line 2: entry\n"),
        (MEETING, &[], &[], 8, "chunk 1: arenas 0 1\n"),
        (JOURNAL, &[1], &[], 4, ""),
        (JOURNAL, &[], &[1], 5, ""),
    ];
    for (input, reads, writes, status, text) in rows {
        let given = Given {
            words: &["check"],
            input,
            reads,
            writes,
        };
        let (told, output, handed) = outcome(&rt, rt.alloc(), given)?;
        assert_eq!(rt; (told, output.as_str(), handed), (status, text, [0, 0]));
    }
    Ok(())
}

#[test]
fn a_replay_hands_out_what_it_did(rt: HostRuntime) -> Result<(), Fail> {
    // The input, the reads and writes that fail; then the status, the output's parts, and how many asks were heard.
    let rows: [(&str, &[u64], &[u64], u8, [&str; 2], usize); 4] = [
        (LINE, &[], &[], 0, [MALLOC, MAPPED], 2),
        ("", &[], &[], 0, ["", EMPTY], 0),
        (LINE, &[2], &[], 4, [MALLOC, ""], 2),
        (LINE, &[], &[1], 5, ["", ""], 2),
    ];
    for (input, reads, writes, status, [answer, counts], asks) in rows {
        let given = Given {
            words: &["replay"],
            input,
            reads,
            writes,
        };
        let (seen, output, handed) = outcome(&rt, rt.alloc(), given)?;
        assert_eq!(rt; (seen, handed), (status, [32, asks]));
        let expected = format!(in rt.alloc(); "{answer}{counts}")?;
        assert_eq!(rt; output.as_str(), expected.as_str());
    }
    Ok(())
}

#[test]
fn wrong_ranges_are_told(rt: HostRuntime) -> Result<(), Fail> {
    // The page at which each range is placed, and what a trace of mallocs of a chunk answers then.
    let rows = [
        (
            512,
            "t0 malloc a 2097152\nt0 malloc b 2097152\n",
            "t0 malloc a @200000 2097152\nt0 malloc b bad answer @200000+1024 meets @200000+512\n\
             arena 0 allocated 2097152 active 2097152 dirty 0 muzzy 0 retained 0 flight 0 mapped 2097152\n",
        ),
        (
            513,
            "t0 malloc a 2097152\n",
            "t0 malloc a bad answer @201000+512 unaligned\n\
             arena 0 allocated 0 active 0 dirty 0 muzzy 0 retained 0 flight 0 mapped 0\n",
        ),
        (
            0,
            "t0 malloc a 2097152\n",
            "t0 malloc a bad answer @0+512 off space\n\
             arena 0 allocated 0 active 0 dirty 0 muzzy 0 retained 0 flight 0 mapped 0\n",
        ),
    ];
    for (first, input, report) in rows {
        let given = Given {
            words: &["replay"],
            input,
            reads: &[],
            writes: &[],
        };
        let (status, output, _) = outcome_over(&rt, rt.alloc(), given, lying(rt.alloc(), first)?)?;
        assert_eq!(rt; (status, output.as_str()), (0, report));
    }
    Ok(())
}

#[test]
fn a_flush_that_fails_is_a_write_that_failed(rt: HostRuntime) -> Result<(), Fail> {
    // The words, the ordinal of the flush that fails, and the status. A replay of one line flushes before it looks for each of
    // two lines and at its end, and what writes alone does at its end.
    let rows: [(&[&str], u64, u8); 8] = [
        (&["replay"], 1, 5),
        (&["replay"], 2, 5),
        (&["replay"], 3, 5),
        (&["replay"], 4, 0),
        (&["soak", "0", "2"], 1, 5),
        (&["soak", "0", "2"], 2, 0),
        (&["help"], 1, 5),
        (&["help"], 2, 2),
    ];
    let alloc = rt.alloc();
    for (words, failing, status) in rows {
        let mut source = MemSource::new(LINE.as_bytes().to_vec(alloc)?, Vec::new(alloc));
        let mut sink = WriteEdge::new(Flushing {
            flushes: 0,
            failing,
        });
        let words = texts(alloc, words)?;
        let run = run(&rt, alloc, &words, &mut source, &mut sink, rising(alloc)?);
        assert_eq!(rt; run.status, status);
    }
    Ok(())
}

#[test]
fn a_limit_comes_before_a_read_that_fails(rt: HostRuntime) -> Result<(), Fail> {
    // How many letters stand there without a newline, and the status and the report where the read behind them would fail.
    let rows = [(256, 4, ""), (257, 7, "line 1: limit bytes\n")];
    for (count, status, report) in rows {
        let mut input = String::new(rt.alloc());
        for _ in 0..count {
            input.push('a')?;
        }
        let given = Given {
            words: &["replay"],
            input: input.as_str(),
            reads: &[2],
            writes: &[],
        };
        let (seen, output, handed) = outcome(&rt, rt.alloc(), given)?;
        assert_eq!(rt; (seen, output.as_str(), handed), (status, report, [32, 0]));
    }
    Ok(())
}
