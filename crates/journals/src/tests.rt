//! The program over sources and sinks in memory.

use crate::runs::print_run;
use crate::words::{BOXES, Wanted, tell_usage, wanted_by};
use edge_io::{MemSink, ReadEdge};
use hook_api::{HookShelf, RisingHooks};
use ruled_hooks::RuledHooks;
use std::alloc::{AllocError as NoMemory, Global};
use std::io::{self, ErrorKind, Read};
use std::test::Fail;

const TRACE: &str = "t0 malloc a 20000\n";

const REPORT: &str = "t0 malloc a @200000 20480\n\
    arena 0 allocated 20480 active 20480 dirty 0 muzzy 0 retained 2076672 flight 0 mapped 20480\n";

const JOURNAL: &str = "0 0 look 5 1\n\
    0 0 growdone alloc - 512 512 0 placed 512 1 1 -\n\
    0 0 cutdone split 512 512 5 done 1\n\
    0 0 land 512 5 37 1\n";

const ASKS: &str = "box 0 alloc(NULL, 2097152, 2097152, false) -> 0x200000, true, true\n\
    box 0 split(0x200000, 2097152, 20480) -> done\n";

/// What came of a run: its status and its output.
type Outcome = (u8, String);

/// A shelf whose boxes follow rules, and place one range behind the other.
fn ruled(alloc: Global, wanted: &Wanted) -> Result<HookShelf<RuledHooks<RisingHooks>>, NoMemory> {
    let mut boxes = Vec::new(alloc);
    while boxes.len() < BOXES {
        boxes.push(RuledHooks::new(RisingHooks::new(), wanted.rules[boxes.len()]))?;
    }
    Ok(HookShelf::new(boxes))
}

/// A reader that may fail where the input has ended.
#[derive(Drop)]
struct Breaking<R> {
    inner: R,
    breaks: bool,
}

impl<R: Read> Read for Breaking<R> {
    fn read(&mut self, buf: &mut [u8]) -> io::Result<usize> {
        match self.inner.read(buf) {
            Ok(0) if self.breaks => Err(io::Error::from(ErrorKind::Other)),
            answer => answer,
        }
    }
}

/// What the program does by these words, where a read fails at the end of the input, if it breaks, and these writes fail.
fn outcome_by(
    alloc: Global,
    words: &[&str],
    input: &str,
    breaks: bool,
    writes: &[u64],
) -> Result<Outcome, NoMemory> {
    let mut list = Vec::new(alloc);
    for word in words {
        list.push(String::from_str(alloc, word)?)?;
    }
    let mut source = ReadEdge::new(Breaking {
        inner: input.as_bytes(),
        breaks,
    });
    let mut sink = MemSink::new(alloc, writes.to_vec(alloc)?);
    let Some(wanted) = wanted_by(&list) else {
        return Ok((tell_usage(&mut sink), String::new(alloc)));
    };
    let shelf = ruled(alloc, &wanted)?;
    let status = print_run(alloc, &mut source, &mut sink, shelf, wanted.printed);
    let output = String::from_utf8_lossy(alloc, sink.held())?;
    Ok((status, output))
}

/// Prints the journals of a trace, where a read fails at its end, if it breaks, and these writes fail.
fn outcome(alloc: Global, input: &str, breaks: bool, writes: &[u64]) -> Result<Outcome, NoMemory> {
    outcome_by(alloc, &[], input, breaks, writes)
}

#[test]
fn journals_are_printed_whatever_the_lines_came_to(rt: HostRuntime) -> Result<(), Fail> {
    // The input, whether a read fails at its end, and the status.
    let rows: [(&str, bool, u8); 4] = [
        (TRACE, false, 0),
        ("t0 malloc a 20000\nt0 mallo\n", false, 3),
        (TRACE, true, 4),
        ("t0 malloc a 20000\nt32 flush\n", false, 7),
    ];
    for (input, breaks, wanted) in rows {
        let (status, output) = outcome(rt.alloc(), input, breaks, &[])?;
        assert_eq!(rt; (status, output.as_str()), (wanted, JOURNAL));
    }
    let (status, output) = outcome(rt.alloc(), "", false, &[])?;
    assert_eq!(rt; (status, output.as_str()), (0, ""));
    Ok(())
}

#[test]
fn each_word_prints_what_it_says(rt: HostRuntime) -> Result<(), Fail> {
    let rows: [(&[&str], &str); 3] = [
        (&["replay"], REPORT),
        (&["journals"], JOURNAL),
        (&["asks"], ASKS),
    ];
    for (words, wanted) in rows {
        let (status, output) = outcome_by(rt.alloc(), words, TRACE, false, &[])?;
        assert_eq!(rt; (status, output.as_str()), (0, wanted));
    }
    Ok(())
}

#[test]
fn a_failed_write_is_told(rt: HostRuntime) -> Result<(), Fail> {
    let (status, output) = outcome(rt.alloc(), TRACE, false, &[1])?;
    assert_eq!(rt; (status, output.as_str()), (5, ""));
    Ok(())
}

#[test]
fn words_get_the_usage_line(rt: HostRuntime) -> Result<(), Fail> {
    let mut sink = MemSink::new(rt.alloc(), Vec::new(rt.alloc()));
    assert_eq!(rt; tell_usage(&mut sink), 2);
    assert_eq!(rt;
        sink.held(),
        b"usage: journals [replay|journals|asks [RULE..]]\n".as_slice()
    );
    let mut failing = MemSink::new(rt.alloc(), [1].to_vec(rt.alloc())?);
    assert_eq!(rt; tell_usage(&mut failing), 5);
    Ok(())
}

#[test]
fn asks_are_printed_as_boxes_answer_by_their_rules(rt: HostRuntime) -> Result<(), Fail> {
    // The words, and what stands last in the text.
    let rows: [(&[&str], &str); 6] = [
        (&["asks"], ASKS),
        (&["asks", "1:pool:1"], ASKS),
        (
            &["asks", "0:pool:511"],
            "box 0 alloc(NULL, 2097152, 2097152, false) -> refused\n",
        ),
        (
            &["asks", "0:uncommitted"],
            "-> done\nbox 0 commit(0x200000, 20480) -> done\n",
        ),
        (
            &["asks", "0:refuse:split:1"],
            "box 0 split(0x200000, 2097152, 20480) -> refused\n",
        ),
        (
            &["asks", "0:wrong:1:7"],
            "box 0 alloc(NULL, 2097152, 2097152, false) -> 0x7000, true, true\n",
        ),
    ];
    for (words, wanted) in rows {
        let (status, output) = outcome_by(rt.alloc(), words, TRACE, false, &[])?;
        assert_eq!(rt; (status, output.as_str().ends_with(wanted)), (0, true));
    }
    Ok(())
}

#[test]
fn other_words_are_no_rules(rt: HostRuntime) -> Result<(), Fail> {
    let rows: [&[&str]; 6] = [
        &["ask"],
        &["asks", "32:pool:1"],
        &["asks", "0:pool:01"],
        &["asks", "0:pool"],
        &["asks", "0:refuse:ask:1"],
        &["asks", "0:pool:1:"],
    ];
    for words in rows {
        let (status, output) = outcome_by(rt.alloc(), words, TRACE, false, &[])?;
        assert_eq!(rt; (status, output.as_str()), (2, ""));
    }
    Ok(())
}
