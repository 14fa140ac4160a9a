//! Inputs in memory, and what they come to.

ghost use Rattle.std.specs.Prelude.{◌≤◌};

use crate::check;
use crate::checks::judge;
use crate::verdicts::{End, Limits, Verdict};
use edge_io::{MemSource, Quiet};
use line_reader::Stop;
use std::alloc::Global;
use std::test::Fail;

/// The entries of a malloc of 20480 bytes in arena 0.
const MALLOC: &str =
    "0 0 look 5 1\n0 0 growdone alloc - 512 512 0 placed 512 1 1 -\n0 0 cutdone split 512 512 5 done 1\n0 0 land 512 5 37 1\n";

/// The entries that make arena 1 live, bind a client to it and give it the chunk of arena 0.
const SAME_CHUNK: &str =
    "1 0 set live 1 10000 0 0\n1 0 set bind\n1 0 look 5 1\n1 0 growdone alloc - 512 512 0 placed 512 1 1 -\n";

/// The entries that do so with the next chunk.
const NEXT_CHUNK: &str =
    "1 0 set live 1 10000 0 0\n1 0 set bind\n1 0 look 5 1\n1 0 growdone alloc - 512 512 0 placed 1024 1 1 -\n";

/// Limits that small inputs pass.
const SMALL: Limits = Limits {
    lines: 3,
    bytes: 12,
};

/// What a verdict says, in a line.
fn text_of(alloc: Global, verdict: &Verdict) -> Result<String, Fail> {
    Ok(match verdict {
        Verdict::Accepted { entries, ends } => {
            let mut text = format!(in alloc; "accepted {entries}")?;
            for end in ends.as_slice() {
                text.push_str(end_text(alloc, end)?.as_str())?;
            }
            text
        }
        Verdict::NotEntry { line } => format!(in alloc; "line {line}: entry")?,
        Verdict::NotStanding { line } => format!(in alloc; "line {line}: step")?,
        Verdict::Met { chunk, low, high } => {
            format!(in alloc; "chunk {chunk}: arenas {low} {high}")?
        }
        Verdict::Limit { line, bytes: true } => format!(in alloc; "line {line}: limit bytes")?,
        Verdict::Limit { line, bytes: false } => format!(in alloc; "line {line}: limit lines")?,
        Verdict::ReadFault => format!(in alloc; "read fault")?,
        Verdict::NoMemory => format!(in alloc; "no memory")?,
    })
}

/// A live arena at the end, with some of its counts.
fn end_text(alloc: Global, end: &End) -> Result<String, Fail> {
    let End {
        index,
        entries,
        counts,
    } = end;
    let (active, retained, mapped) = (counts.active, counts.retained, counts.mapped);
    Ok(format!(in alloc;
        ", arena {index} entries {entries} active {active} retained {retained} mapped {mapped}"
    )?)
}

/// What an input comes to, which is read in pieces of so many bytes.
fn in_pieces(alloc: Global, input: &str, most: u64) -> Result<String, Fail>
    requires { 1 ≤ most }
{
    let mut source = MemSource::pieces(input.as_bytes().to_vec(alloc)?, Vec::new(alloc), most);
    text_of(alloc, &check(alloc, &mut source, &Quiet::new()))
}

/// What an input comes to within small limits.
fn in_small(alloc: Global, input: &str) -> Result<String, Fail> {
    let mut source = MemSource::new(input.as_bytes().to_vec(alloc)?, Vec::new(alloc));
    match judge(alloc, &mut source, &Quiet::new(), SMALL) {
        Ok(verdict) => text_of(alloc, &verdict),
        Err(Stop::ReadFault) => text_of(alloc, &Verdict::ReadFault),
        Err(Stop::NoMemory) => text_of(alloc, &Verdict::NoMemory),
    }
}

/// The texts one behind the other.
fn together(alloc: Global, texts: &[&str]) -> Result<String, Fail> {
    let mut all = String::new(alloc);
    for text in texts {
        all.push_str(text)?;
    }
    Ok(all)
}

const ONE: &str = "accepted 4, arena 0 entries 4 active 20480 retained 2076672 mapped 20480";

#[test]
fn a_malloc_is_accepted(rt: HostRuntime) -> Result<(), Fail> {
    let alloc = rt.alloc();
    assert_eq!(rt; in_pieces(alloc, MALLOC, 1)?.as_str(), ONE);
    assert_eq!(rt; in_pieces(alloc, MALLOC, 7)?.as_str(), ONE);
    assert_eq!(rt; in_pieces(alloc, MALLOC, 4096)?.as_str(), ONE);
    Ok(())
}

#[test]
fn lines_of_a_report_are_passed_over(rt: HostRuntime) -> Result<(), Fail> {
    let alloc = rt.alloc();
    let input = together(
        alloc,
        &["threads 2 joins 1\n", MALLOC, "arena 0 allocated 20480\n"],
    )?;
    assert_eq!(rt; in_pieces(alloc, input.as_str(), 4096)?.as_str(), ONE);
    Ok(())
}

#[test]
fn two_arenas_may_not_own_one_chunk(rt: HostRuntime) -> Result<(), Fail> {
    let alloc = rt.alloc();
    let input = together(alloc, &[MALLOC, SAME_CHUNK])?;
    assert_eq!(rt;
        in_pieces(alloc, input.as_str(), 4096)?.as_str(),
        "chunk 1: arenas 0 1"
    );
    let input = together(alloc, &[SAME_CHUNK, MALLOC])?;
    assert_eq!(rt;
        in_pieces(alloc, input.as_str(), 4096)?.as_str(),
        "chunk 1: arenas 0 1"
    );
    Ok(())
}

#[test]
fn two_arenas_may_have_chunks_side_by_side(rt: HostRuntime) -> Result<(), Fail> {
    let alloc = rt.alloc();
    let input = together(alloc, &[MALLOC, NEXT_CHUNK])?;
    let both =
        "accepted 8, arena 0 entries 4 active 20480 retained 2076672 mapped 20480, arena 1 entries 4 active 0 retained 0 mapped 2097152";
    assert_eq!(rt; in_pieces(alloc, input.as_str(), 4096)?.as_str(), both);
    Ok(())
}

#[test]
fn the_first_bad_line_is_told(rt: HostRuntime) -> Result<(), Fail> {
    let alloc = rt.alloc();
    let rows = [
        (
            "0 0 look 5 1\n0 0 growdone alloc - 512 512 0 placed 512 1 1 -\n0 0 land 512 5 37 1\n",
            "line 3: step",
        ),
        ("32 0 look 5 1\n", "line 1: entry"),
        ("0 32 look 5 1\n", "line 1: step"),
        ("0 4294967296 look 5 1\n", "line 1: entry"),
        ("0 0 look 5 1\n0 0 look 5 1", "line 2: entry"),
        ("0 0 look 5 1\narena 0", "line 2: entry"),
        ("0 0 look 5 1\n\n", "line 2: entry"),
        ("arena\n", "line 1: entry"),
        (
            "",
            "accepted 0, arena 0 entries 0 active 0 retained 0 mapped 0",
        ),
    ];
    for (input, told) in rows {
        assert_eq!(rt; in_pieces(alloc, input, 4096)?.as_str(), told);
    }
    Ok(())
}

#[test]
fn limits_are_told(rt: HostRuntime) -> Result<(), Fail> {
    let alloc = rt.alloc();
    let rows = [
        (
            "0 0 look 5 1\n0 0 look 5 1\n0 0 look 5 1\n",
            "accepted 3, arena 0 entries 3 active 0 retained 0 mapped 0",
        ),
        (
            "0 0 look 5 1\n0 0 look 5 1\n0 0 look 5 1\n\n",
            "line 4: limit lines",
        ),
        (
            "0 0 look 5 1\n0 0 look 5 1\n0 0 look 5 1\n0 0 look 512 512",
            "line 4: limit lines",
        ),
        ("0 0 look 5 1\n0 0 look 512 1\n", "line 2: limit bytes"),
        ("0 0 look 5 1\n0 0 look 512 1", "line 2: limit bytes"),
        ("0 0 look 0 1\n0 0 look 512 1\n", "line 1: step"),
        ("arena 0 allocated 0\n", "line 1: limit bytes"),
    ];
    for (input, told) in rows {
        assert_eq!(rt; in_small(alloc, input)?.as_str(), told);
    }
    Ok(())
}

#[test]
fn a_read_that_fails_is_told(rt: HostRuntime) -> Result<(), Fail> {
    let alloc = rt.alloc();
    for call in 1..12 {
        let mut source = MemSource::pieces(
            MALLOC.as_bytes().to_vec(alloc)?,
            [call].to_vec(alloc)?,
            16,
        );
        let told = text_of(alloc, &check(alloc, &mut source, &Quiet::new()))?;
        let wanted = if call < 10 { "read fault" } else { ONE };
        assert_eq!(rt; told.as_str(), wanted);
    }
    Ok(())
}
