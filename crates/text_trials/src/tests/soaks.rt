//! The lines that are drawn from 0, beside the same lines read from their texts, which were worked out apart.

use std::test::Fail;
use trace_soak::Lines;
use trace_text::read;

#[test]
fn the_lines_of_start_0_are_drawn(rt: HostRuntime) -> Result<(), Fail> {
    let alloc = rt.alloc();
    let texts = ["t3 malloc n8 21", "t1 malloc n155 968", "t1 free n155"];
    let mut lines = Lines::new(0, 64);
    for text in texts {
        assert_eq!(rt; lines.next_line(alloc)?, read(alloc, text.as_bytes()).ok());
    }
    assert_eq!(rt; lines.len(), 61);
    let mut last = None;
    for _ in 0..61 {
        last = lines.next_line(alloc)?;
    }
    assert_eq!(rt; last, read(alloc, b"t0 purge 0").ok());
    assert_eq!(rt; lines.next_line(alloc)?, None);
    Ok(())
}
