//! Finds the query of a slip in the score of a book, both on standard input, and prints the report.
#![tactic(auto)]

use report::report;
use std::io::{Read, Write};

// One byte more than the longest input that is no refusal by its length.
const LONGEST: u64 = 32_769;

fn main(rt: HostRuntime) -> anyhow::Result<()> {
    let mut input = Vec::new(rt.alloc());
    rt.stdin().take(LONGEST).read_to_end(&mut input)?;
    let mut text = [0u8; 8192];
    let length = report(rt.alloc(), input.as_slice(), &mut text)?;
    rt.stdout().write_all(&text[..length])?;
    Ok(())
}
