//! Tells what the book on standard input is: kind, tracks and columns, or why it is refused.
#![tactic(auto)]

use book::describe;
use std::io::{Read, Write};

fn main(rt: HostRuntime) -> anyhow::Result<()> {
    let mut input = Vec::new(rt.alloc());
    rt.stdin().read_to_end(&mut input)?;
    let mut line = [0u8; 64];
    let length = describe(rt.alloc(), input.as_slice(), &mut line)?;
    rt.stdout().write_all(&line[..length])?;
    Ok(())
}
