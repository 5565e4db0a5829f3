//! Runs a table of books and slips, good and bad, and prints what the calls tell of each. The table
//! and what should be printed come from `tools/book_cases.py`.
#![tactic(auto)]

mod again;
mod damage;
mod table;

use again::{book_case, slip_case};
use anyhow::anyhow;
use damage::{Damage, damaged};
use std::io::{Read, Write};
use table::{CaseKind, split_case};

fn main(rt: HostRuntime) -> anyhow::Result<()> {
    let mut table = Vec::new(rt.alloc());
    rt.stdin().read_to_end(&mut table)?;
    run_all(&rt, table.as_slice())?;
    damage_first(&rt, table.as_slice())
}

/// Prints what is told of each case.
fn run_all(rt: &HostRuntime, table: &[u8]) -> anyhow::Result<()> {
    let mut left = table;
    while let Some((case, rest)) = split_case(left) {
        let text = match case.kind {
            CaseKind::Slip => slip_case(rt.alloc(), case.content)?,
            CaseKind::Book => book_case(rt.alloc(), case.content)?,
        };
        rt.stdout().write_all(case.label)?;
        println!(rt; ": {text}")?;
        left = rest;
    }
    Ok(())
}

/// Damages the first case, a good book, byte by byte.
fn damage_first(rt: &HostRuntime, table: &[u8]) -> anyhow::Result<()> {
    let Some((first, _)) = split_case(table) else {
        return Err(anyhow!("no case"));
    };
    let Damage { tried, refused } = damaged(rt.alloc(), first.content)?;
    println!(rt; "bytes damaged one at a time: {tried}, refused by 2: {refused}")?;
    Ok(())
}
