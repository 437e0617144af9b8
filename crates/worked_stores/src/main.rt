//! Reads each list of items of the table that lies beside it, as a node's store in a vault, and prints where a list does not say
//! what the table says. What a list says is then written anew into the vault, and after a stop it is read once more.
#![tactic(auto)]

mod items;
mod told;
mod words;

use anyhow::{Context, Result};
use items::items_of;
use std::fs;
use told::{told, told_anew};
use vault_store::MemVault;
use words::differs;

// A list of items as the table writes it, and what it is to say.
#[derive(Drop)]
struct Row<'a> {
    items: &'a str,
    says: &'a str,
}

fn main(rt: HostRuntime) -> Result<()> {
    let table = fs::read_to_string(&rt, "stores")?;
    let mut lists: u64 = 0;
    for line in table.as_str().lines() {
        if !line.starts_with('#') {
            report(&rt, &row_of(line)?)?;
            lists = lists.saturating_add(1);
        }
    }
    println!(rt; "{lists} lists")?;
    Ok(())
}

fn row_of(line: &str) -> Result<Row<'_>> {
    let (items, rest) = line.split_once(" | ").context("a row has items")?;
    let (says, _) = rest.split_once(" | ").context("a row has a reason")?;
    Ok(Row { items, says })
}

// Reads a list of items from a vault, and again once it is written anew and the node has stopped.
fn report(rt: &HostRuntime, row: &Row<'_>) -> Result<()> {
    let alloc = rt.alloc();
    let items = items_of(alloc, row.items)?;
    let mut vault = MemVault::new(alloc, items, Vec::new(alloc), Vec::new(alloc));
    let read = told(alloc, &mut vault)?;
    let again = told_anew(alloc, &mut vault)?;
    tell(rt, row, "read", read.as_str())?;
    tell(rt, row, "written anew", again.as_str())
}

// Prints a list that says something else, and how it was read.
fn tell(rt: &HostRuntime, row: &Row<'_>, how: &str, told: &str) -> Result<()> {
    if differs(row.says, told) {
        println!(rt; "{}\n  wanted: {}\n  {how}: {told}", row.items, row.says)?;
    }
    Ok(())
}
