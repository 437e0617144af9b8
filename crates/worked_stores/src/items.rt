// Items as the table writes them.
use anyhow::{Context, Result, bail};
use raft_durable::items::{entry_bytes, snap_bytes, vote_bytes};
use raft_types::bytes::Bytes;
use std::alloc::Global;

/// The items of a list: `()` where there are none, else one behind the other with a space between.
pub fn items_of(alloc: Global, text: &str) -> Result<Vec<Bytes>> {
    let mut items = Vec::new(alloc);
    if text == "()" {
        return Ok(items);
    }
    for word in text.split(' ') {
        items.push(item_of(alloc, word)?)?;
    }
    Ok(items)
}

fn item_of(alloc: Global, word: &str) -> Result<Bytes> {
    if let Some(digits) = word.strip_prefix("hex:") {
        return bytes_of(alloc, digits);
    }
    let (kind, fields) = word.split_once('(').context("an item has fields")?;
    let fields = fields.strip_suffix(')').context("fields end")?;
    let (first, rest) = fields.split_once(',').context("an item has two fields")?;
    let first = first.parse::<u64>()?;
    match kind {
        "V" => Ok(vote_bytes(alloc, first, rest.parse::<u8>()?)?),
        "S" => snap_of(alloc, first, rest),
        "E" => entry_of(alloc, first, rest),
        _ => bail!("no item is named {kind}"),
    }
}

fn bytes_of(alloc: Global, digits: &str) -> Result<Bytes> {
    Ok(Bytes::from_vec(hex::decode(alloc, digits)?))
}

// A snapshot's index, its term, and its bytes behind a comma.
fn snap_of(alloc: Global, index: u64, rest: &str) -> Result<Bytes> {
    let (term, digits) = rest.split_once(',').context("a snapshot has bytes")?;
    let snapshot = bytes_of(alloc, digits)?;
    Ok(snap_bytes(alloc, index, term.parse::<u64>()?, snapshot.as_slice())?)
}

// An entry's index, its term, and its bytes behind a comma.
fn entry_of(alloc: Global, index: u64, rest: &str) -> Result<Bytes> {
    let (term, digits) = rest.split_once(',').context("an entry has bytes")?;
    let entry = bytes_of(alloc, digits)?;
    Ok(entry_bytes(alloc, index, term.parse::<u64>()?, entry.as_slice())?)
}
