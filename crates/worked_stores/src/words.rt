// What a store says, in the words of the table.
ghost use Rattle.std.specs.Prelude.{◌≢◌, ◌↔◌, IsTrue};

use raft_durable::kept::Kept;
use raft_log::log::Log;
use raft_types::bytes::Bytes;
use std::alloc::{AllocError, Global};

/// Whether what is told is not what the table says.
pub fn differs(says: &str, told: &str) -> bool
    ensures { IsTrue result ↔ (says.now ≢ told.now) }
{
    says != told
}

/// Term, vote, index and term of the base, last index, entries and snapshot.
pub fn said(alloc: Global, kept: &Kept) -> Result<String, AllocError> {
    let mut out = String::new(alloc);
    let (base, base_term) = kept.log.base();
    let (last, _) = kept.log.last();
    let (term, vote) = (kept.term, kept.vote);
    write!(
        out,
        "term={term} vote={vote} base={base}/{base_term} last={last} entries="
    )?;
    push_entries(alloc, &mut out, &kept.log)?;
    write!(out, " snapshot=")?;
    push_snapshot(alloc, &mut out, &kept.snapshot)?;
    Ok(out)
}

// Term and bytes of each entry, with commas between.
fn push_entries(alloc: Global, out: &mut String, log: &Log) -> Result<(), AllocError> {
    let (base, _) = log.base();
    let (last, _) = log.last();
    if base == last {
        return out.push_str("-");
    }
    for i in 0..last - base {
        if 0 < i {
            out.push_str(",")?;
        }
        push_entry(alloc, out, log, base + i + 1)?;
    }
    Ok(())
}

fn push_entry(alloc: Global, out: &mut String, log: &Log, index: u64) -> Result<(), AllocError> {
    let term = log.term_at(index).unwrap_or(0);
    let digits = hex::encode(alloc, log.entry(index).unwrap_or(&[]))?;
    write!(out, "{term}:{digits}")
}

fn push_snapshot(
    alloc: Global,
    out: &mut String,
    snapshot: &Option<Bytes>,
) -> Result<(), AllocError> {
    match snapshot {
        Some(bytes) => out.push_str(hex::encode(alloc, bytes.as_slice())?.as_str()),
        None => out.push_str("none"),
    }
}
