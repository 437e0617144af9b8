//! Items as bytes.
ghost use Rattle.std.specs.Prelude.{◌≡◌, [], IfOk};
ghost use Rattle.raft_types.specs.declared.item.Item.{Item};
ghost use Rattle.raft_durable.specs.Bytes.{item_bytes};

use crate::limits::{ENTRY_TAG, SNAP_TAG, VOTE_TAG};
use crate::numbers::put_u64;
use raft_types::bytes::Bytes;
use raft_types::item::Item;
use std::alloc::{AllocError, Global};

/// A snapshot that stands for the log up to an index, whose entry had this term. It copies the snapshot.
pub fn snap_bytes(
    alloc: Global,
    index: u64,
    term: u64,
    snapshot: &[u8],
) -> Result<Bytes, AllocError>
    ensures { IfOk result (λ b. b ≡ item_bytes snapshot.now (Item.Snap index term)) }
{
    let mut out = vec![in alloc; SNAP_TAG]?;
    put_u64(&mut out, index)?;
    put_u64(&mut out, term)?;
    out.extend_from_slice(snapshot)?;
    Ok(Bytes::from_vec(out))
}

/// A node's term and vote.
pub fn vote_bytes(alloc: Global, term: u64, vote: u8) -> Result<Bytes, AllocError>
    ensures { IfOk result (λ b. b ≡ item_bytes [] (Item.Vote term vote)) }
{
    let mut out = vec![in alloc; VOTE_TAG]?;
    put_u64(&mut out, term)?;
    out.push(vote)?;
    Ok(Bytes::from_vec(out))
}

/// The entry at an index. It copies the entry.
pub fn entry_bytes(alloc: Global, index: u64, term: u64, entry: &[u8]) -> Result<Bytes, AllocError>
    ensures { IfOk result (λ b. b ≡ item_bytes [] (Item.Entry index term entry.now)) }
{
    let mut out = vec![in alloc; ENTRY_TAG]?;
    put_u64(&mut out, index)?;
    put_u64(&mut out, term)?;
    out.extend_from_slice(entry)?;
    Ok(Bytes::from_vec(out))
}

/// Any item. The bytes of the snapshot are read for a snapshot's item alone.
pub fn item_bytes(alloc: Global, item: &Item, snapshot: &[u8]) -> Result<Bytes, AllocError>
    ensures { IfOk result (λ b. b ≡ item_bytes snapshot.now item.now) }
{
    match item {
        Item::Snap { index, term } => snap_bytes(alloc, *index, *term, snapshot),
        Item::Vote { term, vote } => vote_bytes(alloc, *term, *vote),
        Item::Entry { index, term, entry } => {
            entry_bytes(alloc, *index, *term, entry.as_slice())
        }
    }
}
