//! What a node keeps.
ghost use Rattle.std.specs.Prelude.{◌≡◌, ◌<◌, ◌≤◌, ◌+◌, ◌-◌, ◌++◌, ℕ, suc, [], List, map, IfOk, OnOk, IsErrOf};
ghost use Rattle.raft_types.specs.Items.{number};
ghost use Rattle.raft_types.specs.Log.{last_index};
ghost use Rattle.raft_durable.specs.declared.kept.KeptFault.TheVariants.{NoMemory};
ghost use Rattle.raft_durable.specs.Bytes.{item_bytes};
ghost use Rattle.raft_durable.specs.Stores.{read_store, entry_of, snap_bytes, kept_bytes};

use crate::items::{entry_bytes, snap_bytes, vote_bytes};
use crate::reading::Reading;
use raft_log::log::Log;
use raft_types::bytes::Bytes;
use std::alloc::{AllocError, AllocFailed, Global};

/// What a node keeps over a stop.
#[derive(Drop)]
pub struct Kept {
    pub term: u64,
    /// For whom it voted in this term: 0 for nobody.
    pub vote: u8,
    pub log: Log,
    /// The bytes of the snapshot that the log's base stands for. Without one the base is 0, of term 0.
    pub snapshot: Option<Bytes>,
}

/// Why items were not read.
#[derive(Clone, Copy, Debug, PartialEq, Eq)]
pub enum KeptFault {
    /// They are no node's store.
    Bad,
    /// There was no memory.
    NoMemory,
}

impl From<AllocError> for KeptFault {
    ghost from_gives = { λ _ e. e ≡ NoMemory };

    fn from(_: AllocError) -> Self {
        KeptFault::NoMemory
    }
}

impl<T: Drop> From<AllocFailed<T>> for KeptFault {
    ghost from_gives = { λ _ e. e ≡ NoMemory };

    fn from(_: AllocFailed<T>) -> Self {
        KeptFault::NoMemory
    }
}

// The entry that a log keeps at an index, as an item.
#[tactic(auto, using(crate::proofs::Pushing::term_known, crate::proofs::Pushing::entry_known))]
fn entry_item(alloc: Global, log: &Log, index: u64) -> Result<Bytes, AllocError>
    requires above { log.now.base < index }
    requires below { index ≤ last_index log.now }
    ensures { IfOk result (λ b. b ≡ item_bytes [] (entry_of log.now (index - (log.now.base + 1)))) }
{
    let term = log.term_at(index).unwrap_or(0);
    let entry = log.entry(index).unwrap_or(&[]);
    entry_bytes(alloc, index, term, entry)
}

// Appends the entries of a log as items.
fn push_entries(alloc: Global, items: &mut Vec<Bytes>, log: &Log) -> Result<(), AllocError>
    ensures { OnOk result ((snapshot : List ℕ) → items.new.items ≡ items.old.items ++ map (item_bytes snapshot) (number (suc log.now.base) log.now.entries)) }
{
    let (base, _) = log.base();
    let (last, _) = log.last();
    let count = last - base;
    'entries: for i in 0..count {
        items.push(entry_item(alloc, log, base + i + 1)?)?;
    }
    Ok(())
}

impl Kept {
    /// What these items say, read from the first on. Whether the snapshot's bytes are a snapshot, whether its position is its
    /// index, and whether an entry's bytes are an entry, is not asked. It copies the bytes of each entry and of the snapshot once.
    pub fn read(alloc: Global, items: &[Bytes]) -> Result<Kept, KeptFault>
        ensures value { IfOk result (λ kept. read_store items.now ≡ Some kept) }
        ensures bad { IsErrOf result KeptFault.Bad → read_store items.now ≡ None }
    {
        let mut reading = Reading::start(alloc);
        'items: for item in items {
            reading.take(alloc, item.as_slice())?;
        }
        reading.finish()
    }

    /// The items that say this: the snapshot where there is one, term and vote, and the entries in order.
    pub fn items(&self, alloc: Global) -> Result<Vec<Bytes>, AllocError>
        ensures { IfOk result (λ items. items.items ≡ kept_bytes self.now) }
    {
        let mut items = self.snap_first(alloc)?;
        items.push(vote_bytes(alloc, self.term, self.vote)?)?;
        push_entries(alloc, &mut items, &self.log)?;
        Ok(items)
    }

    // The snapshot's item, where there is one.
    fn snap_first(&self, alloc: Global) -> Result<Vec<Bytes>, AllocError>
        ensures { IfOk result (λ items. items.items ≡ snap_bytes self.now.snapshot self.now.log) }
    {
        let Some(snapshot) = &self.snapshot else {
            return Ok(Vec::new(alloc));
        };
        let (index, term) = self.log.base();
        let mut items = Vec::new(alloc);
        items.push(snap_bytes(alloc, index, term, snapshot.as_slice())?)?;
        Ok(items)
    }
}
