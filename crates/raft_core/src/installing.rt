//! Chunks of a snapshot that a node hears, and the install.
ghost use Rattle.std.specs.Prelude.{◌≡◌, ◌≤◌, IfOk};
ghost use Rattle.raft_types.specs.declared.limits.TheConstants.{MAX_INDEX};
ghost use Rattle.raft_types.specs.Snapshot.{stays, installed, installs, hears_chunk};
ghost use Rattle.raft_core.specs.Parts.{parts_of, out_of, Fits, whole_items, held_out};

use crate::appending::{is_term_at, number_all};
use crate::parts::{Parts, Sent};
use raft_log::log::Log;
use raft_types::entry::Entries;
use raft_types::item::{Item, Items};
use raft_types::message::Body;
use std::alloc::{AllocError, Global};

// The log begins over the base at an index. What stood behind stays where the log has an entry there of
// this term.
#[tactic(auto, using(raft_types::proofs::Appends::term_within, raft_types::proofs::Installs::stays_here, raft_types::proofs::Installs::stays_not))]
fn restart(alloc: Global, log: &mut Log, index: u64, term: u64)
    ensures { log.new ≡ record { base = index; base_term = term; entries = stays log.old index term } }
{
    let (base, _) = log.base();
    if base < index && is_term_at(log, index, term) {
        log.compact(index);
        return;
    }
    *log = Log::at(alloc, index, term);
}

impl Parts {
    // The snapshot stands for the log up to an index.
    #[tactic(auto, using(raft_types::proofs::Fitting::fits_installed))]
    fn installed(&mut self, index: u64, base_term: u64, total: u64)
        requires fits { Fits self.old }
        requires is_index { index ≤ MAX_INDEX }
        requires some { 1 ≤ total }
        ensures value { parts_of self.new ≡ installed (parts_of self.old) index base_term total }
        ensures fits { Fits self.new }
    {
        restart(self.alloc, &mut self.log, index, base_term);
        self.commit = index;
        self.snapshot_len = total;
    }

    // Copies of the log's entries.
    fn all_entries(&self) -> Result<Entries, AllocError>
        requires { Fits self.now }
        ensures { IfOk result (λ e. e ≡ self.now.log.entries) }
    {
        let (index, _) = self.log.base();
        let entries = self.log.batch(index + 1, usize::MAX)?;
        Ok(entries)
    }

    // The items of a store that begins anew: the snapshot, the vote and the entries of the log.
    fn whole(&self) -> Result<Items, AllocError>
        requires { Fits self.now }
        ensures { IfOk result (λ i. i ≡ whole_items (parts_of self.now)) }
    {
        let (index, term) = self.log.base();
        let entries = self.all_entries()?;
        let mut items = Vec::new(self.alloc);
        items.push(Item::Snap { index, term })?;
        items.push(Item::Vote {
            term: self.term,
            vote: self.vote,
        })?;
        number_all(&mut items, index + 1, entries.into_vec())?;
        Ok(Items::from_vec(items))
    }

    // Install: the store becomes the snapshot, the vote and the entries that stay.
    fn installs(
        &mut self,
        from: u8,
        index: u64,
        base_term: u64,
        total: u64,
    ) -> Result<Sent, AllocError>
        requires fits { Fits self.old }
        requires is_index { index ≤ MAX_INDEX }
        requires some { 1 ≤ total }
        ensures value { IfOk result (λ o. out_of self.new o ≡ installs (parts_of self.old) from index base_term total) }
        ensures fits { Fits self.new }
    {
        self.installed(index, base_term, total);
        let items = self.whole()?;
        self.replies(
            items,
            from,
            Body::ChunkReply {
                term: self.term,
                index,
                offset: total,
            },
        )
    }

    // The answer to a chunk.
    fn told_held(&self, from: u8, index: u64, offset: u64) -> Result<Sent, AllocError>
        ensures { IfOk result (λ o. out_of self.now o ≡ held_out (parts_of self.now) from index offset) }
    {
        self.answer(
            from,
            Body::ChunkReply {
                term: self.term,
                index,
                offset,
            },
        )
    }

    // Chunk: one of a lower term is refused; what is applied already is not needed; else the bytes held with
    // it are counted, and the snapshot is installed once it is whole.
    pub(crate) fn hears_chunk(
        &mut self,
        from: u8,
        term: u64,
        index: u64,
        base_term: u64,
        total: u64,
        applied: u64,
        held: u64,
    ) -> Result<Sent, AllocError>
        requires fits { Fits self.old }
        requires is_index { index ≤ MAX_INDEX }
        requires some { 1 ≤ total }
        ensures value { IfOk result (λ o. out_of self.new o ≡ hears_chunk (parts_of self.old) from term index base_term total applied held) }
        ensures fits { Fits self.new }
    {
        if term < self.term {
            return self.told_held(from, 0, 0);
        }
        self.follows(from);
        if index <= applied {
            return self.told_held(from, index, total);
        }
        if held == total {
            return self.installs(from, index, base_term, total);
        }
        self.told_held(from, index, held)
    }
}
