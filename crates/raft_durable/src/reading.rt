//! Reading a store item by item.
ghost use Rattle.std.specs.Prelude.{◌≡◌, ◌+◌, ◌<◌, ◌≤◌, true, Some, None, IfOk, OnOk, IsErrOf};
ghost use Rattle.raft_types.specs.Log.{last_index};
ghost use Rattle.raft_durable.specs.Stores.{start, rises, may_vote, is_waiting, is_near, is_of_age, may_put, took_snap, took_vote, took_entry, took_bytes, finished};

use crate::kept::{Kept, KeptFault};
use crate::limits::{ENTRY_TAG, SNAP_TAG, VOTE_TAG};
use crate::numbers::{read_two, read_vote};
use raft_log::log::Log;
use raft_types::bytes::Bytes;
use raft_types::limits::{MAX_INDEX, MAX_NODES, MAX_TERM};
use std::alloc::Global;

/// What the items up to here say, whether there were any, and whether a term and vote were among them.
#[derive(Drop)]
pub struct Reading {
    pub kept: Kept,
    pub started: bool,
    pub voted: bool,
}

fn is_rise(kept: &Kept, term: u64, vote: u8) -> bool
    ensures { result ≡ rises kept.now term vote }
{
    kept.term < term || (term == kept.term && (kept.vote == 0 && !(vote == 0)))
}

impl Reading {
    pub fn start(alloc: Global) -> Reading
        ensures { result ≡ start }
    {
        Reading {
            kept: Kept {
                term: 0,
                vote: 0,
                log: Log::at(alloc, 0, 0),
                snapshot: None,
            },
            started: false,
            voted: false,
        }
    }

    fn may_vote(&self, term: u64, vote: u8) -> bool
        ensures { result ≡ may_vote self.now term vote }
    {
        if term > MAX_TERM {
            return false;
        }
        if vote > MAX_NODES {
            return false;
        }
        if self.voted {
            return is_rise(&self.kept, term, vote);
        }
        self.kept.log.base().1 <= term
    }

    fn is_waiting(&self) -> bool
        ensures { result ≡ is_waiting self.now }
    {
        self.kept.snapshot.is_some() && !self.voted
    }

    fn is_near(&self, index: u64) -> bool
        ensures near { result ≡ is_near self.now index }
        ensures above { result ≡ true → self.now.kept.log.base < index }
        ensures below { result ≡ true → index ≤ last_index self.now.kept.log + 1 }
    {
        if index <= self.kept.log.base().0 {
            return false;
        }
        if index - 1 > self.kept.log.last().0 {
            return false;
        }
        index <= MAX_INDEX
    }

    fn is_of_age(&self, index: u64, term: u64) -> bool
        requires { 0 < index }
        ensures { result ≡ is_of_age self.now index term }
    {
        if self.kept.log.term_at(index - 1).unwrap_or(0) > term {
            return false;
        }
        term <= self.kept.term
    }

    fn may_put(&self, index: u64, term: u64) -> bool
        ensures may { result ≡ may_put self.now index term }
        ensures above { result ≡ true → self.now.kept.log.base < index }
        ensures below { result ≡ true → index ≤ last_index self.now.kept.log + 1 }
    {
        if self.is_waiting() {
            return false;
        }
        if !self.is_near(index) {
            return false;
        }
        self.is_of_age(index, term)
    }

    fn take_snap(&mut self, alloc: Global, rest: &[u8]) -> Result<(), KeptFault>
        ensures ok { OnOk result (took_snap self.old rest.now ≡ Some self.new) }
        ensures bad { IsErrOf result KeptFault.Bad → took_snap self.old rest.now ≡ None }
    {
        let Some((index, term, snapshot)) = read_two(rest) else {
            return Err(KeptFault::Bad);
        };
        if self.started {
            return Err(KeptFault::Bad);
        }
        let snapshot = Bytes::from_slice(alloc, snapshot)?;
        *self = Reading {
            kept: Kept {
                term: 0,
                vote: 0,
                log: Log::at(alloc, index, term),
                snapshot: Some(snapshot),
            },
            started: true,
            voted: false,
        };
        Ok(())
    }

    fn take_vote(&mut self, rest: &[u8]) -> Result<(), KeptFault>
        ensures ok { OnOk result (took_vote self.old rest.now ≡ Some self.new) }
        ensures bad { IsErrOf result KeptFault.Bad → took_vote self.old rest.now ≡ None }
    {
        let Some((term, vote)) = read_vote(rest) else {
            return Err(KeptFault::Bad);
        };
        if !self.may_vote(term, vote) {
            return Err(KeptFault::Bad);
        }
        self.kept.term = term;
        self.kept.vote = vote;
        self.started = true;
        self.voted = true;
        Ok(())
    }

    fn take_entry(&mut self, rest: &[u8]) -> Result<(), KeptFault>
        ensures ok { OnOk result (took_entry self.old rest.now ≡ Some self.new) }
        ensures bad { IsErrOf result KeptFault.Bad → took_entry self.old rest.now ≡ None }
    {
        let Some((index, term, entry)) = read_two(rest) else {
            return Err(KeptFault::Bad);
        };
        if !self.may_put(index, term) {
            return Err(KeptFault::Bad);
        }
        self.kept.log.put(index, term, entry)?;
        self.started = true;
        Ok(())
    }

    /// Reads one item more.
    pub fn take(&mut self, alloc: Global, item: &[u8]) -> Result<(), KeptFault>
        ensures ok { OnOk result (took_bytes self.old item.now ≡ Some self.new) }
        ensures bad { IsErrOf result KeptFault.Bad → took_bytes self.old item.now ≡ None }
    {
        let [tag, rest @ ..] = item else {
            return Err(KeptFault::Bad);
        };
        if *tag == SNAP_TAG {
            return self.take_snap(alloc, rest);
        }
        if *tag == VOTE_TAG {
            return self.take_vote(rest);
        }
        if *tag == ENTRY_TAG {
            return self.take_entry(rest);
        }
        Err(KeptFault::Bad)
    }

    /// What the whole list says.
    pub fn finish(self) -> Result<Kept, KeptFault>
        ensures ok { IfOk result (λ kept. finished self ≡ Some kept) }
        ensures bad { IsErrOf result KeptFault.Bad → finished self ≡ None }
    {
        if self.is_waiting() {
            return Err(KeptFault::Bad);
        }
        let Reading { kept, .. } = self;
        Ok(kept)
    }
}
