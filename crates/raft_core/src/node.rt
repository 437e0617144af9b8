//! A node of the replicated log.
ghost use Rattle.std.specs.Prelude.{◌≡◌, ◌≤◌, IfOk, OnOk};
ghost use Rattle.raft_types.specs.Core.{new_core, compacts, state_of, acts_of};
ghost use Rattle.raft_types.specs.Fits.{StartFits, EventFits};
ghost use Rattle.raft_types.specs.Step.{on};

use crate::parts::Parts;
use raft_log::log::Log;
use raft_types::event::{Acts, CoreEvent};
use raft_types::state::{CoreState, Role};
use std::alloc::{AllocError, Global};
use std::marker::Model;

/// A node of the replicated log, without a clock, a vault or a machine. Nodes are numbered from 1.
#[derive(Drop)]
pub struct Core {
    parts: Parts,
}

impl Model for Core {
    ghost use Rattle.raft_types.specs.Core.{CoreParts};
    ghost use Rattle.raft_core.specs.Parts.{parts_of, Fits};

    ghost Value = { CoreParts };

    ghost view = { λ c. parts_of c.parts };

    ghost invariant = { λ c. Fits c.parts };
}

impl Core {
    /// A node after a start: a follower that knows only its log's base to be committed. `vote` is for
    /// whom it voted in its term, 0 for nobody; `snapshot_len` is the length in bytes of the snapshot
    /// that stands for the log up to its base.
    #[tactic(auto, using(raft_types::proofs::Fitting::fits_new))]
    pub fn new(
        alloc: Global,
        id: u8,
        nodes: u8,
        term: u64,
        vote: u8,
        log: Log,
        snapshot_len: u64,
    ) -> Result<Core, AllocError>
        requires { StartFits id nodes term log snapshot_len }
        ensures { IfOk result (λ c. c ≡ new_core id nodes term vote log snapshot_len) }
    {
        let (commit, _) = log.base();
        Ok(Core {
            parts: Parts {
                id,
                nodes,
                term,
                vote,
                log,
                snapshot_len,
                role: Role::Follower,
                leader: 0,
                commit,
                votes: Vec::from_elem(alloc, false, nodes as usize)?,
                next: Vec::from_elem(alloc, 0, nodes as usize)?,
                matched: Vec::from_elem(alloc, 0, nodes as usize)?,
                alloc,
            },
        })
    }

    /// What the node shows of itself.
    pub fn state(&self) -> CoreState
        ensures { result ≡ state_of self.now }
    {
        CoreState {
            term: self.parts.term,
            vote: self.parts.vote,
            commit: self.parts.commit,
            role: self.parts.role,
            leader: self.parts.leader,
        }
    }

    /// The node's log.
    pub fn log(&self) -> &Log
        ensures { result.now ≡ self.now.log }
    {
        &self.parts.log
    }

    /// Moves the log's base up to `index`, for which a snapshot of this length stands.
    pub fn compact(&mut self, index: u64, snapshot_len: u64)
        requires from_base { self.old.log.base ≤ index }
        requires to_commit { index ≤ self.old.commit }
        requires is_there { 1 ≤ snapshot_len }
        ensures { self.new ≡ compacts self.old index snapshot_len }
    {
        self.parts.compacts(index, snapshot_len);
    }

    /// The step: what the node does in an event. After `Err` the core may only be dropped.
    #[tactic(auto, using(raft_types::proofs::SameNode::same_id, raft_types::proofs::SameNode::same_nodes))]
    pub fn on(&mut self, event: CoreEvent) -> Result<Acts, AllocError>
        requires { EventFits self.old event }
        ensures core { OnOk result (self.new ≡ (on self.old event).core) }
        ensures acts { IfOk result (λ a. a ≡ acts_of (on self.old event)) }
        ensures id { OnOk result (self.new.id ≡ self.old.id) }
        ensures nodes { OnOk result (self.new.nodes ≡ self.old.nodes) }
    {
        let term = self.parts.term;
        let vote = self.parts.vote;
        let sent = self.parts.rule(event)?;
        let items = self.parts.with_vote(term, vote, sent.items)?;
        Ok(Acts {
            items,
            messages: sent.messages,
            commit: self.parts.commit,
            role: self.parts.role,
        })
    }
}
