//! The step of a node.
ghost use Rattle.std.specs.Prelude.{◌≡◌, ◌≤◌, IfOk};
ghost use Rattle.raft_types.specs.Core.{CoreParts};
ghost use Rattle.raft_types.specs.Body.{body_term};
ghost use Rattle.raft_types.specs.Election.{raised};
ghost use Rattle.raft_types.specs.Fits.{EventFits, MessageFits, IndexesFit, TotalFits};
ghost use Rattle.raft_types.specs.Step.{hears, rule, starts_anew, with_vote};
ghost use Rattle.raft_core.specs.Parts.{parts_of, out_of, Fits};

use crate::parts::{Parts, Sent};
use raft_types::event::CoreEvent;
use raft_types::item::{Item, Items};
use raft_types::message::{Body, Message};
use std::alloc::AllocError;

// Whether items begin with a snapshot.
fn starts_anew(items: &[Item]) -> bool
    ensures { result ≡ starts_anew items.now }
{
    match items {
        [Item::Snap { .. }, ..] => true,
        _ => false,
    }
}

impl Parts {
    // The items of an event of a node that had this term and vote: term and vote stand first where one of
    // them changed; an install has them already.
    #[tactic(auto, using(raft_types::proofs::Installs::vote_behind, raft_types::proofs::Installs::vote_first))]
    pub(crate) fn with_vote(&self, term: u64, vote: u8, items: Items) -> Result<Items, AllocError>
        ensures { IfOk result (λ i. (c : CoreParts) → c.term ≡ term → c.vote ≡ vote → i ≡ with_vote c (parts_of self.now) items) }
    {
        if starts_anew(items.as_slice()) {
            return Ok(items);
        }
        if term == self.term && vote == self.vote {
            return Ok(items);
        }
        let mut all = items.into_vec();
        all.insert(
            0,
            Item::Vote {
                term: self.term,
                vote: self.vote,
            },
        )?;
        Ok(Items::from_vec(all))
    }

    // A message at a node that its term has raised already.
    fn hears(&mut self, from: u8, body: Body, applied: u64, held: u64) -> Result<Sent, AllocError>
        requires fits { Fits self.old }
        requires from_one { 1 ≤ from }
        requires is_node { from ≤ self.old.nodes }
        requires indexes { IndexesFit body }
        requires total { TotalFits body }
        ensures value { IfOk result (λ o. out_of self.new o ≡ hears (parts_of self.old) from body applied held) }
        ensures fits { Fits self.new }
    {
        match body {
            Body::Vote {
                term,
                last_index,
                last_term,
            } => self.hears_vote(from, term, last_index, last_term),
            Body::VoteReply { term, granted } => self.hears_vote_reply(from, term, granted),
            Body::Append {
                term,
                prev_index,
                prev_term,
                entries,
                commit,
            } => self.hears_append(from, term, prev_index, prev_term, entries, commit),
            Body::AppendReply { term, ok, index } => {
                self.hears_append_reply(from, term, ok, index)
            }
            Body::Chunk {
                term,
                index,
                base_term,
                total,
                ..
            } => self.hears_chunk(from, term, index, base_term, total, applied, held),
            Body::ChunkReply {
                term,
                index,
                offset,
            } => self.hears_chunk_reply(from, term, index, offset),
        }
    }

    // The rule of each event; a message of a greater term raises the node first.
    pub(crate) fn rule(&mut self, event: CoreEvent) -> Result<Sent, AllocError>
        requires fits { Fits self.old }
        requires event_fits { EventFits (parts_of self.old) event }
        ensures value { IfOk result (λ o. out_of self.new o ≡ rule (parts_of self.old) event) }
        ensures fits { Fits self.new }
    {
        match event {
            CoreEvent::Timeout => self.times_out(),
            CoreEvent::Beat => self.beats(),
            CoreEvent::Raise { term } => {
                self.opens_in(term);
                Ok(self.quiet())
            }
            CoreEvent::Command(entry) => self.appends(entry),
            CoreEvent::Fire(entry) => self.appends(entry),
            CoreEvent::Heard {
                message,
                applied,
                held,
            } => self.heard(message, applied, held),
        }
    }

    // A message arrives.
    #[tactic(auto, using(raft_types::proofs::Fitting::term_fits, raft_types::proofs::Fitting::total_fits))]
    fn heard(&mut self, message: Message, applied: u64, held: u64) -> Result<Sent, AllocError>
        requires fits { Fits self.old }
        requires message_fits { MessageFits (parts_of self.old) message applied held }
        ensures value { IfOk result (λ o. out_of self.new o ≡ hears (raised (parts_of self.old) (body_term message.body)) message.from message.body applied held) }
        ensures fits { Fits self.new }
    {
        let Message { from, body, .. } = message;
        self.raised(body.term());
        self.hears(from, body, applied, held)
    }
}
