//! Appends that a node hears.
ghost use Rattle.std.specs.Prelude.{◌≡◌, ◌≤◌, ◌<◌, ◌+◌, ◌-◌, ◌++◌, length, min, drop, IfOk, OnOk};
ghost use Rattle.raft_types.specs.declared.limits.TheConstants.{MAX_INDEX};
ghost use Rattle.raft_types.specs.Log.{last_index, log_term};
ghost use Rattle.raft_types.specs.Items.{number};
ghost use Rattle.raft_types.specs.Append.{follows, is_term, passes, has, skip, fresh_items, accepts, hears_append};
ghost use Rattle.raft_core.specs.Parts.{parts_of, out_of, Fits, stored_on};

use crate::electing::is_candidate;
use crate::parts::{Parts, Sent};
use raft_log::log::Log;
use raft_types::entry::{Entries, LogEntry};
use raft_types::item::{Item, Items};
use raft_types::message::Body;
use raft_types::state::Role;
use std::alloc::AllocError;
use std::collections::VecDeque;

// Entries as items behind others, the first at this index. The entries' bytes are moved.
pub(crate) fn number_all(
    items: &mut Vec<Item>,
    index: u64,
    entries: Vec<LogEntry>,
) -> Result<(), AllocError>
    requires { index + length entries.items ≤ MAX_INDEX + 1 }
    ensures { OnOk result (items.new.items ≡ items.old.items ++ number index entries.items) }
{
    let mut left = VecDeque::from(entries);
    let mut at = index;
    'numbered: while let Some(LogEntry { term, entry }) = left.pop_front() {
        items.push(Item::Entry {
            index: at,
            term,
            entry,
        })?;
        at += 1;
    }
    Ok(())
}

// Stores entries, the first at this index, which cuts off what stood from there on.
fn store_all(log: &mut Log, index: u64, entries: &[LogEntry]) -> Result<(), AllocError>
    requires above { log.old.base < index }
    requires near { index ≤ last_index log.old + 1 }
    requires ends { index + length entries.now ≤ MAX_INDEX + 1 }
    requires last { last_index log.old ≤ MAX_INDEX }
    ensures value { OnOk result (log.new ≡ stored_on log.old (number index entries.now)) }
    ensures base { log.new.base ≡ log.old.base }
    ensures from { index ≤ last_index log.new + 1 }
    ensures all { OnOk result (index + length entries.now ≤ last_index log.new + 1) }
    ensures last { last_index log.new ≤ MAX_INDEX }
{
    let mut at = index;
    'stored: for entry in entries {
        log.put(at, entry.term, entry.entry.as_slice())?;
        at += 1;
    }
    Ok(())
}

// Whether the log knows this term at an index.
pub(crate) fn is_term_at(log: &Log, index: u64, term: u64) -> bool
    ensures { result ≡ is_term (log_term log.now index) term }
{
    match log.term_at(index) {
        Some(found) => found == term,
        None => false,
    }
}

// The entries behind the first n.
fn behind(mut entries: Vec<LogEntry>, n: usize) -> Vec<LogEntry>
    ensures value { result.items ≡ drop n entries.items }
    ensures len { length result.items ≡ length entries.items - n }
{
    if entries.len() <= n {
        entries.clear();
        return entries;
    }
    drop(entries.drain(..n));
    entries
}

impl Parts {
    // The sender leads this term: a candidate follows it.
    #[tactic(auto, using(raft_types::proofs::Fitting::fits_follows))]
    pub(crate) fn follows(&mut self, from: u8)
        requires { Fits self.old }
        ensures value { parts_of self.new ≡ follows (parts_of self.old) from }
        ensures fits { Fits self.new }
    {
        if is_candidate(self.role) {
            self.role = Role::Follower;
        }
        self.leader = from;
    }

    // The consistency test: the log has the index before the entries with its term, or its base has it.
    fn passes(&self, prev_index: u64, prev_term: u64) -> bool
        ensures { result ≡ passes self.now.log prev_index prev_term }
    {
        let (base, _) = self.log.base();
        prev_index <= base || is_term_at(&self.log, prev_index, prev_term)
    }

    // Whether an entry that would stand at a place above the base is left alone.
    #[tactic(auto, using(raft_types::proofs::Appends::has_at))]
    fn has(&self, place: u64, term: u64) -> bool
        requires fits { Fits self.now }
        requires is_place { self.now.log.base + 1 + place ≤ MAX_INDEX }
        ensures { result ≡ has (self.now.commit - self.now.log.base) self.now.log.entries place term }
    {
        let (base, _) = self.log.base();
        let index = base + 1 + place;
        index <= self.commit || is_term_at(&self.log, index, term)
    }

    // How many of the entries that would stand from a place on are left alone.
    #[tactic(auto, using(raft_types::proofs::Appends::skip_most, raft_types::proofs::Appends::skip_within, raft_types::proofs::Appends::skip_past))]
    fn skip(&self, place: u64, entries: &[LogEntry]) -> usize
        requires fits { Fits self.now }
        requires ends { self.now.log.base + place + length entries.now ≤ MAX_INDEX }
        requires near { self.now.log.base + place ≤ last_index self.now.log }
        ensures value { result ≡ skip (self.now.commit - self.now.log.base) self.now.log.entries place entries.now }
        ensures most { result ≤ length entries.now }
        ensures within { self.now.log.base + place + result ≤ last_index self.now.log }
        ensures past { result < length entries.now → self.now.commit ≤ self.now.log.base + place + result }
    {
        let mut i = 0;
        'skipped: while i < entries.len() {
            if !self.has(place + i as u64, entries[i].term) {
                return i;
            }
            i += 1;
        }
        i
    }

    // Stores the entries that are new, and knows the log to be committed up to here.
    fn accepts(
        &mut self,
        index: u64,
        entries: Vec<LogEntry>,
        reached: u64,
    ) -> Result<Items, AllocError>
        requires fits { Fits self.old }
        requires above { self.old.log.base < index }
        requires past { 0 < length entries.items → self.old.commit < index }
        requires near { index ≤ last_index self.old.log + 1 }
        requires ends { index + length entries.items ≤ MAX_INDEX + 1 }
        requires within { reached + 1 ≤ index + length entries.items }
        ensures value { OnOk result (parts_of self.new ≡ accepts (parts_of self.old) (number index entries.items) reached) }
        ensures items { IfOk result (λ i. i ≡ number index entries.items) }
        ensures fits { Fits self.new }
    {
        if entries.len() != 0 {
            store_all(&mut self.log, index, entries.as_slice())?;
        }
        self.commit = self.commit.max(reached);
        let mut items = Vec::new(self.alloc);
        number_all(&mut items, index, entries)?;
        Ok(Items::from_vec(items))
    }

    // Stores what is new of the entries behind an index that the log has.
    #[tactic(auto, using(raft_types::proofs::Appends::same_place))]
    fn takes(
        &mut self,
        prev_index: u64,
        entries: Vec<LogEntry>,
        commit: u64,
    ) -> Result<Items, AllocError>
        requires fits { Fits self.old }
        requires near { prev_index ≤ last_index self.old.log }
        requires ends { prev_index + length entries.items ≤ MAX_INDEX }
        requires within { commit ≤ prev_index + length entries.items }
        ensures value { OnOk result (parts_of self.new ≡ accepts (parts_of self.old) (fresh_items (parts_of self.old) prev_index entries.items) commit) }
        ensures items { IfOk result (λ i. i ≡ fresh_items (parts_of self.old) prev_index entries.items) }
        ensures fits { Fits self.new }
    {
        let (base, _) = self.log.base();
        let down = base.saturating_sub(prev_index);
        let place = prev_index + down - base;
        let rest = behind(entries, down as usize);
        let skipped = self.skip(place, rest.as_slice());
        let fresh = behind(rest, skipped);
        self.accepts(base + 1 + place + skipped as u64, fresh, commit)
    }

    // Append: one of a lower term is refused; where the test fails the reply hints where to try next; else
    // the entries that are new are stored.
    #[tactic(auto, using(raft_types::proofs::Appends::passes_near))]
    pub(crate) fn hears_append(
        &mut self,
        from: u8,
        term: u64,
        prev_index: u64,
        prev_term: u64,
        entries: Entries,
        commit: u64,
    ) -> Result<Sent, AllocError>
        requires fits { Fits self.old }
        requires ends { prev_index + length entries ≤ MAX_INDEX }
        ensures value { IfOk result (λ o. out_of self.new o ≡ hears_append (parts_of self.old) from term prev_index prev_term entries commit) }
        ensures fits { Fits self.new }
    {
        if term < self.term {
            return self.answer(
                from,
                Body::AppendReply {
                    term: self.term,
                    ok: false,
                    index: 0,
                },
            );
        }
        self.follows(from);
        if !self.passes(prev_index, prev_term) {
            let (last, _) = self.log.last();
            return self.answer(
                from,
                Body::AppendReply {
                    term: self.term,
                    ok: false,
                    index: last.min(prev_index.saturating_sub(1)),
                },
            );
        }
        let index = prev_index + entries.len() as u64;
        let items = self.takes(prev_index, entries.into_vec(), commit.min(index))?;
        self.replies(
            items,
            from,
            Body::AppendReply {
                term: self.term,
                ok: true,
                index,
            },
        )
    }
}
