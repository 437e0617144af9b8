//! Scripts of three nodes: what happens, step by step, and what is then told.
ghost use Rattle.std.specs.Prelude.{◌≡◌, slice_get};
ghost use Rattle.worked_logs.specs.Scripts.{few};

use raft_types::state::Role;

/// A list of at most three.
#[derive(Clone, Copy, PartialEq, Drop)]
pub enum Few<T> {
    None,
    One(T),
    Two(T, T),
    Three(T, T, T),
}

impl<T: Copy> Few<T> {
    /// The value at a place, from 0 on.
    pub fn get(self, place: usize) -> Option<T>
        ensures { result ≡ slice_get (few self) place }
    {
        match (self, place) {
            (Few::One(a) | Few::Two(a, _) | Few::Three(a, _, _), 0) => Some(a),
            (Few::Two(_, b) | Few::Three(_, b, _), 1) => Some(b),
            (Few::Three(_, _, c), 2) => Some(c),
            _ => None,
        }
    }
}

/// What a node says to another. Entries are of one byte each, behind their terms.
#[derive(Clone, Copy, PartialEq, Drop)]
pub enum Says {
    /// Term, last index, last term.
    Vote(u64, u64, u64),
    /// Term, whether the vote is granted.
    VoteReply(u64, bool),
    /// Term, index and term before the entries, entries, commit.
    Append(u64, u64, u64, Few<(u64, u8)>, u64),
    /// Term, whether the entries are taken, index.
    AppendReply(u64, bool, u64),
    /// Term, index, term there, offset, total.
    Chunk(u64, u64, u64, u64, u64),
    /// Term, index, offset.
    ChunkReply(u64, u64, u64),
}

/// What happens.
#[derive(Clone, Copy, PartialEq, Drop)]
pub enum Does {
    Timeout(u8),
    Beat(u8),
    /// A node is raised to a term.
    Raise(u8, u64),
    /// A node is asked for an entry.
    Command(u8, u8),
    Fire(u8, u8),
    /// From a node to a node a message, where an index is applied and so many bytes of a snapshot are held.
    Hears(u8, u8, Says, u64, u64),
    /// The message at a place among those in flight arrives.
    Deliver(usize),
    /// A copy of it arrives.
    Again(usize),
    /// It is lost.
    Lose(usize),
    /// The base of a node's log moves up to an index, for which a snapshot of this length stands.
    Compact(u8, u64, u64),
    /// A node shows its state and its log.
    Show(u8),
}

/// An item that a node writes.
#[derive(Clone, Copy, PartialEq, Drop)]
pub enum Wrote {
    Snap(u64, u64),
    Vote(u64, u8),
    Entry(u64, u64, u8),
}

/// A message: from, to, and what it says.
#[derive(Clone, Copy, PartialEq, Drop)]
pub struct Sent(pub u8, pub u8, pub Says);

/// Term, vote, role, known leader and commit.
#[derive(Clone, Copy, PartialEq, Drop)]
pub struct State(pub u64, pub u8, pub Role, pub u8, pub u64);

/// What is told.
#[derive(Clone, Copy, PartialEq, Drop)]
pub enum Tells {
    Nothing,
    /// Items, messages, role and commit.
    Acts(Few<Wrote>, Few<Sent>, Role, u64),
    /// A node's state, the base of its log, and its entries.
    State(State, (u64, u64), Few<(u64, u8)>),
}

/// What happens, and what is then told.
#[derive(Clone, Copy, PartialEq, Drop)]
pub struct Step(pub Does, pub Tells);
