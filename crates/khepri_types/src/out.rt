// Output lines.

use crate::command::Command;
use crate::reply::Reply;

/// What stands in a `#` line.
#[derive(Drop)]
pub enum EntryText {
    /// A command of a line of this session, or of an earlier one.
    Command(Command),
    /// The script that the event of this number starts.
    Fire(u64),
    /// An entry that changes nothing but the position: a new leader's first.
    Noop,
}

/// Why a line is refused.
#[derive(Clone, Copy, PartialEq, Eq)]
pub enum Reason {
    /// It has more bytes than a line may have.
    TooLong,
    /// It is no spelling.
    BadLine,
    /// It names a node above the number of nodes.
    NoNode,
    /// It starts a node that runs.
    Running,
    /// It names a node that doesn't run.
    Stopped,
    /// It asks a node that doesn't lead.
    NotLeader,
    /// The log has no place left.
    LogFull,
    /// Too many entries wait to be committed.
    Backlog,
    /// It names a place above the number of messages in flight.
    NoSlot,
}

/// Why a node stopped.
#[derive(Clone, Copy, PartialEq, Eq)]
pub enum StopWord {
    /// A line asked for it.
    Order,
    /// A call of its vault failed.
    Vault,
    /// It found no memory.
    Memory,
    /// Its vault's content is no node's store.
    Bad,
}

/// What a look-up found.
#[derive(Clone, Copy, PartialEq, Eq)]
pub enum Rows {
    /// There is no such projection.
    Absent,
}

/// A line of the output. `line` is the number of the input line that it answers, counted from 1 and 0 where none is meant,
/// and `n` a position in the history.
#[derive(Drop)]
pub enum OutLine {
    /// Entry n, first applied. Line 0 stands for fires, noops and entries of earlier sessions.
    Entry { n: u64, line: u64, text: EntryText },
    /// The reply of entry n.
    Reply { line: u64, n: u64, reply: Reply },
    /// The line's position holds another entry.
    Lost { line: u64 },
    /// Delivery for the line ended before position n was reached.
    Pending { line: u64, n: u64 },
    /// What a look-up found at position n.
    Read { line: u64, n: u64, rows: Rows },
    /// The line is refused.
    Refused { line: u64, reason: Reason },
    /// The node became leader of the term.
    Leads { node: u8, term: u64 },
    /// A leader or candidate became follower in the term.
    Follows { node: u8, term: u64 },
    /// The node stopped.
    Stopped { node: u8, cause: StopWord },
    /// The node started.
    Started { node: u8 },
}
