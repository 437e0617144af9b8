// Commands, the entries that they become, and the lines that carry them.
use crate::condition::Condition;
use crate::node::Payload;
use crate::pattern::Pattern;
use crate::script::Script;
use crate::watch::Watching;
use khepri_terms::{Path, Rec};

/// What a client asks of the tree.
#[derive(Drop)]
pub enum Command {
    /// Sets the payload at a path, and makes the nodes that are missing on the way; then sets the watches of the node.
    Put {
        path: Path,
        payload: Payload,
        watch: Watching,
    },
    /// As put, but refused where a node stands at the path.
    Create {
        path: Path,
        payload: Payload,
        watch: Watching,
    },
    /// As put, but refused where no node stands at the path.
    Update {
        path: Path,
        payload: Payload,
        watch: Watching,
    },
    /// As put, but refused where the condition doesn't hold at the path.
    Cas {
        path: Path,
        cond: Condition,
        payload: Payload,
        watch: Watching,
    },
    /// Empties the payload of a standing node.
    Clear {
        path: Path,
    },
    /// Removes the node at a path and all below it.
    Del {
        path: Path,
    },
    /// Removes the nodes at all paths that a pattern matches, and all below them.
    Delmany {
        pattern: Pattern,
    },
    /// Asks for the node at a path.
    Get {
        path: Path,
    },
    /// Asks for the nodes that a pattern matches, at most `limit` of them (1 to 256), and for the number of all.
    Many {
        pattern: Pattern,
        limit: u64,
    },
    /// Asks how many nodes a pattern matches.
    Count {
        pattern: Pattern,
    },
    /// Runs a script with these arguments: all of its changes come about, or none.
    Tx {
        args: Rec,
        script: Script,
    },
    /// Runs the script that the node at a path holds, with these arguments.
    Run {
        path: Path,
        args: Rec,
    },
}

/// What a log keeps, and what a machine is given.
#[derive(Drop)]
pub enum Entry {
    /// A command, with the connection and the input line that it came from. In a session the connection is 0.
    Command { conn: u64, line: u64, cmd: Command },
}

/// An input line.
#[derive(Drop)]
pub enum Line {
    /// A command, asked of a node.
    Command { node: u8, cmd: Command },
}
