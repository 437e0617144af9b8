// What a command is answered.
use crate::node::Payload;
use crate::shown::ShownNodes;
use crate::value::Value;
use khepri_terms::{Bytes, Path};
use sqlite_items::Items;

/// The answer to a command.
#[derive(Drop)]
pub enum Reply {
    /// The payload version of the written node after the change, or how many nodes a deletion dropped; and how many nodes settling removed.
    Changed {
        count: u64,
        gone: u64,
    },
    /// The node that was asked for: its versions, how many children it has, and its payload.
    Node {
        pv: u64,
        cv: u64,
        kids: u64,
        payload: Payload,
    },
    /// How many nodes the pattern matches, and the first of them in order of path.
    Nodes {
        count: u64,
        nodes: ShownNodes,
    },
    /// How many nodes the pattern matches.
    Count {
        count: u64,
    },
    /// How many nodes settling removed when a script had run to its end, and what it emitted.
    Done {
        gone: u64,
        values: Items<Value>,
    },
    /// The root can't be removed, and has no watches.
    NoRoot,
    /// The path, or the target of a watch, has more names than the path of a node may have, or a script makes a path that is too long.
    NoDeep,
    /// The script is ill typed, or the node of `run` holds none.
    NoScript,
    /// A node stands at the path.
    NoExists,
    /// No node stands at the path.
    NoAbsent,
    /// The condition doesn't hold at the path.
    NoMismatch,
    /// A written node has a watch whose condition doesn't hold at this target after the change and before settling; of several the
    /// first, by the node's path and then by the watch's place.
    NoWhile {
        target: Path,
    },
    /// A script would add a name that is none: it has no byte, or too many.
    NoName,
    /// A script spent its units.
    NoSpent,
    /// A script ended itself, with this text.
    NoAbort {
        text: Bytes,
    },
    /// A limit of the tree would be passed, or, by a script, one of watches, values or records.
    NoFull,
}
