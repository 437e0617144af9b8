// What a core does, as scripts write it; nothing where they have no words for it.
use crate::script::{Few, Says, Sent, Tells, Wrote};
use raft_types::entry::LogEntry;
use raft_types::event::Acts;
use raft_types::item::Item;
use raft_types::message::{Body, Message};

fn byte_told(entry: &[u8]) -> Option<u8> {
    match entry {
        [byte] => Some(*byte),
        _ => None,
    }
}

fn entry_told(entry: &LogEntry) -> Option<(u64, u8)> {
    Some((entry.term, byte_told(entry.entry.as_slice())?))
}

pub fn entries_told(entries: &[LogEntry]) -> Option<Few<(u64, u8)>> {
    match entries {
        [] => Some(Few::None),
        [a] => Some(Few::One(entry_told(a)?)),
        [a, b] => Some(Few::Two(entry_told(a)?, entry_told(b)?)),
        [a, b, c] => Some(Few::Three(entry_told(a)?, entry_told(b)?, entry_told(c)?)),
        _ => None,
    }
}

fn item_told(item: &Item) -> Option<Wrote> {
    match item {
        Item::Snap { index, term } => Some(Wrote::Snap(*index, *term)),
        Item::Vote { term, vote } => Some(Wrote::Vote(*term, *vote)),
        Item::Entry { index, term, entry } => {
            Some(Wrote::Entry(*index, *term, byte_told(entry.as_slice())?))
        }
    }
}

fn items_told(items: &[Item]) -> Option<Few<Wrote>> {
    match items {
        [] => Some(Few::None),
        [a] => Some(Few::One(item_told(a)?)),
        [a, b] => Some(Few::Two(item_told(a)?, item_told(b)?)),
        [a, b, c] => Some(Few::Three(item_told(a)?, item_told(b)?, item_told(c)?)),
        _ => None,
    }
}

fn body_told(body: &Body) -> Option<Says> {
    match body {
        Body::Vote {
            term,
            last_index,
            last_term,
        } => Some(Says::Vote(*term, *last_index, *last_term)),
        Body::VoteReply { term, granted } => Some(Says::VoteReply(*term, *granted)),
        Body::Append {
            term,
            prev_index,
            prev_term,
            entries,
            commit,
        } => {
            let entries = entries_told(entries.as_slice())?;
            Some(Says::Append(*term, *prev_index, *prev_term, entries, *commit))
        }
        Body::AppendReply { term, ok, index } => Some(Says::AppendReply(*term, *ok, *index)),
        Body::Chunk {
            term,
            index,
            base_term,
            offset,
            total,
            ..
        } => Some(Says::Chunk(*term, *index, *base_term, *offset, *total)),
        Body::ChunkReply {
            term,
            index,
            offset,
        } => Some(Says::ChunkReply(*term, *index, *offset)),
    }
}

fn message_told(message: &Message) -> Option<Sent> {
    Some(Sent(message.from, message.to, body_told(&message.body)?))
}

fn messages_told(messages: &[Message]) -> Option<Few<Sent>> {
    match messages {
        [] => Some(Few::None),
        [a] => Some(Few::One(message_told(a)?)),
        [a, b] => Some(Few::Two(message_told(a)?, message_told(b)?)),
        _ => None,
    }
}

pub fn tells_acts(acts: &Acts) -> Option<Tells> {
    let items = items_told(acts.items.as_slice())?;
    let messages = messages_told(acts.messages.as_slice())?;
    Some(Tells::Acts(items, messages, acts.role, acts.commit))
}
