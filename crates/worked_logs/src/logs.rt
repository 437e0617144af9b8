// Messages, items and logs.
use crate::firsts::first_false;
use raft_log::log::Log;
use raft_types::bytes::Bytes;
use raft_types::entry::{Entries, LogEntry};
use raft_types::item::{Item, Items};
use raft_types::message::{Body, Message, Messages};
use std::alloc::{AllocError, Global};

fn entries(alloc: Global) -> Result<Entries, AllocError> {
    let entry = Bytes::from_slice(alloc, b"put")?;
    Ok(Entries::from_vec(vec![in alloc; LogEntry { term: 4, entry }]?))
}

fn append(alloc: Global) -> Result<Body, AllocError> {
    Ok(Body::Append {
        term: 5,
        prev_index: 2,
        prev_term: 1,
        entries: entries(alloc)?,
        commit: 2,
    })
}

fn messages(alloc: Global) -> Result<Messages, AllocError> {
    let message = Message {
        from: 1,
        to: 2,
        body: append(alloc)?,
    };
    Ok(Messages::from_vec(vec![in alloc; message]?))
}

fn items(alloc: Global) -> Result<Items, AllocError> {
    Ok(Items::from_vec(vec![in alloc; Item::Vote { term: 5, vote: 1 }]?))
}

fn is_put(entries: &Entries) -> bool {
    match entries.as_slice() {
        [entry] => entries.len() == 1 && entry.entry.as_slice() == b"put".as_slice(),
        _ => false,
    }
}

fn is_of_term_5(alloc: Global, body: &Body) -> Result<bool, AllocError> {
    Ok(body.term() == 5 && body.copy(alloc)?.term() == 5)
}

fn is_from_1_to_2(alloc: Global, messages: &Messages) -> Result<bool, AllocError> {
    match messages.as_slice() {
        [message] => Ok(messages.len() == 1 && message.to == 2 && message.copy(alloc)?.from == 1),
        _ => Ok(false),
    }
}

fn is_one_item(items: Items) -> bool {
    items.len() == 1 && items.into_vec().len() == 1
}

fn are_entries_kept(alloc: Global) -> Result<bool, AllocError> {
    Ok(is_put(&entries(alloc)?))
}

fn is_a_body_kept(alloc: Global) -> Result<bool, AllocError> {
    is_of_term_5(alloc, &append(alloc)?)
}

fn is_a_message_kept(alloc: Global) -> Result<bool, AllocError> {
    is_from_1_to_2(alloc, &messages(alloc)?)
}

fn is_one_message(alloc: Global) -> Result<bool, AllocError> {
    Ok(messages(alloc)?.into_vec().len() == 1)
}

fn is_an_item_kept(alloc: Global) -> Result<bool, AllocError> {
    Ok(is_one_item(items(alloc)?))
}

// The first part of an append that is not kept: its entries, what it says, the message of it, or an item.
fn first_lost(alloc: Global) -> Result<Option<usize>, AllocError> {
    Ok(first_false(&[
        are_entries_kept(alloc)?,
        is_a_body_kept(alloc)?,
        is_a_message_kept(alloc)?,
        is_one_message(alloc)?,
        is_an_item_kept(alloc)?,
    ]))
}

#[test]
fn an_append_keeps_its_parts(rt: HostRuntime) -> Result<(), AllocError> {
    assert_eq!(rt; first_lost(rt.alloc())?, None);
    Ok(())
}

// An entry that is put at an index, or a move of the base there, and what the log then tells: its base, its last
// entry, and by index from 3 on the terms and the entries that it knows.
struct Turn {
    index: u64,
    term: u64,
    entry: Option<&'static [u8]>,
    base: (u64, u64),
    last: (u64, u64),
    terms: &'static [Option<u64>],
    entries: &'static [Option<&'static [u8]>],
}

static TURNS: [Turn; 8] = [
    Turn {
        index: 4,
        term: 2,
        entry: None,
        base: (4, 2),
        last: (4, 2),
        terms: &[None, Some(2), None, None, None, None],
        entries: &[None, None, None, None, None, None],
    },
    Turn {
        index: 5,
        term: 2,
        entry: Some(b"a"),
        base: (4, 2),
        last: (5, 2),
        terms: &[None, Some(2), Some(2), None, None, None],
        entries: &[None, None, Some(b"a"), None, None, None],
    },
    Turn {
        index: 6,
        term: 2,
        entry: Some(b"b"),
        base: (4, 2),
        last: (6, 2),
        terms: &[None, Some(2), Some(2), Some(2), None, None],
        entries: &[None, None, Some(b"a"), Some(b"b"), None, None],
    },
    Turn {
        index: 7,
        term: 3,
        entry: Some(b"c"),
        base: (4, 2),
        last: (7, 3),
        terms: &[None, Some(2), Some(2), Some(2), Some(3), None],
        entries: &[None, None, Some(b"a"), Some(b"b"), Some(b"c"), None],
    },
    // An entry of a later leader cuts the log at its index.
    Turn {
        index: 6,
        term: 4,
        entry: Some(b"d"),
        base: (4, 2),
        last: (6, 4),
        terms: &[None, Some(2), Some(2), Some(4), None, None],
        entries: &[None, None, Some(b"a"), Some(b"d"), None, None],
    },
    Turn {
        index: 7,
        term: 5,
        entry: Some(b"e"),
        base: (4, 2),
        last: (7, 5),
        terms: &[None, Some(2), Some(2), Some(4), Some(5), None],
        entries: &[None, None, Some(b"a"), Some(b"d"), Some(b"e"), None],
    },
    // The base moves up, and its term is the dropped entry's.
    Turn {
        index: 6,
        term: 4,
        entry: None,
        base: (6, 4),
        last: (7, 5),
        terms: &[None, None, None, Some(4), Some(5), None],
        entries: &[None, None, None, None, Some(b"e"), None],
    },
    Turn {
        index: 7,
        term: 5,
        entry: None,
        base: (7, 5),
        last: (7, 5),
        terms: &[None, None, None, None, Some(5), None],
        entries: &[None, None, None, None, None, None],
    },
];

// Puts an entry where the log takes one.
fn put(log: &mut Log, index: u64, term: u64, entry: &[u8]) -> Result<(), AllocError> {
    if log.base().0 < index && index - 1 <= log.last().0 {
        log.put(index, term, entry)?;
    }
    Ok(())
}

// Moves the base where it can stand.
fn compact(log: &mut Log, index: u64) {
    if log.base().0 <= index && index <= log.last().0 {
        log.compact(index);
    }
}

fn take_turn(log: &mut Log, turn: &Turn) -> Result<(), AllocError> {
    match turn.entry {
        Some(entry) => put(log, turn.index, turn.term, entry),
        None => Ok(compact(log, turn.index)),
    }
}

fn has_terms(log: &Log, terms: &[Option<u64>]) -> bool {
    let mut index: u64 = 3;
    for term in terms {
        if log.term_at(index) != *term {
            return false;
        }
        index = index.saturating_add(1);
    }
    true
}

fn has_entries(log: &Log, entries: &[Option<&'static [u8]>]) -> bool {
    let mut index: u64 = 3;
    for entry in entries {
        if log.entry(index) != *entry {
            return false;
        }
        index = index.saturating_add(1);
    }
    true
}

fn tells(log: &Log, turn: &Turn) -> bool {
    log.base() == turn.base
        && log.last() == turn.last
        && has_terms(log, turn.terms)
        && has_entries(log, turn.entries)
}

// The first turn after which a log over base 4 does not tell what it should.
fn first_wrong_turn(log: &mut Log) -> Result<Option<usize>, AllocError> {
    for (i, turn) in TURNS.iter().enumerate() {
        take_turn(log, turn)?;
        if !tells(log, turn) {
            return Ok(Some(i));
        }
    }
    Ok(None)
}

#[test]
fn a_log_over_base_4(rt: HostRuntime) -> Result<(), AllocError> {
    let mut log = Log::at(rt.alloc(), 4, 2);
    assert_eq!(rt; first_wrong_turn(&mut log)?, None);
    Ok(())
}
