// How items of a node's store are spelled.
use crate::firsts::first_false;
use raft_durable::items::item_bytes;
use raft_types::bytes::Bytes;
use raft_types::item::Item;
use std::alloc::{AllocError, Global};

// The first item whose bytes are others: an entry, a vote, or a snapshot.
fn first_misspelled(alloc: Global) -> Result<Option<usize>, AllocError> {
    let entry = Item::Entry {
        index: 258,
        term: 3,
        entry: Bytes::from_slice(alloc, b"\x03")?,
    };
    let vote = Item::Vote { term: 1, vote: 2 };
    let snap = Item::Snap { index: 5, term: 2 };
    Ok(first_false(&[
        item_bytes(alloc, &entry, b"")?.as_slice()
            == b"E\0\0\0\0\0\0\x01\x02\0\0\0\0\0\0\0\x03\x03".as_slice(),
        item_bytes(alloc, &vote, b"")?.as_slice() == b"V\0\0\0\0\0\0\0\x01\x02".as_slice(),
        item_bytes(alloc, &snap, b"KHS1")?.as_slice()
            == b"S\0\0\0\0\0\0\0\x05\0\0\0\0\0\0\0\x02KHS1".as_slice(),
    ]))
}

#[test]
fn items_are_spelled(rt: HostRuntime) -> Result<(), AllocError> {
    assert_eq!(rt; first_misspelled(rt.alloc())?, None);
    Ok(())
}
