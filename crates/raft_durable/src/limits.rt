//! The first byte of an item, which tells its kind.

/// A snapshot: the letter S.
pub const SNAP_TAG: u8 = 0x53;

/// A term and a vote: the letter V.
pub const VOTE_TAG: u8 = 0x56;

/// An entry: the letter E.
pub const ENTRY_TAG: u8 = 0x45;
