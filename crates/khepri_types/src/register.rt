// Registers.
use khepri_terms::{Bytes, Path, Rec};
use sqlite_items::Items;

/// A register by its type and number, from 0 to 7. A higher number names nothing: it reads as the opening value and keeps nothing.
#[derive(Clone, Copy, PartialEq, Eq)]
pub enum Register {
    Int(u8),
    Text(u8),
    Path(u8),
    Rec(u8),
}

/// What the registers hold: eight of each type.
#[derive(Drop)]
pub struct Registers {
    pub ints: Items<i64>,
    pub texts: Items<Bytes>,
    pub paths: Items<Path>,
    pub recs: Items<Rec>,
}
