// The limits of names, paths, texts and records, each stated once.

/// Bytes of a name.
pub const MAX_NAME: usize = 255;

/// Bytes of the spelling of a path.
pub const MAX_PATH_TEXT: usize = 1_024;

/// Names that the spelling of a path has room for; a name takes two bytes there at least.
pub const MAX_SPELLED_NAMES: usize = 512;

/// Bytes of a text of the program.
pub const MAX_TEXT: usize = 4_096;

/// Fields of a record.
pub const MAX_FIELDS: usize = 64;

/// Bytes of the spelling of a record.
pub const MAX_REC_TEXT: usize = 4_096;
