// The limits of the product, each stated once.

/// Bytes of an input line, its end not counted.
pub const MAX_LINE_BYTES: usize = 16_384;

/// Bytes of one input.
pub const MAX_INPUT_BYTES: u64 = 1_099_511_627_776;

/// The greatest number that a line may show or ask for.
pub const MAX_NUMBER: u64 = 9_223_372_036_854_775_807;

/// Nodes of a tree, the root among them.
pub const MAX_TREE_NODES: usize = 65_536;

/// Bytes of a tree: the sum over its nodes of the spelled lengths of the last name, the payload, and each watch's target and condition.
pub const MAX_TREE_BYTES: u64 = 16_777_216;

/// Names of a path at which a node may stand.
pub const MAX_PATH_NAMES: usize = 32;

/// Watches of a node.
pub const MAX_WATCHES: usize = 16;

/// Conditions of which a condition is made, itself counted.
pub const MAX_CONDITION_PARTS: usize = 64;

/// How deep conditions may stand in one another; a condition with none in it has nesting 1.
pub const MAX_CONDITION_NESTING: usize = 16;

/// Pieces of a glob.
pub const MAX_GLOB_PIECES: usize = 255;

/// Parts of a pattern.
pub const MAX_PATTERN_PARTS: usize = 32;

/// Bytes of the spelling of a pattern.
pub const MAX_PATTERN_TEXT: usize = 1_024;

/// Nodes that a command may ask to be shown.
pub const MAX_SHOWN_NODES: u64 = 256;

/// Bytes of the spelling of a script.
pub const MAX_SCRIPT_TEXT: usize = 8_192;

/// Statements and expressions of a script.
pub const MAX_SCRIPT_PARTS: usize = 256;

/// How deep blocks may stand in one another; the script's own block is the first.
pub const MAX_BLOCK_NESTING: usize = 8;

/// How deep expressions may stand in one another; one with none in it has nesting 1.
pub const MAX_EXPRESSION_NESTING: usize = 8;

/// Registers of each type.
pub const MAX_REGISTERS: u8 = 8;

/// Units that a script may spend: one for each statement, and one for each turn of `each`.
pub const MAX_UNITS: u64 = 10_000;

/// By how much an entry may raise a version, at most.
pub const MAX_VERSION_RISE: u64 = 1_048_576;

/// Values that a script may emit.
pub const MAX_EMITTED: usize = 64;

/// Bytes of a text that `cat` makes.
pub const MAX_CAT_TEXT: usize = 4_096;

/// Projections that may stand at once.
pub const MAX_PROJECTIONS: usize = 64;

/// Sources of a key, and scalars of a key that a read asks for.
pub const MAX_ROW_KEYS: usize = 4;

/// Sources of a value, and scalars of a row's value.
pub const MAX_ROW_VALUES: usize = 8;

/// Bytes of rows: the sum over all rows of all projections of the spelled lengths of path, key and value.
pub const MAX_ROW_BYTES: u64 = 33_554_432;
