//! What the product limits, each number once.

/// The last instant: 9999-12-31T23:59:59.999Z, in milliseconds since 1970.
pub const LAST_INSTANT: u64 = 253_402_300_799_999;

/// The most bytes of a query's text.
pub const MOST_TEXT_BYTES: usize = 65_536;

/// The most brackets that are open at a place of a query's text.
pub const MOST_OPEN: usize = 32;

/// The most windows of a query.
pub const MOST_WINDOWS: usize = 16;

/// The most variables of a query, of brackets, labels and aggregates among them.
pub const MOST_VARIABLES: usize = 64;

/// The most triple patterns of a query, those of paths among them.
pub const MOST_PATTERNS: usize = 64;

/// The most operators, calls and aggregates of a query.
pub const MOST_OPERATORS: usize = 512;

/// The most elements of a query's groups that aren't triples.
pub const MOST_ELEMENTS: usize = 256;

/// The most rows of a query's VALUES, all together.
pub const MOST_VALUE_ROWS: usize = 4_096;

/// The most queries that are live.
pub const MOST_QUERIES: usize = 256;

/// The most triples of an item.
pub const MOST_TRIPLES: u64 = 100_000;

/// The most triples of all items that some window still needs.
pub const MOST_HELD: u64 = 1_000_000;

/// The most quads that are stored.
pub const MOST_QUADS: u64 = 1_000_000;

/// The most rows of a part of a query.
pub const MOST_ROWS: usize = 1_000_000;

/// The most rows that COUNT counts.
pub const MOST_COUNTED: u64 = 1 << 32;

/// The most ms that an item may be behind the latest one: a day.
pub const MOST_SLACK: u64 = 86_400_000;

/// The most recorded streams that are read together.
pub const MOST_STREAMS: usize = 16;

/// The most items that the generator makes.
pub const MOST_ITEMS: u64 = 1_000_000;

/// The most bytes of a block of a log.
pub const MOST_BLOCK_BYTES: usize = 16_777_216;

/// The most bytes of a log.
pub const MOST_LOG_BYTES: u64 = 1 << 40;

/// The most bytes of a file that is read whole.
pub const MOST_FILE_BYTES: usize = 67_108_864;
