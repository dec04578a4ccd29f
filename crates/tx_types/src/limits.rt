//! The limits of the system, each named once.

/// The fewest bytes of a key.
pub const MIN_KEY_BYTES: usize = 1;

/// The most bytes of a key.
pub const MAX_KEY_BYTES: usize = 512;

/// The most bytes of a value.
pub const MAX_VALUE_BYTES: usize = 65_536;

/// The most bytes of a value that stands inline in a lock or write record. A longer one stands in
/// the `default` family.
pub const MAX_INLINE_BYTES: usize = 255;

/// The most keys of a transaction.
pub const MAX_KEYS: usize = 1_024;

/// The most keys of a transaction that commits asynchronously.
pub const MAX_ASYNC_KEYS: usize = 256;

/// The most keys that an async lock of a primary lists: all of the transaction's but itself.
pub const MAX_SECONDARIES: usize = 255;

/// The most regions of a store.
pub const MAX_REGIONS: usize = 64;

/// The most seats of a journal: its regions, sessions and resolvers together.
pub const MAX_SEATS: usize = 1_024;

/// The most ticks that one seat may draw.
pub const MAX_SEAT_TICKS: u64 = 4_294_967_296;

/// The longest time to live of a lock, in ticks.
pub const MAX_TTL: u32 = 4_294_967_295;

/// The most ticks of one `tick` step; the fewest are 1.
pub const MAX_TICK: u32 = 4_294_967_295;

/// The most rows that a scan may ask for; the fewest are 1.
pub const MAX_SCAN_ROWS: u32 = 1_024;

/// The most live sessions of a script.
pub const MAX_LIVE_SESSIONS: usize = 256;

/// The most requests that a script may hold back.
pub const MAX_HELD_REQUESTS: usize = 1_024;

/// The most bytes of a name in a script; the fewest are 1.
pub const MAX_NAME_BYTES: usize = 64;

/// The most bytes of a line of a script, without its newline.
pub const MAX_LINE_BYTES: usize = 524_288;

/// The most lines of a script.
pub const MAX_LINES: u64 = 1_000_000;

/// The most workers of a run; the fewest are 1.
pub const MAX_WORKERS: usize = 64;

/// The slots over which latches are spread.
pub const LATCH_SLOTS: usize = 256;
