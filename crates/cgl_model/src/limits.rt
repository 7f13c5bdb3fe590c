//! The sizes that a model has at most.

/// The most rows.
pub const MOST_ROWS: usize = 1 << 20;

/// The most columns.
pub const MOST_COLUMNS: usize = 1 << 20;

/// The most entries.
pub const MOST_ENTRIES: usize = 1 << 22;
