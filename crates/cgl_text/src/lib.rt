//! Fields and names of a text, and texts that grow.
#![tactic(auto)]

mod builder;
mod name_key;
mod name_list;
mod name_table;
mod words;

pub use builder::Builder;
pub use name_list::Names;
pub use name_table::NameTable;
pub use words::{Fields, begins_blank, fields, kept_fields, same_bytes};

/// The most bytes of a text that is read line by line.
pub const MOST_BYTES: usize = 1 << 30;
