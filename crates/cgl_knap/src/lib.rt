//! Knapsack tables: the greatest value of a set of items within a capacity, and the least cost of a set above it.
//!
//! An item is a weight and a value or a cost, each in a list of its own, and a set of items is a list of truth values,
//! one for each item. All that is worked on is handed in, so nothing here takes memory. Both calls make a table over
//! all capacities up to the given one, one item after another, so the time is the number of items times the capacity.
#![tactic(auto)]

mod cover;
mod known;
mod laws;
mod table;

pub use cover::best_cover;
pub use known::{known_covers, known_tables, known_values};
pub use laws::{covers, greatest_values, tables};
pub use table::{add_item, best_value, clear};
