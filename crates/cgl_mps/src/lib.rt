//! Decks in the MPS format.
#![tactic(auto)]

mod bound;
mod bound_table;
mod bounds;
mod column_table;
mod counts;
mod first_set;
mod judge;
mod made;
mod numbers;
mod pair_table;
mod read;
mod record;
mod records;
mod resolve;
mod sections;
mod state;

pub use read::read_deck;
