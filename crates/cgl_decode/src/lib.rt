//! What the bytes of a deck in the MPS format mean: definitions and their laws, below what reads and writes decks.
#![tactic(auto)]

pub mod examples;
mod kinds;
pub mod laws;
mod models;

pub use kinds::{BoundKind, Section};
pub use models::{decks_are_decimal, decks_are_sized, decks_are_valid};
