//! The words of the command line.
#![tactic(auto)]

mod asked;
mod laws;
mod option;
mod reading;

pub use asked::{Check, Command, Cut, Generators, Show, Start, Upgrade, command_of};
pub use laws::{file_names, known_words};
