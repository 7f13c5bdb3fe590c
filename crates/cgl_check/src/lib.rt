//! The checker of derivations.
#![tactic(auto)]

mod book;
mod checker;
mod conditions;
mod form;
mod frames;
mod knap;
mod known;
mod laws;
mod lin;
mod orders;
mod path;
mod reasons;
mod refusal;
mod round;
mod scope;
mod space;
mod tables;
mod walk;
mod work;

pub use book::check_book;
pub use known::{known_books, known_depths, known_failures, known_knapsacks};
pub use laws::{book_soundness, exactness, knapsack_values, soundness};
pub use orders::{
    known_cases, known_divisions, known_knapsack_steps, known_lists, known_sums, known_widths,
};
pub use path::{Branch, Path, Reject};
pub use refusal::{BookError, BookRefusal, EntryPlace};
pub use work::{Work, check};
