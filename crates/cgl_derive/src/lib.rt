//! Derivations of inequalities from the ends of a model, and weighted sums of inequalities.
#![tactic(auto)]

mod answer;
mod book;
mod coefficients;
mod columns;
mod division;
mod known;
mod laws;
mod sharing_laws;
mod sharing_rows;
mod step;
mod sum;
mod total;

pub use answer::{Answer, Candidate};
pub use book::Book;
pub use coefficients::coefficient_of;
pub use columns::{are_binary, are_columns, are_integers, is_binary, is_integer};
pub use division::{ceiling, divides, divides_all, divisor_of, rounded};
pub use known::{
    known_books, known_coefficients, known_continuous, known_contradiction, known_depths,
    known_derivations, known_knapsacks, known_limits, known_splits, known_sums,
};
pub use laws::{
    books, coefficient_laws, divisors, knapsacks, lists, rounding, soundness, steps, weighted_sums,
};
pub use sharing_laws::{more_shared, sharing};
pub use sharing_rows::known_sharing;
pub use step::{Derivation, Knap, Lin, Ref, Round, Split, Step};
pub use sum::Sum;
pub use total::Total;
