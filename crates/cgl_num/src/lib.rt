//! Exact fractions and decimals within 128 bits, and their texts.
#![tactic(auto)]

mod arithmetic;
mod decimal;
mod divisor;
mod fraction;
pub mod integer_laws;
mod laws;
mod laws_decimal;
mod number_text;
mod order;

pub use arithmetic::{Op, Overflow};
pub use decimal::Dec;
pub use divisor::gcd;
pub use fraction::Frac;
pub use laws::{divisors, factors, known_fractions, lowest_terms, rational_order};
pub use laws_decimal::{decimal_laws, number_laws, read_back_laws};
pub use number_text::{Limit, NumberFault, is_number_text};

/// Memory for a value was refused.
#[derive(Clone, Copy, Debug, PartialEq, Eq)]
pub struct Memory;
