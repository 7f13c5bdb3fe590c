//! The text of proofs.
#![tactic(auto)]

mod field;
mod fields;
mod laws;
mod line_laws;
mod names;
mod numbers;
mod order;
mod output;
mod print;
mod record;
mod reference;
mod store;
mod values;
mod words;

pub use laws::known_texts;
pub use line_laws::known_lines;
pub use print::{proof_text, proofs_len};
pub use store::print_proofs;
