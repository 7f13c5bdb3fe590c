//! The canonical text of a model, and models with cuts as further rows.
#![tactic(auto)]

mod extend;
mod laws;
mod names;
mod output;
mod store;
mod write;

pub use extend::{ExtendError, with_cuts};
pub use laws::{extension_laws, refusal_laws, round_trip_laws, text_laws};
pub use names::cut_names;
pub use store::write_deck;
pub use write::deck_len;
