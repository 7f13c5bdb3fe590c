//! The cuts that are listed of what generators say.
#![tactic(auto)]

mod any_gen;
mod compare;
mod gathering;
mod generating;
mod kept;
mod laws;
mod numbered;
mod sorting;
mod task;

pub use any_gen::AnyGen;
pub use gathering::gather;
pub use generating::generate;
pub use kept::{Gathered, Kept};
pub use laws::{listing_laws, task_laws};
pub use numbered::Numbered;
pub use task::Task;
