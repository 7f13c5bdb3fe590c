//! Generators of cuts: the site that they serve, the laws that each of them keeps, and simple rounding.
#![tactic(auto)]

mod columns;
mod generator;
mod laws;
mod listable;
mod rounder;
mod rounding;
mod site;
mod stamped;
mod tableau;

pub use generator::Generator;
pub use laws::cut_laws;
pub use listable::violation_at;
pub use rounder::Rounder;
pub use site::Site;
pub use stamped::Stamped;
pub use tableau::Tableau;
