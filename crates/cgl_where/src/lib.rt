//! Point files.
#![tactic(auto)]

mod carried;
mod columns;
mod denominators;
mod laws;
mod read;
mod values;

pub use laws::known_points;
pub use read::read_point;
