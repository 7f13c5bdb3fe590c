//! The program as a call over any shelf and any outputs.
#![tactic(auto)]

mod accept;
mod cut;
mod files;
mod laws;
mod program;
mod refusal;
mod report;
mod same;
mod say;
mod say_entry;
mod show;
mod steps;
mod texts;

pub use laws::{cut_laws, known_lines, verdict_laws};
pub use program::run;
pub use refusal::{Cause, CheckFile, CutFile, Refusal, ShowFile, Spot, Unaccepted, UpgradeFile};
