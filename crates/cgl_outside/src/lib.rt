//! Named files and outputs: the two traits that the programs stand on, both in memory with faults
//! where a test wants them, and both over the system; and the words in which a program says what it
//! does with them, a script of steps and what came of it.
#![tactic(auto)]

mod ahead;
mod edge;
mod errors;
mod fail;
mod laws;
mod line;
mod line_reader;
mod mem_shelf;
mod mem_sink;
mod shelf;
mod sink;
mod store;
mod sure_shelf;
mod sure_sink;
mod take;
mod whole;

pub use edge::{DirShelf, StdSink};
pub use errors::{FetchError, ReadError, WriteError};
pub use fail::{Call, Fail};
pub use laws::{answer_laws, line_laws, shelf_laws, sink_laws};
pub use line_reader::{LineStep, Lines};
pub use mem_shelf::MemShelf;
pub use mem_sink::MemSink;
pub use shelf::{Failed, Shelf};
pub use sink::Sink;
pub use sure_shelf::SureShelf;
pub use sure_sink::SureSink;
pub use whole::write_whole;
