//! The errors of what reads and writes files. No clause speaks of the texts that they display.
use thiserror::Error;

/// What stops a reader of a file's bytes.
#[derive(Clone, Copy, Debug, PartialEq, Eq, Error)]
pub enum FetchError {
    /// A read failed, or there is no file of the name.
    #[error("a read failed")]
    ReadFault,
    /// Memory for the bytes was refused.
    #[error("out of memory")]
    Memory,
}

/// What stops a writer of a text.
#[derive(Clone, Copy, Debug, PartialEq, Eq, Error)]
pub enum WriteError {
    /// A create, an append or a put failed.
    #[error("a write failed")]
    WriteFault,
    /// Memory for the text was refused.
    #[error("out of memory")]
    Memory,
}

/// What stops the reader of a file of a given format.
#[derive(Clone, Copy, Debug, PartialEq, Eq, Error)]
pub enum ReadError {
    /// The bytes are not of the format: the first bad line, counted from 1, and the kind of its
    /// first fault, as the format numbers the kinds.
    #[error("fault of kind {kind} in line {line}")]
    Fault { line: u64, kind: u8 },
    /// A read failed, or there is no file of the name.
    #[error("a read failed")]
    ReadFault,
    /// Memory was refused.
    #[error("out of memory")]
    Memory,
}
