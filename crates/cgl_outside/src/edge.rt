//! The files and the outputs of the system. They tell no bytes, and count each error.
ghost use Rattle.std.specs.Prelude.{◌≤◌, ◌≡◌, length, IfOk, Ok, true, false};
ghost use Rattle.cgl_outside.specs.Shelf.{Counts};

use crate::{Failed, Shelf, Sink};
use std::fs::{File, OpenOptions};
use std::io;
use std::io::{Read, Write};
use std::marker::Model;
use std::os::unix::fs::FileExt;

/// A file that is open where the last read of it ended.
#[derive(Drop)]
struct OpenInput {
    name: String,
    file: File,
    at: u64,
}

impl OpenInput {
    /// Whether a read of a file from a place on goes on here.
    fn is_at(&self, name: &str, at: u64) -> bool {
        at > 0 && self.at == at && self.name.as_str() == name
    }
}

/// A file that is open where the last write to it ended.
#[derive(Drop)]
struct OpenOutput {
    name: String,
    file: File,
}

/// The files of the system. A name is a path. It tells no files to proofs, and each error of the
/// system, for a missing file too, counts as a failed call.
///
/// A file that is read from its start upwards is opened once, so that another that takes its name
/// meanwhile counts for nothing, and a pipe can be read. So is a file that is created and then
/// appended to. Where memory for its name is refused, it is opened at each call.
#[derive(Drop)]
pub struct DirShelf<'a> {
    rt: &'a HostRuntime,
    read_faults: u64,
    write_faults: u64,
    reading: Option<OpenInput>,
    writing: Option<OpenOutput>,
}

impl<'a> Model for DirShelf<'a> {
    ghost use Rattle.cgl_outside.specs.Edge.{DirFaults};

    ghost Value = { DirFaults };

    ghost view = { λ a. record { reads = a.read_faults; writes = a.write_faults } };
}

/// The value of a call of the system. An error counts as a failed call.
fn counted<T>(answer: io::Result<T>, faults: &mut u64) -> Result<T, Failed>
    ensures value { IfOk result (λ value. answer ≡ Ok value) }
    ensures faults { Counts faults.old faults.new result ⊥ }
{
    match answer {
        Ok(value) => Ok(value),
        Err(_) => {
            *faults = faults.saturating_add(1);
            Err(Failed)
        }
    }
}

/// Reads on in an open file, which is kept open if the read does not fail.
fn read_on(mut open: OpenInput, kept: &mut Option<OpenInput>, buf: &mut [u8]) -> io::Result<usize>
    ensures { IfOk result (λ n. n ≤ length buf.new) }
{
    let count = open.file.read(buf)?;
    open.at = open.at.saturating_add(count as u64);
    *kept = Some(open);
    Ok(count)
}

/// Reads a piece of the file that is kept open where the read goes on in it, or of one that is opened
/// for it, and kept open if it is read from its start. Gives 0 at and past the end of the file.
fn read_piece(
    rt: &HostRuntime,
    kept: &mut Option<OpenInput>,
    name: &str,
    at: u64,
    buf: &mut [u8],
) -> io::Result<usize>
    ensures { IfOk result (λ n. n ≤ length buf.new) }
{
    match kept.take() {
        Some(open) if open.is_at(name, at) => return read_on(open, kept, buf),
        _ => {}
    }
    let mut file = File::open(rt, name)?;
    if at > 0 {
        return file.read_at(buf, at);
    }
    match String::from_str(rt.alloc(), name) {
        Ok(name) => read_on(OpenInput { name, file, at }, kept, buf),
        Err(_) => file.read(buf),
    }
}

/// Makes a file with no bytes, which is kept open.
fn create_file(rt: &HostRuntime, kept: &mut Option<OpenOutput>, name: &str) -> io::Result<()> {
    *kept = None;
    let file = File::create(rt, name)?;
    if let Ok(name) = String::from_str(rt.alloc(), name) {
        *kept = Some(OpenOutput { name, file });
    }
    Ok(())
}

/// Writes to the file that is kept open, if it has the name, or at the end of one that is opened for
/// it. A file that takes nothing of a piece is an error.
fn write_more(
    rt: &HostRuntime,
    kept: &mut Option<OpenOutput>,
    name: &str,
    bytes: &[u8],
) -> io::Result<()> {
    match kept {
        Some(open) if open.name.as_str() == name => open.file.write_all(bytes),
        _ => OpenOptions::new()
            .append(true)
            .open(rt, name)?
            .write_all(bytes),
    }
}

impl DirShelf<'_> {
    /// The files that the process reaches, with no fault so far.
    pub fn new(rt: &HostRuntime) -> DirShelf<'_>
        ensures { result ≡ record { reads = 0; writes = 0 } }
    {
        DirShelf {
            rt,
            read_faults: 0,
            write_faults: 0,
            reading: None,
            writing: None,
        }
    }
}

impl Shelf for DirShelf<'_> {
    ghost use Rattle.std.specs.Prelude.{None};

    ghost held = { λ s. None };

    ghost failed_reads = { λ s. s.reads };

    ghost failed_writes = { λ s. s.writes };

    #[tactic(auto, unfolding(crate::specs::Shelf::file_of))]
    fn read_at(&mut self, name: &str, at: u64, buf: &mut [u8]) -> Result<usize, Failed> {
        counted(
            read_piece(self.rt, &mut self.reading, name, at, buf),
            &mut self.read_faults,
        )
    }

    #[tactic(auto, unfolding(crate::specs::Shelf::with_file))]
    fn create(&mut self, name: &str) -> Result<(), Failed> {
        counted(
            create_file(self.rt, &mut self.writing, name),
            &mut self.write_faults,
        )
    }

    fn append(&mut self, name: &str, bytes: &[u8]) -> Result<(), Failed> {
        counted(
            write_more(self.rt, &mut self.writing, name, bytes),
            &mut self.write_faults,
        )
    }
}

/// Standard output, or standard error. It tells no bytes to proofs, and each error of the system
/// counts as a failed put.
#[derive(Drop)]
pub struct StdSink<'a> {
    rt: &'a HostRuntime,
    is_error: bool,
    faults: u64,
}

impl<'a> Model for StdSink<'a> {
    ghost use Rattle.cgl_outside.specs.Edge.{StdFaults};

    ghost Value = { StdFaults };

    ghost view = { λ a. record { is_error = a.is_error; faults = a.faults } };
}

/// Writes until all bytes are taken. An output that takes nothing of them is an error.
fn write_out(rt: &HostRuntime, is_error: bool, bytes: &[u8]) -> io::Result<()> {
    if is_error {
        rt.stderr().write_all(bytes)
    } else {
        rt.stdout().write_all(bytes)
    }
}

impl StdSink<'_> {
    /// Standard output, with no fault so far.
    pub fn output(rt: &HostRuntime) -> StdSink<'_>
        ensures { result ≡ record { is_error = false; faults = 0 } }
    {
        StdSink {
            rt,
            is_error: false,
            faults: 0,
        }
    }

    /// Standard error, with no fault so far.
    pub fn error(rt: &HostRuntime) -> StdSink<'_>
        ensures { result ≡ record { is_error = true; faults = 0 } }
    {
        StdSink {
            rt,
            is_error: true,
            faults: 0,
        }
    }
}

impl Sink for StdSink<'_> {
    ghost use Rattle.std.specs.Prelude.{None};

    ghost written = { λ s. None };

    ghost faults = { λ s. s.faults };

    fn put(&mut self, bytes: &[u8]) -> Result<(), Failed> {
        counted(write_out(self.rt, self.is_error, bytes), &mut self.faults)
    }
}
