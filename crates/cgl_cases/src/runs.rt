//! Cases of the program, over files and outputs in memory.
use crate::bytes::bytes_of;
use cgl_app::run;
use cgl_outside::{Call, Fail, MemShelf, MemSink, SureShelf, SureSink};
use std::alloc::Global;

/// The names whose files are told.
const NAMES: [&str; 4] = ["m.mps", "x.txt", "o.mps", "p.txt"];

/// Faults of a shelf and of outputs: the calls that fail, by their number among those of their kind, and how many bytes
/// they take all the same.
#[derive(Drop)]
struct Faults {
    shelf: Vec<Fail>,
    out: Vec<(u64, u64)>,
    err: Vec<(u64, u64)>,
}

/// Gives a name the bytes behind it.
pub fn put_file(alloc: Global, files: &mut SureShelf, line: &str) -> Option<()> {
    let (name, text) = line.split_once(' ').unwrap_or((line, ""));
    let bytes = bytes_of(alloc, text)?;
    files.put_file(name, &bytes).ok()
}

/// Adds a fault `KIND NTH KEEP`.
fn add_fault(faults: &mut Faults, fault: &str) -> Option<()> {
    let (kind, numbers) = fault.split_once(' ')?;
    let (nth, keep) = numbers.split_once(' ')?;
    let nth = nth.parse::<u64>().ok()?;
    let keep = keep.parse::<u64>().ok()?;
    let call = match kind {
        "read" => Call::Read,
        "create" => Call::Create,
        "append" => Call::Append,
        "out" => return faults.out.push((nth, keep)).ok(),
        "err" => return faults.err.push((nth, keep)).ok(),
        _ => return None,
    };
    faults.shelf.push(Fail { call, nth, keep }).ok()
}

fn add_faults(faults: &mut Faults, list: &str) -> Option<()> {
    for fault in list.split_terminator(", ") {
        add_fault(faults, fault)?;
    }
    Some(())
}

/// Adds a word. `''` is an empty one.
fn add_word(alloc: Global, words: &mut Vec<String>, word: &str) -> Option<()> {
    let word = if word == "''" { "" } else { word };
    words.push(String::from_str(alloc, word).ok()?).ok()
}

fn words_of(alloc: Global, command: &str) -> Option<Vec<String>> {
    let mut words = Vec::new(alloc);
    for word in command.split_whitespace() {
        add_word(alloc, &mut words, word)?;
    }
    Some(words)
}

/// Tells the end of a run, and how often memory was refused to its files and outputs.
fn tell_end(rt: &impl Print, status: u8, out: &[u8], err: &[u8], refused: [u64; 3]) -> Option<()> {
    let out = out.escape_ascii();
    let err = err.escape_ascii();
    println!(rt; "  status {status} refused {refused:?}\n  out {out}\n  err {err}").ok()
}

/// Tells what a name holds, if it is not what it held before.
fn tell_change(
    rt: &impl Print,
    name: &str,
    before: Option<&[u8]>,
    after: Option<&[u8]>,
) -> Option<()> {
    if before == after {
        return Some(());
    }
    let bytes = after.unwrap_or(b" is gone");
    println!(rt; "  {name} {}", bytes.escape_ascii()).ok()
}

fn put_files(shelf: &mut MemShelf, files: &SureShelf) -> Option<()> {
    for name in &NAMES {
        if let Some(bytes) = files.file(name) {
            shelf.put_file(name, bytes).ok()?;
        }
    }
    Some(())
}

/// Tells a run over a shelf with the files and over outputs, and which files it changed.
fn tell_run_over(
    rt: &impl Print,
    alloc: Global,
    files: &SureShelf,
    words: &[String],
    shelf: &mut MemShelf,
    out: &mut MemSink,
    err: &mut MemSink,
) -> Option<()> {
    put_files(shelf, files)?;
    let status = run(alloc, words, shelf, out, err);
    let refused = [shelf.refused(), out.refused(), err.refused()];
    tell_end(rt, status, out.bytes(), err.bytes(), refused)?;
    for name in &NAMES {
        tell_change(rt, name, files.file(name), shelf.file(name))?;
    }
    Some(())
}

/// Tells a run over a shelf and outputs whose calls have the faults that stand before a colon. Behind it the words are.
pub fn tell_run(rt: &impl Print, alloc: Global, files: &SureShelf, line: &str) -> Option<()> {
    let (list, command) = line.split_once(':')?;
    let words = words_of(alloc, command)?;
    let mut faults = Faults {
        shelf: Vec::new(alloc),
        out: Vec::new(alloc),
        err: Vec::new(alloc),
    };
    add_faults(&mut faults, list)?;
    let mut shelf = MemShelf::new(alloc, faults.shelf);
    let mut out = MemSink::new(alloc, faults.out);
    let mut err = MemSink::new(alloc, faults.err);
    tell_run_over(rt, alloc, files, &words, &mut shelf, &mut out, &mut err)
}

fn tell_files(rt: &impl Print, files: &SureShelf) -> Option<()> {
    for name in &NAMES {
        tell_change(rt, name, None, files.file(name))?;
    }
    Some(())
}

/// Tells a run over the files themselves and outputs that fail for want of memory alone, and all files.
pub fn tell_sure_run(
    rt: &impl Print,
    alloc: Global,
    files: &mut SureShelf,
    command: &str,
) -> Option<()> {
    let words = words_of(alloc, command)?;
    let mut out = SureSink::new(alloc);
    let mut err = SureSink::new(alloc);
    let status = run(alloc, &words, files, &mut out, &mut err);
    let refused = [files.refused(), out.refused(), err.refused()];
    tell_end(rt, status, out.bytes(), err.bytes(), refused)?;
    tell_files(rt, files)
}
