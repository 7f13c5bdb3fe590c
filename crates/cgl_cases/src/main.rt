//! Writes each line of standard input and behind it what the public calls answer: a line is a word, which names the
//! calls, and what they take. A line that names none is told as a fault, and so is one for which memory was refused.
#![tactic(auto)]

mod bytes;
mod lines;
mod models;
mod names;
mod numbers;
mod points;
mod runs;
mod vast;

use cgl_outside::SureShelf;
use std::alloc::Global;
use std::io;

/// Tells what the calls answer that a line names, over the files that earlier lines left. None for a fault.
fn tell(rt: &impl Print, alloc: Global, files: &mut SureShelf, line: &str) -> Option<()> {
    let (word, rest) = line.split_once(' ').unwrap_or((line, ""));
    match word {
        "fraction" => numbers::tell_fraction(rt, rest),
        "sums" => numbers::tell_sums(rt, rest),
        "number" => numbers::tell_number(rt, rest),
        "violation" => models::tell_violation(rt, alloc, rest),
        "names" => names::tell_names(rt, alloc, rest),
        "deck" => models::tell_deck(rt, alloc, files, rest),
        "point" => points::tell_point(rt, alloc, rest),
        "lines" => lines::tell_lines(rt, alloc, rest),
        "dribble" => lines::tell_dribbled(rt, alloc, rest),
        "vast" => vast::tell_vast(rt, alloc, rest),
        "file" => runs::put_file(alloc, files, rest),
        "run" => runs::tell_run(rt, alloc, files, rest),
        "sure" => runs::tell_sure_run(rt, alloc, files, rest),
        _ => None,
    }
}

fn tell_all(rt: &impl Print, alloc: Global, files: &mut SureShelf, lines: &str) -> io::Result<()> {
    for line in lines.lines() {
        println!(rt; "{line}")?;
        if tell(rt, alloc, files, line).is_none() {
            println!(rt; "  fault: not of the form of a case, or out of memory")?;
        }
    }
    Ok(())
}

fn main(rt: HostRuntime) -> io::Result<()> {
    let lines = io::read_to_string(rt.alloc(), rt.stdin())?;
    let mut files = SureShelf::new(rt.alloc());
    tell_all(&rt, rt.alloc(), &mut files, &lines)
}
