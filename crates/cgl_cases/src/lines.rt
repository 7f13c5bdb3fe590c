//! Cases of the reader of a file's lines.
ghost use Rattle.std.specs.Prelude.{◌≡◌, Some};
ghost use Rattle.cgl_outside.specs.Front.{Follows};
ghost use Rattle.cgl_outside.specs.Reading.{IsOpen};

use crate::bytes::bytes_of;
use cgl_outside::{Call, Fail, Failed, FetchError, LineStep, Lines, MemShelf, Shelf};
use std::alloc::Global;

/// The name of the file of a case.
const NAME: &str = "f";

/// How many bytes of a line are told.
const TOLD: usize = 16;

/// A shelf that has a file under each name, the same one, and gives a byte of it a read.
#[derive(Drop)]
pub struct Dribble {
    pub bytes: Vec<u8>,
}

impl Shelf for Dribble {
    ghost use Rattle.std.specs.Prelude.{None};

    ghost held = { λ s. None };

    ghost failed_reads = { λ s. 0 };

    ghost failed_writes = { λ s. 0 };

    #[tactic(auto, unfolding(cgl_outside::specs::Shelf::file_of))]
    fn read_at(&mut self, _name: &str, at: u64, buf: &mut [u8]) -> Result<usize, Failed> {
        if at >= self.bytes.len() as u64 {
            return Ok(0);
        }
        buf[0] = self.bytes[at as usize];
        Ok(1)
    }

    #[tactic(auto, unfolding(cgl_outside::specs::Shelf::with_file))]
    fn create(&mut self, _name: &str) -> Result<(), Failed> {
        Ok(())
    }

    #[tactic(auto, unfolding(cgl_outside::specs::Shelf::file_of, cgl_outside::specs::Shelf::with_more))]
    fn append(&mut self, _name: &str, _bytes: &[u8]) -> Result<(), Failed> {
        Ok(())
    }
}

fn shown(answer: Result<LineStep, FetchError>) -> &'static str {
    match answer {
        Ok(LineStep::Line) => "line",
        Ok(LineStep::TooLong) => "too long",
        Ok(LineStep::Over) => "over",
        Ok(LineStep::End) => "end",
        Err(FetchError::ReadFault) => "read fault",
        Err(FetchError::Memory) => "out of memory",
    }
}

/// Tells an answer with its number, and of a line how many bytes it has, the first of them, and what ends it.
pub fn tell_answer(
    rt: &impl Print,
    lines: &Lines,
    answer: Result<LineStep, FetchError>,
) -> Option<()>
    requires { lines.now.last ≡ Some answer }
{
    let number = lines.number();
    if answer != Ok(LineStep::Line) {
        return println!(rt; "  {number} {}", shown(answer)).ok();
    }
    let bytes = lines.bytes();
    let front = bytes[..TOLD.min(bytes.len())].escape_ascii();
    let end = if lines.has_lf() { "lf" } else { "no lf" };
    println!(rt; "  {number} line {} {end} {front}", bytes.len()).ok()
}

/// Tells each answer, up to one that is no line, and that one once more.
fn tell_answers<S: Shelf>(rt: &impl Print, lines: &mut Lines, shelf: &mut S) -> Option<()>
    requires { IsOpen lines.old.last → Follows (S.held shelf.old) lines.old.front }
{
    for _ in 0..u64::MAX {
        let answer = lines.next(shelf);
        tell_answer(rt, lines, answer)?;
        if answer != Ok(LineStep::Line) {
            break;
        }
    }
    let again = lines.next(shelf);
    tell_answer(rt, lines, again)
}

/// Tells the lines, of at most `LONGEST` bytes, of the text behind the colon; behind `LONGEST` may stand the number of
/// a read that fails.
pub fn tell_lines(rt: &impl Print, alloc: Global, line: &str) -> Option<()> {
    let (numbers, text) = line.split_once(": ")?;
    let (longest, fault) = numbers.split_once(' ').unwrap_or((numbers, "0"));
    let mut fails = Vec::new(alloc);
    let nth = fault.parse::<u64>().ok()?;
    fails
        .push(Fail {
            call: Call::Read,
            nth,
            keep: 0,
        })
        .ok()?;
    let mut shelf = MemShelf::new(alloc, fails);
    shelf.put_file(NAME, &bytes_of(alloc, text)?).ok()?;
    let mut lines = Lines::start(alloc, NAME, longest.parse::<u64>().ok()?).ok()?;
    tell_answers(rt, &mut lines, &mut shelf)
}

/// The same where each read gives one byte.
pub fn tell_dribbled(rt: &impl Print, alloc: Global, line: &str) -> Option<()> {
    let (longest, text) = line.split_once(": ")?;
    let mut shelf = Dribble {
        bytes: bytes_of(alloc, text)?,
    };
    let mut lines = Lines::start(alloc, NAME, longest.parse::<u64>().ok()?).ok()?;
    tell_answers(rt, &mut lines, &mut shelf)
}
