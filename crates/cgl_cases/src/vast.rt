//! Cases of the reader of a file's lines about the greatest file, which has 2^30 bytes.
use crate::lines::tell_answer;
use cgl_outside::{Failed, LineStep, Lines, Shelf};
use std::alloc::Global;

/// The bytes of a line and its LF.
const LINE: usize = 4096;

/// The most bytes of a read.
const PIECE: usize = 65536;

/// A shelf that has a file under each name, the same one, and makes its bytes up: each line is as long as the others,
/// but maybe for the first and the last.
#[derive(Drop)]
struct Vast {
    pattern: Vec<u8>,
    size: u64,
}

impl Shelf for Vast {
    ghost use Rattle.std.specs.Prelude.{None};

    ghost held = { λ s. None };

    ghost failed_reads = { λ s. 0 };

    ghost failed_writes = { λ s. 0 };

    #[tactic(auto, unfolding(cgl_outside::specs::Shelf::file_of))]
    fn read_at(&mut self, _name: &str, at: u64, buf: &mut [u8]) -> Result<usize, Failed> {
        let start = at as usize % LINE;
        let front = &self.pattern[start.min(self.pattern.len())..];
        let left = self.size.saturating_sub(at) as usize;
        let count = front.len().min(buf.len()).min(left);
        buf[..count].copy_from_slice(&front[..count]);
        Ok(count)
    }

    #[tactic(auto, unfolding(cgl_outside::specs::Shelf::with_file))]
    fn create(&mut self, _name: &str) -> Result<(), Failed> {
        Ok(())
    }

    #[tactic(auto, unfolding(cgl_outside::specs::Shelf::file_of, cgl_outside::specs::Shelf::with_more))]
    fn append(&mut self, _name: &str, _bytes: &[u8]) -> Result<(), Failed> {
        Ok(())
    }
}

/// A file of so many bytes, whose first LF stands behind `first` bytes.
fn made_up(alloc: Global, size: u64, first: usize) -> Option<Vast> {
    let mut pattern = vec![in alloc; b'x'; PIECE + LINE].ok()?;
    for (i, b) in pattern.iter_mut().enumerate() {
        if i % LINE == first {
            *b = b'\n';
        }
    }
    Some(Vast { pattern, size })
}

/// Tells the first answer that is no line for a file `SIZE FIRST`, whose lines may have all the bytes of a file.
#[tactic(auto, unfolding(cgl_outside::specs::Shelf::file_of))]
pub fn tell_vast(rt: &impl Print, alloc: Global, line: &str) -> Option<()> {
    let (size, first) = line.split_once(' ')?;
    let mut shelf = made_up(
        alloc,
        size.parse::<u64>().ok()?,
        first.parse::<usize>().ok()?,
    )?;
    let mut lines = Lines::start(alloc, "f", u64::MAX).ok()?;
    for _ in 0..u64::MAX {
        let answer = lines.next(&mut shelf);
        if answer != Ok(LineStep::Line) {
            return tell_answer(rt, &lines, answer);
        }
    }
    None
}
