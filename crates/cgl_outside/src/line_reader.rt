//! A reader of the lines of a file.
ghost use Rattle.std.specs.Prelude.{◌≡◌, ◌≤◌, IfOk, IsSome, None, Ok, OnOk, Some};
ghost use Rattle.cgl_text.specs.Text.{most_bytes};
ghost use Rattle.cgl_outside.specs.Shelf.{Held, file_of, Lacks};
ghost use Rattle.cgl_outside.specs.Front.{Follows};
ghost use Rattle.cgl_outside.specs.Reading.{IsEnded, IsOpen, StepShape, Steps, begun};
ghost use Rattle.cgl_outside.specs.Whole.{Fetched};

use crate::ahead::Ahead;
use crate::line::Found;
use crate::take::take_line;
use crate::{FetchError, Shelf};
use cgl_num::Memory;
use std::alloc::Global;
use std::marker::Model;

/// What a step of the reader found.
#[derive(Clone, Copy, Debug, PartialEq, Eq)]
pub enum LineStep {
    /// A line.
    Line,
    /// A line with more bytes than the reader takes.
    TooLong,
    /// A line with the first byte past the greatest file, which has 2^30 bytes. The LF that ends a
    /// line stands in it.
    Over,
    /// There is no line left.
    End,
}

/// The lines of a file on a shelf, one by one. An LF ends a line, and the last line may lack it.
///
/// The reader has one line and one piece of the file, of at most 65,536 bytes, and reads from the
/// file's start upwards.
#[derive(Drop)]
pub struct Lines {
    ahead: Ahead,
    longest: u64,
    line: Vec<u8>,
    has_lf: bool,
    number: u64,
    last: Option<Result<LineStep, FetchError>>,
}

impl Model for Lines {
    ghost use Rattle.std.specs.Prelude.{◌≡◌, ◌≤◌, [], None, Some, Ok, false};
    ghost use Rattle.cgl_text.specs.Text.{most_bytes};
    ghost use Rattle.cgl_outside.specs.Front.{IsPast};
    ghost use Rattle.cgl_outside.specs.Reading.{IsOpen, Reading};
    ghost use Rattle.cgl_outside.specs.declared.line_reader.LineStep.TheVariants.{Line};

    ghost Value = { Reading };

    ghost view = { λ it. record { front = it.ahead; longest = it.longest; line = it.line.items; has_lf = it.has_lf; number = it.number; last = it.last } };

    ghost invariant = { λ it. (IsOpen it.last → (it.ahead.done ≤ most_bytes) × (it.number ≤ it.ahead.done))
        × (it.last ≡ None → (it.ahead.ahead ≡ []) × (it.ahead.ended ≡ false))
        × (it.last ≡ Some (Ok Line) → it.has_lf ≡ false → IsPast it.ahead) };
}

impl Lines {
    /// Stands before the first line of a file, and takes lines of at most `longest` bytes, the LF
    /// not counted.
    ///
    /// # Errors
    ///
    /// `Memory` where memory for a piece is refused.
    pub fn start(alloc: Global, name: &str, longest: u64) -> Result<Lines, Memory>
        ensures begun { IfOk result (λ it. it ≡ begun name.now longest) }
        ensures follows { IfOk result (λ it. (held : Held) → Follows held it.front) }
    {
        let Ok(ahead) = Ahead::start(alloc, name) else {
            return Err(Memory);
        };
        Ok(Lines {
            ahead,
            longest,
            line: Vec::new(alloc),
            has_lf: false,
            number: 0,
            last: None,
        })
    }

    /// The bytes of the line, without its LF.
    pub fn bytes(&self) -> &[u8]
        requires { self.now.last ≡ Some (Ok LineStep.Line) }
        ensures { result.now ≡ self.now.line }
    {
        self.line.as_slice()
    }

    /// Whether an LF ended the line.
    pub fn has_lf(&self) -> bool
        requires { self.now.last ≡ Some (Ok LineStep.Line) }
        ensures { result ≡ self.now.has_lf }
    {
        self.has_lf
    }

    /// The number of the line, from 1, also of one that is too long or not within the greatest
    /// file; after the end that of the last line, or 0 where there is none.
    pub fn number(&self) -> u64
        ensures { result ≡ self.now.number }
    {
        self.number
    }

    /// The next step of a reader that goes on.
    fn step<S: Shelf>(&mut self, shelf: &mut S) -> Result<LineStep, FetchError>
        requires goes_on { IsOpen self.old.last }
        requires follows { Follows (S.held shelf.old) self.old.front }
        ensures last { self.new.last ≡ Some result }
        ensures says { IfOk result (Steps (S.held shelf.old) self.old self.new) }
        ensures follows { IsOpen self.new.last → Follows (S.held shelf.new) self.new.front }
        ensures shape { StepShape self.old self.new result }
        ensures found { OnOk result (self.old.last ≡ None → IsSome (S.held shelf.old) → IsSome (file_of (S.held shelf.old) self.old.front.name)) }
        ensures ended { IsEnded self.old → result ≡ Ok LineStep.End }
        ensures name { self.new.front.name ≡ self.old.front.name }
        ensures longest { self.new.longest ≡ self.old.longest }
        ensures reads { Fetched (S.failed_reads shelf.old) (S.failed_reads shelf.new) result (Lacks (S.held shelf.old) self.old.front.name) }
        ensures held { S.held shelf.new ≡ S.held shelf.old }
        ensures writes { S.failed_writes shelf.new ≡ S.failed_writes shelf.old }
    {
        match take_line(&mut self.ahead, shelf, &mut self.line, self.longest) {
            Ok(Found::Line(has_lf)) => {
                self.has_lf = has_lf;
                self.number += 1;
                self.last = Some(Ok(LineStep::Line));
                Ok(LineStep::Line)
            }
            Ok(Found::TooLong) => {
                self.number += 1;
                self.last = Some(Ok(LineStep::TooLong));
                Ok(LineStep::TooLong)
            }
            Ok(Found::Over) => {
                self.number += 1;
                self.last = Some(Ok(LineStep::Over));
                Ok(LineStep::Over)
            }
            Ok(Found::End) => {
                self.last = Some(Ok(LineStep::End));
                Ok(LineStep::End)
            }
            Err(error) => {
                self.last = Some(Err(error));
                Err(error)
            }
        }
    }

    /// The next line. After an answer other than a line each later call answers the same, and reads
    /// nothing.
    ///
    /// # Errors
    ///
    /// `ReadFault` where a read failed or there is no such file. `Memory` where memory was refused.
    pub fn next<S: Shelf>(&mut self, shelf: &mut S) -> Result<LineStep, FetchError>
        requires { IsOpen self.old.last → Follows (S.held shelf.old) self.old.front }
        ensures last { self.new.last ≡ Some result }
        ensures again { (IsOpen self.old.last → ⊥) → (self.new ≡ self.old) × (shelf.new ≡ shelf.old) }
        ensures says { IsOpen self.old.last → IfOk result (Steps (S.held shelf.old) self.old self.new) }
        ensures follows { IsOpen self.new.last → Follows (S.held shelf.new) self.new.front }
        ensures shape { IsOpen self.old.last → StepShape self.old self.new result }
        ensures found { OnOk result (self.old.last ≡ None → IsSome (S.held shelf.old) → IsSome (file_of (S.held shelf.old) self.old.front.name)) }
        ensures ended { IsEnded self.old → result ≡ Ok LineStep.End }
        ensures name { self.new.front.name ≡ self.old.front.name }
        ensures longest { self.new.longest ≡ self.old.longest }
        ensures reads { IsOpen self.old.last → Fetched (S.failed_reads shelf.old) (S.failed_reads shelf.new) result (Lacks (S.held shelf.old) self.old.front.name) }
        ensures held { S.held shelf.new ≡ S.held shelf.old }
        ensures writes { S.failed_writes shelf.new ≡ S.failed_writes shelf.old }
    {
        match self.last {
            None => self.step(shelf),
            Some(Ok(LineStep::Line)) => self.step(shelf),
            Some(Ok(LineStep::TooLong)) => Ok(LineStep::TooLong),
            Some(Ok(LineStep::Over)) => Ok(LineStep::Over),
            Some(Ok(LineStep::End)) => Ok(LineStep::End),
            Some(Err(error)) => Err(error),
        }
    }
}
