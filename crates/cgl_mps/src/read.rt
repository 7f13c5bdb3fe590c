//! Decks on a shelf.

ghost use Rattle.std.specs.Prelude.{◌≡◌, ◌⊎◌, ◌∷◌, ◌++◌, ◌≤◌, [], ℕ, IfOk, IfErr, IsErrOf, List, None, Ok, OnOk, Some, nat_lt};
ghost use Rattle.cgl_text.specs.Conditions.{first_kind};
ghost use Rattle.cgl_outside.specs.Shelf.{Lacks, Rose};
ghost use Rattle.cgl_outside.specs.Means.{Means, MeansFault};
ghost use Rattle.cgl_model.specs.Valid.{IsValid};
ghost use Rattle.cgl_model.specs.HasDecimals.{HasDecimals};
ghost use Rattle.cgl_decode.specs.Decode.{deck_limits};
ghost use Rattle.cgl_decode.specs.DeckResult.{deck_result};
ghost use Rattle.cgl_decode.specs.Faults.{conditions};
ghost use Rattle.cgl_decode.specs.Records.{Record as Said, kept};
ghost use Rattle.cgl_model.specs.declared.mip.Model.{Model as Mip};
ghost use Rattle.cgl_mps.specs.Tables.{IsResolved};
ghost use Rattle.cgl_mps.specs.State.{IsBad, IsTaken, Means as StateMeans, Stands, line_record, next_section};

use crate::record::Record;
use crate::records::{is_kept, record_of};
use crate::resolve::{Resolved, resolve};
use crate::state::State;
use cgl_decode::Section;
use cgl_model::Model;
use cgl_num::Memory;
use cgl_outside::{FetchError, LineStep, Lines, ReadError, Shelf};
use cgl_text::kept_fields;
use std::alloc::Global;

/// The most bytes that a line may have.
const LONGEST_LINE: u64 = 4096;

/// Takes in the record, where it has fields.
fn keep(alloc: Global, state: &mut State, r: &Record, pairs: &[Resolved]) -> Result<(), Memory>
    requires { IsResolved state.old.rows r.now pairs.now }
    ensures { OnOk result ((before : List Said) → Stands before state.old
        → first_kind ((nat_lt 4096 r.now.bytes, 11) ∷ conditions deck_limits before r.now) ≡ None
        → Stands (before ++ kept (r.now ∷ [])) state.new) }
{
    if is_kept(r) {
        state.push(alloc, r, pairs)
    } else {
        Ok(())
    }
}

/// Takes in line n, which stands behind a line in the section, and gives the section in which it stands.
#[tactic(auto, unfolding(crate::specs::State::line_record, crate::specs::State::next_section))]
fn take_line(
    alloc: Global,
    state: &mut State,
    pairs: &mut Vec<Resolved>,
    n: u64,
    section: Section,
    line: &[u8],
) -> Result<Section, ReadError>
    ensures section { IfOk result (λ s. s ≡ next_section section line.now) }
    ensures taken { OnOk result (IsTaken (line_record n section line.now) state.old state.new) }
    ensures fault { IfErr result (λ e. (e ≡ ReadError.Memory)
        ⊎ ((kind : ℕ) × (e ≡ ReadError.Fault n kind)
        × IsBad (line_record n section line.now) state.old kind)) }
{
    let Ok(fields) = kept_fields(alloc, line) else {
        return Err(ReadError::Memory);
    };
    let r = record_of(n, section, line, fields.as_slice());
    let Ok(()) = resolve(state.rows(), &r, pairs) else {
        return Err(ReadError::Memory);
    };
    let pairs = pairs.as_slice();
    if let Some(kind) = state.fault(&r, pairs) {
        return Err(ReadError::Fault { line: n, kind });
    }
    let Ok(()) = keep(alloc, state, &r, pairs) else {
        return Err(ReadError::Memory);
    };
    Ok(r.section())
}

/// Takes in the lines of the file of this name, up to ENDATA. The state stands for no line before.
fn read_lines<S: Shelf>(
    alloc: Global,
    shelf: &mut S,
    name: &str,
    state: &mut State,
) -> Result<(), ReadError>
    requires { Stands [] state.old }
    ensures deck { OnOk result ((m : Mip) → StateMeans state.new m → Means (S.held shelf.old) name.now deck_result (Ok m)) }
    ensures fault { IfErr result (MeansFault (S.held shelf.old) name.now deck_result) }
    ensures read_fault { IsErrOf result ReadError.ReadFault
        → Rose (S.failed_reads shelf.old) (S.failed_reads shelf.new) ⊎ Lacks (S.held shelf.old) name.now }
    ensures reads { IsErrOf result ReadError.ReadFault ⊎ (S.failed_reads shelf.new ≡ S.failed_reads shelf.old) }
    ensures later { S.failed_reads shelf.old ≤ S.failed_reads shelf.new }
    ensures excused { Lacks (S.held shelf.old) name.now → S.failed_reads shelf.new ≡ S.failed_reads shelf.old }
    ensures held { S.held shelf.new ≡ S.held shelf.old }
    ensures writes { S.failed_writes shelf.new ≡ S.failed_writes shelf.old }
{
    let mut section = Section::Start;
    let mut pairs = Vec::new(alloc);
    let Ok(mut lines) = Lines::start(alloc, name, LONGEST_LINE) else {
        return Err(ReadError::Memory);
    };
    'lines: loop {
        match lines.next(shelf) {
            Ok(LineStep::Line) => {
                section = take_line(
                    alloc,
                    state,
                    &mut pairs,
                    lines.number(),
                    section,
                    lines.bytes(),
                )?;
                if section.is(Section::End) {
                    return Ok(());
                }
            }
            Ok(LineStep::TooLong) => {
                return Err(ReadError::Fault {
                    line: lines.number(),
                    kind: 11,
                });
            }
            Ok(LineStep::Over) => {
                return Err(ReadError::Fault {
                    line: lines.number(),
                    kind: 12,
                });
            }
            Ok(LineStep::End) => {
                return Err(ReadError::Fault {
                    line: lines.number() + 1,
                    kind: 10,
                });
            }
            Err(FetchError::ReadFault) => return Err(ReadError::ReadFault),
            Err(FetchError::Memory) => return Err(ReadError::Memory),
        }
    }
}

/// The model that the deck of this name on the shelf means. The file is read from its start, line by line, up to the
/// line ENDATA or the first bad line, and at most 2^30 + 1 bytes of it. What is held of it is the model so far, a line
/// and a piece of the file. The shelf's files stay as they were.
///
/// The model is valid: rows and columns have names of their own, each entry is in a row of the model, and its numbers are
/// within the limits.
///
/// # Errors
///
/// `Fault` where the file is no deck, at its first bad line, counted from 1, and with the kind of that line's first
/// fault, however long the file is. The kind is 1 (an unknown header), 2 (order), 3 (fields), 4 (a number), 5 (an unknown
/// row), 6 (an unknown column), 7 (a duplicate), 8 (a split column), 9 (unsupported), 10 (no ENDATA, at the last line's
/// number plus 1), 11 (a line over 4,096 or a name over 255 bytes) or 12 (more than 2^30 bytes, 2^20 rows, 2^20 columns
/// or 2^22 entries). `ReadFault` where a read failed or there is no such file. `Memory` where memory was refused.
pub fn read_deck<S: Shelf>(alloc: Global, shelf: &mut S, name: &str) -> Result<Model, ReadError>
    ensures model { IfOk result (λ m. Means (S.held shelf.old) name.now deck_result (Ok m)) }
    ensures valid { IfOk result IsValid }
    ensures decimals { IfOk result HasDecimals }
    ensures fault { IfErr result (MeansFault (S.held shelf.old) name.now deck_result) }
    ensures read_fault { IsErrOf result ReadError.ReadFault
        → Rose (S.failed_reads shelf.old) (S.failed_reads shelf.new) ⊎ Lacks (S.held shelf.old) name.now }
    ensures reads { IsErrOf result ReadError.ReadFault ⊎ (S.failed_reads shelf.new ≡ S.failed_reads shelf.old) }
    ensures later { S.failed_reads shelf.old ≤ S.failed_reads shelf.new }
    ensures excused { Lacks (S.held shelf.old) name.now → S.failed_reads shelf.new ≡ S.failed_reads shelf.old }
    ensures held { S.held shelf.new ≡ S.held shelf.old }
    ensures writes { S.failed_writes shelf.new ≡ S.failed_writes shelf.old }
{
    let mut state = State::new(alloc);
    read_lines(alloc, shelf, name, &mut state)?;
    match state.into_model(alloc) {
        Ok(model) => Ok(model),
        Err(_) => Err(ReadError::Memory),
    }
}
