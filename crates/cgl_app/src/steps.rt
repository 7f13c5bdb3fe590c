ghost use Rattle.std.specs.Prelude.{◌≡◌, OnOk, IfOk, IfErr, length};
ghost use Rattle.cgl_model.specs.HasDecimals.{HasDecimals};
ghost use Rattle.cgl_model.specs.Valid.{IsValid};
ghost use Rattle.cgl_deck.specs.DeckText.{deck_text};
ghost use Rattle.cgl_decode.specs.DeckResult.{deck_result};
ghost use Rattle.cgl_where.specs.PointRead.{point_result};
ghost use Rattle.cgl_outside.specs.Means.{IsRead};
ghost use Rattle.cgl_outside.specs.Refused.{PutRefused, ReadRefused, WriteRefused, read_refusal};
ghost use Rattle.cgl_outside.specs.Shelf.{with_file};
ghost use Rattle.cgl_outside.specs.Sink.{with_put};
ghost use Rattle.cgl_app.specs.Steps.{DeckRefused};

use crate::Refusal;
use cgl_deck::write_deck;
use cgl_model::{Model, Point};
use cgl_outside::{ReadError, Shelf, Sink, WriteError, write_whole};
use std::alloc::Global;

/// What refuses the command where the file could not be read.
fn refusal_of<F: Copy>(error: ReadError, file: F) -> Refusal<F>
    ensures { result ≡ read_refusal Refusal.Memory (Refusal.ReadFault file) (λ line kind. Refusal.Input file line kind) error }
{
    match error {
        ReadError::Memory => Refusal::Memory,
        ReadError::ReadFault => Refusal::ReadFault(file),
        ReadError::Fault { line, kind } => Refusal::Input { file, line, kind },
    }
}

/// The model that a deck's file holds.
pub fn read_model<S: Shelf, F: Copy>(
    alloc: Global,
    shelf: &mut S,
    name: &str,
    file: F,
) -> Result<Model, Refusal<F>>
    ensures held { S.held shelf.new ≡ S.held shelf.old }
    ensures writes { S.failed_writes shelf.new ≡ S.failed_writes shelf.old }
    ensures reads { OnOk result (S.failed_reads shelf.new ≡ S.failed_reads shelf.old) }
    ensures valid { IfOk result IsValid }
    ensures decimals { IfOk result HasDecimals }
    ensures model { IfOk result (IsRead (S.held shelf.old) name.now deck_result) }
    ensures refused { IfErr result (ReadRefused Refusal.Memory (Refusal.ReadFault file) (λ line kind. Refusal.Input file line kind)
        (S.held shelf.old) (S.failed_reads shelf.old) (S.failed_reads shelf.new) name.now deck_result) }
{
    match cgl_mps::read_deck(alloc, shelf, name) {
        Ok(model) => Ok(model),
        Err(error) => Err(refusal_of(error, file)),
    }
}

/// The point that a point file holds for the model.
pub fn read_point<S: Shelf, F: Copy>(
    alloc: Global,
    shelf: &mut S,
    name: &str,
    model: &Model,
    file: F,
) -> Result<Point, Refusal<F>>
    ensures held { S.held shelf.new ≡ S.held shelf.old }
    ensures writes { S.failed_writes shelf.new ≡ S.failed_writes shelf.old }
    ensures reads { OnOk result (S.failed_reads shelf.new ≡ S.failed_reads shelf.old) }
    ensures point { IfOk result (IsRead (S.held shelf.old) name.now (point_result model.now)) }
    ensures refused { IfErr result (ReadRefused Refusal.Memory (Refusal.ReadFault file) (λ line kind. Refusal.Input file line kind)
        (S.held shelf.old) (S.failed_reads shelf.old) (S.failed_reads shelf.new) name.now (point_result model.now)) }
{
    match cgl_where::read_point(alloc, shelf, name, model) {
        Ok(point) => Ok(point),
        Err(error) => Err(refusal_of(error, file)),
    }
}

/// Writes the canonical text of a model.
pub fn write_model<S: Shelf, F: Copy>(
    alloc: Global,
    shelf: &mut S,
    name: &str,
    model: &Model,
    file: F,
) -> Result<(), Refusal<F>>
    requires { IsValid model.now }
    ensures reads { S.failed_reads shelf.new ≡ S.failed_reads shelf.old }
    ensures writes { OnOk result (S.failed_writes shelf.new ≡ S.failed_writes shelf.old) }
    ensures held { OnOk result (S.held shelf.new ≡ with_file (S.held shelf.old) name.now (deck_text model.now)) }
    ensures refused { IfErr result (DeckRefused Refusal.Memory (Refusal.WriteFault file) (S.held shelf.old) (S.held shelf.new)
        (S.failed_writes shelf.old) (S.failed_writes shelf.new) name.now (deck_text model.now)) }
{
    match write_deck(alloc, model, shelf, name) {
        Ok(()) => Ok(()),
        Err(WriteError::WriteFault) => Err(Refusal::WriteFault(file)),
        Err(WriteError::Memory) => Err(Refusal::Memory),
    }
}

/// Writes a file of the command.
pub fn write_file<S: Shelf, F: Copy>(
    shelf: &mut S,
    name: &str,
    bytes: &[u8],
    file: F,
) -> Result<(), Refusal<F>>
    ensures reads { S.failed_reads shelf.new ≡ S.failed_reads shelf.old }
    ensures writes { OnOk result (S.failed_writes shelf.new ≡ S.failed_writes shelf.old) }
    ensures held { OnOk result (S.held shelf.new ≡ with_file (S.held shelf.old) name.now bytes.now) }
    ensures refused { IfErr result (WriteRefused (Refusal.WriteFault file) (S.held shelf.old) (S.held shelf.new)
        (S.failed_writes shelf.old) (S.failed_writes shelf.new) name.now bytes.now) }
{
    match write_whole(shelf, name, bytes) {
        Ok(()) => Ok(()),
        Err(_) => Err(Refusal::WriteFault(file)),
    }
}

/// Puts the report on the output.
pub fn put_report<O: Sink, F: Copy>(out: &mut O, bytes: &[u8]) -> Result<(), Refusal<F>>
    ensures faults { OnOk result (O.faults out.new ≡ O.faults out.old) }
    ensures written { OnOk result (O.written out.new ≡ with_put (O.written out.old) bytes.now) }
    ensures refused { IfErr result (PutRefused Refusal.OutputFault (O.written out.old) (O.written out.new) (O.faults out.old) (O.faults out.new) bytes.now) }
{
    match out.put(bytes) {
        Ok(()) => Ok(()),
        Err(_) => Err(Refusal::OutputFault),
    }
}
