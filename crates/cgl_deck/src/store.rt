//! The canonical text of a model as a file.

ghost use Rattle.std.specs.Prelude.{◌≡◌, ◌≤◌, IsErrOf, IsSome, OnOk};
ghost use Rattle.cgl_model.specs.Valid.{IsValid};
ghost use Rattle.cgl_outside.specs.Shelf.{Rose, with_file};
ghost use Rattle.cgl_deck.specs.DeckText.{deck_text};
ghost use Rattle.cgl_deck.specs.StoredDeck.{HoldsDeck, HoldsPart};

use crate::write::deck_text;
use cgl_model::Model;
use cgl_outside::{Shelf, WriteError, write_whole};
use std::alloc::Global;

/// Creates the file of this name and appends the canonical text of the model, whatever its length.
///
/// After `Ok` the file holds this text, and the shelf holds all other files as before. Text of at most 2^30 bytes
/// decodes to the model: a shelf that tells its bytes then holds a file whose bytes decode to the model.
///
/// # Errors
///
/// `WriteFault` only where a create or an append failed, so that the shelf's count of failed writes rose: then the file
/// is as before or holds a first part of the text, down to none of it, and all other files are as before.
/// `Memory` for want of memory, before the file is created: then all files and both counts are as before.
pub fn write_deck<S: Shelf>(
    alloc: Global,
    model: &Model,
    shelf: &mut S,
    name: &str,
) -> Result<(), WriteError>
    requires { IsValid model.now }
    ensures text { OnOk result (S.held shelf.new ≡ with_file (S.held shelf.old) name.now (deck_text model.now)) }
    ensures decodes { OnOk result (IsSome (S.held shelf.old) → HoldsDeck (S.held shelf.new) name.now model.now) }
    ensures stands { IsErrOf result WriteError.WriteFault → HoldsPart (S.held shelf.old) (S.held shelf.new) name.now model.now }
    ensures fault { IsErrOf result WriteError.WriteFault → Rose (S.failed_writes shelf.old) (S.failed_writes shelf.new) }
    ensures memory { IsErrOf result WriteError.Memory → (S.held shelf.new ≡ S.held shelf.old) × (S.failed_writes shelf.new ≡ S.failed_writes shelf.old) }
    ensures writes { OnOk result (S.failed_writes shelf.new ≡ S.failed_writes shelf.old) }
    ensures later { S.failed_writes shelf.old ≤ S.failed_writes shelf.new }
    ensures reads { S.failed_reads shelf.new ≡ S.failed_reads shelf.old }
{
    model.has_decimals();
    let Ok(text) = deck_text(alloc, model) else {
        return Err(WriteError::Memory);
    };
    match write_whole(shelf, name, &text) {
        Ok(()) => Ok(()),
        Err(_) => Err(WriteError::WriteFault),
    }
}
