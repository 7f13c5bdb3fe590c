//! The text of a book as a file.

ghost use Rattle.std.specs.Prelude.{◌≡◌, ◌≤◌, IsErrOf, OnOk};
ghost use Rattle.cgl_outside.specs.Shelf.{PartWritten, Rose, with_file};
ghost use Rattle.cgl_prooftext.specs.ProofText.{book_text};

use crate::print::text_of_lists;
use cgl_derive::Book;
use cgl_outside::{Shelf, WriteError, write_whole};
use std::alloc::Global;

/// Creates the file of this name and appends the text of the book, whatever its length.
///
/// After `Ok` the file holds this text, and the shelf holds all other files as before.
///
/// # Errors
///
/// `WriteFault` only where a create or an append failed, so that the shelf's count of failed writes rose: then the file
/// is as before or holds a first part of the text, down to none of it, and all other files are as before.
/// `Memory` for want of memory, before the file is created: then all files and both counts are as before.
pub fn print_proofs<S: Shelf>(
    alloc: Global,
    book: &Book,
    shelf: &mut S,
    name: &str,
) -> Result<(), WriteError>
    ensures text { OnOk result (S.held shelf.new ≡ with_file (S.held shelf.old) name.now (book_text book.now)) }
    ensures stands { IsErrOf result WriteError.WriteFault → PartWritten (S.held shelf.old) (S.held shelf.new) name.now (book_text book.now) }
    ensures fault { IsErrOf result WriteError.WriteFault → Rose (S.failed_writes shelf.old) (S.failed_writes shelf.new) }
    ensures memory { IsErrOf result WriteError.Memory → (S.held shelf.new ≡ S.held shelf.old) × (S.failed_writes shelf.new ≡ S.failed_writes shelf.old) }
    ensures writes { OnOk result (S.failed_writes shelf.new ≡ S.failed_writes shelf.old) }
    ensures later { S.failed_writes shelf.old ≤ S.failed_writes shelf.new }
    ensures reads { S.failed_reads shelf.new ≡ S.failed_reads shelf.old }
{
    let shared = book.shared.as_slice();
    let cuts = book.cuts.as_slice();
    let Ok(text) = text_of_lists(alloc, shared, cuts) else {
        return Err(WriteError::Memory);
    };
    match write_whole(shelf, name, &text) {
        Ok(()) => Ok(()),
        Err(_) => Err(WriteError::WriteFault),
    }
}
