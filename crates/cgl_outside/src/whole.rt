//! Whole files over any shelf, in pieces.
ghost use Rattle.std.specs.Prelude.{◌≡◌, ◌⊎◌, ℕ, ◌≤◌, OnOk, OnErr, take};
ghost use Rattle.cgl_outside.specs.Shelf.{with_file, Rose};

use crate::{Failed, Shelf};

/// The bytes of one append at most.
const PIECE: usize = 65536;

/// Writes a file whole, in pieces behind one another, in place of the one that may have the name.
///
/// # Errors
///
/// `Failed` where a create or an append failed. The name is as it was, or has the first of the bytes.
pub fn write_whole<S: Shelf>(shelf: &mut S, name: &str, bytes: &[u8]) -> Result<(), Failed>
    ensures ok { OnOk result (S.held shelf.new ≡ with_file (S.held shelf.old) name.now bytes.now) }
    ensures stands { OnErr result ((S.held shelf.new ≡ S.held shelf.old)
        ⊎ ((kept : ℕ) × (S.held shelf.new ≡ with_file (S.held shelf.old) name.now (take kept bytes.now)))) }
    ensures fault { OnErr result (Rose (S.failed_writes shelf.old) (S.failed_writes shelf.new)) }
    ensures ok_writes { OnOk result (S.failed_writes shelf.new ≡ S.failed_writes shelf.old) }
    ensures later { S.failed_writes shelf.old ≤ S.failed_writes shelf.new }
    ensures reads { S.failed_reads shelf.new ≡ S.failed_reads shelf.old }
{
    let Ok(()) = shelf.create(name) else {
        return Err(Failed);
    };
    let mut done = 0;
    'pieces: while done < bytes.len() {
        let end = (done + PIECE).min(bytes.len());
        let Ok(()) = shelf.append(name, &bytes[done..end]) else {
            return Err(Failed);
        };
        done = end;
    }
    Ok(())
}
