//! The next line of a file, in turns.
ghost use Rattle.std.specs.Prelude.{◌≡◌, ◌≤◌, ℕ, List, [], Ok, Some, false, drop, IfOk, IsSome, OnOk};
ghost use Rattle.cgl_text.specs.Text.{most_bytes};
ghost use Rattle.cgl_outside.specs.Shelf.{file_of, Lacks};
ghost use Rattle.cgl_outside.specs.Front.{Follows, IsPast};
ghost use Rattle.cgl_outside.specs.Turns.{FoundSays, LeavesOff, Shaped};
ghost use Rattle.cgl_outside.specs.Whole.{Fetched};

use crate::ahead::Ahead;
use crate::line::{Found, take_turn};
use crate::{FetchError, Shelf};

/// Takes the next line, and says what was found. `line` has its bytes, where there are not too many.
pub(crate) fn take_line<S: Shelf>(
    ahead: &mut Ahead,
    shelf: &mut S,
    line: &mut Vec<u8>,
    longest: u64,
) -> Result<Found, FetchError>
    requires follows { Follows (S.held shelf.old) ahead.old }
    requires done { ahead.old.done ≤ most_bytes }
    ensures says { IfOk result (λ found. (file : List ℕ) → file_of (S.held shelf.old) ahead.old.name ≡ Some file
        → FoundSays longest ahead.old.done (drop ahead.old.done file) line.new.items ahead.new.done found) }
    ensures follows { IfOk result (λ found. LeavesOff found (Follows (S.held shelf.old) ahead.new)) }
    ensures found { OnOk result (ahead.old.ahead ≡ [] → ahead.old.ended ≡ false → IsSome (S.held shelf.old) → IsSome (file_of (S.held shelf.old) ahead.old.name)) }
    ensures shape { IfOk result (Shaped longest ahead.old.done line.new.items ahead.new) }
    ensures past { IsPast ahead.old → result ≡ Ok Found.End }
    ensures name { ahead.new.name ≡ ahead.old.name }
    ensures reads { Fetched (S.failed_reads shelf.old) (S.failed_reads shelf.new) result (Lacks (S.held shelf.old) ahead.old.name) }
    ensures held { S.held shelf.new ≡ S.held shelf.old }
    ensures writes { S.failed_writes shelf.new ≡ S.failed_writes shelf.old }
{
    line.clear();
    let start = ahead.done();
    'pieces: loop {
        let Ok(()) = ahead.fill(shelf) else {
            return Err(FetchError::ReadFault);
        };
        let size = ahead.done() - start;
        match take_turn(ahead, line, size, longest) {
            Ok(None) => {}
            Ok(Some(found)) => return Ok(found),
            Err(_) => return Err(FetchError::Memory),
        }
    }
}
