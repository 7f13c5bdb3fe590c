ghost use Rattle.std.specs.Prelude.{◌≡◌, ℕ, List, Option, OnOk, OnErr, take};
ghost use Rattle.cgl_outside.specs.Shelf.{Counts};
ghost use Rattle.cgl_outside.specs.Sink.{with_put};

use crate::Failed;

/// An output that bytes are put on, in pieces.
///
/// An output may tell its bytes to proofs, and whether it tells never changes. A put fails only
/// where the count of faults rose by one in it, or stands at the end of its type, 2^64 - 1.
pub trait Sink {
    /// The bytes that it got, where it tells them.
    ghost written: { Self → Option (List ℕ) };

    /// How often `put` has failed. It never falls.
    ghost faults: { Self → ℕ };

    /// Puts bytes at the end.
    ///
    /// # Errors
    ///
    /// `Failed` where the put failed. The first of the bytes, none of them or all may stand at the
    /// end of the output.
    fn put(&mut self, bytes: &[u8]) -> Result<(), Failed>
        ensures ok { OnOk result (written self.new ≡ with_put (written self.old) bytes.now) }
        ensures err { OnErr result ((kept : ℕ) × (written self.new ≡ with_put (written self.old) (take kept bytes.now))) }
        ensures faults { Counts (faults self.old) (faults self.new) result ⊥ };
}
