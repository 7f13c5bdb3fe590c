ghost use Rattle.std.specs.Prelude.{◌≡◌, ◌⊎◌, ℕ, ◌<◌, ◌≤◌, [], List, length, take, IfOk, OnOk, OnErr, IsSome, Some};
ghost use Rattle.cgl_outside.specs.Shelf.{Held, file_of, with_file, with_more, Lacks, IsPiece, Counts};

/// A call that the outside refused.
#[derive(Clone, Copy, Debug, PartialEq, Eq)]
pub struct Failed;

/// A set of named files, read and written in pieces.
///
/// A name is text, and a file is bytes. A shelf may tell its files to proofs. Clauses on content
/// hold where it does. Whether it tells never changes.
///
/// A call fails only where the count of failed calls of its kind rose by one in it, or where a file
/// that is read or appended to is not there: then the counts stay. A count never falls, and a count
/// at the end of its type, 2^64 - 1, stands still.
pub trait Shelf {
    /// The files, where the shelf tells them.
    ghost held: { Self → Held };

    /// How often a read has failed.
    ghost failed_reads: { Self → ℕ };

    /// How often a create or an append has failed.
    ghost failed_writes: { Self → ℕ };

    /// Puts bytes of a file, from the byte `at` on (the first is 0), at the start of `buf`, which is
    /// not empty, and gives their number: at most the length of `buf`, and 0 exactly where `at` is
    /// at or past the end of the file. Fewer may come than there are.
    ///
    /// # Errors
    ///
    /// `Failed` where the read failed or there is no such file. No file changes.
    fn read_at(&mut self, name: &str, at: u64, buf: &mut [u8]) -> Result<usize, Failed>
        requires { 0 < length buf.old }
        ensures within { IfOk result (λ n. n ≤ length buf.new) }
        ensures piece { IfOk result (λ n. (bytes : List ℕ) → file_of (held self.old) name.now ≡ Some bytes → IsPiece bytes at buf.new n) }
        ensures found { OnOk result (IsSome (held self.old) → IsSome (file_of (held self.old) name.now)) }
        ensures held { held self.new ≡ held self.old }
        ensures reads { Counts (failed_reads self.old) (failed_reads self.new) result (Lacks (held self.old) name.now) }
        ensures writes { failed_writes self.new ≡ failed_writes self.old };

    /// Gives the name a file with no bytes, in place of the one that it may have.
    ///
    /// # Errors
    ///
    /// `Failed` where the create failed. The file is as it was, or holds no bytes.
    fn create(&mut self, name: &str) -> Result<(), Failed>
        ensures ok { OnOk result (held self.new ≡ with_file (held self.old) name.now []) }
        ensures err { OnErr result (held self.new ≡ held self.old ⊎ (held self.new ≡ with_file (held self.old) name.now [])) }
        ensures writes { Counts (failed_writes self.old) (failed_writes self.new) result ⊥ }
        ensures reads { failed_reads self.new ≡ failed_reads self.old };

    /// Puts bytes at the end of a file.
    ///
    /// # Errors
    ///
    /// `Failed` where the append failed or there is no such file. The first of the bytes, none of
    /// them or all may stand at the end of the file.
    fn append(&mut self, name: &str, bytes: &[u8]) -> Result<(), Failed>
        ensures ok { OnOk result (held self.new ≡ with_more (held self.old) name.now bytes.now) }
        ensures found { OnOk result (IsSome (held self.old) → IsSome (file_of (held self.old) name.now)) }
        ensures err { OnErr result ((kept : ℕ) × (held self.new ≡ with_more (held self.old) name.now (take kept bytes.now))) }
        ensures writes { Counts (failed_writes self.old) (failed_writes self.new) result (Lacks (held self.old) name.now) }
        ensures reads { failed_reads self.new ≡ failed_reads self.old };
}
