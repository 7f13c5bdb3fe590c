//! Files in memory, with no faults of its own.
ghost use Rattle.std.specs.Prelude.{◌≡◌, ◌≤◌, ◌<◌, ◌⊎◌, List, ℕ, [], length, take, OnOk, OnErr, IfOk, IsSome, Some};
ghost use Rattle.std.specs.Option.{option_copied};
ghost use Rattle.std.specs.FinMap as map;
ghost use Rattle.cgl_outside.specs.Shelf.{IsPiece, IsLongestPiece, Lacks, Counts, file_of, with_file, with_more};
ghost use Rattle.cgl_outside.specs.SureShelf.{with_refusal};

use crate::store::{copy_piece, extend, look_up, put};
use crate::{Failed, Shelf};
use cgl_num::Memory;
use std::alloc::Global;
use std::collections::BTreeMap;
use std::marker::Model;

/// Files in memory. A read fails only where there is no such file, a create only where memory is
/// refused, and an append only for either cause. A read gives as many bytes as the buffer and the
/// rest of the file allow.
#[derive(Drop)]
pub struct SureShelf {
    alloc: Global,
    files: BTreeMap<String, Vec<u8>>,
    refused: u64,
}

impl Model for SureShelf {
    ghost use Rattle.cgl_outside.specs.Files.{files_of};
    ghost use Rattle.cgl_outside.specs.SureShelf.{SureFiles, sure_files_code};

    ghost Value = { SureFiles };

    ghost coded = { sure_files_code };

    ghost view = { λ a. record { files = files_of a.files; refused = a.refused } };
}

impl SureShelf {
    /// A shelf with no files.
    #[tactic(auto, using(crate::proofs::FilesRules::no_files))]
    pub fn new(alloc: Global) -> SureShelf
        ensures { result ≡ record { files = map.empty; refused = 0 } }
    {
        SureShelf {
            alloc,
            files: BTreeMap::new(alloc),
            refused: 0,
        }
    }

    /// Gives the name these bytes. It counts as no call.
    ///
    /// # Errors
    ///
    /// `Memory` where memory for the file is refused. Nothing changes.
    pub fn put_file(&mut self, name: &str, bytes: &[u8]) -> Result<(), Memory>
        ensures ok { OnOk result (self.new ≡ record self.old { files = map.insert self.old.files name.now bytes.now }) }
        ensures err { OnErr result (self.new ≡ self.old) }
    {
        put(self.alloc, &mut self.files, name, bytes)
    }

    /// The bytes under a name. None where there is no such file.
    pub fn file(&self, name: &str) -> Option<&[u8]>
        ensures { option_copied result ≡ map.get self.now.files name.now }
    {
        look_up(&self.files, name)
    }

    /// How often memory was refused to a call.
    pub fn refused(&self) -> u64
        ensures { result ≡ self.now.refused }
    {
        self.refused
    }
}

impl Shelf for SureShelf {
    ghost use Rattle.std.specs.Prelude.{Some};

    ghost held = { λ s. Some s.files };

    ghost failed_reads = { λ s. 0 };

    ghost failed_writes = { λ s. s.refused };

    fn read_at(&mut self, name: &str, at: u64, buf: &mut [u8]) -> Result<usize, Failed>
        requires { 0 < length buf.old }
        ensures within { IfOk result (λ n. n ≤ length buf.new) }
        ensures piece { IfOk result (λ n. (bytes : List ℕ) → file_of (Some self.old.files) name.now ≡ Some bytes → IsPiece bytes at buf.new n) }
        ensures longest { IfOk result (λ n. (bytes : List ℕ) → file_of (Some self.old.files) name.now ≡ Some bytes → IsLongestPiece bytes at buf.old buf.new n) }
        ensures untouched { OnErr result (buf.new ≡ buf.old) }
        ensures found { OnOk result (IsSome (Some self.old.files) → IsSome (file_of (Some self.old.files) name.now)) }
        ensures lacking { OnErr result (Lacks (Some self.old.files) name.now) }
        ensures same { self.new ≡ self.old }
        ensures held { Some self.new.files ≡ Some self.old.files }
        ensures reads { Counts 0 0 result (Lacks (Some self.old.files) name.now) }
        ensures writes { self.new.refused ≡ self.old.refused }
    {
        let Some(file) = self.file(name) else {
            return Err(Failed);
        };
        Ok(copy_piece(file, at, buf))
    }

    fn create(&mut self, name: &str) -> Result<(), Failed>
        ensures ok { OnOk result (Some self.new.files ≡ with_file (Some self.old.files) name.now []) }
        ensures err { OnErr result (Some self.new.files ≡ Some self.old.files ⊎ (Some self.new.files ≡ with_file (Some self.old.files) name.now [])) }
        ensures refused { OnErr result (self.new ≡ with_refusal self.old) }
        ensures writes { Counts self.old.refused self.new.refused result ⊥ }
    {
        match self.put_file(name, &[]) {
            Ok(()) => Ok(()),
            Err(_) => {
                self.refused = self.refused.saturating_add(1);
                Err(Failed)
            }
        }
    }

    fn append(&mut self, name: &str, bytes: &[u8]) -> Result<(), Failed>
        ensures ok { OnOk result (Some self.new.files ≡ with_more (Some self.old.files) name.now bytes.now) }
        ensures found { OnOk result (IsSome (Some self.old.files) → IsSome (file_of (Some self.old.files) name.now)) }
        ensures err { OnErr result ((kept : ℕ) × (Some self.new.files ≡ with_more (Some self.old.files) name.now (take kept bytes.now))) }
        ensures lacking { Lacks (Some self.old.files) name.now → self.new ≡ self.old }
        ensures refused { OnErr result (IsSome (file_of (Some self.old.files) name.now) → self.new ≡ with_refusal self.old) }
        ensures writes { Counts self.old.refused self.new.refused result (Lacks (Some self.old.files) name.now) }
    {
        match extend(&mut self.files, name, bytes) {
            Ok(true) => Ok(()),
            Ok(false) => Err(Failed),
            Err(_) => {
                self.refused = self.refused.saturating_add(1);
                Err(Failed)
            }
        }
    }
}
