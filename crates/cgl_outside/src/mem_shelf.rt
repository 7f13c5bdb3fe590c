//! Files in memory, with the faults that a test lists.
ghost use Rattle.std.specs.Prelude.{◌≡◌, ◌≤◌, ◌<◌, ◌⊎◌, List, ℕ, [], length, take, OnOk, OnErr, IfOk, IsSome, IsNone, Some};
ghost use Rattle.std.specs.Option.{option_copied};
ghost use Rattle.std.specs.FinMap as map;
ghost use Rattle.cgl_outside.specs.MemShelf.{next_read, next_create, next_append, with_read, with_create, with_append, with_read_fault, with_write_fault, with_write_refused, KeepsFront};
ghost use Rattle.cgl_outside.specs.Shelf.{IsPiece, IsLongestPiece, Lacks, Counts, file_of, with_file, with_more};

use crate::fail::{begin, kept};
use crate::store::{copy_piece, extend, look_up, put};
use crate::{Call, Fail, Failed, Shelf};
use cgl_num::Memory;
use std::alloc::Global;
use std::collections::BTreeMap;
use std::marker::Model;

/// Files in memory, and the faults that are listed for them. A growth that is refused is a fault of
/// its call.
///
/// A call that the list makes fail raises its count by one, but for a read or an append of a file
/// that is not there. A read or a create that fails changes no file. A read gives as many bytes as
/// the buffer and the rest of the file allow.
#[derive(Drop)]
pub struct MemShelf {
    alloc: Global,
    files: BTreeMap<String, Vec<u8>>,
    fails: Vec<Fail>,
    reads: u64,
    creates: u64,
    appends: u64,
    failed_reads: u64,
    failed_writes: u64,
    refused: u64,
}

impl Model for MemShelf {
    ghost use Rattle.cgl_outside.specs.Files.{files_of};
    ghost use Rattle.cgl_outside.specs.MemShelf.{MemFiles, mem_files_code};

    ghost Value = { MemFiles };

    ghost coded = { mem_files_code };

    ghost view = { λ a. record {
      files = files_of a.files;
      fails = a.fails.items;
      reads = a.reads;
      creates = a.creates;
      appends = a.appends;
      failed_reads = a.failed_reads;
      failed_writes = a.failed_writes;
      refused = a.refused;
    } };
}

impl MemShelf {
    /// A shelf with no files, whose calls fail where an entry lists them. Of several entries for one
    /// call the first counts.
    #[tactic(auto, using(crate::proofs::FilesRules::no_files))]
    pub fn new(alloc: Global, fails: Vec<Fail>) -> MemShelf
        ensures { result ≡ record {
          files = map.empty;
          fails = fails.items;
          reads = 0;
          creates = 0;
          appends = 0;
          failed_reads = 0;
          failed_writes = 0;
          refused = 0;
        } }
    {
        MemShelf {
            alloc,
            files: BTreeMap::new(alloc),
            fails,
            reads: 0,
            creates: 0,
            appends: 0,
            failed_reads: 0,
            failed_writes: 0,
            refused: 0,
        }
    }

    /// Gives the name these bytes. It counts as no call.
    ///
    /// # Errors
    ///
    /// `Memory` where memory for the file is refused. Nothing changes.
    pub fn put_file(&mut self, name: &str, bytes: &[u8]) -> Result<(), Memory>
        ensures ok { OnOk result (self.new ≡ record self.old { files = map.insert self.old.files name.now bytes.now }) }
        ensures err { OnErr result (self.new ≡ self.old) }
    {
        put(self.alloc, &mut self.files, name, bytes)
    }

    /// The bytes under a name. None where there is no such file.
    pub fn file(&self, name: &str) -> Option<&[u8]>
        ensures { option_copied result ≡ map.get self.now.files name.now }
    {
        look_up(&self.files, name)
    }

    /// How often memory was refused to a call.
    pub fn refused(&self) -> u64
        ensures { result ≡ self.now.refused }
    {
        self.refused
    }
}

impl Shelf for MemShelf {
    ghost use Rattle.std.specs.Prelude.{Some};

    ghost held = { λ s. Some s.files };

    ghost failed_reads = { λ s. s.failed_reads };

    ghost failed_writes = { λ s. s.failed_writes };

    fn read_at(&mut self, name: &str, at: u64, buf: &mut [u8]) -> Result<usize, Failed>
        requires { 0 < length buf.old }
        ensures within { IfOk result (λ n. n ≤ length buf.new) }
        ensures piece { IfOk result (λ n. (bytes : List ℕ) → file_of (Some self.old.files) name.now ≡ Some bytes → IsPiece bytes at buf.new n) }
        ensures longest { IfOk result (λ n. (bytes : List ℕ) → file_of (Some self.old.files) name.now ≡ Some bytes → IsLongestPiece bytes at buf.old buf.new n) }
        ensures untouched { OnErr result (buf.new ≡ buf.old) }
        ensures found { OnOk result (IsSome (Some self.old.files) → IsSome (file_of (Some self.old.files) name.now)) }
        ensures held { Some self.new.files ≡ Some self.old.files }
        ensures reads { Counts self.old.failed_reads self.new.failed_reads result (Lacks (Some self.old.files) name.now) }
        ensures writes { self.new.failed_writes ≡ self.old.failed_writes }
        ensures ok { OnOk result (IsNone (next_read self.old) × (self.new ≡ with_read self.old)) }
        ensures lacking { Lacks (Some self.old.files) name.now → self.new ≡ with_read self.old }
        ensures listed { OnErr result (IsSome (file_of (Some self.old.files) name.now)
            → IsSome (next_read self.old) × (self.new ≡ with_read_fault (with_read self.old))) }
    {
        let fault = begin(&self.fails, Call::Read, &mut self.reads);
        let Some(file) = look_up(&self.files, name) else {
            return Err(Failed);
        };
        if fault.is_some() {
            self.failed_reads = self.failed_reads.saturating_add(1);
            return Err(Failed);
        }
        Ok(copy_piece(file, at, buf))
    }

    fn create(&mut self, name: &str) -> Result<(), Failed>
        ensures ok { OnOk result (Some self.new.files ≡ with_file (Some self.old.files) name.now []) }
        ensures err { OnErr result (Some self.new.files ≡ Some self.old.files ⊎ (Some self.new.files ≡ with_file (Some self.old.files) name.now [])) }
        ensures writes { Counts self.old.failed_writes self.new.failed_writes result ⊥ }
        ensures reads { self.new.failed_reads ≡ self.old.failed_reads }
        ensures unlisted { OnOk result (IsNone (next_create self.old)) }
        ensures rest { OnOk result (self.new ≡ record (with_create self.old) { files = self.new.files }) }
        ensures listed { IsSome (next_create self.old) → self.new ≡ with_write_fault (with_create self.old) }
        ensures refused { OnErr result (IsNone (next_create self.old) → self.new ≡ with_write_refused (with_create self.old)) }
    {
        if begin(&self.fails, Call::Create, &mut self.creates).is_some() {
            self.failed_writes = self.failed_writes.saturating_add(1);
            return Err(Failed);
        }
        match put(self.alloc, &mut self.files, name, &[]) {
            Ok(()) => Ok(()),
            Err(_) => {
                self.failed_writes = self.failed_writes.saturating_add(1);
                self.refused = self.refused.saturating_add(1);
                Err(Failed)
            }
        }
    }

    fn append(&mut self, name: &str, bytes: &[u8]) -> Result<(), Failed>
        ensures ok { OnOk result (Some self.new.files ≡ with_more (Some self.old.files) name.now bytes.now) }
        ensures found { OnOk result (IsSome (Some self.old.files) → IsSome (file_of (Some self.old.files) name.now)) }
        ensures err { OnErr result ((kept : ℕ) × (Some self.new.files ≡ with_more (Some self.old.files) name.now (take kept bytes.now))) }
        ensures writes { Counts self.old.failed_writes self.new.failed_writes result (Lacks (Some self.old.files) name.now) }
        ensures reads { self.new.failed_reads ≡ self.old.failed_reads }
        ensures unlisted { OnOk result (IsNone (next_append self.old)) }
        ensures rest { OnOk result (self.new ≡ record (with_append self.old) { files = self.new.files }) }
        ensures lacking { Lacks (Some self.old.files) name.now → self.new ≡ with_append self.old }
        ensures fault { OnErr result (IsSome (file_of (Some self.old.files) name.now)
            → (self.new ≡ with_write_refused (with_append self.old)) ⊎ KeepsFront self.old self.new name.now bytes.now) }
    {
        let fault = begin(&self.fails, Call::Append, &mut self.appends);
        match extend(&mut self.files, name, kept(bytes, fault)) {
            Ok(true) if fault.is_none() => Ok(()),
            Ok(true) => {
                self.failed_writes = self.failed_writes.saturating_add(1);
                Err(Failed)
            }
            Ok(false) => Err(Failed),
            Err(_) => {
                self.failed_writes = self.failed_writes.saturating_add(1);
                self.refused = self.refused.saturating_add(1);
                Err(Failed)
            }
        }
    }
}
