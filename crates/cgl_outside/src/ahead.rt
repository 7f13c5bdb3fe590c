//! The bytes of a file from a place on, read in pieces.
ghost use Rattle.std.specs.Prelude.{◌≡◌, ◌+◌, ◌≤◌, ◌<◌, ◌^◌, [], Ok, true, false, length, drop, IfErr, IfOk, IsSome, OnOk};
ghost use Rattle.cgl_outside.specs.Shelf.{file_of, Counts, Lacks};
ghost use Rattle.cgl_outside.specs.Front.{fresh, Follows, IsPast};

use crate::{Failed, Shelf};
use cgl_num::Memory;
use std::alloc::{AllocError, Global};
use std::marker::Model;

/// The bytes of one read at most.
const PIECE: usize = 65536;

/// A file of which some bytes were handed out and some are read ahead.
#[derive(Drop)]
pub(crate) struct Ahead {
    name: String,
    buf: Vec<u8>,
    from: usize,
    to: usize,
    done: u64,
    ended: bool,
}

impl Model for Ahead {
    ghost use Rattle.std.specs.Prelude.{◌≤◌, ◌<◌, length, take, drop};
    ghost use Rattle.std.specs.String.{string_bytes};
    ghost use Rattle.cgl_outside.specs.Front.{Front};

    ghost Value = { Front };

    ghost view = { λ it. record { name = string_bytes it.name; done = it.done; ahead = drop it.from (take it.to it.buf.items); ended = it.ended } };

    ghost invariant = { λ it. (it.from ≤ it.to) × (it.to ≤ length it.buf.items) × (0 < length it.buf.items) };
}

/// A buffer for one piece.
fn piece_buffer(alloc: Global) -> Result<Vec<u8>, AllocError>
    ensures { IfOk result (λ buf. 0 < length buf.items) }
{
    vec![in alloc; 0u8; PIECE]
}

impl Ahead {
    /// Stands before the first byte of a file.
    pub(crate) fn start(alloc: Global, name: &str) -> Result<Ahead, Memory>
        ensures { IfOk result (λ it. it ≡ fresh name.now) }
    {
        let Ok(buf) = piece_buffer(alloc) else {
            return Err(Memory);
        };
        let Ok(name) = String::from_str(alloc, name) else {
            return Err(Memory);
        };
        Ok(Ahead {
            name,
            buf,
            from: 0,
            to: 0,
            done: 0,
            ended: false,
        })
    }

    /// Reads a piece where none is read ahead and no read has met the end. Then there are bytes, or
    /// the end was met.
    pub(crate) fn fill<S: Shelf>(&mut self, shelf: &mut S) -> Result<(), Failed>
        requires { Follows (S.held shelf.old) self.old }
        ensures follows { OnOk result (Follows (S.held shelf.old) self.new) }
        ensures some { OnOk result (self.new.ahead ≡ [] → self.new.ended ≡ true) }
        ensures past { IsPast self.old → (result ≡ Ok tt) × (self.new ≡ self.old) }
        ensures found { OnOk result (self.old.ahead ≡ [] → self.old.ended ≡ false → IsSome (S.held shelf.old) → IsSome (file_of (S.held shelf.old) self.old.name)) }
        ensures name { self.new.name ≡ self.old.name }
        ensures done { self.new.done ≡ self.old.done }
        ensures reads { Counts (S.failed_reads shelf.old) (S.failed_reads shelf.new) result (Lacks (S.held shelf.old) self.old.name) }
        ensures held { S.held shelf.new ≡ S.held shelf.old }
        ensures writes { S.failed_writes shelf.new ≡ S.failed_writes shelf.old }
    {
        if self.ended {
            return Ok(());
        }
        if self.from < self.to {
            return Ok(());
        }
        let Ok(count) = shelf.read_at(self.name.as_str(), self.done, self.buf.as_mut_slice()) else {
            return Err(Failed);
        };
        self.from = 0;
        self.to = count;
        self.ended = count == 0;
        Ok(())
    }

    /// The bytes that are read ahead.
    pub(crate) fn bytes(&self) -> &[u8]
        ensures { result.now ≡ self.now.ahead }
    {
        &self.buf[self.from..self.to]
    }

    /// The count of the bytes that were handed out.
    pub(crate) fn done(&self) -> u64
        ensures { result ≡ self.now.done }
    {
        self.done
    }

    /// Hands out n of the bytes that are read ahead.
    pub(crate) fn pass(&mut self, n: usize)
        requires within { n ≤ length self.old.ahead }
        requires small { self.old.done + n < 2 ^ 64 }
        ensures { self.new ≡ record self.old { done = self.old.done + n; ahead = drop n self.old.ahead } }
    {
        self.from += n;
        self.done += n as u64;
    }
}
