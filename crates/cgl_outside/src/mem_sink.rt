//! An output in memory, with the faults that a test lists.
ghost use Rattle.std.specs.Prelude.{◌≡◌, ◌+◌, ◌⊎◌, ℕ, [], take, OnOk, OnErr, IsNone, Some};
ghost use Rattle.cgl_outside.specs.MemSink.{next_put, put_keep, with_call, with_fault_refused, KeepsFront};
ghost use Rattle.cgl_outside.specs.Shelf.{Counts, risen};
ghost use Rattle.cgl_outside.specs.Sink.{with_put};

use crate::fail::kept;
use crate::{Failed, Sink};
use std::alloc::Global;
use std::marker::Model;

/// An output in memory, and the faults that are listed for it. A growth that is refused is a fault
/// of its call.
#[derive(Drop)]
pub struct MemSink {
    bytes: Vec<u8>,
    fails: Vec<(u64, u64)>,
    puts: u64,
    faults: u64,
    refused: u64,
}

impl Model for MemSink {
    ghost use Rattle.cgl_outside.specs.MemSink.{MemBytes, mem_bytes_code};

    ghost Value = { MemBytes };

    ghost coded = { mem_bytes_code };

    ghost view = { λ a. record { bytes = a.bytes.items; fails = a.fails.items; puts = a.puts; faults = a.faults; refused = a.refused } };
}

/// Counts a put. Where it is listed, gives how many bytes the first pair for it keeps.
fn begin(fails: &[(u64, u64)], puts: &mut u64) -> Option<u64>
    ensures listed { result ≡ put_keep fails.now (puts.old + 1) }
    ensures call { puts.new ≡ risen puts.old }
{
    let earlier = *puts;
    *puts = puts.saturating_add(1);
    for &(nth, keep) in fails {
        if nth > 0 && nth - 1 == earlier {
            return Some(keep);
        }
    }
    None
}

impl MemSink {
    /// An output with no bytes. A pair (nth, keep) makes the nth put fail, counted from 1, and keep
    /// the first `keep` of its bytes, or all of them where there are fewer. Of several pairs for one
    /// put the first counts.
    pub fn new(alloc: Global, fails: Vec<(u64, u64)>) -> MemSink
        ensures { result ≡ record { bytes = []; fails = fails.items; puts = 0; faults = 0; refused = 0 } }
    {
        MemSink {
            bytes: Vec::new(alloc),
            fails,
            puts: 0,
            faults: 0,
            refused: 0,
        }
    }

    /// The bytes that it got, in order.
    pub fn bytes(&self) -> &[u8]
        ensures { result.now ≡ self.now.bytes }
    {
        &self.bytes
    }

    /// How often memory was refused to a put.
    pub fn refused(&self) -> u64
        ensures { result ≡ self.now.refused }
    {
        self.refused
    }
}

impl Sink for MemSink {
    ghost use Rattle.std.specs.Prelude.{Some};

    ghost written = { λ s. Some s.bytes };

    ghost faults = { λ s. s.faults };

    #[tactic(auto, using(crate::proofs::SinkLaws::put_none), unfolding(crate::specs::Sink::with_put))]
    fn put(&mut self, bytes: &[u8]) -> Result<(), Failed>
        ensures ok { OnOk result (Some self.new.bytes ≡ with_put (Some self.old.bytes) bytes.now) }
        ensures err { OnErr result ((kept : ℕ) × (Some self.new.bytes ≡ with_put (Some self.old.bytes) (take kept bytes.now))) }
        ensures faults { Counts self.old.faults self.new.faults result ⊥ }
        ensures unlisted { OnOk result (IsNone (next_put self.old)) }
        ensures rest { OnOk result (self.new ≡ record (with_call self.old) { bytes = self.new.bytes }) }
        ensures fault { OnErr result ((self.new ≡ with_fault_refused (with_call self.old)) ⊎ KeepsFront self.old self.new bytes.now) }
    {
        let fault = begin(&self.fails, &mut self.puts);
        let Ok(()) = self.bytes.extend_from_slice(kept(bytes, fault)) else {
            self.faults = self.faults.saturating_add(1);
            self.refused = self.refused.saturating_add(1);
            return Err(Failed);
        };
        if fault.is_some() {
            self.faults = self.faults.saturating_add(1);
            return Err(Failed);
        }
        Ok(())
    }
}
