//! An output in memory, with no faults of its own.
ghost use Rattle.std.specs.Prelude.{◌≡◌, ℕ, [], take, OnOk, OnErr, Some};
ghost use Rattle.cgl_outside.specs.Shelf.{Counts, risen};
ghost use Rattle.cgl_outside.specs.Sink.{with_put};

use crate::{Failed, Sink};
use std::alloc::Global;
use std::marker::Model;

/// An output in memory. A put fails only where memory is refused, and then puts nothing.
#[derive(Drop)]
pub struct SureSink {
    bytes: Vec<u8>,
    refused: u64,
}

impl Model for SureSink {
    ghost use Rattle.cgl_outside.specs.SureSink.{SureBytes, sure_bytes_code};

    ghost Value = { SureBytes };

    ghost coded = { sure_bytes_code };

    ghost view = { λ a. record { bytes = a.bytes.items; refused = a.refused } };
}

impl SureSink {
    /// An output with no bytes.
    pub fn new(alloc: Global) -> SureSink
        ensures { result ≡ record { bytes = []; refused = 0 } }
    {
        SureSink {
            bytes: Vec::new(alloc),
            refused: 0,
        }
    }

    /// The bytes that it got, in order.
    pub fn bytes(&self) -> &[u8]
        ensures { result.now ≡ self.now.bytes }
    {
        &self.bytes
    }

    /// How often memory was refused to a put.
    pub fn refused(&self) -> u64
        ensures { result ≡ self.now.refused }
    {
        self.refused
    }
}

impl Sink for SureSink {
    ghost use Rattle.std.specs.Prelude.{Some};

    ghost written = { λ s. Some s.bytes };

    ghost faults = { λ s. s.refused };

    #[tactic(auto, using(crate::proofs::SinkLaws::put_none), unfolding(crate::specs::Sink::with_put))]
    fn put(&mut self, bytes: &[u8]) -> Result<(), Failed>
        ensures ok { OnOk result (Some self.new.bytes ≡ with_put (Some self.old.bytes) bytes.now) }
        ensures err { OnErr result ((kept : ℕ) × (Some self.new.bytes ≡ with_put (Some self.old.bytes) (take kept bytes.now))) }
        ensures refused { OnErr result (self.new ≡ record self.old { refused = risen self.old.refused }) }
        ensures faults { Counts self.old.refused self.new.refused result ⊥ }
    {
        let Ok(()) = self.bytes.extend_from_slice(bytes) else {
            self.refused = self.refused.saturating_add(1);
            return Err(Failed);
        };
        Ok(())
    }
}
